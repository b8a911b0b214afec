//! A barrier that keeps its marks in a list.
ghost use Rattle.std.specs.Prelude.{◌≡◌, []};

use crate::barrier::Barrier;
use lt_ranges::Key;
use std::alloc::{AllocError, Global};
use std::marker::Model;

/// Keeps its marks in a list, and looks at each where it is asked.
#[derive(Debug, Drop)]
pub struct MarkBarrier {
    alloc: Global,
    list: Vec<Key>,
}

impl Model for MarkBarrier {
    ghost use Rattle.std.specs.Prelude.{List};
    ghost use Rattle.lt_ranges.specs.declared.key.Key.{Key};

    ghost Value = { List Key };

    ghost view = { λ b. b.list.items };
}

impl MarkBarrier {
    /// A barrier without marks, which keeps nothing apart. It takes no memory.
    pub fn new(alloc: Global) -> MarkBarrier
        ensures { result ≡ [] }
    {
        MarkBarrier {
            alloc,
            list: Vec::new(alloc),
        }
    }
}

impl Barrier for MarkBarrier {
    ghost marks = { λ b. b };

    fn cuts(&self, left: &Key, right: &Key) -> bool {
        self.list
            .iter()
            .any(|mark| !mark.is_at_most(left) && mark.is_at_most(right))
    }

    fn add(&mut self, mark: &Key) -> Result<(), AllocError> {
        self.list.push(*mark)?;
        Ok(())
    }

    fn list(&self) -> Result<Vec<Key>, AllocError> {
        Vec::from_slice(self.alloc, &self.list)
    }
}
