//! A watch that keeps what it is told in a list.
ghost use Rattle.std.specs.Prelude.{◌≡◌, ◌≤◌, ◌+◌, ◌++◌, [], length, IfOk, vec_len, vec_capacity};
ghost use Rattle.lt_watch.specs.Tellings.{items_of, log_of};

use crate::told::Told;
use crate::watch::{Watch, WatchFull};
use lt_seq::JoinNote;
use std::alloc::{AllocError as OutOfMemory, Global};
use std::marker::Model;

/// Keeps what it is told in a list, up to a number of items.
#[derive(Debug, Drop)]
pub struct ListWatch {
    items: Vec<Told>,
    capacity: usize,
    ghost room: { capacity ≤ vec_capacity items },
    ghost within: { vec_len items ≤ capacity },
}

impl Model for ListWatch {
    ghost use Rattle.lt_watch.specs.Tellings.{Log, log_of};

    ghost Value = { Log };

    ghost view = { λ w. log_of w.capacity w.items.items };
}

impl ListWatch {
    /// A watch that may be told so many items, and was told none. It takes its memory at once, and none later.
    pub fn new(alloc: Global, capacity: usize) -> Result<ListWatch, OutOfMemory>
        ensures { IfOk result (λ w. w ≡ log_of capacity []) }
    {
        let items = Vec::with_capacity(alloc, capacity)?;
        Ok(ListWatch { items, capacity })
    }

    /// The items that it was told, the first one first.
    pub fn told(&self) -> &[Told]
        ensures { result.now ≡ self.now.told }
    {
        &self.items
    }
}

impl Watch for ListWatch {
    ghost told = { λ w. w.told };

    ghost capacity = { λ w. w.capacity };

    fn escalated(&mut self, note: &JoinNote) -> Result<(), WatchFull> {
        let room = self.capacity - self.items.len();
        if note.pairs.as_slice().len() >= room {
            return Err(WatchFull);
        }
        put_items(&mut self.items, note);
        Ok(())
    }

    fn joins(&self) -> u64 {
        let mut joins = 0;
        for item in &self.items {
            match item {
                Told::Join { .. } => joins += 1,
                Told::Pair { .. } => {}
            }
        }
        joins
    }
}

/// Adds the items of a note, for which there is room.
fn put_items(items: &mut Vec<Told>, note: &JoinNote)
    requires { vec_len items.old + length (items_of note.now) ≤ vec_capacity items.old }
    ensures items { items.new.items ≡ items.old.items ++ items_of note.now }
    ensures room { vec_capacity items.old ≤ vec_capacity items.new }
{
    let join = Told::Join {
        place: note.place,
        tree: note.tree,
        before: note.before,
        after: note.after,
    };
    items.push(join).unwrap();
    for held in note.pairs.as_slice() {
        items.push(Told::Pair { held: *held }).unwrap();
    }
}
