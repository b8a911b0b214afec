//! The graph of those that wait.
ghost use Rattle.std.specs.Prelude.{◌≡◌, ◌++◌, List, [], ◌∷◌, is_ok, if◌then◌else◌, IfOk, MatchOption};
ghost use Rattle.lt_waits.specs.Walks.{HasNoClosedWalk, IsLeastWalk};

use crate::search::least_cycle;
use crate::wait::Wait;
use std::alloc::{AllocError as OutOfMemory, Global};
use std::marker::Model;

/// Edges between transactions, in the order in which they were added. An edge may be added twice.
#[derive(Debug, Drop)]
pub struct WaitGraph {
    alloc: Global,
    waits: Vec<Wait>,
}

impl Model for WaitGraph {
    ghost use Rattle.std.specs.Prelude.{List};
    ghost use Rattle.lt_waits.specs.declared.wait.Wait.{Wait};

    ghost Value = { List Wait };

    ghost view = { λ g. g.waits.items };
}

impl WaitGraph {
    /// A graph with no edge. Takes no memory.
    pub fn new(alloc: Global) -> WaitGraph
        ensures { result ≡ [] }
    {
        WaitGraph {
            alloc,
            waits: Vec::new(alloc),
        }
    }

    /// Adds an edge, in constant time on average. Want of memory leaves the graph as it was.
    pub fn add_edge(&mut self, waiter: u64, holder: u64) -> Result<(), OutOfMemory>
        ensures { self.new ≡ (if is_ok result then self.old ++ record { waiter = waiter; holder = holder } ∷ [] else self.old) }
    {
        self.waits.push(Wait { waiter, holder })?;
        Ok(())
    }

    /// The closed walk from the transaction back to it, both named, with the fewest edges, and of those with as few the
    /// one whose list of numbers is the least. None where no closed walk goes through the transaction. The time is in
    /// the order of the edges times a logarithm.
    pub fn cycle_from(&self, txn: u64) -> Result<Option<Vec<u64>>, OutOfMemory>
        ensures { IfOk result (λ found. MatchOption found (HasNoClosedWalk self.now txn) (λ walk. IsLeastWalk self.now txn walk.items)) }
    {
        least_cycle(self.alloc, &self.waits, txn)
    }
}
