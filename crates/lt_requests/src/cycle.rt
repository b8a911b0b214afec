//! Who waits for whom.
ghost use Rattle.std.specs.Prelude.{◌≡◌};

use std::marker::Model;

/// The event at this place named the holder to the waiter.
#[derive(Clone, Copy, Debug, PartialEq, Eq, Hash)]
pub struct Edge {
    /// The transaction that waits.
    pub waiter: u64,
    /// A transaction that holds what it waits for.
    pub holder: u64,
    /// The place of the event that said so.
    pub place: u64,
}

/// Edges in the order of a walk. Whoever makes it sees that it is closed: that each begins where the one before it ends, and
/// the last ends where the first begins.
#[derive(Debug, Drop)]
pub struct Cycle {
    edges: Vec<Edge>,
}

impl Model for Cycle {
    ghost use Rattle.std.specs.Prelude.{List};
    ghost use Rattle.lt_requests.specs.declared.cycle.Edge.{Edge};

    ghost Value = { List Edge };

    ghost view = { λ a. a.edges.items };
}

impl Cycle {
    /// The walk of these edges. Takes no memory.
    pub fn of(edges: Vec<Edge>) -> Cycle
        ensures { result ≡ edges.items }
    {
        Cycle { edges }
    }

    /// The edges, in the order of the walk.
    pub fn as_slice(&self) -> &[Edge]
        ensures { result.now ≡ self.now }
    {
        &self.edges
    }
}
