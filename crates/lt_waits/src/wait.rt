//! One edge of a graph of those that wait.

/// A transaction waits for what another one holds.
#[derive(Clone, Copy, Debug, PartialEq, Eq, Hash)]
pub struct Wait {
    /// The one that waits.
    pub waiter: u64,
    /// The one that it waits for.
    pub holder: u64,
}
