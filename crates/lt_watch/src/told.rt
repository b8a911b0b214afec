//! What a watch is told.

use lt_seq::Held;

/// One item that a watch is told. A note has one of its join, and then one of each pair.
#[derive(Clone, Copy, Debug, PartialEq, Eq, Hash)]
pub enum Told {
    /// A tree was joined.
    Join {
        /// The place of the join.
        place: u64,
        tree: u32,
        /// The number of ranges in the tree before and after.
        before: u64,
        after: u64,
    },
    /// A range that the tree has after the join.
    Pair {
        held: Held,
    },
}
