//! What is asked of a tree.

use lt_ranges::KeyRange;

/// What is asked of a tree, and by whom.
#[derive(Clone, Copy)]
pub struct Asking {
    /// The number of the pass that makes the event.
    pub pass: u32,
    /// The transaction for which it is made, from 1.
    pub txn: u64,
    pub tree: u32,
    pub range: KeyRange,
}
