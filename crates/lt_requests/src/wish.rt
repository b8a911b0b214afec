//! What a waiting transaction asks for.

use lt_ranges::KeyRange;

/// What a waiting transaction asks for: a range in a tree.
#[derive(Clone, Copy, Debug, PartialEq, Eq, Hash)]
pub struct Wish {
    /// The transaction, at least 1.
    pub txn: u64,
    pub tree: u32,
    pub range: KeyRange,
}
