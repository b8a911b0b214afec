//! What is left of a map.
use crate::row_list::RowList;

/// What is left of a map that was finished.
#[derive(Debug, Drop)]
pub struct Finished {
    /// The rows, ascending by key.
    pub rows: RowList,
    /// How many transactions have committed.
    pub commits: u64,
}
