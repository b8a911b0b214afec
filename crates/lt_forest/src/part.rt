//! Parts of a search tree.

use lt_ranges::KeyRange;

/// A row of a part, with the range that it holds.
#[derive(Clone, Copy, Debug, PartialEq, Eq)]
pub struct PartRow {
    /// The row's number in its table.
    pub row: u32,
    /// The transaction that owns the range.
    pub owner: u64,
    pub range: KeyRange,
}

/// Rows of a search tree in key order, with what hangs before, between and behind them.
#[derive(Debug, Drop)]
pub struct Part {
    /// The rows, by ascending ranges.
    pub rows: Vec<PartRow>,
    /// Links, one more than rows: 0 where nothing hangs, and else the number of a subtree's top row plus 1.
    pub hangs: Vec<u32>,
}

/// A row with the links that it is to hold: 0 for none, and else a row's number plus 1.
#[derive(Clone, Copy, Debug, PartialEq, Eq)]
pub struct Placed {
    /// The row's number in its table.
    pub row: u32,
    /// The link to the subtree before it.
    pub left: u32,
    /// The link to the subtree behind it.
    pub right: u32,
}

/// The sides of a row to which a search for a range goes.
#[derive(Clone, Copy, Debug, PartialEq, Eq)]
pub struct Visit {
    /// It goes to the subtree before the row.
    pub left: bool,
    /// It goes to the subtree behind the row.
    pub right: bool,
}
