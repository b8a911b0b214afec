//! The words of one row.

/// The words 1 to 21 of a row, as they were loaded from it or are to be stored to it.
///
/// Word `j` of the row stands at `j - 1`: the owner at 0, the left key at 1 to 8, the right key at 9 to 16, the left and the
/// right link at 17 and 18. A link is 0 for none, and else a row's number plus 1. At 19 and 20 an anchor has its tree's score
/// and the length of its buffer, any other row two estimates of depth, which nothing is claimed of.
#[derive(Clone, Copy)]
pub struct RowImage {
    /// The row's number in its table.
    pub row: u32,
    pub words: [u64; 21],
}
