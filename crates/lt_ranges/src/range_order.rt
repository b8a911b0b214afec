//! How two ranges stand to each other.

/// How one range stands to another.
#[derive(Clone, Copy, Debug, PartialEq, Eq, Hash)]
pub enum RangeOrder {
    /// They are the same range.
    Equal,
    /// All of the first lies before all of the second.
    Less,
    /// All of the first lies behind all of the second.
    Greater,
    /// They overlap and aren't the same range.
    Overlaps,
}
