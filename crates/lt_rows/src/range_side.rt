//! On which side of an asked range a row's range lies.

/// On which side of an asked range another range lies.
#[derive(Clone, Copy, Debug, PartialEq, Eq)]
pub enum RangeSide {
    /// All of it lies before all of the asked range.
    Before,
    /// It overlaps the asked range.
    Meets,
    /// All of it lies behind all of the asked range.
    Behind,
}
