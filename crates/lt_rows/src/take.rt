//! What a try to take a row found.

/// What a try to take a row found.
#[derive(Clone, Copy, Debug, PartialEq, Eq)]
pub enum Take {
    /// The row was free, and the pass holds it now.
    Taken,
    /// The pass of this number holds it.
    HeldBy(u32),
}
