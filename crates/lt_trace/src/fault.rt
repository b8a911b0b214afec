//! Why bytes are no trace.

use std::alloc::AllocError;
use thiserror::Error;

/// Why bytes are no trace: the number of the first faulty line, and what is wrong with it.
///
/// The faults of a line are looked for in this order: too many lines, line too long, no final newline,
/// then bad header or bad line, and of a body line that has one of the forms tree out of range, key too
/// long, backwards, after end and too many txns.
#[derive(Clone, Copy, Debug, PartialEq, Eq, Hash, Error)]
pub enum TraceFault {
    /// One of the first four lines isn't its word and a number in its range, or is missing.
    #[error("line {line}: bad header")]
    BadHeader { line: u32 },
    /// A body line has none of the forms of its version.
    #[error("line {line}: bad line")]
    BadLine { line: u32 },
    /// A line has more than 600 bytes, without its newline.
    #[error("line {line}: line too long")]
    LineTooLong { line: u32 },
    /// The line's number is above 65,540.
    #[error("line {line}: too many lines")]
    TooManyLines { line: u32 },
    /// A line names a tree that the header's number of trees leaves out.
    #[error("line {line}: tree out of range")]
    TreeOutOfRange { line: u32 },
    /// A key of a line has more than 63 bytes.
    #[error("line {line}: key too long")]
    KeyTooLong { line: u32 },
    /// The left key of a line's range is greater than its right one.
    #[error("line {line}: backwards")]
    Backwards { line: u32 },
    /// The line's transaction had its last line before.
    #[error("line {line}: after end")]
    AfterEnd { line: u32 },
    /// A line begins one more transaction, behind 1,024 of them.
    #[error("line {line}: too many txns")]
    TooManyTxns { line: u32 },
    /// The last line has no newline.
    #[error("line {line}: no final newline")]
    NoFinalNewline { line: u32 },
    /// Memory ran out while the trace was read.
    #[error("out of memory")]
    OutOfMemory,
}

impl From<AllocError> for TraceFault {
    ghost use Rattle.std.specs.Prelude.{◌≡◌};
    ghost use Rattle.lt_trace.specs.declared.fault.TraceFault.TheVariants.{OutOfMemory};

    ghost from_gives = { λ _ fault. fault ≡ OutOfMemory };

    fn from(_error: AllocError) -> TraceFault {
        TraceFault::OutOfMemory
    }
}
