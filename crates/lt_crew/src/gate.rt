//! What is called round each line.

/// What is called round each line of a transaction that a worker plays: with the transaction and the line's number in the
/// trace, which is 0 for an end without a line.
pub trait Gate: Sync {
    /// The line is played next.
    fn before(&self, txn: u64, line: u32);

    /// It was played: it is done, or its transaction waits there, or its call was refused.
    fn after(&self, txn: u64, line: u32);
}

/// A gate that lets all pass.
#[derive(Clone, Copy, Debug, Drop)]
pub struct OpenGate;

impl Gate for OpenGate {
    fn before(&self, _txn: u64, _line: u32) {}

    fn after(&self, _txn: u64, _line: u32) {}
}
