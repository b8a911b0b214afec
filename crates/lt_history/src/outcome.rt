//! How transactions end.

use lt_requests::Cycle;

/// How a transaction ended.
#[derive(Debug, Drop)]
pub enum Outcome {
    /// By an `end` line, or behind its last line.
    Done,
    /// By an `abort` line.
    Aborted,
    /// It waited for itself: the closed walk of waits through it.
    Deadlock(Cycle),
    /// An ask found no row left below the limit: the place and the used rows of the look that showed it.
    OutOfLocks { place: u64, used: u64 },
}

/// A transaction with its outcome.
#[derive(Debug, Drop)]
pub struct Ended {
    pub txn: u64,
    pub outcome: Outcome,
}
