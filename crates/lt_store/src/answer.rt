//! What an operation answers.
use crate::row_list::RowList;
use lt_seq::Owners;

/// The answer to an operation.
#[derive(Debug, Drop)]
pub enum Answer {
    /// The value of the key, or none.
    Value(Option<u64>),
    /// The key has the value now.
    Stored,
    /// The rows of the range, ascending by key.
    Rows(RowList),
    /// The transaction has ended, and its puts stay.
    Committed,
    /// The transaction has ended, and its puts are undone.
    Aborted,
    /// These transactions hold a key of the range. The operation was not done.
    Held(Owners),
    /// There was no lock left for the operation, with so many in use at that place of the history. The transaction's puts
    /// are undone, and it is gone.
    OutOfLocks { place: u64, used: u64 },
    /// The transaction was out of locks before.
    Gone,
}
