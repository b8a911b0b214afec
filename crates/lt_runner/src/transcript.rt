//! What a run leaves.

use lt_history::Ended;
use lt_seq::Receipt;

/// A whole run: what happened, and how each transaction ended.
#[derive(Debug, Drop)]
pub struct Transcript {
    /// All events, by place.
    pub receipts: Vec<Receipt>,
    /// One for each transaction, in ascending order.
    pub outcomes: Vec<Ended>,
    /// The number of events.
    pub places: u64,
    /// The rows in use after them.
    pub used: u64,
}
