//! What comes of asking for what is waited for.

use crate::cycle::Cycle;
use lt_seq::Owners;

/// What an ask came to, of a transaction that waits where it is refused.
#[derive(Debug, Drop)]
pub enum Started {
    /// It holds the range now; `buffered` in a buffer of its own. It does not wait.
    Granted {
        /// The place of the ask.
        place: u64,
        buffered: bool,
    },
    /// It waits for these owners.
    Waits {
        owners: Owners,
    },
    /// It would wait for itself: the edges of the ask and its search have this closed walk through it. It does not wait.
    Deadlock(Cycle),
}
