//! What the deeds of a `Locktree` answer.
use lt_seq::{Owners, Reply};

/// What an ask came to: its event's place, and the reply twice, since after the event there may be no memory for a copy.
#[derive(Debug, Drop)]
pub struct Asked {
    pub place: u64,
    pub reply: Reply,
    /// The same reply.
    pub copy: Reply,
}

/// Whose ranges stand in the way: the event's place, and the owners twice, for the same reason.
#[derive(Debug, Drop)]
pub struct Named {
    pub place: u64,
    /// Ascending, each once. There may be none.
    pub owners: Owners,
    /// The same owners.
    pub copy: Owners,
}
