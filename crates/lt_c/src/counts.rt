//! What a handle counts.
ghost use Rattle.std.specs.Prelude.{◌≡◌};
ghost use Rattle.lt_c.specs.Told.{counted};

use crate::answer::{BUFFERED, BUSY, HELD, LtAnswer};

/// What came of the calls of a handle.
#[repr(C)]
#[derive(Clone, Copy, Debug)]
pub struct LtCounts {
    /// Asks that were granted or buffered.
    pub granted: u64,
    /// Asks that others stood against.
    pub held: u64,
    /// Calls that met a row of another handle.
    pub busy: u64,
    /// Trees that were joined.
    pub joins: u64,
}

impl LtCounts {
    /// Nothing yet.
    pub(crate) fn none() -> LtCounts
        ensures { result ≡ record { granted = 0; held = 0; busy = 0; joins = 0 } }
    {
        LtCounts {
            granted: 0,
            held: 0,
            busy: 0,
            joins: 0,
        }
    }

    /// With one answer more. A count that can rise no more stays.
    pub(crate) fn with(&self, answer: &LtAnswer) -> LtCounts
        ensures { result ≡ counted self.now answer.now }
    {
        LtCounts {
            granted: self
                .granted
                .saturating_add(u64::from(answer.status <= BUFFERED)),
            held: self.held.saturating_add(u64::from(answer.status == HELD)),
            busy: self.busy.saturating_add(u64::from(answer.status == BUSY)),
            joins: self.joins.saturating_add(u64::from(answer.joins)),
        }
    }
}
