//! Nobody who is told.
ghost use Rattle.std.specs.Prelude.{[]};

use crate::tells::Tells;
use lt_seq::JoinNote;

/// No watch at all, for a run that nobody watches.
#[derive(Clone, Copy, Debug, PartialEq, Eq, Hash)]
pub struct NoWatches;

impl Tells for NoWatches {
    ghost logs = { λ _. [] };

    fn tell(&mut self, _note: &JoinNote) -> u64 {
        0
    }
}
