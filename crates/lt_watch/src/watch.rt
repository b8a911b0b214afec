//! Those who are told of joins.
ghost use Rattle.std.specs.Prelude.{◌≡◌, ℕ, ◌+◌, ◌<◌, ◌↔◌, List, length, IsErr};
ghost use Rattle.std.specs.List.{count_by};
ghost use Rattle.lt_watch.specs.declared.told.Told.{Told};
ghost use Rattle.lt_watch.specs.Tellings.{items_of, is_join, log_of, after_note};

use lt_seq::JoinNote;
use thiserror::Error;

/// The items of a note do not fit.
#[derive(Clone, Copy, Debug, PartialEq, Eq, Hash, Error)]
#[error("the watch is full")]
pub struct WatchFull;

/// One that is told of joins. It keeps what it was told, up to a number of items.
pub trait Watch: Drop {
    /// The items that it was told, the first one first.
    ghost told: { Self → List Told };

    /// How many items it may be told in all.
    ghost capacity: { Self → ℕ };

    /// Tells it a note: all of the note's items, or none where they do not fit.
    fn escalated(&mut self, note: &JoinNote) -> Result<(), WatchFull>
        ensures told { log_of (capacity self.new) (told self.new) ≡ after_note note.now (log_of (capacity self.old) (told self.old)) }
        ensures full { IsErr result ↔ (capacity self.old < length (told self.old) + length (items_of note.now)) };

    /// How many joins it was told of.
    fn joins(&self) -> u64
        ensures { result ≡ count_by is_join (told self.now) };
}
