//! Who tells watches.
ghost use Rattle.std.specs.Prelude.{◌≡◌, List, map};
ghost use Rattle.std.specs.List.{count_by};
ghost use Rattle.lt_watch.specs.Tellings.{Log, log_of, after_note, after_notes, is_full, boxes_of};

use crate::watchers::Watchers;
use lt_seq::JoinNote;

/// One that tells watches. Who plays a trace is generic over it, and so need not know how the watches are kept.
pub trait Tells {
    /// What each watch was told, and how many items it may be told.
    ghost logs: { Self → List Log };

    /// Tells each watch the note, once. It answers for how many the note did not fit.
    fn tell(&mut self, note: &JoinNote) -> u64
        ensures logs { logs self.new ≡ map (after_note note.now) (logs self.old) }
        ensures full { result ≡ count_by (is_full note.now) (logs self.old) };
}

impl Tells for Watchers {
    ghost logs = { λ watchers. map (λ w. log_of ((Watch-box w).capacity w.value) ((Watch-box w).told w.value)) (boxes_of watchers) };

    fn tell(&mut self, note: &JoinNote) -> u64 {
        self.tell_all(note)
    }
}

/// Tells each watch the notes, each once and the first one first.
pub fn tell_notes<T: Tells>(watch: &mut T, notes: &[JoinNote])
    ensures { T.logs watch.new ≡ map (after_notes notes.now) (T.logs watch.old) }
{
    for note in notes {
        let _ = watch.tell(note);
    }
}
