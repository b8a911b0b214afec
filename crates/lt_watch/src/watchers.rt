//! A list of watches.
ghost use Rattle.std.specs.Prelude.{◌≡◌, ◌≤◌, ◌==◌, ◌↔◌, ◌∷◌, ◌++◌, [], length, map, nat_lt};
ghost use Rattle.std.specs.Prelude.{slice_get, OnOk, OnErr, IfErr, IsNone, IfSome, is_some, if◌then◌else◌};
ghost use Rattle.std.specs.List.{count_by, remove};
ghost use Rattle.lt_watch.specs.Tellings.{log_of, after_note, is_full, boxes_of};

use crate::watch::Watch;
use lt_seq::JoinNote;
use std::alloc::Global;

/// Boxed watches that the caller made, in the order in which they were added.
#[derive(Drop)]
pub struct Watchers {
    list: Vec<Box<dyn Watch>>,
}

/// There was no memory to add a watch. The box comes back.
#[derive(Drop)]
pub struct NotAdded {
    pub watch: Box<dyn Watch>,
}

impl Watchers {
    /// A list with no watch. Takes no memory.
    pub fn new(alloc: Global) -> Watchers
        ensures { boxes_of result ≡ [] }
    {
        Watchers {
            list: Vec::new(alloc),
        }
    }

    /// Adds a watch behind the others. Want of memory leaves the list as it was, and hands the box back.
    pub fn add(&mut self, watch: Box<dyn Watch>) -> Result<(), NotAdded>
        ensures added { OnOk result ((boxes_of self.new) ≡ (boxes_of self.old) ++ watch ∷ []) }
        ensures left { OnErr result ((boxes_of self.new) ≡ (boxes_of self.old)) }
        ensures back { IfErr result (λ refused. refused.watch ≡ watch) }
    {
        match self.list.push(watch) {
            Ok(()) => Ok(()),
            Err(refused) => Err(NotAdded {
                watch: refused.value,
            }),
        }
    }

    /// How many watches there are.
    pub fn len(&self) -> usize
        ensures { result ≡ length (boxes_of self.now) }
    {
        self.list.len()
    }

    /// Whether there is no watch.
    pub fn is_empty(&self) -> bool
        ensures { result ≡ (length (boxes_of self.now) == 0) }
    {
        self.list.is_empty()
    }

    /// Tells each watch the note, once. It answers for how many the note did not fit.
    pub fn tell_all(&mut self, note: &JoinNote) -> u64
        ensures told { map (λ w. log_of (capacity w) (told w)) (boxes_of self.new)
            ≡ map (after_note note.now) (map (λ w. log_of (capacity w) (told w)) (boxes_of self.old)) }
        ensures full { result ≡ count_by (is_full note.now) (map (λ w. log_of (capacity w) (told w)) (boxes_of self.old)) }
    {
        let mut full = 0;
        for watch in self.list.iter_mut() {
            if tell_one(watch, note) {
                full += 1;
            }
        }
        full
    }

    /// Takes a watch out of the list, and the later ones close up. None where there are not so many.
    pub fn take_back(&mut self, i: usize) -> Option<Box<dyn Watch>>
        ensures none { IsNone result ↔ (length (boxes_of self.old) ≤ i) }
        ensures some { IfSome result (λ watch. slice_get (boxes_of self.old) i ≡ Some watch) }
        ensures left { (boxes_of self.new) ≡ (if is_some result then remove (boxes_of self.old) i else (boxes_of self.old)) }
    {
        if i >= self.list.len() {
            return None;
        }
        Some(self.list.remove(i))
    }

    /// Takes a watch out of the list and drops it. False where there are not so many.
    pub fn drop_one(&mut self, i: usize) -> bool
        ensures found { result ≡ nat_lt i (length (boxes_of self.old)) }
        ensures left { (boxes_of self.new) ≡ (if result then remove (boxes_of self.old) i else (boxes_of self.old)) }
    {
        self.take_back(i).is_some()
    }
}

/// Tells one watch the note. It answers whether the note did not fit.
fn tell_one(watch: &mut Box<dyn Watch>, note: &JoinNote) -> bool
    ensures told { log_of (capacity watch.new) (told watch.new) ≡ after_note note.now (log_of (capacity watch.old) (told watch.old)) }
    ensures full { result ≡ is_full note.now (log_of (capacity watch.old) (told watch.old)) }
{
    watch.escalated(note).is_err()
}
