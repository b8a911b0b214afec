//! The passes of a table, parted for a crew and put together again.
ghost use Rattle.std.specs.Prelude.{◌≡◌, ◌∷◌, map, IfOk, OnOk};
ghost use Rattle.std.specs.List.{All, flat_map};
ghost use Rattle.std.specs.List.Sorted.{IsNonDecreasingBy, IsPermutation};
ghost use Rattle.lt_seq.specs.Yard.{origin_of};
ghost use Rattle.lt_crew.specs.Passes.{ArePassesOf, IsEmptied};
ghost use Rattle.lt_crew.specs.Workers.{EachPair};

use crate::worker::Worker;
use lt_seq::{JoinNote, Pass, Yard};
use std::alloc::{AllocError, Global};

/// A worker for each of these passes.
pub(crate) fn idle_workers<P: Drop>(
    alloc: Global,
    passes: Vec<P>,
) -> Result<Vec<Worker<P>>, AllocError>
    ensures { IfOk result (λ workers. ArePassesOf passes.items workers.items) }
{
    let mut workers = Vec::new(alloc);
    for pass in passes {
        workers.push(Worker {
            pass,
            seat: None,
            short: false,
        })?;
    }
    Ok(workers)
}

/// The first pass, and those of the workers behind it.
pub(crate) fn all_passes<P: Drop>(
    alloc: Global,
    me: P,
    workers: Vec<Worker<P>>,
) -> Result<Vec<P>, AllocError>
    ensures { IfOk result (λ passes. passes.items ≡ me ∷ map (λ w. w.pass) workers.items) }
{
    let mut passes = Vec::new(alloc);
    passes.push(me)?;
    for worker in workers {
        let Worker { pass, .. } = worker;
        passes.push(pass)?;
    }
    Ok(passes)
}

/// The notes of all passes, by place. Behind it they have none.
pub(crate) fn take_all_notes<Y: Yard>(
    alloc: Global,
    yard: &Y,
    passes: &mut [Y::Pass],
) -> Result<Vec<JoinNote>, AllocError>
    requires of { All (λ p. Y.Pass.origin p ≡ origin_of (Y.identity yard.now) (Y.setting yard.now)) passes.old }
    ensures passes { OnOk result (EachPair (IsEmptied Y.Pass.origin Y.Pass.view (origin_of (Y.identity yard.now) (Y.setting yard.now)))
        passes.old passes.new) }
    ensures all { IfOk result (λ notes. IsPermutation (flat_map (λ p. (Y.Pass.view p).notes) passes.old) notes.items) }
    ensures order { IfOk result (λ notes. IsNonDecreasingBy (λ note. note.place) notes.items) }
{
    let mut notes = Vec::new(alloc);
    for pass in passes.iter_mut() {
        let mut own = yard.take_notes(pass);
        notes.append(&mut own)?;
    }
    notes.sort_by_key(|note| note.place)?;
    Ok(notes)
}
