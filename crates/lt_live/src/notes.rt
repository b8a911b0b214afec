//! The notes of all joins of a run.
ghost use Rattle.std.specs.Prelude.{◌≡◌, IfOk, OnOk};
ghost use Rattle.std.specs.List.{All, flat_map};
ghost use Rattle.std.specs.List.Sorted.{IsNonDecreasingBy, IsPermutation};
ghost use Rattle.lt_seq.specs.Yard.{origin_of};
ghost use Rattle.lt_live.specs.Ends.{IsEmptied};
ghost use Rattle.lt_live.specs.Workers.{EachPair};

use lt_seq::{JoinNote, Pass, Yard};
use std::alloc::{AllocError, Global};

/// The notes of all passes, by place. Behind it they have none.
pub(crate) fn take_all_notes<Y: Yard>(
    alloc: Global,
    yard: &Y,
    passes: &mut [Y::Pass],
) -> Result<Vec<JoinNote>, AllocError>
    requires of { All (λ p. Y.Pass.origin p ≡ origin_of (Y.identity yard.now) (Y.setting yard.now)) passes.old }
    ensures passes { OnOk result (EachPair (IsEmptied Y.Pass.origin Y.Pass.view (origin_of (Y.identity yard.now) (Y.setting yard.now)))
        passes.old passes.new) }
    ensures all { IfOk result (λ notes. IsPermutation (flat_map (λ p. (Y.Pass.view p).notes) passes.old) notes.items) }
    ensures order { IfOk result (λ notes. IsNonDecreasingBy (λ note. note.place) notes.items) }
{
    let mut notes = Vec::new(alloc);
    for pass in passes.iter_mut() {
        let mut own = yard.take_notes(pass);
        notes.append(&mut own)?;
    }
    notes.sort_by_key(|note| note.place)?;
    Ok(notes)
}
