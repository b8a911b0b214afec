//! A transaction whose puts do not stay.
ghost use Rattle.std.specs.Prelude.{◌≡◌, ◌≤◌, ◌<◌, ◌+◌, ◌^◌, length, slice_index_or, true, OnOk};
ghost use Rattle.std.specs.List.{remove};
ghost use Rattle.lt_seq.specs.Yard.{origin_of};
ghost use Rattle.lt_store.specs.Attempts.{setting_of, all_freed};
ghost use Rattle.lt_store.specs.Locks.{IsTable};
ghost use Rattle.lt_store.specs.Undoing.{unwound, CanUnwind};
ghost use Rattle.lt_store.specs.Book.{Acts};

use crate::book::Book;
use crate::locks::free_all;
use lt_seq::{Pass, Yard};
use std::alloc::AllocError;

/// A live transaction releases its locks, its puts are undone, and it is none any more.
pub(crate) fn give_up<Y: Yard>(
    yard: &Y,
    pass: &mut Y::Pass,
    book: &mut Book,
    txn: u64,
    place: usize,
) -> Result<(), AllocError>
    requires of { Y.Pass.origin pass.old ≡ origin_of (Y.identity yard.now) (Y.setting yard.now) }
    requires setting { Y.setting yard.now ≡ setting_of (Y.setting yard.now).plan.limit }
    requires table { IsTable (Y.setting yard.now).plan.limit (Y.Pass.view pass.old) }
    requires place { place < length book.old.live }
    requires undo { (d : Acts) → CanUnwind book.old.rows (slice_index_or book.old.live place d).undo }
    requires txn { 1 ≤ txn }
    requires room { (d : Acts) → length (Y.Pass.view pass.old).front + length (slice_index_or book.old.live place d).done ≤ 2 ^ 38 }
    ensures of { Y.Pass.origin pass.new ≡ origin_of (Y.identity yard.now) (Y.setting yard.now) }
    ensures table { OnOk result (IsTable (Y.setting yard.now).plan.limit (Y.Pass.view pass.new)) }
    ensures freed { OnOk result ((d : Acts) → (Y.Pass.view pass.new).front
        ≡ all_freed (Y.setting yard.now).plan.limit txn true (slice_index_or book.old.live place d).done (Y.Pass.view pass.old).front) }
    ensures book { OnOk result ((d : Acts) → book.new ≡ record book.old {
      rows = unwound book.old.rows (slice_index_or book.old.live place d).undo;
      live = remove book.old.live place;
    }) }
{
    free_all(yard, pass, txn, book.done(place))?;
    let _open = book.undo(place);
    Ok(())
}
