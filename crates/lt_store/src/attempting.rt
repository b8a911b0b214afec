//! A step that needs a lock.
ghost use Rattle.std.specs.Prelude.{◌≡◌, ◌≤◌, ◌<◌, ◌+◌, ◌^◌, IfOk, OnOk};
ghost use Rattle.lt_seq.specs.Yard.{origin_of};
ghost use Rattle.lt_store.specs.Attempts.{setting_of, has_room};
ghost use Rattle.lt_store.specs.Locks.{IsTable};
ghost use Rattle.lt_store.specs.Store.{IsStore};
ghost use Rattle.lt_store.specs.Stepping.{view_of};
ghost use Rattle.lt_store.specs.Steps.{Attempts};

use crate::answer::Answer;
use crate::book::Book;
use crate::giving_up::give_up;
use crate::locks::{Asked, ask};
use crate::op::Op;
use lt_seq::{Pass, Yard};
use std::alloc::AllocError;

/// A transaction asks for the keys of an operation: it does the operation, or others hold one of them, or there is no lock left, so that it
/// is undone and gone.
pub(crate) fn act<Y: Yard>(
    yard: &Y,
    pass: &mut Y::Pass,
    book: &mut Book,
    txn: u64,
    op: &Op,
    _steps: u64,
) -> Result<Answer, AllocError>
    requires of { Y.Pass.origin pass.old ≡ origin_of (Y.identity yard.now) (Y.setting yard.now) }
    requires setting { Y.setting yard.now ≡ setting_of (Y.setting yard.now).plan.limit }
    requires table { IsTable (Y.setting yard.now).plan.limit (Y.Pass.view pass.old) }
    requires store { IsStore (Y.setting yard.now).plan.limit (Y.Pass.view pass.old).front book.old _steps }
    requires txn { 1 ≤ txn }
    requires few { _steps < 2 ^ 32 }
    ensures of { Y.Pass.origin pass.new ≡ origin_of (Y.identity yard.now) (Y.setting yard.now) }
    ensures table { OnOk result (IsTable (Y.setting yard.now).plan.limit (Y.Pass.view pass.new)) }
    ensures store { OnOk result (IsStore (Y.setting yard.now).plan.limit (Y.Pass.view pass.new).front book.new (_steps + 1)) }
    ensures steps { IfOk result (λ answer. Attempts (has_room (Y.setting yard.now).plan.limit txn (Y.Pass.view pass.old).front)
        (view_of (Y.setting yard.now).plan.limit (Y.Pass.view pass.old).front book.old _steps)
        (view_of (Y.setting yard.now).plan.limit (Y.Pass.view pass.new).front book.new (_steps + 1)) txn op.now answer) }
{
    let place = book.begin(txn)?;
    let range = op.range();
    match ask(yard, pass, txn, &range)? {
        Asked::Granted => {
            let answer = book.perform(place, op)?;
            Ok(answer)
        }
        Asked::Held(owners) => Ok(Answer::Held(owners)),
        Asked::OutOfLocks { place: at, used } => {
            give_up(yard, pass, book, txn, place)?;
            book.add_gone(txn)?;
            Ok(Answer::OutOfLocks { place: at, used })
        }
    }
}
