//! The steps of a transaction over a table.
ghost use Rattle.std.specs.Prelude.{◌≡◌, ◌≤◌, ◌<◌, ◌+◌, ◌^◌, IfOk, OnOk};
ghost use Rattle.lt_seq.specs.Yard.{origin_of};
ghost use Rattle.lt_store.specs.Attempts.{setting_of};
ghost use Rattle.lt_store.specs.Locks.{IsTable};
ghost use Rattle.lt_store.specs.Store.{IsStore};
ghost use Rattle.lt_store.specs.Stepping.{view_of};
ghost use Rattle.lt_store.specs.Steps.{Commits, Aborts, Steps};

use crate::answer::Answer;
use crate::attempting::act;
use crate::book::Book;
use crate::giving_up::give_up;
use crate::locks::free_all;
use crate::op::{Move, Op};
use lt_seq::{Pass, Yard};
use std::alloc::AllocError;

/// A transaction commits: it releases its locks, and its puts stay.
pub(crate) fn commit<Y: Yard>(
    yard: &Y,
    pass: &mut Y::Pass,
    book: &mut Book,
    txn: u64,
    _steps: u64,
) -> Result<Answer, AllocError>
    requires of { Y.Pass.origin pass.old ≡ origin_of (Y.identity yard.now) (Y.setting yard.now) }
    requires setting { Y.setting yard.now ≡ setting_of (Y.setting yard.now).plan.limit }
    requires table { IsTable (Y.setting yard.now).plan.limit (Y.Pass.view pass.old) }
    requires store { IsStore (Y.setting yard.now).plan.limit (Y.Pass.view pass.old).front book.old _steps }
    requires txn { 1 ≤ txn }
    requires few { _steps < 2 ^ 32 }
    ensures of { Y.Pass.origin pass.new ≡ origin_of (Y.identity yard.now) (Y.setting yard.now) }
    ensures table { OnOk result (IsTable (Y.setting yard.now).plan.limit (Y.Pass.view pass.new)) }
    ensures store { OnOk result (IsStore (Y.setting yard.now).plan.limit (Y.Pass.view pass.new).front book.new (_steps + 1)) }
    ensures steps { IfOk result (λ answer. Commits
        (view_of (Y.setting yard.now).plan.limit (Y.Pass.view pass.old).front book.old _steps)
        (view_of (Y.setting yard.now).plan.limit (Y.Pass.view pass.new).front book.new (_steps + 1)) txn answer) }
{
    let place = book.begin(txn)?;
    free_all(yard, pass, txn, book.done(place))?;
    book.commit(place)?;
    book.add_ended(txn)?;
    Ok(Answer::Committed)
}

/// A transaction aborts: its puts are undone, and it releases its locks.
pub(crate) fn abort<Y: Yard>(
    yard: &Y,
    pass: &mut Y::Pass,
    book: &mut Book,
    txn: u64,
    _steps: u64,
) -> Result<Answer, AllocError>
    requires of { Y.Pass.origin pass.old ≡ origin_of (Y.identity yard.now) (Y.setting yard.now) }
    requires setting { Y.setting yard.now ≡ setting_of (Y.setting yard.now).plan.limit }
    requires table { IsTable (Y.setting yard.now).plan.limit (Y.Pass.view pass.old) }
    requires store { IsStore (Y.setting yard.now).plan.limit (Y.Pass.view pass.old).front book.old _steps }
    requires txn { 1 ≤ txn }
    requires few { _steps < 2 ^ 32 }
    ensures of { Y.Pass.origin pass.new ≡ origin_of (Y.identity yard.now) (Y.setting yard.now) }
    ensures table { OnOk result (IsTable (Y.setting yard.now).plan.limit (Y.Pass.view pass.new)) }
    ensures store { OnOk result (IsStore (Y.setting yard.now).plan.limit (Y.Pass.view pass.new).front book.new (_steps + 1)) }
    ensures steps { IfOk result (λ answer. Aborts
        (view_of (Y.setting yard.now).plan.limit (Y.Pass.view pass.old).front book.old _steps)
        (view_of (Y.setting yard.now).plan.limit (Y.Pass.view pass.new).front book.new (_steps + 1)) txn answer) }
{
    let place = book.begin(txn)?;
    give_up(yard, pass, book, txn, place)?;
    book.add_ended(txn)?;
    Ok(Answer::Aborted)
}

/// A step of a transaction. One that is gone makes none.
pub(crate) fn step<Y: Yard>(
    yard: &Y,
    pass: &mut Y::Pass,
    book: &mut Book,
    order: &Move,
    _steps: u64,
) -> Result<Answer, AllocError>
    requires of { Y.Pass.origin pass.old ≡ origin_of (Y.identity yard.now) (Y.setting yard.now) }
    requires setting { Y.setting yard.now ≡ setting_of (Y.setting yard.now).plan.limit }
    requires table { IsTable (Y.setting yard.now).plan.limit (Y.Pass.view pass.old) }
    requires store { IsStore (Y.setting yard.now).plan.limit (Y.Pass.view pass.old).front book.old _steps }
    requires txn { 1 ≤ order.now.txn }
    requires few { _steps < 2 ^ 32 }
    ensures of { Y.Pass.origin pass.new ≡ origin_of (Y.identity yard.now) (Y.setting yard.now) }
    ensures table { OnOk result (IsTable (Y.setting yard.now).plan.limit (Y.Pass.view pass.new)) }
    ensures store { OnOk result (IsStore (Y.setting yard.now).plan.limit (Y.Pass.view pass.new).front book.new (_steps + 1)) }
    ensures steps { IfOk result (λ answer. Steps
        (view_of (Y.setting yard.now).plan.limit (Y.Pass.view pass.old).front book.old _steps)
        (view_of (Y.setting yard.now).plan.limit (Y.Pass.view pass.new).front book.new (_steps + 1)) order.now.txn order.now.op answer) }
{
    if book.is_gone(order.txn) {
        return Ok(Answer::Gone);
    }
    match order.op {
        Op::Commit => commit(yard, pass, book, order.txn, _steps),
        Op::Abort => abort(yard, pass, book, order.txn, _steps),
        Op::Get { .. } | Op::Put { .. } | Op::Scan { .. } => act(
            yard, pass, book, order.txn, &order.op, _steps,
        ),
    }
}
