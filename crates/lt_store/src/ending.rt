//! The end of the live transactions.
ghost use Rattle.std.specs.Prelude.{◌≡◌, ◌≢◌, ◌<◌, ◌^◌, [], drop, OnOk};
ghost use Rattle.lt_seq.specs.Yard.{origin_of};
ghost use Rattle.lt_store.specs.Rerun.{rerun};
ghost use Rattle.lt_store.specs.Standing.{IsStanding};

use crate::book::Book;
use crate::locks::free_all;
use lt_seq::{Pass, Yard};
use std::alloc::AllocError;

/// Aborts the first of the live transactions.
fn end_first<Y: Yard>(
    yard: &Y,
    pass: &mut Y::Pass,
    book: &mut Book,
    _steps: u64,
) -> Result<(), AllocError>
    requires standing { IsStanding (Y.Pass.origin pass.old) (origin_of (Y.identity yard.now) (Y.setting yard.now))
        (Y.setting yard.now) (Y.Pass.view pass.old) book.old _steps }
    requires few { _steps < 2 ^ 32 }
    requires live { book.old.live ≢ [] }
    ensures standing { OnOk result (IsStanding (Y.Pass.origin pass.new) (origin_of (Y.identity yard.now) (Y.setting yard.now))
        (Y.setting yard.now) (Y.Pass.view pass.new) book.new _steps) }
    ensures live { OnOk result (book.new.live ≡ drop 1 book.old.live) }
    ensures commits { OnOk result (book.new.commits ≡ book.old.commits) }
{
    let open = book.undo(0);
    free_all(yard, pass, open.txn(), open.done())?;
    Ok(())
}

/// Aborts the live transactions, ascending.
pub(crate) fn end_all<Y: Yard>(
    yard: &Y,
    pass: &mut Y::Pass,
    book: &mut Book,
    _steps: u64,
) -> Result<(), AllocError>
    requires standing { IsStanding (Y.Pass.origin pass.old) (origin_of (Y.identity yard.now) (Y.setting yard.now))
        (Y.setting yard.now) (Y.Pass.view pass.old) book.old _steps }
    requires few { _steps < 2 ^ 32 }
    ensures rows { OnOk result (book.new.rows ≡ rerun book.old.commits) }
    ensures commits { OnOk result (book.new.commits ≡ book.old.commits) }
{
    while !book.live.is_empty() {
        end_first(yard, pass, book, _steps)?;
    }
    Ok(())
}
