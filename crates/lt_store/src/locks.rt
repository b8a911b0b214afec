//! The transactions' locks: one tree of a table, with one pass that has all the rights.
ghost use Rattle.std.specs.Prelude.{◌≡◌, ◌≤◌, ◌<◌, ◌+◌, ◌^◌, length, true, IfOk, OnOk};
ghost use Rattle.lt_seq.specs.Yard.{origin_of};
ghost use Rattle.lt_store.specs.Attempts.{setting_of, with_deed, all_freed};
ghost use Rattle.lt_store.specs.Locks.{IsTable, HasAsked, IsAskDeed, IsReplied};
ghost use Rattle.lt_seq.specs.declared.event.Deed.TheVariants.{Free};

use crate::done::Done;
use lt_ranges::KeyRange;
use lt_seq::{Deed, Fault, Owners, Pass, Receipt, Reply, Yard};
use std::alloc::AllocError;

/// What came of asking for a range.
#[derive(Debug, Drop)]
pub(crate) enum Asked {
    /// The transaction holds it.
    Granted,
    /// These transactions hold a key of it.
    Held(Owners),
    /// There was no lock left.
    OutOfLocks { place: u64, used: u64 },
}

/// What an ask was replied.
fn reply_of(receipt: Receipt) -> Asked
    requires { IsAskDeed receipt.event.deed }
    ensures { IsReplied receipt.event.deed result }
{
    match receipt.event.deed {
        Deed::Ask { reply, .. } => match reply {
            Reply::Granted | Reply::Buffered => Asked::Granted,
            Reply::HeldBy(owners) => Asked::Held(owners),
        },
        Deed::Free { .. } | Deed::Who { .. } | Deed::Join { .. } => unreachable!(),
    }
}

/// Asks for a range, where there are places for a join and an event: the only error is want of memory.
pub(crate) fn ask<Y: Yard>(
    yard: &Y,
    pass: &mut Y::Pass,
    txn: u64,
    range: &KeyRange,
) -> Result<Asked, AllocError>
    requires of { Y.Pass.origin pass.old ≡ origin_of (Y.identity yard.now) (Y.setting yard.now) }
    requires setting { Y.setting yard.now ≡ setting_of (Y.setting yard.now).plan.limit }
    requires table { IsTable (Y.setting yard.now).plan.limit (Y.Pass.view pass.old) }
    requires txn { 1 ≤ txn }
    requires room { length (Y.Pass.view pass.old).front + 2 ≤ 2 ^ 38 }
    ensures of { Y.Pass.origin pass.new ≡ origin_of (Y.identity yard.now) (Y.setting yard.now) }
    ensures table { OnOk result (IsTable (Y.setting yard.now).plan.limit (Y.Pass.view pass.new)) }
    ensures asked { IfOk result (λ asked. HasAsked (Y.setting yard.now).plan.limit txn range.now
        (Y.Pass.view pass.old).front (Y.Pass.view pass.new).front asked) }
{
    match yard.ask(pass, txn, 0, range, false) {
        Ok(receipt) => Ok(reply_of(receipt)),
        Err(Fault::OutOfLocks { place, used }) => Ok(Asked::OutOfLocks { place, used }),
        Err(Fault::OutOfMemory) => Err(AllocError),
        Err(Fault::Busy { .. }) => unreachable!(),
        Err(Fault::HistoryFull { .. }) => unreachable!(),
    }
}

/// Frees a range, where there is a place for the event: the only error is want of memory.
fn free<Y: Yard>(
    yard: &Y,
    pass: &mut Y::Pass,
    txn: u64,
    range: &KeyRange,
    first: bool,
) -> Result<(), AllocError>
    requires of { Y.Pass.origin pass.old ≡ origin_of (Y.identity yard.now) (Y.setting yard.now) }
    requires setting { Y.setting yard.now ≡ setting_of (Y.setting yard.now).plan.limit }
    requires table { IsTable (Y.setting yard.now).plan.limit (Y.Pass.view pass.old) }
    requires txn { 1 ≤ txn }
    requires room { length (Y.Pass.view pass.old).front + 1 ≤ 2 ^ 38 }
    ensures of { Y.Pass.origin pass.new ≡ origin_of (Y.identity yard.now) (Y.setting yard.now) }
    ensures table { OnOk result (IsTable (Y.setting yard.now).plan.limit (Y.Pass.view pass.new)) }
    ensures freed { OnOk result ((Y.Pass.view pass.new).front
        ≡ with_deed (Y.setting yard.now).plan.limit txn (Free 0 range.now first 0) (Y.Pass.view pass.old).front) }
{
    match yard.free(pass, txn, 0, range, first) {
        Ok(_) => Ok(()),
        Err(Fault::OutOfMemory) => Err(AllocError),
        Err(Fault::Busy { .. }) => unreachable!(),
        Err(Fault::HistoryFull { .. }) => unreachable!(),
        Err(Fault::OutOfLocks { .. }) => unreachable!(),
    }
}

/// Gives back what was granted to a transaction for these operations, one free for each.
pub(crate) fn free_all<Y: Yard>(
    yard: &Y,
    pass: &mut Y::Pass,
    txn: u64,
    done: &[Done],
) -> Result<(), AllocError>
    requires of { Y.Pass.origin pass.old ≡ origin_of (Y.identity yard.now) (Y.setting yard.now) }
    requires setting { Y.setting yard.now ≡ setting_of (Y.setting yard.now).plan.limit }
    requires table { IsTable (Y.setting yard.now).plan.limit (Y.Pass.view pass.old) }
    requires txn { 1 ≤ txn }
    requires room { length (Y.Pass.view pass.old).front + length done.now ≤ 2 ^ 38 }
    ensures of { Y.Pass.origin pass.new ≡ origin_of (Y.identity yard.now) (Y.setting yard.now) }
    ensures table { OnOk result (IsTable (Y.setting yard.now).plan.limit (Y.Pass.view pass.new)) }
    ensures freed { OnOk result ((Y.Pass.view pass.new).front
        ≡ all_freed (Y.setting yard.now).plan.limit txn true done.now (Y.Pass.view pass.old).front) }
{
    let mut first = true;
    for each in done {
        let range = each.op.range();
        free(yard, pass, txn, &range, first)?;
        first = false;
    }
    Ok(())
}
