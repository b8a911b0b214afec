//! The search for a deadlock.
ghost use Rattle.std.specs.Prelude.{◌≡◌, ◌≤◌, ◌<◌, ◌++◌, List, true, false, IfErr, OnOk};
ghost use Rattle.std.specs.List.Sorted.{IsStrictlyIncreasing};
ghost use Rattle.lt_ranges.specs.Numbers.{is_in};
ghost use Rattle.lt_seq.specs.Questions.{named_in};
ghost use Rattle.lt_seq.specs.Yard.{origin_of};
ghost use Rattle.lt_requests.specs.Registered.{MayAsk, may_ask};
ghost use Rattle.lt_requests.specs.Questions.{AreKept};
ghost use Rattle.lt_requests.specs.Started.{SearchAnswers, IsAskedFor, HasNoAnswer};

use crate::cycle::Cycle;
use crate::deadlock::cycle_in;
use crate::questions::Questions;
use crate::registry::Registry;
use crate::wish::Wish;
use lt_seq::{Deed, Fault, Pass, Reply, Yard};
use std::alloc::{AllocError, Global};

/// Asks who stands in the way of those that the owners wait for, one after another, and finds the least closed walk through
/// the transaction. The event at the place named the owners to it, and its own wish is registered.
pub(crate) fn search<Y: Yard>(
    alloc: Global,
    registry: &Registry,
    yard: &Y,
    pass: &mut Y::Pass,
    txn: u64,
    place: u64,
    owners: &[u64],
) -> Result<Option<Cycle>, Fault>
    requires of { Y.Pass.origin pass.old ≡ origin_of (Y.identity yard.now) (Y.setting yard.now) }
    requires right { 1 ≤ (Y.Pass.view pass.old).rights }
    requires txn { 1 ≤ txn }
    requires may { MayAsk (Y.setting yard.now).plan.trees registry.now }
    requires ascend { IsStrictlyIncreasing owners.now }
    requires others { is_in txn owners.now ≡ false }
    ensures of { Y.Pass.origin pass.new ≡ origin_of (Y.identity yard.now) (Y.setting yard.now) }
    ensures answer { SearchAnswers (Y.setting yard.now) txn registry.now place owners.now (Y.Pass.view pass.old)
        (Y.Pass.view pass.new) result }
{
    let mut questions = Questions::new(alloc);
    if let Err(AllocError) = questions.note(alloc, registry, txn, txn, place, owners) {
        return Err(Fault::OutOfMemory);
    }
    let mut next = 0;
    while next < questions.listed.len() {
        let wish = questions.listed[next];
        next += 1;
        if let Err(fault) = ask_for(alloc, registry, yard, pass, txn, &wish, &mut questions) {
            return Err(fault);
        }
    }
    match cycle_in(alloc, &questions.edges, txn) {
        Ok(found) => Ok(found),
        Err(AllocError) => Err(Fault::OutOfMemory),
    }
}

/// Asks who stands in the way of one that waits.
fn ask_for<Y: Yard>(
    alloc: Global,
    registry: &Registry,
    yard: &Y,
    pass: &mut Y::Pass,
    txn: u64,
    wish: &Wish,
    questions: &mut Questions,
) -> Result<(), Fault>
    requires of { Y.Pass.origin pass.old ≡ origin_of (Y.identity yard.now) (Y.setting yard.now) }
    requires right { 1 ≤ (Y.Pass.view pass.old).rights }
    requires txn { 1 ≤ txn }
    requires wish { may_ask (Y.setting yard.now).plan.trees wish.now ≡ true }
    requires kept { AreKept registry.now questions.old.listed.items questions.old.asked }
    ensures of { Y.Pass.origin pass.new ≡ origin_of (Y.identity yard.now) (Y.setting yard.now) }
    ensures kept { OnOk result (AreKept registry.now questions.new.listed.items questions.new.asked) }
    ensures asked { OnOk result (IsAskedFor (Y.setting yard.now) txn wish.now registry.now (Y.Pass.view pass.old) (Y.Pass.view pass.new)
        questions.old.listed.items questions.old.edges.items questions.new.listed.items questions.new.edges.items) }
    ensures fault { IfErr result (HasNoAnswer (Y.setting yard.now) txn wish.now (Y.Pass.view pass.old) (Y.Pass.view pass.new)) }
{
    let receipt = match yard.who(pass, txn, wish.txn, wish.tree, &wish.range) {
        Ok(receipt) => receipt,
        Err(fault) => return Err(fault),
    };
    let owners = owners_of(&receipt.event.deed);
    match questions.note(alloc, registry, txn, wish.txn, receipt.place, owners) {
        Ok(()) => Ok(()),
        Err(AllocError) => Err(Fault::OutOfMemory),
    }
}

/// The owners that an event named.
fn owners_of(deed: &Deed) -> &[u64]
    ensures { result.now ≡ named_in deed.now }
{
    match deed {
        Deed::Ask {
            reply: Reply::HeldBy(owners),
            ..
        }
        | Deed::Who { owners, .. } => owners.as_slice(),
        Deed::Ask { .. } | Deed::Free { .. } | Deed::Join { .. } => &[],
    }
}
