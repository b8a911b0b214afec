//! Asking for what is waited for.
ghost use Rattle.std.specs.Prelude.{◌≡◌, ◌≤◌, ◌<◌, true, false, Some};
ghost use Rattle.std.specs.List.Sorted.{IsStrictlyIncreasing};
ghost use Rattle.lt_ranges.specs.Numbers.{is_in};
ghost use Rattle.lt_seq.specs.Yard.{origin_of, bar_for};
ghost use Rattle.lt_requests.specs.declared.wish.Wish.{Wish};
ghost use Rattle.lt_requests.specs.Registered.{MayAsk, may_ask, is_registered, wish_of, without, with_wish};
ghost use Rattle.lt_requests.specs.Started.{IsStarted, IsHeldAnswer, Keeps, reply_of};

use crate::registry::Registry;
use crate::search::search;
use crate::started::Started;
use crate::wish::Wish;
use lt_seq::{Deed, Fault, Owners, Pass, Reply, Yard};
use std::alloc::{AllocError, Global};

/// Asks for what a transaction wants that does not wait, `big` with the bar of a big transaction. Where it is held it is
/// registered, and a search finds whether it would wait for itself.
///
/// `Waits` comes exactly where the ask was held and the edges of the ask and its search have no closed walk through the
/// transaction; it is then registered. `Deadlock` comes exactly where they have one, and carries the least. A fault is one
/// that a call of the yard gave, or want of memory: the registry is then as before, and the events that were made stand.
pub fn start<Y: Yard>(
    alloc: Global,
    registry: &mut Registry,
    yard: &Y,
    pass: &mut Y::Pass,
    wish: &Wish,
    big: bool,
) -> Result<Started, Fault>
    requires of { Y.Pass.origin pass.old ≡ origin_of (Y.identity yard.now) (Y.setting yard.now) }
    requires right { 1 ≤ (Y.Pass.view pass.old).rights }
    requires absent { is_registered wish.now.txn registry.old ≡ false }
    requires wish { may_ask (Y.setting yard.now).plan.trees wish.now ≡ true }
    requires may { MayAsk (Y.setting yard.now).plan.trees registry.old }
    ensures of { Y.Pass.origin pass.new ≡ origin_of (Y.identity yard.now) (Y.setting yard.now) }
    ensures may { MayAsk (Y.setting yard.now).plan.trees registry.new }
    ensures keeps { Keeps (Y.setting yard.now) (Y.Pass.view pass.old) (Y.Pass.view pass.new) }
    ensures answer { IsStarted (Y.setting yard.now) (bar_for (Y.setting yard.now) big) wish.now registry.old
        (with_wish wish.now registry.old) registry.old
        (Y.Pass.view pass.old) (Y.Pass.view pass.new) registry.new result }
{
    if let Err(AllocError) = registry.add(*wish) {
        return Err(Fault::OutOfMemory);
    }
    match ask_for(alloc, registry, yard, pass, wish, big) {
        Ok(started) => Ok(started),
        Err(fault) => {
            registry.forget(wish.txn);
            Err(fault)
        }
    }
}

/// Asks once more for what a transaction waits for, as `start` does.
pub fn retry<Y: Yard>(
    alloc: Global,
    registry: &mut Registry,
    yard: &Y,
    pass: &mut Y::Pass,
    txn: u64,
    big: bool,
) -> Result<Started, Fault>
    requires of { Y.Pass.origin pass.old ≡ origin_of (Y.identity yard.now) (Y.setting yard.now) }
    requires right { 1 ≤ (Y.Pass.view pass.old).rights }
    requires there { is_registered txn registry.old ≡ true }
    requires may { MayAsk (Y.setting yard.now).plan.trees registry.old }
    ensures of { Y.Pass.origin pass.new ≡ origin_of (Y.identity yard.now) (Y.setting yard.now) }
    ensures may { MayAsk (Y.setting yard.now).plan.trees registry.new }
    ensures keeps { Keeps (Y.setting yard.now) (Y.Pass.view pass.old) (Y.Pass.view pass.new) }
    ensures answer { (wish : Wish) → wish_of txn registry.old ≡ Some wish
        → IsStarted (Y.setting yard.now) (bar_for (Y.setting yard.now) big) wish (without txn registry.old) registry.old registry.old
        (Y.Pass.view pass.old) (Y.Pass.view pass.new) registry.new result }
{
    let Some(wish) = registry.wish_of(txn) else {
        unreachable!()
    };
    ask_for(alloc, registry, yard, pass, &wish, big)
}

/// Asks for a registered wish, and takes it out where the transaction goes on or would wait for itself.
fn ask_for<Y: Yard>(
    alloc: Global,
    registry: &mut Registry,
    yard: &Y,
    pass: &mut Y::Pass,
    wish: &Wish,
    big: bool,
) -> Result<Started, Fault>
    requires of { Y.Pass.origin pass.old ≡ origin_of (Y.identity yard.now) (Y.setting yard.now) }
    requires right { 1 ≤ (Y.Pass.view pass.old).rights }
    requires wish { may_ask (Y.setting yard.now).plan.trees wish.now ≡ true }
    requires may { MayAsk (Y.setting yard.now).plan.trees registry.old }
    ensures of { Y.Pass.origin pass.new ≡ origin_of (Y.identity yard.now) (Y.setting yard.now) }
    ensures answer { IsStarted (Y.setting yard.now) (bar_for (Y.setting yard.now) big) wish.now (without wish.now.txn registry.old)
        registry.old registry.old
        (Y.Pass.view pass.old) (Y.Pass.view pass.new) registry.new result }
{
    let receipt = match yard.ask(pass, wish.txn, wish.tree, &wish.range, big) {
        Ok(receipt) => receipt,
        Err(fault) => return Err(fault),
    };
    let place = receipt.place;
    match reply_of(receipt.event.deed) {
        Reply::Granted => {
            registry.forget(wish.txn);
            Ok(Started::Granted {
                place,
                buffered: false,
            })
        }
        Reply::Buffered => {
            registry.forget(wish.txn);
            Ok(Started::Granted {
                place,
                buffered: true,
            })
        }
        Reply::HeldBy(owners) => hold(alloc, registry, yard, pass, wish.txn, place, owners),
    }
}

/// Searches behind an ask that was held.
fn hold<Y: Yard>(
    alloc: Global,
    registry: &mut Registry,
    yard: &Y,
    pass: &mut Y::Pass,
    txn: u64,
    place: u64,
    owners: Owners,
) -> Result<Started, Fault>
    requires of { Y.Pass.origin pass.old ≡ origin_of (Y.identity yard.now) (Y.setting yard.now) }
    requires right { 1 ≤ (Y.Pass.view pass.old).rights }
    requires txn { 1 ≤ txn }
    requires may { MayAsk (Y.setting yard.now).plan.trees registry.old }
    requires ascend { IsStrictlyIncreasing owners }
    requires others { is_in txn owners ≡ false }
    ensures of { Y.Pass.origin pass.new ≡ origin_of (Y.identity yard.now) (Y.setting yard.now) }
    ensures answer { IsHeldAnswer (Y.setting yard.now) txn place owners registry.old (Y.Pass.view pass.old)
        (Y.Pass.view pass.new) registry.new result }
{
    match search(alloc, registry, yard, pass, txn, place, owners.as_slice()) {
        Ok(None) => Ok(Started::Waits { owners }),
        Ok(Some(walk)) => {
            registry.forget(txn);
            Ok(Started::Deadlock(walk))
        }
        Err(fault) => Err(fault),
    }
}

/// The reply of an ask.
fn reply_of(deed: Deed) -> Reply
    ensures { result ≡ reply_of deed }
{
    match deed {
        Deed::Ask { reply, .. } => reply,
        Deed::Free { .. } | Deed::Who { .. } | Deed::Join { .. } => Reply::Granted,
    }
}
