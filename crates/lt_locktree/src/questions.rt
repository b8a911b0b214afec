//! Events that change nothing: who holds a range, and an ask that others hold.
ghost use Rattle.std.specs.Prelude.{◌≡◌, ◌<◌, true, ℕ, IfOk, IfErr, List, map, length};
ghost use Rattle.lt_seq.specs.declared.event.Deed.TheVariants.{Ask, Who};
ghost use Rattle.lt_seq.specs.declared.event.Reply.{Reply as Answer};
ghost use Rattle.lt_seq.specs.declared.event.Reply.TheVariants.{HeldBy};
ghost use Rattle.lt_ranges.specs.Interval.{Interval};
ghost use Rattle.lt_seq.specs.Pairs.{others};
ghost use Rattle.lt_forest.specs.Parts.{row_pair};
ghost use Rattle.lt_rows.specs.Handles.{knows, IsPassOf, IsSamePass};
ghost use Rattle.lt_tree.specs.States.{HoldsNone, OnlyHeld};
ghost use Rattle.lt_tree.specs.Gathers.{IsLockedWith, IsClosed};
ghost use Rattle.lt_tree.specs.Pools.{pool_rows};
ghost use Rattle.lt_locktree.specs.Deeds.{MakesDeed};
ghost use Rattle.lt_locktree.specs.Makes.{IsOf};

use crate::answers::{Asked, Named};
use crate::asking::Asking;
use crate::owners::owners_of;
use lt_rows::RowPass;
use lt_seq::{Deed, Event, Owners, Reply};
use lt_tree::Locked;
use std::alloc::Global;

// The reply of an ask's event.
fn reply_of(event: Event) -> Reply
    requires ask { (tree : ℕ) × (range : Interval) × (reply : Answer) × (event.deed ≡ Ask tree range reply) }
    ensures { (tree : ℕ) (range : Interval) (reply : Answer) → event.deed ≡ Ask tree range reply → result ≡ reply }
{
    match event.deed {
        Deed::Ask { reply, .. } => reply,
        Deed::Free { .. } | Deed::Who { .. } | Deed::Join { .. } => unreachable!(),
    }
}

// The owners that the event of a question names.
fn named_by(event: Event) -> Owners
    requires who { (tree : ℕ) × (range : Interval) × (as_txn : ℕ) × (owners : List ℕ) × (event.deed ≡ Who tree range as_txn owners) }
    ensures { (tree : ℕ) (range : Interval) (as_txn : ℕ) (owners : List ℕ) → event.deed ≡ Who tree range as_txn owners → result ≡ owners }
{
    match event.deed {
        Deed::Who { owners, .. } => owners,
        Deed::Ask { .. } | Deed::Free { .. } | Deed::Join { .. } => unreachable!(),
    }
}

/// Asks who holds the range, as a transaction, by an event that ends the search. The event names the owners other than that transaction
/// whose ranges overlap, ascending, each once. The error is want of memory; there is no event then.
pub fn ask_who<'a>(
    alloc: Global,
    locked: Locked<'a>,
    asking: &Asking,
    as_txn: u64,
) -> Result<(RowPass, Named), RowPass>
    requires fresh { (knows locked.pass).fresh ≡ true }
    requires locked { IsLockedWith (knows locked.pass) locked.tree locked.asked locked.held locked.part.rows.items
        locked.part.hangs.items (pool_rows (knows locked.pass).plan.trees locked.pool) }
    requires closed { IsClosed locked.asked locked.part.rows.items locked.part.hangs.items }
    requires asking { IsOf locked.pass locked.tree locked.asked asking.now }
    ensures of { IfOk result (λ r. IsPassOf locked.entry.table.now r.0 × IsSamePass locked.entry.pass r.0 × HoldsNone (knows r.0)) }
    ensures made { IfOk result (λ r. MakesDeed (knows locked.entry.pass) (knows r.0) asking.now
        (Who asking.now.tree asking.now.range as_txn r.1.owners) r.1.place × (r.1.copy ≡ r.1.owners)) }
    ensures answer { IfOk result (λ r.
        r.1.owners ≡ others as_txn asking.now.range (map row_pair locked.entry.part.rows.items)) }
    ensures handed { IfErr result (λ pass. IsPassOf locked.entry.table.now pass × IsSamePass locked.entry.pass pass × HoldsNone (knows pass)
        × OnlyHeld (knows locked.entry.pass) (knows pass)) }
{
    let Ok(owners) = owners_of(alloc, &locked.part().rows, as_txn, &asking.range) else {
        return Err(locked.release());
    };
    let Ok(copy) = owners.again() else {
        return Err(locked.release());
    };
    let event = Event {
        pass: asking.pass,
        txn: asking.txn,
        deed: Deed::Who {
            tree: asking.tree,
            range: asking.range,
            as_txn,
            owners,
        },
    };
    let (pass, place) = locked.finish(&[], &event, 0);
    let owners = named_by(event);
    Ok((
        pass,
        Named {
            place,
            owners,
            copy,
        },
    ))
}

/// Makes an ask that others hold, by an event that ends the search. They are the owners other than the transaction whose ranges
/// overlap, of which there is at least one, told twice. It takes no memory.
pub fn refuse_ask<'a>(
    locked: Locked<'a>,
    asking: &Asking,
    owners: Owners,
    copy: Owners,
) -> (RowPass, Asked)
    requires fresh { (knows locked.pass).fresh ≡ true }
    requires locked { IsLockedWith (knows locked.pass) locked.tree locked.asked locked.held locked.part.rows.items
        locked.part.hangs.items (pool_rows (knows locked.pass).plan.trees locked.pool) }
    requires closed { IsClosed locked.asked locked.part.rows.items locked.part.hangs.items }
    requires asking { IsOf locked.pass locked.tree locked.asked asking.now }
    requires owners { owners ≡ others asking.now.txn asking.now.range (map row_pair locked.part.rows.items) }
    requires copy { copy ≡ owners }
    requires some { 0 < length owners }
    ensures of { IsPassOf locked.entry.table.now result.0 × IsSamePass locked.entry.pass result.0 × HoldsNone (knows result.0) }
    ensures made { MakesDeed (knows locked.entry.pass) (knows result.0) asking.now
        (Ask asking.now.tree asking.now.range result.1.reply) result.1.place × (result.1.copy ≡ result.1.reply) }
    ensures answer { result.1.reply ≡ HeldBy owners }
{
    let event = Event {
        pass: asking.pass,
        txn: asking.txn,
        deed: Deed::Ask {
            tree: asking.tree,
            range: asking.range,
            reply: Reply::HeldBy(owners),
        },
    };
    let (pass, place) = locked.finish(&[], &event, 0);
    let reply = reply_of(event);
    let copy = Reply::HeldBy(copy);
    (pass, Asked { place, reply, copy })
}
