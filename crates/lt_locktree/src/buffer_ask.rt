//! An ask by which a buffer ends.
ghost use Rattle.std.specs.Prelude.{◌≡◌, ◌<◌, ℕ, true, IfOk, IfErr};
ghost use Rattle.lt_ranges.specs.Interval.{Interval};
ghost use Rattle.lt_seq.specs.declared.event.Deed.TheVariants.{Ask};
ghost use Rattle.lt_seq.specs.declared.event.Reply.{Reply as Answer};
ghost use Rattle.lt_seq.specs.Pairs.{IsLawful, others};
ghost use Rattle.lt_seq.specs.Table.{pairs_by, reply_by};
ghost use Rattle.lt_rows.specs.Handles.{knows, IsPassOf, IsSamePass};
ghost use Rattle.lt_tree.specs.States.{HoldsNone, OnlyRows, IsRefused};
ghost use Rattle.lt_chain.specs.Buffers.{HoldsAnchor};
ghost use Rattle.lt_locktree.specs.Deeds.{MakesDeed};
ghost use Rattle.lt_locktree.specs.Ends.{TakesNoAsk};
ghost use Rattle.lt_locktree.specs.Makes.{IsOf};

use crate::answers::Asked;
use crate::asking::Asking;
use crate::buffer_end::end_buffer;
use crate::buffer_taken::{HeldBuffer, take_buffer};
use lt_chain::put_chain;
use lt_ranges::KeyRange;
use lt_rows::{RowPass, RowTable};
use lt_seq::{Deed, Event, Fault, Owners, Pair, Reply, grant, others_of};
use std::alloc::{AllocError, Global};

/// The reply to an ask, twice.
#[derive(Drop)]
struct Replies {
    reply: Reply,
    copy: Reply,
}

/// Answers an ask of which no buffer takes the range, and grants it where nobody else's range overlaps. The only error is want of
/// memory.
fn answer_ask(
    alloc: Global,
    pairs: &mut Vec<Pair>,
    txn: u64,
    range: &KeyRange,
) -> Result<Replies, AllocError>
    requires { IsLawful pairs.old.items }
    ensures reply { IfOk result (λ r. r.reply ≡ reply_by (others txn range.now pairs.old.items)) }
    ensures copy { IfOk result (λ r. r.copy ≡ r.reply) }
    ensures pairs { IfOk result (λ _. pairs.new.items ≡ pairs_by (others txn range.now pairs.old.items) txn range.now pairs.old.items) }
{
    let owners = others_of(alloc, pairs, txn, range)?;
    if owners.is_empty() {
        grant(pairs, txn, range)?;
        return Ok(Replies {
            reply: Reply::Granted,
            copy: Reply::Granted,
        });
    }
    let owners = Owners::of(owners);
    let copy = Reply::HeldBy(owners.again()?);
    Ok(Replies {
        reply: Reply::HeldBy(owners),
        copy,
    })
}

/// The ask's event.
fn ask_event(asking: &Asking, reply: Reply) -> Event
    ensures { result ≡ record {
      pass = asking.now.pass;
      txn = asking.now.txn;
      deed = Ask asking.now.tree asking.now.range reply;
    } }
{
    Event {
        pass: asking.pass,
        txn: asking.txn,
        deed: Deed::Ask {
            tree: asking.tree,
            range: asking.range,
            reply,
        },
    }
}

/// The reply of an ask.
fn reply_of(deed: Deed) -> Reply
    requires { (tree : ℕ) × (range : Interval) × (reply : Answer) × (deed ≡ Ask tree range reply) }
    ensures { (tree : ℕ) (range : Interval) (reply : Answer) → deed ≡ Ask tree range reply → result ≡ reply }
{
    match deed {
        Deed::Ask { reply, .. } => reply,
        _ => unreachable!(),
    }
}

/// Asks for a range in a tree whose buffer doesn't take the ask. The pass holds the tree's anchor before, and no row afterwards.
///
/// # Errors
/// `Busy` only where a row was met held by another pass, which never comes to a pass with all the rights; or want of memory. There is
/// no event then.
pub(crate) fn ask_of_buffer(
    alloc: Global,
    table: &RowTable,
    pass: &mut RowPass,
    asking: &Asking,
    spins: u32,
) -> Result<Asked, Fault>
    requires of { IsPassOf table.now pass.old }
    requires fresh { (0 < pass.old.rights) × ((knows pass.old).fresh ≡ true) × ((knows pass.old).licensed ≡ true) }
    requires asking { IsOf pass.old asking.now.tree asking.now.range asking.now × (asking.now.tree < table.now.plan.trees) }
    requires anchor { HoldsAnchor (knows pass.old) asking.now.tree }
    requires buffer { TakesNoAsk (knows pass.old) asking.now.tree asking.now.txn }
    ensures of { IsPassOf table.now pass.new × IsSamePass pass.old pass.new }
    ensures none { HoldsNone (knows pass.new) }
    ensures made { IfOk result (λ a. MakesDeed (knows pass.old) (knows pass.new) asking.now
        (Ask asking.now.tree asking.now.range a.reply) a.place × (a.copy ≡ a.reply)) }
    ensures only { IfErr result (λ _. OnlyRows (knows pass.old) (knows pass.new)) }
    ensures refused { IfErr result (IsRefused (knows pass.old) (knows pass.new)) }
{
    let taken = take_buffer(alloc, table, pass, asking.tree, spins)?;
    let HeldBuffer { rows, mut pairs } = taken;
    let Ok(replies) = answer_ask(alloc, &mut pairs, asking.txn, &asking.range) else {
        put_chain(table, pass, asking.tree, rows);
        return Err(Fault::OutOfMemory);
    };
    let Replies { reply, copy } = replies;
    let event = ask_event(asking, reply);
    let place = end_buffer(alloc, table, pass, asking, rows, &pairs, 0, &event, spins)?;
    let reply = reply_of(event.deed);
    Ok(Asked { place, reply, copy })
}
