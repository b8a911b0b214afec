//! A free in a tree with a buffer.
ghost use Rattle.std.specs.Prelude.{◌≡◌, ◌<◌, true, false, IfOk, IfErr, length};
ghost use Rattle.lt_ranges.specs.Interval.{IsInterval};
ghost use Rattle.lt_seq.specs.declared.event.Deed.TheVariants.{Free};
ghost use Rattle.lt_seq.specs.Table.{is_whole};
ghost use Rattle.lt_rows.specs.Handles.{knows, IsPassOf, IsSamePass};
ghost use Rattle.lt_tree.specs.States.{HoldsNone, OnlyRows, IsRefused};
ghost use Rattle.lt_chain.specs.Buffers.{HoldsAnchor};
ghost use Rattle.lt_chain.specs.Chains.{ShowsBuffer, HoldsChain};
ghost use Rattle.lt_locktree.specs.Deeds.{MakesDeed};
ghost use Rattle.lt_locktree.specs.Endings.{buffered_pairs};
ghost use Rattle.lt_locktree.specs.Makes.{IsOf};
ghost use Rattle.lt_locktree.specs.TakenBuffers.{ShowsBufferOf};

use crate::asking::Asking;
use crate::buffer_end::end_buffer;
use crate::buffer_taken::{HeldBuffer, owner_of, take_buffer};
use lt_chain::drop_all;
use lt_ranges::{Key, KeyRange};
use lt_rows::{RowPass, RowTable};
use lt_seq::{Deed, Event, Fault, free};
use std::alloc::Global;

/// Whether the range goes from one end to the other.
fn is_whole(range: &KeyRange) -> bool
    ensures { result ≡ is_whole range.now }
{
    range.left().is_at_most(&Key::Below) && Key::Above.is_at_most(&range.right())
}

/// The free's event.
fn free_event(asking: &Asking, first: bool, count: u64) -> Event
    ensures { result ≡ record {
      pass = asking.now.pass;
      txn = asking.now.txn;
      deed = Free asking.now.tree asking.now.range first count;
    } }
{
    Event {
        pass: asking.pass,
        txn: asking.txn,
        deed: Deed::Free {
            tree: asking.tree,
            range: asking.range,
            first,
            count,
        },
    }
}

/// Gives up the whole buffer of the transaction, of which all rows are held.
fn free_whole(
    table: &RowTable,
    pass: &mut RowPass,
    asking: &Asking,
    taken: &HeldBuffer,
    first: bool,
    spins: u32,
) -> Result<(u64, u64), Fault>
    requires of { IsPassOf table.now pass.old }
    requires fresh { (0 < pass.old.rights) × ((knows pass.old).fresh ≡ true) }
    requires asking { IsOf pass.old asking.now.tree asking.now.range asking.now × (asking.now.tree < table.now.plan.trees) }
    requires chain { HoldsChain (knows pass.old) asking.now.tree taken.now.rows.items }
    requires buffer { ShowsBufferOf (knows pass.old) asking.now.tree asking.now.txn }
    requires pairs { taken.now.pairs.items ≡ buffered_pairs (knows pass.old) asking.now.txn taken.now.rows.items }
    requires whole { is_whole asking.now.range ≡ true }
    ensures of { IsPassOf table.now pass.new × IsSamePass pass.old pass.new }
    ensures none { HoldsNone (knows pass.new) }
    ensures made { IfOk result (λ f. MakesDeed (knows pass.old) (knows pass.new) asking.now
        (Free asking.now.tree asking.now.range first f.1) f.0) }
    ensures only { IfErr result (λ _. OnlyRows (knows pass.old) (knows pass.new)) }
    ensures refused { IfErr result (IsRefused (knows pass.old) (knows pass.new)) }
{
    let count = taken.pairs.len() as u64;
    let event = free_event(asking, first, count);
    let place = drop_all(table, pass, asking.tree, &event, &taken.rows, spins)?;
    Ok((place, count))
}

/// Frees a range in a tree with a buffer: all of it is dropped where the range is the whole and the buffer the transaction's, and else
/// the buffer ends. The answer is the event's place and the number of ranges that went. The pass holds the tree's anchor before, and no
/// row afterwards.
///
/// # Errors
/// As those of an ask.
pub(crate) fn free_of_buffer(
    alloc: Global,
    table: &RowTable,
    pass: &mut RowPass,
    asking: &Asking,
    first: bool,
    spins: u32,
) -> Result<(u64, u64), Fault>
    requires of { IsPassOf table.now pass.old }
    requires fresh { (0 < pass.old.rights) × ((knows pass.old).fresh ≡ true) }
    requires asking { IsOf pass.old asking.now.tree asking.now.range asking.now × (asking.now.tree < table.now.plan.trees) }
    requires anchor { HoldsAnchor (knows pass.old) asking.now.tree }
    requires buffer { ShowsBuffer (knows pass.old) asking.now.tree }
    ensures of { IsPassOf table.now pass.new × IsSamePass pass.old pass.new }
    ensures none { HoldsNone (knows pass.new) }
    ensures made { IfOk result (λ f. MakesDeed (knows pass.old) (knows pass.new) asking.now
        (Free asking.now.tree asking.now.range first f.1) f.0) }
    ensures only { IfErr result (λ _. OnlyRows (knows pass.old) (knows pass.new)) }
    ensures refused { IfErr result (IsRefused (knows pass.old) (knows pass.new)) }
{
    let owner = owner_of(table, pass, asking.tree);
    let taken = take_buffer(alloc, table, pass, asking.tree, spins)?;
    if owner == asking.txn && is_whole(&asking.range) {
        return free_whole(table, pass, asking, &taken, first, spins);
    }
    let HeldBuffer { rows, mut pairs } = taken;
    let count = free(&mut pairs, asking.txn, &asking.range) as u64;
    let event = free_event(asking, first, count);
    let score = if first { 1 } else { 0 };
    let place = end_buffer(
        alloc, table, pass, asking, rows, &pairs, score, &event, spins,
    )?;
    Ok((place, count))
}
