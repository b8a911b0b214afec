//! Asks that go into a buffer.
ghost use Rattle.std.specs.Prelude.{◌≡◌, ◌<◌, ℕ, true, IfOk, IfErr};
ghost use Rattle.lt_seq.specs.declared.event.Deed.TheVariants.{Ask};
ghost use Rattle.lt_rows.specs.Handles.{knows, IsPassOf, IsSamePass};
ghost use Rattle.lt_tree.specs.States.{HoldsNone, OnlyRows, IsRefused};
ghost use Rattle.lt_chain.specs.Buffers.{AsksBuffered, HoldsAnchor, MayAppend, MayBegin};
ghost use Rattle.lt_locktree.specs.Deeds.{MakesDeed, asked_event};
ghost use Rattle.lt_seq.specs.declared.event.Reply.TheVariants.{Buffered};
ghost use Rattle.lt_locktree.specs.Makes.{IsOf};

use crate::answers::Asked;
use crate::asking::Asking;
use crate::locktree::SPINS;
use lt_chain::{append, begin};
use lt_rows::{RowPass, RowTable};
use lt_seq::{Deed, Event, Fault, Reply};

/// The event of an ask that goes into a buffer.
fn buffered_event(asking: &Asking) -> Event
    requires txn { 0 < asking.now.txn }
    ensures event { result ≡ asked_event asking.now (Ask asking.now.tree asking.now.range Buffered) }
    ensures asks { AsksBuffered asking.now.pass asking.now.tree result }
{
    // the range's ends are in order
    let _left = asking.range.left();
    Event {
        pass: asking.pass,
        txn: asking.txn,
        deed: Deed::Ask {
            tree: asking.tree,
            range: asking.range,
            reply: Reply::Buffered,
        },
    }
}

/// What such an ask came to, with its event at this place.
fn buffered_at(place: u64) -> Asked
    ensures { result ≡ record { place = place; reply = Buffered; copy = Buffered } }
{
    Asked {
        place,
        reply: Reply::Buffered,
        copy: Reply::Buffered,
    }
}

/// Begins a buffer with the range, in an empty tree. The pass holds the tree's anchor before, and no row afterwards.
///
/// # Errors
/// `Busy` alone, where the pool's anchor or its first row was met held by another pass, which never comes to a pass with all the
/// rights. There is no event then.
pub(crate) fn begin_buffer(
    table: &RowTable,
    pass: &mut RowPass,
    asking: &Asking,
) -> Result<Asked, Fault>
    requires of { IsPassOf table.now pass.old }
    requires fresh { (0 < pass.old.rights) × ((knows pass.old).fresh ≡ true) × ((knows pass.old).licensed ≡ true) }
    requires asking { IsOf pass.old asking.now.tree asking.now.range asking.now × (asking.now.tree < table.now.plan.trees) }
    requires txn { 0 < asking.now.txn }
    requires anchor { HoldsAnchor (knows pass.old) asking.now.tree }
    requires begins { MayBegin table.now.plan (knows pass.old) asking.now.tree }
    ensures of { IsPassOf table.now pass.new × IsSamePass pass.old pass.new }
    ensures none { HoldsNone (knows pass.new) }
    ensures made { IfOk result (λ a. MakesDeed (knows pass.old) (knows pass.new) asking.now
        (Ask asking.now.tree asking.now.range a.reply) a.place × (a.copy ≡ a.reply)) }
    ensures only { IfErr result (λ _. OnlyRows (knows pass.old) (knows pass.new)) }
    ensures refused { IfErr result (IsRefused (knows pass.old) (knows pass.new)) }
{
    let event = buffered_event(asking);
    match begin(table, pass, asking.tree, &event, SPINS) {
        Ok(place) => Ok(buffered_at(place)),
        Err(fault) => Err(fault),
    }
}

/// Adds the range to the transaction's own buffer, which has room. The pass holds the tree's anchor before, and no row afterwards.
///
/// # Errors
/// As those of a buffer that begins.
pub(crate) fn add_to_buffer(
    table: &RowTable,
    pass: &mut RowPass,
    asking: &Asking,
) -> Result<Asked, Fault>
    requires of { IsPassOf table.now pass.old }
    requires fresh { (0 < pass.old.rights) × ((knows pass.old).fresh ≡ true) × ((knows pass.old).licensed ≡ true) }
    requires asking { IsOf pass.old asking.now.tree asking.now.range asking.now × (asking.now.tree < table.now.plan.trees) }
    requires txn { 0 < asking.now.txn }
    requires anchor { HoldsAnchor (knows pass.old) asking.now.tree }
    requires appends { (count : ℕ) × MayAppend table.now.plan (knows pass.old) asking.now.tree asking.now.txn count }
    ensures of { IsPassOf table.now pass.new × IsSamePass pass.old pass.new }
    ensures none { HoldsNone (knows pass.new) }
    ensures made { IfOk result (λ a. MakesDeed (knows pass.old) (knows pass.new) asking.now
        (Ask asking.now.tree asking.now.range a.reply) a.place × (a.copy ≡ a.reply)) }
    ensures only { IfErr result (λ _. OnlyRows (knows pass.old) (knows pass.new)) }
    ensures refused { IfErr result (IsRefused (knows pass.old) (knows pass.new)) }
{
    let event = buffered_event(asking);
    match append(table, pass, asking.tree, &event, SPINS) {
        Ok(place) => Ok(buffered_at(place)),
        Err(fault) => Err(fault),
    }
}
