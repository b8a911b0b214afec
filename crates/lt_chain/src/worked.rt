//! A buffer from its first ask to its end, by the calls alone.
ghost use Rattle.std.specs.Prelude.{◌≡◌, ◌<◌};
ghost use Rattle.lt_ranges.specs.Interval.{IsInterval};
ghost use Rattle.lt_seq.specs.declared.event.Deed.TheVariants.{Ask};
ghost use Rattle.lt_seq.specs.declared.event.Reply.TheVariants.{Buffered};
ghost use Rattle.lt_rows.specs.Handles.{knows, IsPassOf, IsSamePass};
ghost use Rattle.lt_tree.specs.States.{HoldsNone};
ghost use Rattle.lt_chain.specs.Worked.{ShowsRoom};

use crate::add::{append, begin};
use crate::drop::drop_all;
use crate::read::{ChainRead, put_chain, to_pairs};
use lt_ranges::KeyRange;
use lt_rows::{RowImage, RowPass, RowTable, Take};
use lt_seq::{Deed, Event, Reply};
use lt_tree::try_take;
use std::alloc::Global;

/// The place from which on no event is made.
const PLACES_END: u64 = 1 << 39;

/// What an anchor shows of a buffer.
#[derive(Clone, Copy)]
enum Room {
    /// One may begin.
    Empty,
    /// The transaction's own has room.
    Own,
    /// Neither.
    Closed,
}

/// What the anchor shows to the transaction.
fn room_for(buffer: u64, anchor: &RowImage, txn: u64) -> Room
    ensures { ShowsRoom buffer txn anchor.now result }
{
    let words = &anchor.words;
    if words[0] == 0 && words[17] == 0 && words[19] == 100 && buffer > 0 {
        Room::Empty
    } else if words[0] == txn && words[20] < buffer {
        Room::Own
    } else {
        Room::Closed
    }
}

/// A buffered ask.
fn buffered(tree: u32, range: &KeyRange) -> Deed
    ensures deed { result ≡ Ask tree range.now Buffered }
    ensures ordered { IsInterval range.now }
{
    let _left = range.left();
    Deed::Ask {
        tree,
        range: *range,
        reply: Reply::Buffered,
    }
}

/// The transaction asks for a range in a buffer of its own, which begins where the tree is empty. The pass holds no row afterwards.
/// `None` where a row was not free, no buffer serves, or no place or no row was left.
pub fn ask(
    table: &RowTable,
    pass: &mut RowPass,
    tree: u32,
    txn: u64,
    range: &KeyRange,
) -> Option<u64>
    requires of { IsPassOf table.now pass.old }
    requires right { 0 < pass.old.rights }
    requires tree { tree < table.now.plan.trees }
    requires txn { 0 < txn }
    requires none { HoldsNone (knows pass.old) }
    ensures of { IsPassOf table.now pass.new × IsSamePass pass.old pass.new }
    ensures none { HoldsNone (knows pass.new) }
{
    let Take::Taken = try_take(table, pass, tree, 0) else {
        return None;
    };
    let look = table.look(pass);
    let anchor = table.load_row(pass, tree);
    if look.place >= PLACES_END || look.used >= table.plan().limit {
        table.put(pass, tree);
        return None;
    }
    let event = Event {
        pass: pass.number(),
        txn,
        deed: buffered(tree, range),
    };
    match room_for(table.plan().buffer, &anchor, txn) {
        Room::Empty => begin(table, pass, tree, &event, 0).ok(),
        Room::Own => append(table, pass, tree, &event, 0).ok(),
        Room::Closed => {
            table.put(pass, tree);
            None
        }
    }
}

/// The transaction of a buffer frees all of it, of which the rows and pairs are told. The pass holds no row afterwards. `None` where
/// a row was not free, the tree was no buffer, or no place or no memory was left.
pub fn free_whole(
    alloc: Global,
    table: &RowTable,
    pass: &mut RowPass,
    tree: u32,
) -> Option<(ChainRead, u64)>
    requires of { IsPassOf table.now pass.old }
    requires right { 0 < pass.old.rights }
    requires tree { tree < table.now.plan.trees }
    requires none { HoldsNone (knows pass.old) }
    ensures of { IsPassOf table.now pass.new × IsSamePass pass.old pass.new }
    ensures none { HoldsNone (knows pass.new) }
{
    let Take::Taken = try_take(table, pass, tree, 0) else {
        return None;
    };
    let anchor = table.load_row(pass, tree);
    if anchor.words[0] == 0 {
        table.put(pass, tree);
        return None;
    }
    let Ok(read) = to_pairs(alloc, table, pass, tree, 0) else {
        return None;
    };
    let look = table.look(pass);
    if look.place >= PLACES_END {
        put_chain(table, pass, tree, read.rows);
        return None;
    }
    let deed = Deed::Free {
        tree,
        range: KeyRange::whole(),
        first: true,
        count: read.pairs.len() as u64,
    };
    let event = Event {
        pass: pass.number(),
        txn: anchor.words[0],
        deed,
    };
    match drop_all(table, pass, tree, &event, &read.rows, 0) {
        Ok(place) => Some((read, place)),
        Err(_) => None,
    }
}
