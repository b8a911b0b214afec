//! One row more in a buffer.
ghost use Rattle.std.specs.Prelude.{◌≡◌, ◌+◌, ◌<◌, ℕ, [], ◌∷◌, true, IfOk, IfErr};
ghost use Rattle.lt_ranges.specs.Interval.{Interval};
ghost use Rattle.lt_rows.specs.Views.{row_at};
ghost use Rattle.lt_rows.specs.Handles.{knows, IsPassOf, IsSamePass, Commits};
ghost use Rattle.lt_tree.specs.States.{HoldsNone, OnlyHeld, OnlyRows};
ghost use Rattle.lt_chain.specs.Buffers.{HoldsAnchor, MayBegin, MayAppend, AsksBuffered, IsMet, Makes};
ghost use Rattle.lt_chain.specs.Images.{HasImages, HoldsThree, IsFirst, AddsRow, MayAdd};

use crate::front::take_front;
use crate::image::chain_row;
use crate::images::Images;
use crate::put::give_back_three;
use lt_ranges::KeyRange;
use lt_rows::{RowPass, RowTable};
use lt_seq::{Deed, Event, Fault};

/// The range for which an ask is.
fn asked(event: &Event) -> KeyRange
    requires ask { (pass : ℕ) × (tree : ℕ) × AsksBuffered pass tree event.now }
    ensures range { (pass tree : ℕ) (ask : AsksBuffered pass tree event.now) → result ≡ ask.range }
{
    match &event.deed {
        Deed::Ask { range, .. } => *range,
        _ => unreachable!(),
    }
}

/// The link that names a row.
fn link_to(row: u32) -> u64
    ensures { result ≡ row + 1 }
{
    u64::from(row) + 1
}

/// The images that put the vacant row at the front of the chain, where the buffer has so many rows before.
fn with_row(loaded: &Images, txn: u64, range: &KeyRange, count: u64) -> Images
    requires { count < 65536 }
    ensures { AddsRow loaded.now txn count range.now result }
{
    let mut anchor = loaded.anchor;
    anchor.words[0] = txn;
    anchor.words[17] = link_to(loaded.row.row);
    anchor.words[20] = count + 1;
    let mut pool = loaded.pool;
    pool.words[17] = loaded.row.words[17];
    let row = chain_row(loaded.row.row, txn, range, loaded.anchor.words[17]);
    Images { anchor, pool, row }
}

/// Commits the images, and gives the rows back.
fn commit_row(
    table: &RowTable,
    pass: &mut RowPass,
    loaded: &Images,
    images: &Images,
    event: &Event,
    _tree: u32,
    _count: u64,
) -> u64
    requires of { IsPassOf table.now pass.old }
    requires fresh { (0 < pass.old.rights) × ((knows pass.old).fresh ≡ true) × ((knows pass.old).licensed ≡ true) }
    requires tree { _tree < table.now.plan.trees }
    requires held { HasImages table.now.plan (knows pass.old) _tree loaded.now × HoldsThree (knows pass.old) loaded.now }
    requires first { IsFirst loaded.now }
    requires may { MayAdd table.now.plan (knows pass.old) _tree event.now.txn _count }
    requires adds { (ask : AsksBuffered pass.old.number _tree event.now) × AddsRow loaded.now event.now.txn _count ask.range images.now }
    ensures of { IsPassOf table.now pass.new × IsSamePass pass.old pass.new }
    ensures made { Makes (knows pass.old) (knows pass.new) event.now result }
{
    let place = table.commit(pass, &[images.anchor, images.pool, images.row], event, 1);
    give_back_three(table, pass, images);
    place
}

/// Puts the pool's first row at the front of the chain of a buffer, which has so many rows before.
fn add_row(
    table: &RowTable,
    pass: &mut RowPass,
    tree: u32,
    event: &Event,
    spins: u32,
    count: u64,
) -> Result<u64, Fault>
    requires of { IsPassOf table.now pass.old }
    requires fresh { (0 < pass.old.rights) × ((knows pass.old).fresh ≡ true) × ((knows pass.old).licensed ≡ true) }
    requires tree { tree < table.now.plan.trees }
    requires anchor { HoldsAnchor (knows pass.old) tree }
    requires may { MayAdd table.now.plan (knows pass.old) tree event.now.txn count }
    requires event { AsksBuffered pass.old.number tree event.now }
    ensures of { IsPassOf table.now pass.new × IsSamePass pass.old pass.new }
    ensures made { IfOk result (λ place. Makes (knows pass.old) (knows pass.new) event.now place) }
    ensures only { IfErr result (λ _. OnlyRows (knows pass.old) (knows pass.new)) }
    ensures none { IfErr result (λ _. HoldsNone (knows pass.new)) }
    ensures met { IfErr result (λ fault. IsMet (knows pass.old) (knows pass.new) fault) }
{
    match take_front(table, pass, tree, spins) {
        Ok(loaded) => {
            let images = with_row(&loaded, event.txn, &asked(event), count);
            Ok(commit_row(table, pass, &loaded, &images, event, tree, count))
        }
        Err(fault) => Err(fault),
    }
}

/// Begins a buffer in an empty tree, by a transaction's ask. The answer is the event's place. The pass holds no row afterwards.
///
/// # Errors
/// `Busy` alone, where the pool's anchor or its first row was met held by another pass.
pub fn begin(
    table: &RowTable,
    pass: &mut RowPass,
    tree: u32,
    event: &Event,
    spins: u32,
) -> Result<u64, Fault>
    requires of { IsPassOf table.now pass.old }
    requires fresh { (0 < pass.old.rights) × ((knows pass.old).fresh ≡ true) × ((knows pass.old).licensed ≡ true) }
    requires tree { tree < table.now.plan.trees }
    requires anchor { HoldsAnchor (knows pass.old) tree }
    requires begins { MayBegin table.now.plan (knows pass.old) tree }
    requires event { AsksBuffered pass.old.number tree event.now }
    ensures of { IsPassOf table.now pass.new × IsSamePass pass.old pass.new }
    ensures made { IfOk result (λ place. Makes (knows pass.old) (knows pass.new) event.now place) }
    ensures only { IfErr result (λ _. OnlyRows (knows pass.old) (knows pass.new)) }
    ensures none { IfErr result (λ _. HoldsNone (knows pass.new)) }
    ensures met { IfErr result (λ fault. IsMet (knows pass.old) (knows pass.new) fault) }
{
    add_row(table, pass, tree, event, spins, 0)
}

/// Adds a row to the buffer of the asking transaction, which is below its maximum. The answer is the event's place. The pass
/// holds no row afterwards.
///
/// # Errors
/// `Busy` alone, where the pool's anchor or its first row was met held by another pass.
pub fn append(
    table: &RowTable,
    pass: &mut RowPass,
    tree: u32,
    event: &Event,
    spins: u32,
) -> Result<u64, Fault>
    requires of { IsPassOf table.now pass.old }
    requires fresh { (0 < pass.old.rights) × ((knows pass.old).fresh ≡ true) × ((knows pass.old).licensed ≡ true) }
    requires tree { tree < table.now.plan.trees }
    requires anchor { HoldsAnchor (knows pass.old) tree }
    requires appends { (count : ℕ) × MayAppend table.now.plan (knows pass.old) tree event.now.txn count }
    requires event { AsksBuffered pass.old.number tree event.now }
    ensures of { IsPassOf table.now pass.new × IsSamePass pass.old pass.new }
    ensures made { IfOk result (λ place. Makes (knows pass.old) (knows pass.new) event.now place) }
    ensures only { IfErr result (λ _. OnlyRows (knows pass.old) (knows pass.new)) }
    ensures none { IfErr result (λ _. HoldsNone (knows pass.new)) }
    ensures met { IfErr result (λ fault. IsMet (knows pass.old) (knows pass.new) fault) }
{
    let anchor = table.load_row(pass, tree);
    add_row(table, pass, tree, event, spins, anchor.words[20])
}
