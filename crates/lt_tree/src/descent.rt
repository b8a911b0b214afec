//! The way down, hand over hand.
ghost use Rattle.std.specs.Prelude.{◌≡◌, ◌≢◌, ◌+◌, ◌<◌, ℕ, List, MatchOption, IfOk, IfErr, Some, [], true};
ghost use Rattle.lt_ranges.specs.Interval.{overlap};
ghost use Rattle.lt_seq.specs.Yard.{IsPlan};
ghost use Rattle.lt_rows.specs.Plan.{sizes_of};
ghost use Rattle.lt_forest.specs.Forest.{IsTree};
ghost use Rattle.lt_rows.specs.Nodes.{mode_of, node_of};
ghost use Rattle.lt_rows.specs.Views.{rows_of, IsHeld};
ghost use Rattle.lt_rows.specs.Teaching.{Teaches};
ghost use Rattle.lt_rows.specs.Handles.{knows, IsPassOf, IsSamePass};
ghost use Rattle.lt_tree.specs.States.{HoldsNone, OnlyMet, SeesOn, IsPrepared, IsRefused, image_at};
ghost use Rattle.lt_tree.specs.Puttings.{Backs};
ghost use Rattle.lt_tree.specs.Descents.{Arrives, Descends, Stays, ShowsAs, GoesTo, free_rows};
ghost use Rattle.lt_tree.specs.Turnings.{HoldsPath, StaysAs};

use crate::leveling::{LEFT, RIGHT, is_level, level_out};
use crate::put::put_all;
use crate::seize::seize;
use lt_ranges::KeyRange;
use lt_rows::{PackedRange, RangeSide, RowImage, RowPass, RowPlan, RowTable, Take};
use lt_seq::Fault;
use std::alloc::Global;

/// The row that stays held, and its child on the asked range's side, which overlaps the range; `None` where it has none there.
#[derive(Clone, Copy)]
pub struct Stop {
    pub here: RowImage,
    pub child: Option<RowImage>,
}

/// As many steps as the table has rows.
fn budget(plan: &RowPlan) -> usize
    requires { IsPlan (sizes_of plan.now) }
{
    plan.trees as usize + 1 + plan.limit as usize + plan.passes as usize
}

/// The link on which a search goes on from a row, or `None` where the row overlaps the asked range.
fn next_link(table: &RowTable, pass: &mut RowPass, row: u32, asked: &PackedRange) -> Option<u64>
    requires of { IsPassOf table.now pass.old }
    requires row { IsHeld (knows pass.old) row }
    ensures of { IsPassOf table.now pass.new × IsSamePass pass.old pass.new }
    ensures same { knows pass.new ≡ knows pass.old }
    ensures link { MatchOption result (overlap (node_of (image_at (knows pass.old) row).words).range asked.now.range ≡ true)
        (λ link. GoesTo asked.now.range (node_of (image_at (knows pass.old) row).words) link) }
{
    match table.compare(pass, row, asked) {
        RangeSide::Before => Some(table.word(pass, row, RIGHT)),
        RangeSide::Meets => None,
        RangeSide::Behind => Some(table.word(pass, row, LEFT)),
    }
}

/// Takes the row on a link of the held one, and answers its number. Where steps are left, the two are leveled, so that the answer may
/// be another row, which stands below the held one now. `Busy` is the one error: the row was met held by another pass.
fn take_child(
    table: &RowTable,
    pass: &mut RowPass,
    here: u32,
    link: u64,
    tree: u32,
    asked: &KeyRange,
    spins: u32,
    steps: usize,
) -> Result<u32, Fault>
    requires of { IsPassOf table.now pass.old }
    requires right { 0 < pass.old.rights }
    requires tree { tree < table.now.plan.trees }
    requires some { link ≢ 0 }
    requires descends { (above : List ℕ) × Descends (knows pass.old) tree asked.now (image_at (knows pass.old) here) link steps above }
    ensures of { IsPassOf table.now pass.new × IsSamePass pass.old pass.new }
    ensures sees { SeesOn (knows pass.old) (knows pass.new) }
    ensures path { IfOk result (λ r. (above : List ℕ) → Descends (knows pass.old) tree asked.now (image_at (knows pass.old) here) link steps above
        → HoldsPath (knows pass.new) tree asked.now (image_at (knows pass.new) here) (image_at (knows pass.new) r) steps above) }
    ensures stays { IfOk result (λ _. StaysAs tree (image_at (knows pass.old) here) (image_at (knows pass.new) here)) }
    ensures free { IfOk result (λ _. free_rows (knows pass.new).held + 1 ≡ free_rows (knows pass.old).held) }
    ensures met { IfErr result (λ _. OnlyMet (knows pass.old) (knows pass.new)) }
    ensures refused { IfErr result (λ fault. IsRefused (knows pass.old) (knows pass.new) fault) }
{
    let row = (link - 1) as u32;
    match seize(table, pass, row, spins) {
        Take::Taken => {}
        Take::HeldBy(holder) => return Err(Fault::Busy { row, holder }),
    }
    let level = is_level(table, pass, tree, here, row);
    if level || steps == 0 {
        return Ok(row);
    }
    Ok(level_out(table, pass, tree, asked, here, row))
}

/// The rows at which a search stays.
fn stop_at(table: &RowTable, pass: &mut RowPass, here: u32, child: u32) -> Stop
    requires of { IsPassOf table.now pass.old }
    requires here { IsHeld (knows pass.old) here }
    requires child { IsHeld (knows pass.old) child }
    ensures of { IsPassOf table.now pass.new × IsSamePass pass.old pass.new }
    ensures same { knows pass.new ≡ knows pass.old }
    ensures stop { result ≡ record { here = image_at (knows pass.old) here; child = Some (image_at (knows pass.old) child) } }
{
    Stop {
        here: table.load_row(pass, here),
        child: Some(table.load_row(pass, child)),
    }
}

/// Goes down. Each child is taken before its parent is put. After as many steps as the table has rows the parents are kept, so
/// that the search ends whatever other passes do; their numbers go to `above`.
fn go_down(
    table: &RowTable,
    pass: &mut RowPass,
    anchor: &RowImage,
    asked: &KeyRange,
    packed: &PackedRange,
    spins: u32,
    above: &mut Vec<u32>,
) -> Result<Stop, Fault>
    requires of { IsPassOf table.now pass.old }
    requires right { 0 < pass.old.rights }
    requires tree { anchor.now.row < table.now.plan.trees }
    requires prepared { IsPrepared (knows pass.old) anchor.now.row anchor.now × Teaches (knows pass.old) }
    requires is_tree { IsTree (mode_of anchor.now.words) }
    requires packed { packed.now.range ≡ asked.now }
    requires none { above.old.items ≡ [] }
    ensures of { IsPassOf table.now pass.new × IsSamePass pass.old pass.new }
    ensures only { SeesOn (knows pass.old) (knows pass.new) }
    ensures arrives { IfOk result (λ s. Arrives (knows pass.new) anchor.now.row asked.now s.here s.child above.new.items) }
    ensures anchor { IfOk result (λ s. s.here.row ≡ anchor.now.row → ShowsAs anchor.now.words s.here.words) }
    ensures backs { IfErr result (λ _. Backs (knows pass.new) above.new.items) }
    ensures refused { IfErr result (λ fault. IsRefused (knows pass.old) (knows pass.new) fault) }
{
    let mut here = anchor.row;
    let mut link = anchor.left();
    let mut steps = budget(table.plan());
    while link != 0 {
        let child = match take_child(table, pass, here, link, anchor.row, asked, spins, steps) {
            Ok(row) => row,
            Err(fault) => {
                table.put(pass, here);
                return Err(fault);
            }
        };
        let Some(next) = next_link(table, pass, child, packed) else {
            return Ok(stop_at(table, pass, here, child));
        };
        if steps > 0 {
            steps -= 1;
            table.put(pass, here);
        } else if above.push(here).is_err() {
            table.put(pass, here);
            table.put(pass, child);
            return Err(Fault::OutOfMemory);
        }
        link = next;
        here = child;
    }
    let here = table.load_row(pass, here);
    Ok(Stop { here, child: None })
}

/// Goes down from a tree's anchor, hand over hand. The row that stays held is the last one of the search path whose child on the
/// asked range's side overlaps the range or is missing. The child stays held too, where there is one, and no other row.
///
/// # Errors
/// `Busy` only where a row was met that another pass holds, which never comes to a pass with all the rights; or want of memory. No
/// row is held then.
pub fn descend(
    alloc: Global,
    table: &RowTable,
    pass: &mut RowPass,
    anchor: &RowImage,
    asked: &KeyRange,
    spins: u32,
) -> Result<Stop, Fault>
    requires of { IsPassOf table.now pass.old }
    requires right { 0 < pass.old.rights }
    requires tree { anchor.now.row < table.now.plan.trees }
    requires prepared { IsPrepared (knows pass.old) anchor.now.row anchor.now × Teaches (knows pass.old) }
    requires is_tree { IsTree (mode_of anchor.now.words) }
    ensures of { IsPassOf table.now pass.new × IsSamePass pass.old pass.new }
    ensures only { SeesOn (knows pass.old) (knows pass.new) }
    ensures stays { IfOk result (λ s. Stays (knows pass.new) anchor.now.row asked.now s.here s.child) }
    ensures anchor { IfOk result (λ s. s.here.row ≡ anchor.now.row → ShowsAs anchor.now.words s.here.words) }
    ensures none { IfErr result (λ _. HoldsNone (knows pass.new)) }
    ensures refused { IfErr result (λ fault. IsRefused (knows pass.old) (knows pass.new) fault) }
{
    let packed = PackedRange::of(asked);
    let mut above = Vec::new(alloc);
    match go_down(table, pass, anchor, asked, &packed, spins, &mut above) {
        Ok(stop) => {
            put_all(table, pass, above);
            Ok(stop)
        }
        Err(fault) => {
            put_all(table, pass, above);
            Err(fault)
        }
    }
}
