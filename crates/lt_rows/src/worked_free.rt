//! The release of a tree's only row, by the calls alone: its owner frees the whole range, and the row goes to the pool.
ghost use Rattle.std.specs.Prelude.{◌≡◌, ◌≢◌, ℕ, ◌+◌, ◌<◌, None, IfSome, true, slice_index};
ghost use Rattle.lt_rows.specs.Views.{row_at};
ghost use Rattle.lt_rows.specs.Handles.{knows, IsPassOf, IsSamePass};
ghost use Rattle.lt_rows.specs.Worked.{HasThree, IsTop, HoldsImage, AreApart, IsOnly, IsFreePlan, IsCommitOf, free_whole};

use crate::image::RowImage;
use crate::pass::RowPass;
use crate::table::RowTable;
use crate::take::Take;
use crate::worked::{PLACES_END, Three, give_back_three, link_to};
use lt_ranges::KeyRange;
use lt_seq::{Deed, Event};

/// Takes both anchors and the tree's top row, and loads them.
fn gather_top(table: &RowTable, pass: &mut RowPass, tree: u32) -> Option<Three>
    requires of { IsPassOf table.now pass.old }
    requires right { 0 < pass.old.rights }
    requires tree { tree < table.now.plan.trees }
    requires none { (r : ℕ) → row_at (knows pass.old) r ≡ None }
    ensures of { IsPassOf table.now pass.new × IsSamePass pass.old pass.new }
    ensures front { (knows pass.new).front ≡ (knows pass.old).front }
    ensures held { IfSome result (λ three. HasThree table.now.plan (knows pass.new) tree three) }
    ensures top { IfSome result IsTop }
{
    let Take::Taken = table.take(pass, tree) else {
        return None;
    };
    let Take::Taken = table.take(pass, table.plan.trees) else {
        return None;
    };
    let anchor = table.load_row(pass, tree);
    let pool = table.load_row(pass, table.plan.trees);
    if anchor.words[17] == 0 {
        return None;
    }
    let top = (anchor.words[17] - 1) as u32;
    let Take::Taken = table.take(pass, top) else {
        return None;
    };
    let row = table.load_row(pass, top);
    Some(Three { anchor, pool, row })
}

/// The plan that gives the row to the pool, and leaves the tree empty.
fn free_plan(three: &Three) -> (RowImage, RowImage, RowImage)
    ensures { IsFreePlan three.now result.0 result.1 result.2 }
{
    let mut anchor = three.anchor;
    anchor.words[17] = 0;
    let mut pool = three.pool;
    pool.words[17] = link_to(three.row.row);
    let mut row = three.row;
    row.words[17] = three.pool.words[17];
    (anchor, pool, row)
}

// The commit of that plan.
fn commit_free(
    table: &RowTable,
    pass: &mut RowPass,
    three: &Three,
    plan: (RowImage, RowImage, RowImage),
    tree: u32,
    txn: u64,
) -> u64
    requires of { IsPassOf table.now pass.old }
    requires fresh { (0 < pass.old.rights) × ((knows pass.old).fresh ≡ true) }
    requires tree { tree < table.now.plan.trees }
    requires three { HasThree table.now.plan (knows pass.old) tree three.now }
    requires top { IsTop three.now }
    requires only { IsOnly txn three.now }
    requires plan { IsFreePlan three.now plan.0 plan.1 plan.2 }
    ensures of { IsPassOf table.now pass.new × IsSamePass pass.old pass.new }
    ensures made { IsCommitOf table.now.plan (knows pass.old) (knows pass.new)
        record { pass = pass.old.number; txn = txn; deed = free_whole tree } result }
    ensures rows { HoldsImage (knows pass.new) plan.0 × HoldsImage (knows pass.new) plan.1 × HoldsImage (knows pass.new) plan.2 }
    ensures apart { AreApart plan.0 plan.1 plan.2 }
    ensures others { (r : ℕ) → r ≢ plan.0.row → r ≢ plan.1.row → r ≢ plan.2.row → row_at (knows pass.new) r ≡ None }
{
    let deed = Deed::Free {
        tree,
        range: KeyRange::whole(),
        first: false,
        count: 1,
    };
    let event = Event {
        pass: pass.number,
        txn,
        deed,
    };
    table.commit(pass, &[plan.0, plan.1, plan.2], &event, -1)
}

/// The owner of a tree's only row frees the whole range, and gives all rows back. `None` where a row was not free, the tree had not
/// one row of this owner, or no place was left; the pass holds rows then.
pub fn free_whole(table: &RowTable, pass: &mut RowPass, tree: u32, txn: u64) -> Option<u64>
    requires of { IsPassOf table.now pass.old }
    requires right { 0 < pass.old.rights }
    requires tree { tree < table.now.plan.trees }
    requires none { (r : ℕ) → row_at (knows pass.old) r ≡ None }
    ensures of { IsPassOf table.now pass.new × IsSamePass pass.old pass.new }
    ensures made { IfSome result (λ place. IsCommitOf table.now.plan (knows pass.old) (knows pass.new)
        record { pass = pass.old.number; txn = txn; deed = free_whole tree } place) }
    ensures none { IfSome result (λ _. (r : ℕ) → row_at (knows pass.new) r ≡ None) }
{
    let three = gather_top(table, pass, tree)?;
    let words = &three.row.words;
    if three.anchor.words[0] != 0 || words[0] != txn || words[17] != 0 || words[18] != 0 {
        return None;
    }
    let look = table.look(pass);
    if look.place >= PLACES_END {
        return None;
    }
    let plan = free_plan(&three);
    let place = commit_free(table, pass, &three, plan, tree, txn);
    give_back_three(table, pass, &plan);
    Some(place)
}
