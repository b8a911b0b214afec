//! Work on a tree's only row, which is reached from the anchor and held alone, by the calls alone: its owner asks for the whole
//! range, and the row's estimates are set.
ghost use Rattle.std.specs.Prelude.{◌≡◌, ◌≢◌, ℕ, ◌+◌, ◌<◌, length, None, IfSome};
ghost use Rattle.lt_seq.specs.History.{IsFront};
ghost use Rattle.lt_rows.specs.Views.{row_at};
ghost use Rattle.lt_rows.specs.Handles.{knows, IsPassOf, IsSamePass};
ghost use Rattle.lt_rows.specs.Worked.{IsCommitOf, ask_whole};
ghost use Rattle.lt_rows.specs.WorkedRow.{HasOnly};

use crate::image::RowImage;
use crate::pass::RowPass;
use crate::table::RowTable;
use crate::take::Take;
use crate::worked::{PLACES_END, give_back, whole_row};
use lt_ranges::KeyRange;
use lt_seq::{Deed, Event, Reply};

/// Goes down from the anchor to the tree's only row, and gives the anchor back.
fn descend(table: &RowTable, pass: &mut RowPass, tree: u32) -> Option<RowImage>
    requires of { IsPassOf table.now pass.old }
    requires right { 0 < pass.old.rights }
    requires tree { tree < table.now.plan.trees }
    requires none { (r : ℕ) → row_at (knows pass.old) r ≡ None }
    ensures of { IsPassOf table.now pass.new × IsSamePass pass.old pass.new }
    ensures front { (knows pass.new).front ≡ (knows pass.old).front }
    ensures held { IfSome result (λ row. HasOnly table.now.plan (knows pass.new) tree row) }
{
    let Take::Taken = table.take(pass, tree) else {
        return None;
    };
    let anchor = table.load_row(pass, tree);
    if anchor.words[0] != 0 || anchor.words[17] == 0 {
        return None;
    }
    let top = (anchor.words[17] - 1) as u32;
    let Take::Taken = table.take(pass, top) else {
        return None;
    };
    table.put(pass, tree);
    let row = table.load_row(pass, top);
    if row.words[17] != 0 || row.words[18] != 0 {
        return None;
    }
    Some(row)
}

/// The owner of the tree's only row asks for the whole range, and gives the row back. `None` where a row was not free, the tree had
/// not one row of this owner, or no place was left; the pass may hold a row then.
pub fn ask_again(table: &RowTable, pass: &mut RowPass, tree: u32, txn: u64) -> Option<u64>
    requires of { IsPassOf table.now pass.old }
    requires right { 0 < pass.old.rights }
    requires tree { tree < table.now.plan.trees }
    requires none { (r : ℕ) → row_at (knows pass.old) r ≡ None }
    ensures of { IsPassOf table.now pass.new × IsSamePass pass.old pass.new }
    ensures made { IfSome result (λ place. IsCommitOf table.now.plan (knows pass.old) (knows pass.new)
        record { pass = pass.old.number; txn = txn; deed = ask_whole tree } place) }
    ensures none { IfSome result (λ _. (r : ℕ) → row_at (knows pass.new) r ≡ None) }
{
    let row = descend(table, pass, tree)?;
    if row.words[0] != txn {
        return None;
    }
    let look = table.look(pass);
    if look.place >= PLACES_END {
        return None;
    }
    let image = whole_row(row.row, txn, 0);
    let deed = Deed::Ask {
        tree,
        range: KeyRange::whole(),
        reply: Reply::Granted,
    };
    let event = Event {
        pass: pass.number,
        txn,
        deed,
    };
    let place = table.commit(pass, &[image], &event, 0);
    give_back(table, pass, &image);
    Some(place)
}

/// Sets the estimates of the tree's only row, and gives the row back. `None` where a row was not free, or the tree had not one row;
/// the pass may hold a row then. The answer is the place of the next event.
pub fn estimate(
    table: &RowTable,
    pass: &mut RowPass,
    tree: u32,
    left: u64,
    right: u64,
) -> Option<u64>
    requires of { IsPassOf table.now pass.old }
    requires right { 0 < pass.old.rights }
    requires tree { tree < table.now.plan.trees }
    requires none { (r : ℕ) → row_at (knows pass.old) r ≡ None }
    ensures of { IsPassOf table.now pass.new × IsSamePass pass.old pass.new }
    ensures front { IfSome result (λ _. IsFront (knows pass.old).front (knows pass.new).front) }
    ensures place { IfSome result (λ place. place ≡ table.now.plan.first + length (knows pass.new).front) }
    ensures none { IfSome result (λ _. (r : ℕ) → row_at (knows pass.new) r ≡ None) }
{
    let row = descend(table, pass, tree)?;
    let mut image = row;
    image.words[19] = left;
    image.words[20] = right;
    let place = table.settle(pass, &[image]);
    give_back(table, pass, &image);
    Some(place)
}
