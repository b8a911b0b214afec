//! Rows taken into a part.
ghost use Rattle.std.specs.Prelude.{◌≡◌, ℕ, ◌+◌, ◌<◌, ◌≤◌, ◌∷◌, ◌++◌, take, drop, length, suc, slice_index, IfOk, IfErr, None};
ghost use Rattle.std.specs.Prelude.{vec_len, vec_capacity};
ghost use Rattle.lt_rows.specs.Handles.{knows, IsPassOf, IsSamePass};
ghost use Rattle.lt_tree.specs.States.{OnlyRows, KeepsRows, IsRefused};
ghost use Rattle.lt_tree.specs.Gathers.{IsLocked, PlacedAt, IsClosed, aside_at};
ghost use Rattle.lt_tree.specs.Descents.{free_rows};

use crate::seize::seize;
use lt_forest::{Part, PartRow};
use lt_ranges::KeyRange;
use lt_rows::{RowPass, RowTable, Take};
use lt_seq::Fault;

// Puts a row where a link hung, with its two links. There is room.
fn put_in(part: &mut Part, at: usize, row: PartRow, left: u32, right: u32)
    requires place { (at < length part.old.hangs.items) × (at ≤ length part.old.rows.items) }
    requires room { (vec_len part.old.rows < vec_capacity part.old.rows) × (vec_len part.old.hangs < vec_capacity part.old.hangs) }
    ensures rows { part.new.rows.items ≡ take at part.old.rows.items ++ row ∷ drop at part.old.rows.items }
    ensures hangs { part.new.hangs.items ≡ take at part.old.hangs.items ++ left ∷ right ∷ drop (suc at) part.old.hangs.items }
{
    part.hangs[at] = left;
    let _ = part.hangs.insert(at + 1, right);
    let _ = part.rows.insert(at, row);
}

/// Takes the top row of the subtree that hangs at a place into the part. After a refusal the part is as before.
pub(crate) fn widen_at(
    table: &RowTable,
    pass: &mut RowPass,
    part: &mut Part,
    at: usize,
    spins: u32,
    tree: u32,
    asked: &KeyRange,
    here: u32,
) -> Result<(), Fault>
    requires of { IsPassOf table.now pass.old }
    requires right { 0 < pass.old.rights }
    requires tree { tree < table.now.plan.trees }
    requires hang { (at < length part.old.hangs.items) × (0 < slice_index part.old.hangs.items at) }
    requires locked { IsLocked (knows pass.old) tree asked.now here part.old.rows.items part.old.hangs.items }
    ensures of { IsPassOf table.now pass.new × IsSamePass pass.old pass.new }
    ensures locked { IsLocked (knows pass.new) tree asked.now here part.new.rows.items part.new.hangs.items }
    ensures only { OnlyRows (knows pass.old) (knows pass.new) }
    ensures kept { KeepsRows (knows pass.old) (knows pass.new) }
    ensures same { IfErr result (λ _. (part.new.rows.items ≡ part.old.rows.items) × (part.new.hangs.items ≡ part.old.hangs.items)) }
    ensures refused { IfErr result (λ fault. IsRefused (knows pass.old) (knows pass.new) fault) }
    ensures wider { IfOk result (λ _. (free_rows (knows pass.new).held + 1 ≡ free_rows (knows pass.old).held)
        × (length part.new.hangs.items ≡ length part.old.hangs.items + 1)) }
    ensures closed { IsClosed asked.now part.old.rows.items part.old.hangs.items
        → IsClosed asked.now part.new.rows.items part.new.hangs.items }
    ensures placed { IfOk result (λ _.
        PlacedAt at part.old.rows.items part.new.rows.items part.old.hangs.items part.new.hangs.items) }
{
    if part.rows.reserve(1).is_err() || part.hangs.reserve(1).is_err() {
        return Err(Fault::OutOfMemory);
    }
    let row = part.hangs[at] - 1;
    match seize(table, pass, row, spins) {
        Take::Taken => {}
        Take::HeldBy(holder) => return Err(Fault::Busy { row, holder }),
    }
    let image = table.load_row(pass, row);
    let range = image.range();
    let owner = image.owner();
    let left = image.left() as u32;
    let right = image.right() as u32;
    put_in(part, at, PartRow { row, owner, range }, left, right);
    Ok(())
}

/// Whether what hangs at a place can't overlap the range: the row behind it begins no later, or the row before it ends no
/// earlier.
pub(crate) fn is_aside(rows: &[PartRow], at: usize, asked: &KeyRange) -> bool
    requires place { at ≤ length rows.now }
    ensures aside { result ≡ aside_at asked.now None rows.now at }
{
    (at < rows.len() && rows[at].range.left().is_at_most(&asked.left()))
        || (at > 0 && asked.right().is_at_most(&rows[at - 1].range.right()))
}

/// Takes into the part all that a search for the range reaches. After a refusal it has part of it.
pub(crate) fn gather(
    table: &RowTable,
    pass: &mut RowPass,
    part: &mut Part,
    spins: u32,
    tree: u32,
    asked: &KeyRange,
    here: u32,
) -> Result<(), Fault>
    requires of { IsPassOf table.now pass.old }
    requires right { 0 < pass.old.rights }
    requires tree { tree < table.now.plan.trees }
    requires locked { IsLocked (knows pass.old) tree asked.now here part.old.rows.items part.old.hangs.items }
    ensures of { IsPassOf table.now pass.new × IsSamePass pass.old pass.new }
    ensures locked { IsLocked (knows pass.new) tree asked.now here part.new.rows.items part.new.hangs.items }
    ensures only { OnlyRows (knows pass.old) (knows pass.new) }
    ensures kept { KeepsRows (knows pass.old) (knows pass.new) }
    ensures refused { IfErr result (λ fault. IsRefused (knows pass.old) (knows pass.new) fault) }
    ensures closed { IfOk result (λ _. IsClosed asked.now part.new.rows.items part.new.hangs.items) }
{
    let mut at = 0;
    while at < part.hangs.len() {
        if part.hangs[at] == 0 || is_aside(&part.rows, at, asked) {
            at += 1;
        } else {
            match widen_at(table, pass, part, at, spins, tree, asked, here) {
                Ok(()) => {}
                Err(fault) => return Err(fault),
            }
        }
    }
    Ok(())
}
