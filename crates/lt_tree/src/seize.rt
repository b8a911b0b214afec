//! Several tries to take a row.
ghost use Rattle.std.specs.Prelude.{◌≡◌, ◌<◌, None};
ghost use Rattle.lt_rows.specs.Views.{row_at, rows_of};
ghost use Rattle.lt_rows.specs.Handles.{knows, IsPassOf, IsSamePass};
ghost use Rattle.lt_tree.specs.States.{Seizes};

use lt_rows::{RowPass, RowTable, Take};
use std::hint;

/// Lets the processor rest for so many turns.
fn rest(turns: u32) {
    for _ in 0..turns {
        hint::spin_loop();
    }
}

/// Tries to take a row, at most 1 + spins times, and lets the processor rest between two tries, each time for a turn more.
pub fn seize(table: &RowTable, pass: &mut RowPass, row: u32, spins: u32) -> Take
    requires of { IsPassOf table.now pass.old }
    requires right { 0 < pass.old.rights }
    requires row { (row < rows_of table.now.plan) × (row_at (knows pass.old) row ≡ None) }
    ensures of { IsPassOf table.now pass.new × IsSamePass pass.old pass.new }
    ensures seized { Seizes row (knows pass.old) (knows pass.new) result }
{
    for turns in 0..spins {
        if let Take::Taken = table.take(pass, row) {
            return Take::Taken;
        }
        rest(turns + 1);
    }
    table.take(pass, row)
}
