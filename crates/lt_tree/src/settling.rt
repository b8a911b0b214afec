//! Rows that a search settles on its way: their images count, are stored, and the rows stay held.
ghost use Rattle.std.specs.Prelude.{◌≤◌, ℕ};
ghost use Rattle.lt_forest.specs.Counts.{times};
ghost use Rattle.lt_rows.specs.Views.{AllHeld, planned_rows};
ghost use Rattle.lt_rows.specs.Lawful.{IsSettle};
ghost use Rattle.lt_rows.specs.Handles.{knows, IsPassOf, IsSamePass, IsGathering};
ghost use Rattle.lt_tree.specs.Settlings.{SettlesRows};
ghost use Rattle.lt_tree.specs.Writings.{Writes, KeepRanges};

use lt_rows::{RowImage, RowPass, RowTable};

/// Stores the images of a plan, which differ from the rows in links and estimates alone.
fn write_all_links(table: &RowTable, pass: &mut RowPass, plan: &[RowImage])
    requires of { IsPassOf table.now pass.old }
    requires held { AllHeld (knows pass.old).held plan.now }
    requires ranges { KeepRanges (knows pass.old) plan.now }
    ensures of { IsPassOf table.now pass.new × IsSamePass pass.old pass.new }
    ensures written { Writes (knows pass.old) (knows pass.new) plan.now }
{
    for image in plan {
        table.write_links(pass, image);
    }
}

/// Lets the images of a plan count that shows the same pairs and modes, and stores them. The rows stay held.
///
/// It takes no memory and is never refused.
pub(crate) fn settle_rows(table: &RowTable, pass: &mut RowPass, plan: &[RowImage])
    requires of { IsPassOf table.now pass.old }
    requires held { AllHeld (knows pass.old).held plan.now }
    requires lawful { IsSettle table.now.plan (knows pass.old) plan.now }
    requires gathers { IsGathering (knows pass.old) }
    requires ranges { KeepRanges (knows pass.old) plan.now }
    requires once { (q : ℕ) → times q (planned_rows plan.now) ≤ 1 }
    ensures of { IsPassOf table.now pass.new × IsSamePass pass.old pass.new }
    ensures settles { SettlesRows (knows pass.old) (knows pass.new) plan.now }
{
    table.settle(pass, plan);
    write_all_links(table, pass, plan);
}
