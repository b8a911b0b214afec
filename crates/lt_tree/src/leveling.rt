//! On the way down most rows are level: the estimate of the row above is right, and no side is deeper by two. They are left as they are.
ghost use Rattle.std.specs.Prelude.{◌≡◌, ◌+◌, ◌<◌, ◌≤◌};
ghost use Rattle.lt_rows.specs.Views.{IsHeld};
ghost use Rattle.lt_rows.specs.Teaching.{Teaches};
ghost use Rattle.lt_rows.specs.Handles.{knows, IsPassOf, IsSamePass};
ghost use Rattle.lt_tree.specs.States.{SeesOn, image_at};
ghost use Rattle.lt_tree.specs.Descents.{free_rows};
ghost use Rattle.lt_tree.specs.Turnings.{HoldsPair, StaysAs};

use crate::turning::turn_below;
use lt_ranges::KeyRange;
use lt_rows::{RowPass, RowTable};

/// Where an image of a row has its left link.
pub(crate) const LEFT: usize = 17;

/// Where an image of a row has its right link.
pub(crate) const RIGHT: usize = 18;

/// How far behind a link an image has the estimate of depth on its side.
const ESTIMATE: usize = 2;

/// The estimate that a row has on the side on which it leads to another.
fn estimate_to(table: &RowTable, pass: &mut RowPass, row: u32, child: u32) -> u64
    requires of { IsPassOf table.now pass.old }
    requires row { IsHeld (knows pass.old) row }
    ensures of { IsPassOf table.now pass.new × IsSamePass pass.old pass.new }
    ensures same { knows pass.new ≡ knows pass.old }
{
    let link = if table.word(pass, row, LEFT) == u64::from(child) + 1 {
        LEFT
    } else {
        RIGHT
    };
    table.word(pass, row, link + ESTIMATE)
}

/// Whether a row needs no turn, and the row above it has the estimate that it gives, or is the tree's anchor, which has none.
/// Nothing is claimed of estimates.
pub(crate) fn is_level(table: &RowTable, pass: &mut RowPass, tree: u32, here: u32, row: u32) -> bool
    requires of { IsPassOf table.now pass.old }
    requires here { IsHeld (knows pass.old) here }
    requires row { IsHeld (knows pass.old) row }
    ensures of { IsPassOf table.now pass.new × IsSamePass pass.old pass.new }
    ensures same { knows pass.new ≡ knows pass.old }
    ensures teaches { Teaches (knows pass.old) }
{
    let left = table.word(pass, row, LEFT + ESTIMATE);
    let right = table.word(pass, row, RIGHT + ESTIMATE);
    if left.abs_diff(right) > 1 {
        return false;
    }
    here == tree || estimate_to(table, pass, here, row) == left.max(right).saturating_add(1)
}

/// Sets the estimate of the held row, and turns the row below it with its child where it is deeper on one side by two or more. The
/// answer is the row that is below the held one on the asked range's side now.
///
/// It takes no memory and is never refused.
pub(crate) fn level_out(
    table: &RowTable,
    pass: &mut RowPass,
    tree: u32,
    asked: &KeyRange,
    here: u32,
    row: u32,
) -> u32
    requires of { IsPassOf table.now pass.old }
    requires right { 0 < pass.old.rights }
    requires tree { tree < table.now.plan.trees }
    requires pair { HoldsPair (knows pass.old) tree asked.now (image_at (knows pass.old) here) (image_at (knows pass.old) row) }
    ensures of { IsPassOf table.now pass.new × IsSamePass pass.old pass.new }
    ensures sees { SeesOn (knows pass.old) (knows pass.new) }
    ensures pair { HoldsPair (knows pass.new) tree asked.now (image_at (knows pass.new) here) (image_at (knows pass.new) result) }
    ensures stays { StaysAs tree (image_at (knows pass.old) here) (image_at (knows pass.new) here) }
    ensures free { free_rows (knows pass.new).held ≡ free_rows (knows pass.old).held }
{
    let above = table.load_row(pass, here);
    let below = table.load_row(pass, row);
    let (_, below) = turn_below(table, pass, tree, asked, &above, &below);
    below.row
}
