//! The plan of an event that ends a buffer.
ghost use Rattle.std.specs.Prelude.{◌≡◌, ◌+◌, ◌-◌, ◌^◌, ◌<◌, All, OnOk};
ghost use Rattle.lt_forest.specs.declared.part.PartRow.{PartRow};
ghost use Rattle.lt_locktree.specs.EndingPlans.{PlansTree};

use crate::planning::plan_rows;
use lt_forest::PartRow;
use lt_ranges::KeyRange;
use lt_rows::RowImage;
use std::alloc::{AllocError, Global};

/// Puts behind the other images of a plan those of the rows, laid out as a whole tree, and that of the anchor with this score. The one
/// error is want of memory.
pub fn plan_tree(
    alloc: Global,
    anchor: &RowImage,
    score: u64,
    tree: u32,
    asked: &KeyRange,
    rows: &[PartRow],
    images: &mut Vec<RowImage>,
) -> Result<(), AllocError>
    requires small { All (λ (r : PartRow). r.row < 2 ^ 32 - 1) rows.now }
    ensures { OnOk result (PlansTree tree asked.now anchor.now score images.old.items images.new.items rows.now) }
{
    let mut stays = *anchor;
    stays.words[0] = 0;
    stays.words[19] = score;
    stays.words[20] = 0;
    let hangs = vec![in alloc; 0; rows.len() + 1]?;
    plan_rows(&stays, tree, asked, rows, &hangs, images)
}
