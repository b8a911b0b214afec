//! The plan of a part that is laid anew.
ghost use Rattle.std.specs.Prelude.{◌≡◌, ◌+◌, ◌-◌, ◌^◌, ◌<◌, length, All, OnOk};
ghost use Rattle.lt_forest.specs.declared.part.PartRow.{PartRow};
ghost use Rattle.lt_locktree.specs.PlannedParts.{relinked, PlansRows};

use crate::drawing::draw;
use lt_forest::PartRow;
use lt_ranges::KeyRange;
use lt_rows::RowImage;
use std::alloc::AllocError;

/// The row that stays with another link to the part, which hangs on its left side where it is the tree's anchor or the range lies
/// before it.
fn relink(stays: &RowImage, tree: u32, asked: &KeyRange, link: u32) -> RowImage
    ensures { result ≡ relinked tree asked.now stays.now link }
{
    let on_left = stays.row == tree || !stays.left_key().is_at_most(&asked.right());
    let mut image = *stays;
    image.words[if on_left { 17 } else { 18 }] = u64::from(link);
    image
}

/// Puts behind the other images of a plan those of the part's rows, laid out as a balanced tree, and that of the row that stays. The
/// one error is want of memory.
pub fn plan_rows(
    stays: &RowImage,
    tree: u32,
    asked: &KeyRange,
    rows: &[PartRow],
    hangs: &[u32],
    images: &mut Vec<RowImage>,
) -> Result<(), AllocError>
    requires hangs_between { length hangs.now ≡ length rows.now + 1 }
    requires small { All (λ (r : PartRow). r.row < 2 ^ 32 - 1) rows.now }
    ensures { OnOk result (PlansRows tree asked.now stays.now images.old.items images.new.items rows.now hangs.now) }
{
    let link = draw(rows, hangs, images)?;
    images.push(relink(stays, tree, asked, link))?;
    Ok(())
}
