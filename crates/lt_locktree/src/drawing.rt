//! Images of the rows of a part that is laid anew.
ghost use Rattle.std.specs.Prelude.{◌≡◌, ◌+◌, ◌-◌, ◌^◌, ◌<◌, length, All, IfOk};
ghost use Rattle.lt_forest.specs.declared.part.PartRow.{PartRow};
ghost use Rattle.lt_locktree.specs.Drawn.{IsImageOf, Draws};

use lt_forest::PartRow;
use lt_rows::RowImage;
use std::alloc::AllocError;

/// The image of a row with these links. Its estimates of depth are 0.
fn image_of(row: &PartRow, left: u32, right: u32) -> RowImage
    ensures { IsImageOf result row.now left right }
{
    let low = row.range.left().pack();
    let high = row.range.right().pack();
    let words = [
        row.owner,
        low[0],
        low[1],
        low[2],
        low[3],
        low[4],
        low[5],
        low[6],
        low[7],
        high[0],
        high[1],
        high[2],
        high[3],
        high[4],
        high[5],
        high[6],
        high[7],
        u64::from(left),
        u64::from(right),
        0,
        0,
    ];
    RowImage {
        row: row.row,
        words,
    }
}

/// Puts the images of the rows behind the others, as a balanced tree, each behind those of the rows below it, and gives the link to
/// the top row, or what hangs where there is none. The one error is want of memory.
pub(crate) fn draw(
    rows: &[PartRow],
    hangs: &[u32],
    images: &mut Vec<RowImage>,
) -> Result<u32, AllocError>
    requires hangs_between { length hangs.now ≡ length rows.now + 1 }
    requires small { All (λ (r : PartRow). r.row < 2 ^ 32 - 1) rows.now }
    ensures { IfOk result (λ link. Draws images.old.items images.new.items link rows.now hangs.now) }
{
    if rows.is_empty() {
        return Ok(hangs[0]);
    }
    let middle = rows.len() / 2;
    let left = draw(&rows[..middle], &hangs[..middle + 1], images)?;
    let right = draw(&rows[middle + 1..], &hangs[middle + 1..], images)?;
    let top = rows[middle];
    images.push(image_of(&top, left, right))?;
    Ok(top.row + 1)
}
