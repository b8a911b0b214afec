//! Laying a part out as a tree.
ghost use Rattle.std.specs.Prelude.{◌≡◌, ◌+◌, ◌-◌, ◌^◌, ◌<◌, length, All, IfOk};
ghost use Rattle.lt_forest.specs.declared.part.PartRow.{PartRow};
ghost use Rattle.lt_forest.specs.Parts.{numbers};
ghost use Rattle.lt_forest.specs.Layouts.{IsLayout, LaysOut};

use crate::part::{Part, PartRow, Placed};
use std::alloc::{AllocError, Global};

/// A part laid out as a tree.
#[derive(Debug, Drop)]
pub struct Layout {
    /// The link to its top row, or what hangs where the part has no row.
    pub top: u32,
    /// Its rows with their links, each behind the rows below it.
    pub placed: Vec<Placed>,
}

/// Places the rows below one link, the middle one at the top, and gives that link.
fn place(rows: &[PartRow], hangs: &[u32], placed: &mut Vec<Placed>) -> Result<u32, AllocError>
    requires hangs_between { length hangs.now ≡ length rows.now + 1 }
    requires small { All (λ (r : PartRow). r.row < 2 ^ 32 - 1) rows.now }
    ensures { IfOk result (λ link. LaysOut placed.old.items placed.new.items link (numbers rows.now) hangs.now) }
{
    if rows.is_empty() {
        return Ok(hangs[0]);
    }
    let middle = rows.len() / 2;
    let left = place(&rows[..middle], &hangs[..middle + 1], placed)?;
    let right = place(&rows[middle + 1..], &hangs[middle + 1..], placed)?;
    let row = rows[middle].row;
    placed.push(Placed { row, left, right })?;
    Ok(row + 1)
}

/// Lays a part out as a balanced tree that shows the same rows and hangs in key order. Of n rows at most one more than the
/// binary logarithm of n stand below each other.
///
/// The part has one more hang than rows, and each row's number is below 2^32 - 1, so that a link can name it. The one error
/// is want of memory.
pub fn lay_out(alloc: Global, part: &Part) -> Result<Layout, AllocError>
    requires hangs_between { length part.now.hangs.items ≡ length part.now.rows.items + 1 }
    requires small { All (λ (r : PartRow). r.row < 2 ^ 32 - 1) part.now.rows.items }
    ensures { IfOk result (λ layout. IsLayout layout.placed.items layout.top (numbers part.now.rows.items) part.now.hangs.items) }
{
    let mut placed = Vec::new(alloc);
    let top = place(&part.rows, &part.hangs, &mut placed)?;
    Ok(Layout { top, placed })
}
