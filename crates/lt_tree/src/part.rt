//! The part with which a gathering begins.
ghost use Rattle.std.specs.Prelude.{◌≡◌, ℕ, ◌<◌, ◌≤◌, ◌^◌, IfOk, []};
ghost use Rattle.std.specs.Prelude.{vec_len, vec_capacity};
ghost use Rattle.lt_forest.specs.Counts.{times};
ghost use Rattle.lt_tree.specs.Gathers.{first_rows, first_hangs};

use lt_forest::{Part, PartRow};
use lt_rows::RowImage;
use std::alloc::{AllocError, Global};

/// A part of nothing, with room for a row and its two links.
pub(crate) fn empty_part(alloc: Global) -> Result<Part, AllocError>
    ensures empty { IfOk result (λ part. (part.rows.items ≡ []) × (part.hangs.items ≡ [])) }
    ensures room { IfOk result (λ part. (1 ≤ vec_capacity part.rows) × (2 ≤ vec_capacity part.hangs)) }
{
    let rows = Vec::with_capacity(alloc, 1)?;
    let hangs = Vec::with_capacity(alloc, 2)?;
    Ok(Part { rows, hangs })
}

/// The part of the child alone, or of the link 0 where there is none.
pub(crate) fn begin(part: &mut Part, child: &Option<RowImage>)
    requires empty { (part.old.rows.items ≡ []) × (part.old.hangs.items ≡ []) }
    requires room { (1 ≤ vec_capacity part.old.rows) × (2 ≤ vec_capacity part.old.hangs) }
    requires small { (x : ℕ) → 0 < times x (first_hangs child.now) → x < 2 ^ 32 }
    ensures rows { part.new.rows.items ≡ first_rows child.now }
    ensures hangs { part.new.hangs.items ≡ first_hangs child.now }
{
    match child {
        None => {
            let _ = part.hangs.push(0);
        }
        Some(child) => {
            let row = PartRow {
                row: child.row,
                owner: child.owner(),
                range: child.range(),
            };
            let left = child.left() as u32;
            let right = child.right() as u32;
            let _ = part.rows.push(row);
            let _ = part.hangs.push(left);
            let _ = part.hangs.push(right);
        }
    }
}
