//! Rows for the pairs of a buffer that ends.
ghost use Rattle.std.specs.Prelude.{◌≡◌, ◌≤◌, length, IfOk};
ghost use Rattle.lt_locktree.specs.EndingRows.{stood_in};

use lt_forest::PartRow;
use lt_seq::Pair;
use std::alloc::{AllocError, Global};

/// One pair in each row, from the first row on. The one error is want of memory.
pub fn stand_pairs(alloc: Global, rows: &[u32], pairs: &[Pair]) -> Result<Vec<PartRow>, AllocError>
    requires enough { length pairs.now ≤ length rows.now }
    ensures { IfOk result (λ stood. stood.items ≡ stood_in rows.now pairs.now) }
{
    let mut stood = Vec::new(alloc);
    for (at, pair) in pairs.iter().enumerate() {
        stood.push(PartRow {
            row: rows[at],
            owner: pair.owner,
            range: pair.range,
        })?;
    }
    Ok(stood)
}
