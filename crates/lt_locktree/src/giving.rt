//! Images of rows that go to the pool.
ghost use Rattle.std.specs.Prelude.{IfOk, reverse};
ghost use Rattle.lt_locktree.specs.Given.{Chains};

use lt_forest::PartRow;
use lt_rows::RowImage;
use std::alloc::AllocError;

/// Puts behind the other images those of rows that go to the front of the pool. Each leads on to the one before it, and the first one
/// by the link `rest`. Gives the link to the last one. The one error is want of memory.
pub(crate) fn chain(
    rows: &[PartRow],
    rest: u64,
    images: &mut Vec<RowImage>,
) -> Result<u64, AllocError>
    ensures { IfOk result (λ link. Chains images.old.items images.new.items link (reverse rows.now) rest) }
{
    let mut link = rest;
    for row in rows {
        let mut words = [0; 21];
        words[17] = link;
        images.push(RowImage {
            row: row.row,
            words,
        })?;
        link = u64::from(row.row) + 1;
    }
    Ok(link)
}
