//! Whom the rows of a part name.
ghost use Rattle.std.specs.Prelude.{◌≡◌, IfOk, map};
ghost use Rattle.lt_seq.specs.Pairs.{others};
ghost use Rattle.lt_forest.specs.Parts.{row_pair};

use lt_forest::PartRow;
use lt_ranges::KeyRange;
use lt_seq::Owners;
use std::alloc::{AllocError, Global};

/// The owners other than the transaction whose rows overlap the range, ascending and each once. The only error is want of memory.
pub fn owners_of(
    alloc: Global,
    rows: &[PartRow],
    txn: u64,
    range: &KeyRange,
) -> Result<Owners, AllocError>
    ensures { IfOk result (λ owners. owners ≡ others txn range.now (map row_pair rows.now)) }
{
    let mut owners: Vec<u64> = rows
        .iter()
        .filter(|row| row.owner != txn && row.range.overlaps(range))
        .map(|row| row.owner)
        .collect(alloc)?;
    owners.sort_unstable();
    owners.dedup();
    Ok(Owners::of(owners))
}
