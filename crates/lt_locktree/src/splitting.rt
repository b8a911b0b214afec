//! Where a range stands among the rows of a part.
ghost use Rattle.std.specs.Prelude.{◌≡◌, ℕ, [], map, true};
ghost use Rattle.std.specs.List.{AllWithin};
ghost use Rattle.lt_seq.specs.Pairs.{IsLawful, is_own, others};
ghost use Rattle.lt_ranges.specs.Interval.{IsInterval};
ghost use Rattle.lt_forest.specs.Parts.{row_pair};
ghost use Rattle.lt_locktree.specs.Splits.{IsSplit};

use lt_forest::PartRow;
use lt_ranges::KeyRange;
use std::ops::Range;

/// Where the rows stand that overlap the range: side by side. It is empty at the range's own place where no row overlaps.
/// Where nobody else's row overlaps they are all the transaction's.
pub fn overlapping(rows: &[PartRow], range: &KeyRange) -> Range<usize>
    requires { IsLawful (map row_pair rows.now) }
    ensures range { IsInterval range.now }
    ensures split { IsSplit range.now rows.now result.start result.end }
    ensures own { (txn : ℕ) → others txn range.now (map row_pair rows.now) ≡ []
        → AllWithin (λ r. is_own txn range.now (row_pair r) ≡ true) rows.now result.start result.end }
{
    let left = range.left();
    let right = range.right();
    let start = rows.partition_point(|row| !left.is_at_most(&row.range.right()));
    let end = rows.partition_point(|row| row.range.left().is_at_most(&right));
    start..end
}
