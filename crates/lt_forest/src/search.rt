//! Where a search for a range goes.
ghost use Rattle.std.specs.Prelude.{◌≡◌};
ghost use Rattle.lt_forest.specs.Visits.{goes_left, goes_right};

use crate::part::Visit;
use lt_ranges::KeyRange;

/// Where a search for the asked range goes from a row: to the left exactly where the asked range's left end is less than
/// the row's, and to the right exactly where its right end is greater than the row's.
pub fn visit(row_range: &KeyRange, asked: &KeyRange) -> Visit
    ensures left { result.left ≡ goes_left row_range.now asked.now }
    ensures right { result.right ≡ goes_right row_range.now asked.now }
{
    Visit {
        left: !row_range.left().is_at_most(&asked.left()),
        right: !asked.right().is_at_most(&row_range.right()),
    }
}
