//! Rotations: a row and one of its children change places.
ghost use Rattle.std.specs.Prelude.{◌≡◌, ◌+◌, ◌-◌, ◌^◌, ◌<◌, [], ◌∷◌};
ghost use Rattle.lt_forest.specs.Layouts.{Turns};

use crate::part::Placed;

/// Turns a row and its left child to the right, and answers the new upper row and the new lower one: the child with its
/// right link on the old upper row, and that row with its left link on what hung between them. In key order both show the
/// same rows and hangs.
///
/// The upper row's number is below 2^32 - 1, so that a link can name it. Whatever had the link to the old upper row is given
/// the link to the new one by the caller.
pub fn rotate_right(top: Placed, low: Placed) -> (Placed, Placed)
    requires link { top.left ≡ low.row + 1 }
    requires small { top.row < 2 ^ 32 - 1 }
    ensures upper { result.0 ≡ record { row = low.row; left = low.left; right = top.row + 1 } }
    ensures lower { result.1 ≡ record { row = top.row; left = low.right; right = top.right } }
    ensures turned { Turns (low ∷ top ∷ []) (result.1 ∷ result.0 ∷ []) (top.row + 1) (low.row + 1) }
{
    (
        Placed {
            row: low.row,
            left: low.left,
            right: top.row + 1,
        },
        Placed {
            row: top.row,
            left: low.right,
            right: top.right,
        },
    )
}

/// Turns a row and its right child to the left: the mirror of `rotate_right`, with the mirrored condition.
pub fn rotate_left(top: Placed, low: Placed) -> (Placed, Placed)
    requires link { top.right ≡ low.row + 1 }
    requires small { top.row < 2 ^ 32 - 1 }
    ensures upper { result.0 ≡ record { row = low.row; left = top.row + 1; right = low.right } }
    ensures lower { result.1 ≡ record { row = top.row; left = top.left; right = low.left } }
    ensures turned { Turns (low ∷ top ∷ []) (result.1 ∷ result.0 ∷ []) (top.row + 1) (low.row + 1) }
{
    (
        Placed {
            row: low.row,
            left: top.row + 1,
            right: low.right,
        },
        Placed {
            row: top.row,
            left: top.left,
            right: low.left,
        },
    )
}
