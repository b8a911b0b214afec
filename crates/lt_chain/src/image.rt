//! The image of a chain's row.
ghost use Rattle.std.specs.Prelude.{◌≡◌};
ghost use Rattle.lt_rows.specs.Nodes.{node_of};
ghost use Rattle.lt_chain.specs.Images.{chain_node};

use lt_ranges::KeyRange;
use lt_rows::RowImage;

/// The image of a row that holds the range for its owner, and leads to the next row of its chain.
pub(crate) fn chain_row(row: u32, owner: u64, range: &KeyRange, next: u64) -> RowImage
    ensures row { result.row ≡ row }
    ensures node { node_of result.words ≡ chain_node owner range.now next }
{
    let a = range.left().pack();
    let b = range.right().pack();
    let words = [
        owner, a[0], a[1], a[2], a[3], a[4], a[5], a[6], a[7], b[0], b[1], b[2], b[3], b[4], b[5],
        b[6], b[7], next, 0, 0, 0,
    ];
    RowImage { row, words }
}
