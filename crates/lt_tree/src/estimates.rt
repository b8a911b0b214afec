//! Images of rows with other links, and with the estimates of depth that they carry. Nothing is claimed of an estimate.
ghost use Rattle.std.specs.Prelude.{◌≡◌, ◌≢◌, ◌+◌, ◌-◌, ◌^◌, ◌<◌, IfSome};
ghost use Rattle.lt_rows.specs.Nodes.{mode_of, node_of, SameRange};
ghost use Rattle.lt_tree.specs.declared.estimates.Side.TheVariants.{Left, Right};
ghost use Rattle.lt_tree.specs.Turnings.{link_of, with_link, turned_upper, turned_lower, AllLinksSmall, IsSideTo, IsMeasured};

use lt_forest::{Placed, rotate_left, rotate_right};
use lt_rows::RowImage;

/// A side of a row.
#[derive(Clone, Copy)]
pub enum Side {
    Left,
    Right,
}

/// Two rows that were turned.
#[derive(Clone, Copy)]
pub struct Turned {
    pub upper: RowImage,
    pub lower: RowImage,
}

/// The other side.
fn opposite(side: Side) -> Side {
    match side {
        Side::Left => Side::Right,
        Side::Right => Side::Left,
    }
}

/// The link of a row on a side.
pub(crate) fn link_on(image: &RowImage, side: Side) -> u64
    ensures { result ≡ link_of side (node_of image.now.words) }
{
    match side {
        Side::Left => image.left(),
        Side::Right => image.right(),
    }
}

/// The side of a row on which it has this link, the left one first.
pub(crate) fn side_to(image: &RowImage, link: u64) -> Side
    ensures { IsSideTo (node_of image.now.words) link result }
{
    if image.left() == link {
        Side::Left
    } else {
        Side::Right
    }
}

/// The row with another link on a side.
pub(crate) fn relink(image: RowImage, side: Side, link: u32) -> RowImage
    ensures row { result.row ≡ image.row }
    ensures node { node_of result.words ≡ with_link side link (node_of image.words) }
    ensures mode { mode_of result.words ≡ mode_of image.words }
    ensures range { SameRange result.words image.words }
{
    let at = match side {
        Side::Left => 17,
        Side::Right => 18,
    };
    let mut relinked = image;
    relinked.words[at] = u64::from(link);
    relinked
}

/// How deep the rows below a row are estimated to stand on a side.
fn estimate(image: &RowImage, side: Side) -> u64 {
    match side {
        Side::Left => image.words[19],
        Side::Right => image.words[20],
    }
}

/// The row with another estimate on a side.
pub(crate) fn re_estimate(image: &RowImage, side: Side, depth: u64) -> RowImage
    ensures row { result.row ≡ image.now.row }
    ensures node { node_of result.words ≡ node_of image.now.words }
    ensures range { SameRange result.words image.now.words }
{
    let at = match side {
        Side::Left => 19,
        Side::Right => 20,
    };
    let mut measured = *image;
    measured.words[at] = depth;
    measured
}

/// How deep a row and the rows below it are estimated to stand.
fn depth(image: &RowImage) -> u64 {
    image.words[19].max(image.words[20]).saturating_add(1)
}

/// The row with the estimate that its child gives it; `None` where the row has it, or is the tree's anchor, which has none.
pub(crate) fn measure(tree: u32, image: &RowImage, child: &RowImage) -> Option<RowImage>
    ensures measured { IfSome result (λ now. IsMeasured tree image.now now × (image.now.row ≢ tree)) }
    ensures range { IfSome result (λ now. SameRange now.words image.now.words) }
{
    let side = side_to(image, u64::from(child.row) + 1);
    let depth = depth(child);
    if image.row == tree || estimate(image, side) == depth {
        None
    } else {
        Some(re_estimate(image, side, depth))
    }
}

/// The side of a row on which its estimate is greater by two or more.
pub(crate) fn deeper_side(image: &RowImage) -> Option<Side> {
    let left = image.words[19];
    let right = image.words[20];
    if left > right && left - right > 1 {
        Some(Side::Left)
    } else if right > left && right - left > 1 {
        Some(Side::Right)
    } else {
        None
    }
}

/// The links with which a row is placed.
fn placed(image: &RowImage) -> Placed
    requires { AllLinksSmall (node_of image.now.words) }
    ensures { result ≡ record { row = image.now.row; left = (node_of image.now.words).left; right = (node_of image.now.words).right } }
{
    Placed {
        row: image.row,
        left: image.left() as u32,
        right: image.right() as u32,
    }
}

/// A row with the links with which it is placed.
fn linked(image: &RowImage, links: &Placed) -> RowImage
    ensures row { result.row ≡ image.now.row }
    ensures node { node_of result.words ≡ with_link Right links.now.right (with_link Left links.now.left (node_of image.now.words)) }
    ensures range { SameRange result.words image.now.words }
{
    let relinked = relink(*image, Side::Left, links.left);
    relink(relinked, Side::Right, links.right)
}

/// A row and its child on a side are turned: the child becomes the upper one. Each gets the estimates that follow from those known.
pub(crate) fn turn(row: &RowImage, child: &RowImage, side: Side) -> Turned
    requires link { link_of side (node_of row.now.words) ≡ child.now.row + 1 }
    requires small { row.now.row < 2 ^ 32 - 1 }
    requires links { AllLinksSmall (node_of row.now.words) × AllLinksSmall (node_of child.now.words) }
    ensures rows { (result.upper.row ≡ child.now.row) × (result.lower.row ≡ row.now.row) }
    ensures upper { node_of result.upper.words ≡ turned_upper side row.now.row (node_of child.now.words) }
    ensures lower { node_of result.lower.words ≡ turned_lower side (node_of child.now.words) (node_of row.now.words) }
    ensures ranges { SameRange result.upper.words child.now.words × SameRange result.lower.words row.now.words }
{
    let (above, below) = match side {
        Side::Left => rotate_right(placed(row), placed(child)),
        Side::Right => rotate_left(placed(row), placed(child)),
    };
    let far = opposite(side);
    let lower = re_estimate(&linked(row, &below), side, estimate(child, far));
    let upper = re_estimate(&linked(child, &above), far, depth(&lower));
    Turned { upper, lower }
}
