//! What the words of a row say.
ghost use Rattle.std.specs.Prelude.{◌≡◌, ◌+◌, ◌≤◌, take, drop};
ghost use Rattle.lt_rows.specs.Nodes.{key_of, node_of, upwards};
ghost use Rattle.lt_rows.specs.Sides.{IsSideOf};

use crate::image::RowImage;
use crate::packed_range::PackedRange;
use crate::packing::{are_same, read_key};
use crate::range_side::RangeSide;
use lt_ranges::{KEY_WORDS, Key, KeyRange};

/// The range from one key to the greater of the two.
#[tactic(auto, using(lt_ranges::proofs::KeyLaws::le_itself))]
fn upwards(left: &Key, right: &Key) -> KeyRange
    ensures { result ≡ upwards left.now right.now }
{
    if let Ok(range) = KeyRange::new(*left, *right) {
        return range;
    }
    match KeyRange::new(*left, *left) {
        Ok(range) => range,
        Err(_) => unreachable!(),
    }
}

impl RowImage {
    /// The transaction whose range the row holds, or 0.
    #[tactic(auto, unfolding(crate::specs::Nodes::node_of))]
    pub fn owner(&self) -> u64
        ensures { result ≡ (node_of self.now.words).owner }
    {
        self.words[0]
    }

    /// The key that eight words pack, or the least where they pack none.
    fn key(&self, at: usize) -> Key
        requires { at + 8 ≤ 21 }
        ensures { result ≡ key_of (take 8 (drop at self.now.words)) }
    {
        read_key(&self.words[at..at + KEY_WORDS])
    }

    /// The left end of the range that the row holds.
    #[tactic(auto, unfolding(crate::specs::Nodes::node_of))]
    pub fn left_key(&self) -> Key
        ensures { result ≡ (node_of self.now.words).range.left }
    {
        self.key(1)
    }

    /// The range that the row holds: from its left key to the greater of the two. Of equal ones it unpacks one.
    #[tactic(auto, unfolding(crate::specs::Nodes::node_of))]
    pub fn range(&self) -> KeyRange
        ensures { result ≡ (node_of self.now.words).range }
    {
        let left = self.key(1);
        if are_same(&self.words[1..9], &self.words[9..17]) {
            upwards(&left, &left)
        } else {
            upwards(&left, &self.key(9))
        }
    }

    /// On which side of the asked range the row's range lies. Where its left key lies before the asked range, the greater of its two
    /// keys does only if the right one does too; else the right key is not looked at.
    pub fn compare(&self, asked: &PackedRange) -> RangeSide
        ensures { IsSideOf (node_of self.now.words).range asked.now.range result }
    {
        match asked.side(&self.words[1..9]) {
            RangeSide::Before => match asked.side(&self.words[9..17]) {
                RangeSide::Before => RangeSide::Before,
                RangeSide::Meets | RangeSide::Behind => RangeSide::Meets,
            },
            RangeSide::Meets => RangeSide::Meets,
            RangeSide::Behind => RangeSide::Behind,
        }
    }

    /// The left link: 0 for none, and else a row's number plus 1.
    #[tactic(auto, unfolding(crate::specs::Nodes::node_of))]
    pub fn left(&self) -> u64
        ensures { result ≡ (node_of self.now.words).left }
    {
        self.words[17]
    }

    /// The right link.
    #[tactic(auto, unfolding(crate::specs::Nodes::node_of))]
    pub fn right(&self) -> u64
        ensures { result ≡ (node_of self.now.words).right }
    {
        self.words[18]
    }
}
