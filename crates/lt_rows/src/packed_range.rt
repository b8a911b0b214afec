//! A range with its packed ends.
ghost use Rattle.std.specs.Prelude.{◌≡◌, length};
ghost use Rattle.lt_ranges.specs.Interval.{IsInterval};
ghost use Rattle.lt_ranges.specs.Packing.{IsValid, packed};
ghost use Rattle.lt_rows.specs.Nodes.{key_of};
ghost use Rattle.lt_rows.specs.Packing.{PacksKey};
ghost use Rattle.lt_rows.specs.Sides.{IsSideOf, at};

use crate::packing::{packs_key, read_key};
use crate::range_side::RangeSide;
use lt_ranges::{KEY_WORDS, Key, KeyRange};

/// A range, and the words that its two ends pack to. Against these a search compares what rows hold.
#[derive(Drop)]
pub struct PackedRange {
    range: KeyRange,
    left: [u64; KEY_WORDS],
    right: [u64; KEY_WORDS],
    ghost ordered: { IsInterval range },
    ghost packs_left: { IsValid range.left × (left ≡ packed range.left) },
    ghost packs_right: { IsValid range.right × (right ≡ packed range.right) },
}

impl PackedRange {
    /// The range with its ends packed.
    pub fn of(range: &KeyRange) -> PackedRange
        ensures { result.range ≡ range.now }
    {
        PackedRange {
            range: *range,
            left: range.left().pack(),
            right: range.right().pack(),
        }
    }

    /// The side on which the key of eight words lies, where they pack one, by all its words.
    fn side_of_all(&self, words: &[u64]) -> RangeSide
        requires { PacksKey words.now }
        ensures { IsSideOf (at (key_of words.now)) self.now.range result }
    {
        if words.cmp(&self.right[..]).is_gt() {
            RangeSide::Behind
        } else if words.cmp(&self.left[..]).is_lt() {
            RangeSide::Before
        } else {
            RangeSide::Meets
        }
    }

    /// The side on which the key of eight words lies, where they pack one. Mostly the first word tells.
    fn side_of_words(&self, words: &[u64]) -> RangeSide
        requires long { length words.now ≡ 8 }
        requires packs { PacksKey words.now }
        ensures { IsSideOf (at (key_of words.now)) self.now.range result }
    {
        if self.right[0] < words[0] {
            RangeSide::Behind
        } else if words[0] < self.left[0] {
            RangeSide::Before
        } else {
            self.side_of_all(words)
        }
    }

    /// The side on which a key lies.
    fn side_of_key(&self, key: &Key) -> RangeSide
        ensures { IsSideOf (at key.now) self.now.range result }
    {
        if !key.is_at_most(&self.range.right()) {
            RangeSide::Behind
        } else if !self.range.left().is_at_most(key) {
            RangeSide::Before
        } else {
            RangeSide::Meets
        }
    }

    /// The side on which the key of eight words lies. Words that pack a key are compared as they are; of others the key that they
    /// are read as is.
    pub(crate) fn side(&self, words: &[u64]) -> RangeSide
        requires { length words.now ≡ 8 }
        ensures { IsSideOf (at (key_of words.now)) self.now.range result }
    {
        if packs_key(words) {
            self.side_of_words(words)
        } else {
            self.side_of_key(&read_key(words))
        }
    }
}
