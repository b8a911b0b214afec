//! Ranges of keys, both ends included.
ghost use Rattle.std.specs.Prelude.{◌≡◌, ◌↔◌, IsTrue, IsErr, IfOk};
ghost use Rattle.lt_ranges.specs.Key.{key_le};
ghost use Rattle.lt_ranges.specs.Interval.{Interval, IsInterval, overlap, before, covers, hull, whole};
ghost use Rattle.lt_ranges.specs.RangeOrder.{IsOrderOf};

use crate::key::Key;
use crate::range_order::RangeOrder;
use std::fmt;
use std::marker::Model;
use thiserror::Error;

/// The left end of a range was greater than its right one.
#[derive(Clone, Copy, Debug, PartialEq, Eq, Hash, Error)]
#[error("the left end is greater than the right one")]
pub struct Backwards;

/// The keys from a left end to a right one, both included.
#[derive(Clone, Copy, Debug, PartialEq, Eq, Hash)]
pub struct KeyRange {
    left: Key,
    right: Key,
}

impl Model for KeyRange {
    ghost use Rattle.lt_ranges.specs.Interval.{Interval};
    ghost use Rattle.lt_ranges.specs.Key.{key_le};
    ghost use Rattle.std.specs.Prelude.{IsTrue};

    ghost Value = { Interval };

    ghost view = { λ r. record { left = r.left; right = r.right } };

    ghost invariant = { λ r. IsTrue (key_le r.left r.right) };

    ghost inverse = { λ a. record { left = a.left; right = a.right } };
}

impl KeyRange {
    /// The range from `left` to `right`, refused where `left` is the greater of the two.
    #[tactic(auto, unfolding(crate::specs::Key::key_le))]
    pub fn new(left: Key, right: Key) -> Result<KeyRange, Backwards>
        ensures refused { IsErr result ↔ (¬ IsTrue (key_le left right)) }
        ensures value { IfOk result (λ range. range ≡ record { left = left; right = right }) }
    {
        if left <= right {
            Ok(KeyRange { left, right })
        } else {
            Err(Backwards)
        }
    }

    /// The range of all keys, from `Below` to `Above`.
    #[tactic(auto, unfolding(crate::specs::Key::key_le))]
    pub fn whole() -> KeyRange
        ensures { result ≡ whole }
    {
        KeyRange {
            left: Key::Below,
            right: Key::Above,
        }
    }

    /// The left end, which is at most the right one.
    pub fn left(&self) -> Key
        ensures value { result ≡ self.now.left }
        ensures ordered { IsInterval self.now }
    {
        self.left
    }

    /// The right end, which is at least the left one.
    pub fn right(&self) -> Key
        ensures value { result ≡ self.now.right }
        ensures ordered { IsInterval self.now }
    {
        self.right
    }

    /// Whether some key lies in both ranges. A shared end is enough.
    #[tactic(auto, unfolding(crate::specs::Key::key_le))]
    pub fn overlaps(&self, other: &KeyRange) -> bool
        ensures { result ≡ overlap self.now other.now }
    {
        self.left <= other.right && other.left <= self.right
    }

    /// Whether all of the other range lies in this one.
    #[tactic(auto, unfolding(crate::specs::Key::key_le))]
    pub fn covers(&self, other: &KeyRange) -> bool
        ensures { result ≡ covers self.now other.now }
    {
        self.left <= other.left && other.right <= self.right
    }

    /// The least range that covers both.
    pub fn hull(&self, other: &KeyRange) -> KeyRange
        ensures { result ≡ hull self.now other.now }
    {
        KeyRange {
            left: self.left.lesser(other.left),
            right: self.right.greater(other.right),
        }
    }

    /// How this range stands to the other. Of two that don't overlap, one lies before the other.
    #[tactic(auto, using(crate::proofs::IntervalLaws::apart_left, crate::proofs::IntervalLaws::apart_right))]
    pub fn compare(&self, other: &KeyRange) -> RangeOrder
        ensures { IsOrderOf self.now other.now result }
    {
        if self == other {
            RangeOrder::Equal
        } else if self.overlaps(other) {
            RangeOrder::Overlaps
        } else if self.left.is_at_most(&other.left) {
            RangeOrder::Less
        } else {
            RangeOrder::Greater
        }
    }
}

/// The texts of the left end and of the right one, with a space between.
impl fmt::Display for KeyRange {
    fn fmt<W: fmt::Write>(&self, f: &mut fmt::Formatter<W>) -> fmt::Result {
        write!(f, "{} {}", self.left, self.right)
    }
}
