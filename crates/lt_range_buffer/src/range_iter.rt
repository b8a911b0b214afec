//! Recorded ranges, one after another.
ghost use Rattle.std.specs.Prelude.{◌≡◌};
ghost use Rattle.std.specs.Iterator.{YieldsFirst, item_count};
ghost use Rattle.lt_range_buffer.specs.Records.{AreRecords, ranges_in};

use crate::reading::read_range;
use lt_ranges::KeyRange;
use std::marker::Model;

/// The ranges that are left to come, in the order in which they were appended.
#[derive(Drop)]
pub struct RangeIter<'a> {
    bytes: &'a [u8],
    left: usize,
}

impl<'a> Model for RangeIter<'a> {
    ghost use Rattle.std.specs.Prelude.{List};
    ghost use Rattle.lt_ranges.specs.Interval.{Interval};
    ghost use Rattle.lt_range_buffer.specs.Records.{AreRecords, ranges_in};

    ghost Value = { List Interval };

    ghost view = { λ s. ranges_in s.left s.bytes.now };

    ghost invariant = { λ s. AreRecords s.left s.bytes.now };
}

impl<'a> RangeIter<'a> {
    /// The ranges of so many records.
    pub(crate) fn of(bytes: &'a [u8], left: usize) -> RangeIter<'a>
        requires { AreRecords left bytes.now }
        ensures { result ≡ ranges_in left bytes.now }
    {
        RangeIter { bytes, left }
    }
}

impl Iterator for RangeIter<'_> {
    type Item = KeyRange;

    ghost next_gives = { YieldsFirst (λ s. s) };

    ghost remaining = { item_count (λ s. s) };

    fn next(&mut self) -> Option<KeyRange> {
        if self.left == 0 {
            return None;
        }
        let (range, rest) = read_range(self.bytes);
        self.bytes = rest;
        self.left -= 1;
        Some(range)
    }
}
