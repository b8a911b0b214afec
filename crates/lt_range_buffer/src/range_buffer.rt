//! The ranges that a transaction was granted in a tree.
ghost use Rattle.std.specs.Prelude.{◌≡◌, ◌==◌, ◌++◌, ◌∷◌, [], length, is_ok, if◌then◌else◌};
ghost use Rattle.lt_range_buffer.specs.Records.{bytes_of};

use crate::range_iter::RangeIter;
use crate::writing::put_range;
use lt_ranges::KeyRange;
use std::alloc::{AllocError as OutOfMemory, Global};
use std::marker::Model;

/// Ranges in the order in which they were appended, as bytes: a record each.
#[derive(Debug, Drop)]
pub struct RangeBuffer {
    bytes: Vec<u8>,
    len: usize,
}

impl Model for RangeBuffer {
    ghost use Rattle.std.specs.Prelude.{List};
    ghost use Rattle.lt_ranges.specs.Interval.{Interval};
    ghost use Rattle.lt_range_buffer.specs.Records.{AreRecords, ranges_in};

    ghost Value = { List Interval };

    ghost view = { λ b. ranges_in b.len b.bytes.items };

    ghost invariant = { λ b. AreRecords b.len b.bytes.items };
}

impl RangeBuffer {
    /// A buffer with no range. Takes no memory.
    pub fn new(alloc: Global) -> RangeBuffer
        ensures { result ≡ [] }
    {
        RangeBuffer {
            bytes: Vec::new(alloc),
            len: 0,
        }
    }

    /// Adds a range behind the others. Want of memory leaves the buffer as it was.
    pub fn append(&mut self, range: &KeyRange) -> Result<(), OutOfMemory>
        ensures { self.new ≡ (if is_ok result then self.old ++ range.now ∷ [] else self.old) }
    {
        let before = self.bytes.len();
        if let Err(short) = put_range(&mut self.bytes, range) {
            self.bytes.truncate(before);
            return Err(short);
        }
        self.len += 1;
        Ok(())
    }

    /// The ranges, the first one first.
    pub fn iter(&self) -> RangeIter<'_>
        ensures { result ≡ self.now }
    {
        RangeIter::of(&self.bytes, self.len)
    }

    /// How many ranges there are.
    pub fn len(&self) -> usize
        ensures { result ≡ length self.now }
    {
        self.len
    }

    /// Whether there is no range.
    pub fn is_empty(&self) -> bool
        ensures { result ≡ (length self.now == 0) }
    {
        self.len == 0
    }

    /// The records, one after another: 1 and a key for a point, 2 and both keys for any other range, and of each key its
    /// code and its bytes.
    pub fn bytes(&self) -> &[u8]
        ensures { result.now ≡ bytes_of self.now }
    {
        &self.bytes
    }

    /// Forgets all ranges, and keeps the memory.
    pub fn clear(&mut self)
        ensures { self.new ≡ [] }
    {
        self.bytes.clear();
        self.len = 0;
    }
}
