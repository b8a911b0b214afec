//! A few bytes in a store of fixed size.
ghost use Rattle.std.specs.Prelude.{◌≡◌, ◌<◌, ◌≤◌, ◌↔◌, [], ◌∷◌, ◌++◌, length, IsTrue};
ghost use Rattle.lt_ranges.specs.Numbers.{AreBytes};

use std::marker::Model;

/// Up to `ROOM` bytes, which lie in the value itself. `ROOM` is at most 255.
#[derive(Clone, Copy)]
pub(crate) struct ByteStore<const ROOM: usize> {
    bytes: [u8; ROOM],
    count: u8,
}

impl<const ROOM: usize> Model for ByteStore<ROOM> {
    ghost use Rattle.std.specs.Prelude.{List, ℕ, take, length, replicate, ◌++◌, ◌-◌};
    ghost use Rattle.lt_ranges.specs.ByteStore.{IsPadded, padded_again, count_again};

    ghost Value = { List ℕ };

    ghost view = { λ s. take s.count s.bytes };

    ghost invariant = { λ s. IsPadded ROOM s.bytes s.count };

    ghost inverse = { λ xs. record { bytes = xs ++ replicate (ROOM - length xs) 0; count = length xs } };

    ghost inverse_ok = { λ s h i. record { bytes = padded_again ROOM s.bytes s.count h i; count = count_again ROOM s.bytes s.count h i } };
}

impl<const ROOM: usize> ByteStore<ROOM> {
    /// A store without bytes.
    pub(crate) fn empty() -> Self
        requires { ROOM ≤ 255 }
        ensures { result ≡ [] }
    {
        ByteStore {
            bytes: [0; ROOM],
            count: 0,
        }
    }

    /// Puts a byte behind the others.
    pub(crate) fn push(&mut self, byte: u8)
        requires { length self.old < ROOM }
        ensures { self.new ≡ self.old ++ byte ∷ [] }
    {
        self.bytes[self.count as usize] = byte;
        self.count += 1;
    }

    /// Whether there is no room for another byte.
    pub(crate) fn is_full(&self) -> bool
        ensures { IsTrue result ↔ (length self.now ≡ ROOM) }
    {
        self.count as usize == ROOM
    }

    /// The bytes.
    pub(crate) fn as_slice(&self) -> &[u8]
        ensures value { result.now ≡ self.now }
        ensures bound { length self.now ≤ ROOM }
        ensures of_bytes { AreBytes self.now }
    {
        &self.bytes[..self.count as usize]
    }
}
