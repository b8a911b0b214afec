//! A sink that never fails.
ghost use Rattle.std.specs.Prelude.{◌≡◌, ◌+◌, ◌-◌, ◌^◌, ◌<◌, length, min, None, Ok};
ghost use Rattle.lt_edge.specs.Bytes.{Takes};
ghost use Rattle.lt_edge.specs.Causes.{HasCause};

use crate::{Failed, Sink};

/// A sink that never fails. It takes every byte, and keeps only how many they were.
#[derive(Clone, Copy, Debug, PartialEq, Eq, Hash)]
pub struct NoFailSink {
    taken: u64,
}

impl NoFailSink {
    /// A sink that has taken nothing.
    pub fn new() -> NoFailSink
        ensures { result.taken ≡ 0 }
    {
        NoFailSink { taken: 0 }
    }

    /// How many bytes it has taken. The number stops at 2^64 - 1.
    pub fn taken(&self) -> u64
        ensures { result ≡ self.now.taken }
    {
        self.taken
    }
}

impl Sink for NoFailSink {
    ghost taken = { λ _. None };

    ghost faults = { λ _. 0 };

    fn put(&mut self, bytes: &[u8]) -> Result<usize, Failed>
        requires { 0 < length bytes.now }
        ensures bytes { Takes None None bytes.now result }
        ensures cause { HasCause 0 0 result }

        ensures all { result ≡ Ok (length bytes.now) }
        ensures count { self.new.taken ≡ min (self.old.taken + length bytes.now) (2 ^ 64 - 1) }
    {
        self.taken = self.taken.saturating_add(bytes.len() as u64);
        Ok(bytes.len())
    }
}
