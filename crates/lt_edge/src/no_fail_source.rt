//! A source that never fails.
ghost use Rattle.std.specs.Prelude.{◌≡◌, ◌<◌, length, drop, min, Some, Ok};
ghost use Rattle.std.specs.Io.{ReadsAtMost};
ghost use Rattle.std.specs.Io.KnownBytes.{ReadConsumes};
ghost use Rattle.lt_edge.specs.Causes.{HasCause};

use crate::{Failed, Source};
use std::marker::Model;

/// A source of given bytes that never fails. Contracts see the bytes left.
#[derive(Debug, Drop)]
pub struct NoFailSource {
    bytes: Vec<u8>,
    at: usize,
}

impl Model for NoFailSource {
    ghost use Rattle.std.specs.Prelude.{ℕ, List, ◌≤◌, drop, vec_len};

    ghost Value = { List ℕ };

    ghost view = { λ s. drop s.at s.bytes.items };

    ghost invariant = { λ s. s.at ≤ vec_len s.bytes };
}

impl NoFailSource {
    /// A source that has all the bytes left.
    pub fn new(bytes: Vec<u8>) -> NoFailSource
        ensures { result ≡ bytes.items }
    {
        NoFailSource { bytes, at: 0 }
    }
}

impl Source for NoFailSource {
    ghost left = { λ s. Some s };

    ghost faults = { λ _. 0 };

    fn next(&mut self, buf: &mut [u8]) -> Result<usize, Failed>
        requires { 0 < length buf.old }
        ensures bound { ReadsAtMost result buf.new }
        ensures bytes { ReadConsumes (Some self.old) (Some self.new) result buf.new }
        ensures cause { HasCause 0 0 result }

        ensures given { result ≡ Ok (min (length buf.old) (length self.old)) }
        ensures left { self.new ≡ drop (min (length buf.old) (length self.old)) self.old }
    {
        let n = buf.len().min(self.bytes.len() - self.at);
        buf[..n].copy_from_slice(&self.bytes[self.at..self.at + n]);
        self.at += n;
        Ok(n)
    }
}
