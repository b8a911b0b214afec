//! A source over a reader of std.
ghost use Rattle.std.specs.Prelude.{◌≡◌, OnErr, ◌<◌, length};
ghost use Rattle.std.specs.Io.{ReadsAtMost};
ghost use Rattle.std.specs.Io.KnownBytes.{ReadConsumes};
ghost use Rattle.lt_edge.specs.Causes.{HasCause, counted};

use crate::{Failed, Source};
use std::io::Read;

/// A source over a reader of std. It tells the bytes left where the reader does, and counts each error of the reader.
#[derive(Drop)]
pub struct ReadSource<R> {
    reader: R,
    faults: u64,
}

impl<R: Read> ReadSource<R> {
    /// A source that has not failed yet.
    pub fn new(reader: R) -> ReadSource<R>
        ensures { result ≡ record { reader = reader; faults = 0 } }
    {
        ReadSource { reader, faults: 0 }
    }
}

impl<R: Read> Source for ReadSource<R> {
    ghost left = { λ s. R.remaining s.reader };

    ghost faults = { λ s. s.faults };

    fn next(&mut self, buf: &mut [u8]) -> Result<usize, Failed>
        requires { 0 < length buf.old }
        ensures bound { ReadsAtMost result buf.new }
        ensures bytes { ReadConsumes (R.remaining self.old.reader) (R.remaining self.new.reader) result buf.new }
        ensures cause { HasCause self.old.faults self.new.faults result }
        ensures counted { OnErr result (self.new.faults ≡ counted self.old.faults) }
    {
        match self.reader.read(buf) {
            Ok(n) => Ok(n),
            Err(_) => {
                self.faults = self.faults.saturating_add(1);
                Err(Failed)
            }
        }
    }
}
