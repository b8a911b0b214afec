//! A sink over a writer of std.
ghost use Rattle.std.specs.Prelude.{◌≡◌, OnErr, ◌<◌, length};
ghost use Rattle.lt_edge.specs.Bytes.{Takes};
ghost use Rattle.lt_edge.specs.Causes.{HasCause, counted};

use crate::{Failed, Sink};
use std::io::Write;

/// A sink over a writer of std. It tells the bytes taken where the writer does, and counts each error of the writer
/// and each write that takes nothing.
#[derive(Drop)]
pub struct WriteSink<W> {
    writer: W,
    faults: u64,
}

impl<W: Write> WriteSink<W> {
    /// A sink that has not failed yet.
    pub fn new(writer: W) -> WriteSink<W>
        ensures { result ≡ record { writer = writer; faults = 0 } }
    {
        WriteSink { writer, faults: 0 }
    }
}

impl<W: Write> Sink for WriteSink<W> {
    ghost taken = { λ s. W.contents s.writer };

    ghost faults = { λ s. s.faults };

    fn put(&mut self, bytes: &[u8]) -> Result<usize, Failed>
        requires { 0 < length bytes.now }
        ensures bytes { Takes (W.contents self.old.writer) (W.contents self.new.writer) bytes.now result }
        ensures cause { HasCause self.old.faults self.new.faults result }
        ensures counted { OnErr result (self.new.faults ≡ counted self.old.faults) }
    {
        match self.writer.write(bytes) {
            Ok(n) if n > 0 => Ok(n),
            _ => {
                self.faults = self.faults.saturating_add(1);
                Err(Failed)
            }
        }
    }
}
