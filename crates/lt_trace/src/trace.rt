//! Traces.
ghost use Rattle.std.specs.Prelude.{◌≡◌};
ghost use Rattle.lt_trace.specs.Grammar.{IsTrace, IsFront};
ghost use Rattle.lt_trace.specs.Reading.{front_of, trace_of};

use crate::header::Header;
use crate::line::Line;
use std::marker::Model;

/// A trace in the grammar: a header, and what transactions do line by line.
#[derive(Debug, Drop)]
pub struct Trace {
    header: Header,
    lines: Vec<Line>,
}

impl Model for Trace {
    ghost use Rattle.lt_trace.specs.Trace.{TraceView};
    ghost use Rattle.lt_trace.specs.Grammar.{IsTrace};
    ghost use Rattle.lt_trace.specs.Reading.{trace_of};

    ghost Value = { TraceView };

    ghost view = { λ t. trace_of t.header t.lines.items };

    ghost invariant = { λ t. IsTrace (trace_of t.header t.lines.items) };
}

impl Trace {
    /// The trace of a header and of lines without a fault behind it.
    pub(crate) fn new(header: Header, lines: Vec<Line>) -> Trace
        requires { IsFront (front_of header lines.items) }
        ensures { result ≡ trace_of header lines.items }
    {
        Trace { header, lines }
    }

    /// The version of its text, 1 or 2.
    pub fn version(&self) -> u32
        ensures { result ≡ self.now.version }
    {
        self.header.version
    }

    /// How many trees the table has, from 1 to 16.
    pub fn trees(&self) -> u32
        ensures { result ≡ self.now.trees }
    {
        self.header.trees
    }

    /// The limit on rows in use, from 1 to 65,536.
    pub fn limit(&self) -> u64
        ensures { result ≡ self.now.limit }
    {
        self.header.limit
    }

    /// The most ranges of a buffer, from 0 to 65,536; 0 for no buffers.
    pub fn buffer(&self) -> u64
        ensures { result ≡ self.now.buffer }
    {
        self.header.buffer
    }

    /// The lines of its body.
    pub fn lines(&self) -> &[Line]
        ensures lines { result.now ≡ self.now.lines }
        ensures trace { IsTrace self.now }
    {
        &self.lines
    }
}
