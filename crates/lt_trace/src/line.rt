//! The lines of a trace.
ghost use Rattle.std.specs.Prelude.{◌≡◌};
ghost use Rattle.lt_trace.specs.Grammar.{is_last};

use lt_ranges::KeyRange;

/// What a line asks for.
#[derive(Clone, Copy, Debug, PartialEq, Eq, Hash)]
pub enum LineDeed {
    /// Ask once for a range.
    Try { tree: u32, range: KeyRange },
    /// Ask for a range, and wait where it is held.
    Lock { tree: u32, range: KeyRange },
    /// Release all; the outcome is done.
    End,
    /// Release all; the outcome is aborted.
    Abort,
    /// Join the neighbouring ranges of each owner in a tree.
    Escalate { tree: u32 },
    /// From here on the transaction is a big one.
    Big,
}

impl LineDeed {
    /// Whether a transaction has no line behind this one.
    pub fn is_last(&self) -> bool
        ensures { result ≡ is_last self.now }
    {
        matches!(self, LineDeed::End | LineDeed::Abort)
    }
}

/// A line of a transaction.
#[derive(Clone, Copy, Debug, PartialEq, Eq, Hash)]
pub struct Line {
    /// The transaction, from 1 to 999,999,999.
    pub txn: u64,
    /// The line's number in its trace; the first line of a body is line 5.
    pub number: u32,
    pub deed: LineDeed,
}
