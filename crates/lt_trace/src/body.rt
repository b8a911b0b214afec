//! The body lines of a trace, as far as they are read.
ghost use Rattle.std.specs.Prelude.{◌≡◌, ◌++◌, ◌∷◌, [], is_ok, length, if◌then◌else◌};
ghost use Rattle.lt_trace.specs.Grammar.{has_ended, has_begun, txns_of};

use crate::line::Line;
use std::alloc::{AllocError, Global};
use std::collections::BTreeMap;
use std::marker::Model;

/// The lines in their order, and of each transaction that has one whether it had its last.
#[derive(Drop)]
pub(crate) struct Body {
    lines: Vec<Line>,
    ended: BTreeMap<u64, bool>,
}

impl Model for Body {
    ghost use Rattle.std.specs.Prelude.{List};
    ghost use Rattle.lt_trace.specs.declared.line.Line.{Line};
    ghost use Rattle.lt_trace.specs.Seen.{IsSeen};

    ghost Value = { List Line };

    ghost view = { λ b. b.lines.items };

    ghost invariant = { λ b. IsSeen b.ended b.lines.items };
}

impl Body {
    /// No lines yet.
    pub fn new(alloc: Global) -> Body
        ensures { result ≡ [] }
    {
        Body {
            lines: Vec::new(alloc),
            ended: BTreeMap::new(alloc),
        }
    }

    /// How many lines there are.
    pub fn len(&self) -> usize
        ensures { result ≡ length self.now }
    {
        self.lines.len()
    }

    /// Whether the transaction had its last line.
    pub fn has_ended(&self, txn: u64) -> bool
        ensures { result ≡ has_ended txn self.now }
    {
        self.ended.get(&txn).copied().unwrap_or(false)
    }

    /// Whether the transaction has a line.
    pub fn has_begun(&self, txn: u64) -> bool
        ensures { result ≡ has_begun txn self.now }
    {
        self.ended.contains_key(&txn)
    }

    /// How many transactions have lines.
    pub fn txns(&self) -> usize
        ensures { result ≡ length (txns_of self.now) }
    {
        self.ended.len()
    }

    /// One line more. Where memory runs out, the lines stay as they are.
    pub fn push(&mut self, line: Line) -> Result<(), AllocError>
        ensures { self.new ≡ (if is_ok result then self.old ++ line ∷ [] else self.old) }
    {
        let ended = self.has_ended(line.txn) | line.deed.is_last();
        self.lines.push(line)?;
        match self.ended.insert(line.txn, ended) {
            Ok(_) => Ok(()),
            Err(_) => {
                let _ = self.lines.pop();
                Err(AllocError)
            }
        }
    }

    /// The lines alone.
    pub fn into_lines(self) -> Vec<Line>
        ensures { result.items ≡ self }
    {
        let Body { lines, .. } = self;
        lines
    }
}
