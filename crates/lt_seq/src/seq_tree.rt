//! One tree of the plain table.
ghost use Rattle.std.specs.Prelude.{◌≡◌, ◌++◌, [], length, OnOk, OnErr, IfOk};
ghost use Rattle.lt_ranges.specs.Interval.{IsInterval};
ghost use Rattle.lt_seq.specs.declared.event.Reply.TheVariants.{Buffered};
ghost use Rattle.lt_seq.specs.Table.{fresh, rows_in, ended, is_whole, is_buffered, ask_reply};
ghost use Rattle.lt_seq.specs.Table.{after_ask, free_count, after_free, mode_asked, held_in};
ghost use Rattle.lt_seq.specs.Pairs.{IsLawful, others, joined};
ghost use Rattle.lt_seq.specs.Sound.{IsSoundTree};

use crate::event::{Held, Mode, Pair, Reply};
use crate::lists::Owners;
use crate::pairs::{add_held, free, grant, others_of};
use crate::runs::join_pairs;
use lt_ranges::{Key, KeyRange};
use std::alloc::{AllocError, Global};
use std::marker::Model;

/// A tree's pairs and mode.
#[derive(Debug, Drop)]
pub(crate) struct SeqTree {
    pairs: Vec<Pair>,
    mode: Mode,
}

impl Model for SeqTree {
    ghost use Rattle.lt_seq.specs.Table.{TreeState};

    ghost Value = { TreeState };

    ghost view = { λ t. record { pairs = t.pairs.items; mode = t.mode } };
}

/// The mode once a buffer has ended.
fn ended(mode: Mode) -> Mode
    ensures { result ≡ ended mode }
{
    match mode {
        Mode::Tree { score } => Mode::Tree { score },
        Mode::Buffer { .. } => Mode::Tree { score: 0 },
    }
}

/// Whether the range goes from one end to the other.
fn is_whole(range: &KeyRange) -> bool
    ensures whole { result ≡ is_whole range.now }
    ensures ordered { IsInterval range.now }
{
    range.left().is_at_most(&Key::Below) && Key::Above.is_at_most(&range.right())
}

impl SeqTree {
    /// A tree without pairs.
    pub(crate) fn new(alloc: Global) -> Self
        ensures { result ≡ fresh }
    {
        SeqTree {
            pairs: Vec::new(alloc),
            mode: Mode::Tree { score: 100 },
        }
    }

    /// The rows of the tree, at once.
    pub(crate) fn rows(&self) -> u64
        ensures { result ≡ rows_in self.now.pairs self.now.mode }
    {
        match self.mode {
            Mode::Tree { .. } => self.pairs.len() as u64,
            Mode::Buffer { count, .. } => count,
        }
    }

    /// Whether an ask goes into a buffer, or begins one.
    fn is_buffered(&self, buffer: u64, txn: u64) -> bool
        ensures { result ≡ is_buffered buffer txn self.now.pairs self.now.mode }
    {
        match self.mode {
            Mode::Tree { score } => score == 100 && self.pairs.is_empty() && 0 < buffer,
            Mode::Buffer { txn: owner, count } => owner == txn && count < buffer,
        }
    }

    /// The answer to an ask. The only error is want of memory.
    pub(crate) fn reply(
        &self,
        alloc: Global,
        buffer: u64,
        txn: u64,
        range: &KeyRange,
    ) -> Result<Reply, AllocError>
        requires { IsLawful self.now.pairs }
        ensures reply { IfOk result (λ reply. reply ≡ ask_reply buffer txn range.now self.now) }
        ensures ordered { IfOk result (λ reply. (¬ (reply ≡ Buffered)) → IsInterval range.now) }
    {
        if self.is_buffered(buffer, txn) {
            return Ok(Reply::Buffered);
        }
        let others = others_of(alloc, &self.pairs, txn, range)?;
        if others.is_empty() {
            Ok(Reply::Granted)
        } else {
            Ok(Reply::HeldBy(Owners::of(others)))
        }
    }

    /// Does what an ask does, whose answer is this. Where memory is short the tree stays.
    pub(crate) fn ask(
        &mut self,
        buffer: u64,
        txn: u64,
        range: &KeyRange,
        reply: &Reply,
    ) -> Result<(), AllocError>
        requires sound { IsSoundTree self.old }
        requires reply { reply.now ≡ ask_reply buffer txn range.now self.old }
        ensures ok { OnOk result (self.new ≡ after_ask buffer txn range.now self.old) }
        ensures err { OnErr result (self.new ≡ self.old) }
        ensures ordered { reply.now ≡ Buffered → IsInterval range.now }
    {
        match reply {
            Reply::Granted => {
                grant(&mut self.pairs, txn, range)?;
                self.mode = ended(self.mode);
            }
            Reply::Buffered => {
                let mode = match self.mode {
                    Mode::Tree { .. } => Mode::Buffer { txn, count: 1 },
                    Mode::Buffer { count, .. } => Mode::Buffer {
                        txn,
                        count: count + 1,
                    },
                };
                grant(&mut self.pairs, txn, range)?;
                self.mode = mode;
            }
            Reply::HeldBy(_) => self.mode = ended(self.mode),
        }
        Ok(())
    }

    /// Does what a free does, and answers its count.
    pub(crate) fn free(&mut self, txn: u64, range: &KeyRange, first: bool) -> u64
        requires { IsLawful self.old.pairs }
        ensures count { result ≡ free_count txn range.now self.old }
        ensures after { self.new ≡ after_free txn range.now first self.old }
        ensures ordered { IsInterval range.now }
    {
        if let Mode::Buffer { txn: owner, .. } = self.mode
            && owner == txn
            && is_whole(range)
        {
            let count = self.pairs.len() as u64;
            self.pairs.clear();
            self.mode = Mode::Tree { score: 100 };
            return count;
        }
        let count = free(&mut self.pairs, txn, range) as u64;
        self.mode = match ended(self.mode) {
            Mode::Tree { score } if first && score < 100 => Mode::Tree { score: score + 1 },
            mode => mode,
        };
        count
    }

    /// The owners other than this one whose ranges overlap.
    pub(crate) fn owners(
        &self,
        alloc: Global,
        named: u64,
        range: &KeyRange,
    ) -> Result<Owners, AllocError>
        requires { IsLawful self.now.pairs }
        ensures owners { IfOk result (λ owners. owners ≡ others named range.now self.now.pairs) }
        ensures ordered { IsInterval range.now }
    {
        Ok(Owners::of(others_of(alloc, &self.pairs, named, range)?))
    }

    /// A buffer of another ends.
    pub(crate) fn end_for(&mut self, named: u64)
        ensures { self.new ≡ record { pairs = self.old.pairs; mode = mode_asked named self.old.mode } }
    {
        if let Mode::Buffer { txn: owner, .. } = self.mode
            && owner != named
        {
            self.mode = Mode::Tree { score: 0 };
        }
    }

    /// The pairs as a join leaves them.
    pub(crate) fn joined(&self, alloc: Global) -> Result<Vec<Pair>, AllocError>
        requires { IsLawful self.now.pairs }
        ensures { IfOk result (λ pairs. pairs.items ≡ joined [] self.now.pairs) }
    {
        let mut pairs = Vec::from_slice(alloc, &self.pairs)?;
        join_pairs(&mut pairs, &[]);
        Ok(pairs)
    }

    /// Puts other pairs in place of its own, ends a buffer, and says how many its own were.
    pub(crate) fn put(&mut self, pairs: Vec<Pair>) -> u64
        ensures count { result ≡ length self.old.pairs }
        ensures after { self.new ≡ record { pairs = pairs.items; mode = ended self.old.mode } }
    {
        let count = self.pairs.len() as u64;
        self.pairs = pairs;
        self.mode = ended(self.mode);
        count
    }

    /// Puts the tree's pairs behind those of the trees below it.
    pub(crate) fn add_held(&self, number: u32, left: &mut Vec<Held>) -> Result<(), AllocError>
        ensures { OnOk result (left.new.items ≡ left.old.items ++ held_in number self.now.pairs) }
    {
        add_held(left, number, &self.pairs)
    }
}
