//! A transaction as it is played, line by line.
ghost use Rattle.std.specs.Prelude.{◌≡◌, ◌<◌, ◌≤◌, List, [], ◌∷◌, ◌++◌, None, Some, Option, true, false};
ghost use Rattle.std.specs.Prelude.{filter, length, is_some, is_none, IfOk, OnOk, OnErr, IfSome, IfNone, IsTrue, ◌==◌};
ghost use Rattle.std.specs.Option.{option_copied};
ghost use Rattle.lt_trace.specs.declared.line.Line.{Line as LineOf};
ghost use Rattle.lt_runner.specs.declared.release.Release.{Release as ReleaseOf};
ghost use Rattle.lt_runner.specs.TurnView.{Seat};
ghost use Rattle.lt_runner.specs.Turn.{answered_by, granted_to, past, ending, rest_of_release};
ghost use Rattle.lt_runner.specs.Plays.{next_wish, own_of, has_last, lines_for};
ghost use Rattle.lt_runner.specs.Played.{IsOver};
ghost use Rattle.lt_runner.specs.Serial.{ended_in, is_ready};
ghost use Rattle.lt_runner.specs.Seats.{opening_seat, idle, with_line, with_lines, granted_at};

use crate::recorded::{self, Recorded};
use crate::release::Release;
use lt_history::{Ended, Outcome};
use lt_ranges::KeyRange;
use lt_requests::Wish;
use lt_seq::Reply;
use lt_trace::{Line, LineDeed};
use std::alloc::{AllocError, Global};
use std::collections::VecDeque;
use std::marker::Model;

/// What a play came to.
#[derive(Clone, Copy, Debug, PartialEq, Eq, Hash)]
pub enum Moved {
    /// The next line is done, or the transaction was out of locks at it, so that its release is next.
    Played,
    /// The next line, a `lock` line, was held, and stays next.
    Held,
    /// The rest of the release was made.
    Ended,
}

/// A transaction that is played: the lines that are left of it, what it was granted, and, once it has ended, what it still
/// gives back.
#[derive(Debug, Drop)]
pub struct Turn {
    alloc: Global,
    txn: u64,
    lines: VecDeque<Line>,
    /// Whether the next line was held.
    waits: bool,
    /// By tree.
    recorded: Vec<Recorded>,
    outcome: Option<Outcome>,
    releases: VecDeque<Release>,
    big: bool,
    /// Whether its last call was refused. Such a call may have left joins.
    busy: bool,
    /// Whether it was registered as one that waits at its next line.
    listed: bool,
}

impl Model for Turn {
    ghost use Rattle.lt_runner.specs.TurnView.{Seat as View};

    ghost Value = { View };

    ghost view = { λ t. record {
      turn = record {
        txn = t.txn;
        lines = t.lines.items;
        waits = t.waits;
        recorded = t.recorded.items;
        outcome = t.outcome;
        releases = t.releases.items;
        big = t.big;
      };
      busy = t.busy;
      listed = t.listed;
    } };
}

impl Turn {
    /// A transaction without lines, for a table of so many trees.
    pub fn without_lines(alloc: Global, txn: u64, trees: u32) -> Result<Turn, AllocError>
        ensures { IfOk result (λ turn. turn ≡ opening_seat trees txn []) }
    {
        Ok(Turn {
            alloc,
            txn,
            lines: VecDeque::new(alloc),
            waits: false,
            recorded: recorded::nothing_recorded(alloc, trees)?,
            outcome: None,
            releases: VecDeque::new(alloc),
            big: false,
            busy: false,
            listed: false,
        })
    }

    /// A transaction with its lines of a trace's, for a table of so many trees. Where none of them is its last, an `end` line
    /// stands behind them.
    pub fn new(alloc: Global, txn: u64, lines: &[Line], trees: u32) -> Result<Turn, AllocError>
        ensures { IfOk result (λ turn. turn ≡ opening_seat trees txn (lines_for txn lines.now)) }
    {
        let mut turn = Turn::without_lines(alloc, txn, trees)?;
        if !turn.add_own(lines)? {
            turn.add_line(0, LineDeed::End)?;
        }
        Ok(turn)
    }

    /// Puts its own of these lines behind the others, and tells whether one of them is its last.
    fn add_own(&mut self, lines: &[Line]) -> Result<bool, AllocError>
        ensures own { OnOk result (self.new ≡ with_lines (own_of self.old.turn.txn lines.now) self.old) }
        ensures last { IfOk result (λ last. last ≡ has_last (own_of self.old.turn.txn lines.now)) }
    {
        let mut last = false;
        for line in lines {
            if line.txn == self.txn {
                self.add_line(line.number, line.deed)?;
                last |= line.deed.is_last();
            }
        }
        Ok(last)
    }

    /// Its number.
    pub fn number(&self) -> u64
        ensures { result ≡ self.now.turn.txn }
    {
        self.txn
    }

    /// How it ends: None while its lines are played, and Some once its release is next or done.
    pub fn outcome(&self) -> Option<&Outcome>
        ensures { option_copied result ≡ self.now.turn.outcome }
    {
        self.outcome.as_ref()
    }

    /// What its next line waits for: Some exactly where a `lock` line is next.
    pub fn wish(&self) -> Option<Wish>
        ensures { result ≡ next_wish self.now.turn.txn self.now.turn.lines }
    {
        let line = self.lines.front()?;
        match line.deed {
            LineDeed::Lock { tree, range } => Some(Wish {
                txn: self.txn,
                tree,
                range,
            }),
            LineDeed::Try { .. }
            | LineDeed::End
            | LineDeed::Abort
            | LineDeed::Escalate { .. }
            | LineDeed::Big => None,
        }
    }

    /// Whether it waits at its next line.
    pub fn is_waiting(&self) -> bool
        ensures { result ≡ self.now.turn.waits }
    {
        self.waits
    }

    /// Whether it said that it is a big one, which leaves half of the rows to others.
    pub fn is_big(&self) -> bool
        ensures { result ≡ self.now.turn.big }
    {
        self.big
    }

    /// Whether its last call was refused.
    pub fn is_busy(&self) -> bool
        ensures { result ≡ self.now.busy }
    {
        self.busy
    }

    /// Whether its release is next or done.
    pub fn has_ended(&self) -> bool
        ensures { result ≡ is_some self.now.turn.outcome }
    {
        self.outcome.is_some()
    }

    /// Whether it has ended and has given back all.
    pub fn is_over(&self) -> bool
        ensures over { IsTrue result → IsOver self.now }
        ensures left { result ≡ false → IsOver self.now → ⊥ }
    {
        self.outcome.is_some() && self.releases.is_empty()
    }

    /// Whether it goes on: it has not ended, and does not wait.
    pub fn is_ready(&self) -> bool
        ensures { result ≡ is_ready self.now.turn }
    {
        self.outcome.is_none() && !self.waits
    }

    /// How many lines are left.
    pub fn lines_left(&self) -> usize
        ensures { result ≡ length self.now.turn.lines }
    {
        self.lines.len()
    }

    /// Puts a line of the trace behind the others. Where memory is short nothing has changed.
    pub fn add_line(&mut self, number: u32, deed: LineDeed) -> Result<(), AllocError>
        ensures added { OnOk result (self.new ≡ with_line (record { txn = self.old.turn.txn; number = number; deed = deed }) self.old) }
        ensures same { OnErr result (self.new ≡ self.old) }
    {
        self.lines.push_back(Line {
            txn: self.txn,
            number,
            deed,
        })?;
        Ok(())
    }

    /// The number of its next line, as the trace has it, and 0 for an end without a line. None where no line is left.
    pub fn next_number(&self) -> Option<u32>
        ensures some { IfSome result (λ number. (line : LineOf) × (rest : List LineOf) × (self.now.turn.lines ≡ line ∷ rest)
            × (line.number ≡ number)) }
        ensures none { IfNone result (self.now.turn.lines ≡ []) }
    {
        let line = self.lines.front()?;
        Some(line.number)
    }

    /// The line that is next.
    pub(crate) fn next_line(&self) -> Option<Line>
        ensures some { IfSome result (λ line. (rest : List LineOf) × (self.now.turn.lines ≡ line ∷ rest)) }
        ensures none { IfNone result (self.now.turn.lines ≡ []) }
    {
        let line = self.lines.front()?;
        Some(*line)
    }

    /// The free that is next.
    pub(crate) fn next_free(&self) -> Option<Release>
        ensures some { IfSome result (λ release. (rest : List ReleaseOf) × (self.now.turn.releases ≡ release ∷ rest)) }
        ensures none { IfNone result (self.now.turn.releases ≡ []) }
    {
        let release = self.releases.front()?;
        Some(*release)
    }

    /// How many frees are left.
    pub(crate) fn frees_left(&self) -> usize
        ensures { result ≡ length self.now.turn.releases }
    {
        self.releases.len()
    }

    /// The next free was made.
    pub(crate) fn freed(&mut self)
        ensures { self.new
            ≡ record self.old { turn = record self.old.turn { releases = rest_of_release self.old.turn.releases }; busy = false } }
    {
        self.releases.pop_front();
        self.busy = false;
    }

    /// Its last call was refused.
    pub(crate) fn give_way(&mut self)
        ensures { self.new ≡ record self.old { busy = true } }
    {
        self.busy = true;
    }

    /// The next line is done.
    pub(crate) fn go_past(&mut self)
        ensures { self.new ≡ idle (past self.old.turn) }
    {
        self.lines.pop_front();
        self.waits = false;
        self.busy = false;
        self.listed = false;
    }

    /// Its line says that it is a big one.
    pub(crate) fn grow(&mut self)
        ensures { self.new ≡ idle (record (past self.old.turn) { big = true }) }
    {
        self.go_past();
        self.big = true;
    }

    /// A range was granted to the next line: it is recorded, and the line is done. Where memory is short nothing has
    /// changed.
    fn grant(&mut self, tree: u32, range: &KeyRange, buffered: bool) -> Result<(), AllocError>
        requires tree { tree < length self.old.turn.recorded }
        ensures granted { OnOk result (self.new ≡ idle (granted_to tree range.now buffered self.old.turn)) }
        ensures same { OnErr result (self.new ≡ self.old) }
    {
        self.recorded[tree as usize].add(range, buffered)?;
        self.go_past();
        Ok(())
    }

    /// The ask of its next line, a `try` line, was answered so.
    pub(crate) fn answer(
        &mut self,
        tree: u32,
        range: &KeyRange,
        reply: &Reply,
    ) -> Result<(), AllocError>
        requires tree { tree < length self.old.turn.recorded }
        ensures { OnOk result (self.new ≡ idle (answered_by tree range.now reply.now self.old.turn)) }
    {
        match reply {
            Reply::Granted => self.grant(tree, range, false),
            Reply::Buffered => self.grant(tree, range, true),
            Reply::HeldBy(_) => {
                self.go_past();
                Ok(())
            }
        }
    }

    /// The range of its next line, a `lock` line, was granted to it by others: it is recorded, and the line is done.
    /// Where memory is short nothing has changed.
    pub fn granted(&mut self, buffered: bool) -> Result<(), AllocError>
        requires lock { (w : Wish) × (next_wish self.old.turn.txn self.old.turn.lines ≡ Some w) × (w.tree < length self.old.turn.recorded) }
        ensures granted { OnOk result (self.new ≡ idle (granted_at self.old.turn buffered)) }
        ensures same { OnErr result (self.new ≡ self.old) }
    {
        let Some(wish) = self.wish() else {
            unreachable!();
        };
        self.grant(wish.tree, &wish.range, buffered)
    }

    /// Its next line, a `lock` line, was held: it waits there. `listed` tells that it was registered, with a search.
    pub fn held(&mut self, listed: bool)
        ensures { self.new ≡ record { turn = record self.old.turn { waits = true }; busy = false; listed = listed } }
    {
        self.waits = true;
        self.busy = false;
        self.listed = listed;
    }

    /// It ends so: the lines that are left are dropped, and its release is next. Where memory is short it is not played
    /// any more.
    pub fn end_as(&mut self, outcome: Outcome) -> Result<(), AllocError>
        requires { length self.old.turn.recorded ≤ 16 }
        ensures ended { OnOk result (self.new ≡ idle (ending outcome self.old.turn)) }
        ensures same { OnErr result (self.new ≡ self.old) }
    {
        self.releases = recorded::releases_of(self.alloc, &self.recorded)?;
        self.lines.clear();
        self.outcome = Some(outcome);
        self.waits = false;
        self.busy = false;
        self.listed = false;
        Ok(())
    }

    /// How it ended, once it has.
    pub fn into_ended(self) -> Option<Ended>
        ensures { result ≡ ended_in self.turn }
    {
        let outcome = self.outcome?;
        Some(Ended {
            txn: self.txn,
            outcome,
        })
    }
}
