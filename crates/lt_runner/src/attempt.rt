//! One play of a transaction: an attempt at its next line, or the rest of its release.
ghost use Rattle.std.specs.Prelude.{◌≡◌, ◌≢◌, ◌≤◌, ◌<◌, List, [], ◌∷◌, Some, None, length, false, true, is_some, IsTrue, OnOk, IfOk, IfErr};
ghost use Rattle.lt_seq.specs.Yard.{origin_of};
ghost use Rattle.lt_seq.specs.declared.event.Deed.TheVariants.{Ask};
ghost use Rattle.lt_seq.specs.declared.event.Reply.TheVariants.{Granted};
ghost use Rattle.lt_trace.specs.declared.line.LineDeed.TheVariants.{Escalate};
ghost use Rattle.lt_runner.specs.Turn.{reply_in, asked_at, rest_of_release};
ghost use Rattle.lt_runner.specs.Seats.{idle};
ghost use Rattle.lt_runner.specs.Plays.{line_question};
ghost use Rattle.lt_runner.specs.PlaysOn.{IsAskDeed, IsReady, IsFit, IsNext, IsNextLine, IsNextFree};
ghost use Rattle.lt_runner.specs.PlaysOn.{IsKept, PlaysOn, UnlessShort, IsMoved, moved_to};
ghost use Rattle.lt_runner.specs.Notes.{KeepsNotes};
ghost use Rattle.lt_runner.specs.Work.{Spends, StepsOn};
ghost use Rattle.lt_runner.specs.Progress.{IsFarther, IsRefused};
ghost use Rattle.lt_runner.specs.PlaysAlone.{IsCaused, IsAtOnce, IsFreedAtOnce, MayPlayAtOnce};

use crate::release::Release;
use crate::turn::{Moved, Turn};
use lt_history::Outcome;
use lt_ranges::KeyRange;
use lt_seq::{Deed, Fault, Pass, Reply, Yard};
use lt_trace::{Line, LineDeed};
use std::alloc::AllocError;

/// What an ask was replied.
fn reply_in(deed: &Deed) -> &Reply
    requires { IsAskDeed deed.now }
    ensures { result.now ≡ reply_in deed.now }
{
    match deed {
        Deed::Ask { reply, .. } => reply,
        Deed::Free { .. } | Deed::Who { .. } | Deed::Join { .. } => unreachable!(),
    }
}

impl Turn {
    /// Its ask at a `try` or `lock` line was replied so.
    fn replied(
        &mut self,
        line: &Line,
        tree: u32,
        range: &KeyRange,
        reply: &Reply,
    ) -> Result<Moved, AllocError>
        requires line { IsNextLine self.old line.now }
        requires asks { line_question line.now.deed ≡ Some (Ask tree range.now Granted) }
        requires tree { tree < length self.old.turn.recorded }
        ensures turn { OnOk result (self.new ≡ idle (asked_at self.old.turn.lines reply.now None self.old.turn)) }
        ensures moved { IfOk result (λ moved. moved ≡ moved_to self.new) }
    {
        match (line.deed, reply) {
            (LineDeed::Lock { .. }, Reply::HeldBy(_)) => {
                self.held(false);
                Ok(Moved::Held)
            }
            _ => {
                self.answer(tree, range, reply)?;
                Ok(Moved::Played)
            }
        }
    }

    /// Asks at its next line, a `try` or `lock` line.
    fn ask<Y: Yard>(
        &mut self,
        yard: &Y,
        pass: &mut Y::Pass,
        line: &Line,
        tree: u32,
        range: &KeyRange,
    ) -> Result<Moved, Fault>
        requires of { Y.Pass.origin pass.old ≡ origin_of (Y.identity yard.now) (Y.setting yard.now) }
        requires ready { IsReady (Y.setting yard.now) (Y.Pass.view pass.old) }
        requires fit { IsFit (Y.setting yard.now) self.old }
        requires next { IsNext (Y.setting yard.now) (Y.Pass.view pass.old) self.old }
        requires line { IsNextLine self.old line.now }
        requires asks { line_question line.now.deed ≡ Some (Ask tree range.now Granted) }
        ensures of { Y.Pass.origin pass.new ≡ origin_of (Y.identity yard.now) (Y.setting yard.now) }
        ensures kept { IsKept (Y.setting yard.now) (Y.Pass.view pass.old) (Y.Pass.view pass.new) }
        ensures noted { KeepsNotes (Y.setting yard.now) (Y.Pass.view pass.old) (Y.Pass.view pass.new) }
        ensures fit { UnlessShort result (IsFit (Y.setting yard.now) self.new) }
        ensures plays { UnlessShort result (PlaysOn (Y.setting yard.now) [] (Y.Pass.view pass.old) (Y.Pass.view pass.new)
            self.old self.new) }
        ensures moved { IsMoved self.old self.new result }
        ensures spends { UnlessShort result (Spends (Y.setting yard.now) (Y.Pass.view pass.old) (Y.Pass.view pass.new)
            self.old self.new) }
        ensures steps { StepsOn self.old self.new result }
        ensures farther { IsFarther self.old self.new result }
        ensures caused { IsCaused (Y.setting yard.now) (Y.Pass.view pass.old) (Y.Pass.view pass.new) result }
        ensures alone { IsAtOnce (Y.setting yard.now) (Y.Pass.view pass.old) (Y.Pass.view pass.new) self.old self.new result }
    {
        match yard.ask(pass, self.number(), tree, range, self.is_big()) {
            Ok(receipt) => Ok(self.replied(line, tree, range, reply_in(&receipt.event.deed))?),
            Err(Fault::OutOfLocks { place, used }) => {
                self.end_as(Outcome::OutOfLocks { place, used })?;
                Ok(Moved::Played)
            }
            Err(Fault::OutOfMemory) => Err(Fault::OutOfMemory),
            Err(Fault::Busy { row, holder }) => {
                self.give_way();
                Err(Fault::Busy { row, holder })
            }
            Err(Fault::HistoryFull { place }) => {
                self.give_way();
                Err(Fault::HistoryFull { place })
            }
        }
    }

    /// Joins the runs of neighbours in a tree, at an `escalate` line.
    #[tactic(auto, using(crate::proofs::NoteLaws::answers_notes))]
    fn escalate<Y: Yard>(
        &mut self,
        yard: &Y,
        pass: &mut Y::Pass,
        line: &Line,
        tree: u32,
    ) -> Result<Moved, Fault>
        requires of { Y.Pass.origin pass.old ≡ origin_of (Y.identity yard.now) (Y.setting yard.now) }
        requires ready { IsReady (Y.setting yard.now) (Y.Pass.view pass.old) }
        requires fit { IsFit (Y.setting yard.now) self.old }
        requires next { IsNext (Y.setting yard.now) (Y.Pass.view pass.old) self.old }
        requires line { IsNextLine self.old line.now }
        requires deed { line.now.deed ≡ Escalate tree }
        ensures of { Y.Pass.origin pass.new ≡ origin_of (Y.identity yard.now) (Y.setting yard.now) }
        ensures kept { IsKept (Y.setting yard.now) (Y.Pass.view pass.old) (Y.Pass.view pass.new) }
        ensures noted { KeepsNotes (Y.setting yard.now) (Y.Pass.view pass.old) (Y.Pass.view pass.new) }
        ensures fit { UnlessShort result (IsFit (Y.setting yard.now) self.new) }
        ensures plays { UnlessShort result (PlaysOn (Y.setting yard.now) [] (Y.Pass.view pass.old) (Y.Pass.view pass.new)
            self.old self.new) }
        ensures moved { IsMoved self.old self.new result }
        ensures spends { UnlessShort result (Spends (Y.setting yard.now) (Y.Pass.view pass.old) (Y.Pass.view pass.new)
            self.old self.new) }
        ensures steps { StepsOn self.old self.new result }
        ensures farther { IsFarther self.old self.new result }
        ensures caused { IsCaused (Y.setting yard.now) (Y.Pass.view pass.old) (Y.Pass.view pass.new) result }
        ensures alone { IsAtOnce (Y.setting yard.now) (Y.Pass.view pass.old) (Y.Pass.view pass.new) self.old self.new result }
    {
        let Err(fault) = yard.escalate(pass, self.number(), tree) else {
            self.go_past();
            return Ok(Moved::Played);
        };
        self.give_way();
        Err(fault)
    }

    /// Makes one attempt at its next line.
    fn play_line<Y: Yard>(
        &mut self,
        yard: &Y,
        pass: &mut Y::Pass,
        line: &Line,
    ) -> Result<Moved, Fault>
        requires of { Y.Pass.origin pass.old ≡ origin_of (Y.identity yard.now) (Y.setting yard.now) }
        requires ready { IsReady (Y.setting yard.now) (Y.Pass.view pass.old) }
        requires fit { IsFit (Y.setting yard.now) self.old }
        requires next { IsNext (Y.setting yard.now) (Y.Pass.view pass.old) self.old }
        requires line { IsNextLine self.old line.now }
        ensures of { Y.Pass.origin pass.new ≡ origin_of (Y.identity yard.now) (Y.setting yard.now) }
        ensures kept { IsKept (Y.setting yard.now) (Y.Pass.view pass.old) (Y.Pass.view pass.new) }
        ensures noted { KeepsNotes (Y.setting yard.now) (Y.Pass.view pass.old) (Y.Pass.view pass.new) }
        ensures fit { UnlessShort result (IsFit (Y.setting yard.now) self.new) }
        ensures plays { UnlessShort result (PlaysOn (Y.setting yard.now) [] (Y.Pass.view pass.old) (Y.Pass.view pass.new)
            self.old self.new) }
        ensures moved { IsMoved self.old self.new result }
        ensures spends { UnlessShort result (Spends (Y.setting yard.now) (Y.Pass.view pass.old) (Y.Pass.view pass.new)
            self.old self.new) }
        ensures steps { StepsOn self.old self.new result }
        ensures farther { IsFarther self.old self.new result }
        ensures caused { IsCaused (Y.setting yard.now) (Y.Pass.view pass.old) (Y.Pass.view pass.new) result }
        ensures alone { IsAtOnce (Y.setting yard.now) (Y.Pass.view pass.old) (Y.Pass.view pass.new) self.old self.new result }
    {
        match &line.deed {
            LineDeed::Try { tree, range } | LineDeed::Lock { tree, range } => {
                self.ask(yard, pass, line, *tree, range)
            }
            LineDeed::Escalate { tree } => self.escalate(yard, pass, line, *tree),
            LineDeed::Big => {
                self.grow();
                Ok(Moved::Played)
            }
            LineDeed::End => {
                self.end_as(Outcome::Done)?;
                Ok(Moved::Played)
            }
            LineDeed::Abort => {
                self.end_as(Outcome::Aborted)?;
                Ok(Moved::Played)
            }
        }
    }

    /// Makes the next free of its release.
    #[tactic(auto, using(crate::proofs::NoteLaws::answers_notes))]
    fn free<Y: Yard>(
        &mut self,
        yard: &Y,
        pass: &mut Y::Pass,
        release: &Release,
    ) -> Result<Moved, Fault>
        requires of { Y.Pass.origin pass.old ≡ origin_of (Y.identity yard.now) (Y.setting yard.now) }
        requires ready { IsReady (Y.setting yard.now) (Y.Pass.view pass.old) }
        requires fit { IsFit (Y.setting yard.now) self.old }
        requires goes { self.old.turn.waits ≡ false }
        requires ended { IsTrue (is_some self.old.turn.outcome) }
        requires release { IsNextFree self.old release.now }
        ensures of { Y.Pass.origin pass.new ≡ origin_of (Y.identity yard.now) (Y.setting yard.now) }
        ensures kept { IsKept (Y.setting yard.now) (Y.Pass.view pass.old) (Y.Pass.view pass.new) }
        ensures noted { KeepsNotes (Y.setting yard.now) (Y.Pass.view pass.old) (Y.Pass.view pass.new) }
        ensures fit { UnlessShort result (IsFit (Y.setting yard.now) self.new) }
        ensures plays { UnlessShort result (PlaysOn (Y.setting yard.now) [] (Y.Pass.view pass.old) (Y.Pass.view pass.new)
            self.old self.new) }
        ensures freed { IfOk result (λ moved. self.new
            ≡ record self.old { turn = record self.old.turn { releases = rest_of_release self.old.turn.releases }; busy = false }) }
        ensures spends { UnlessShort result (Spends (Y.setting yard.now) (Y.Pass.view pass.old) (Y.Pass.view pass.new)
            self.old self.new) }
        ensures refused { IfErr result (λ fault. IsRefused self.old self.new) }
        ensures caused { IsCaused (Y.setting yard.now) (Y.Pass.view pass.old) (Y.Pass.view pass.new) result }
        ensures alone { MayPlayAtOnce (Y.setting yard.now) (Y.Pass.view pass.old) self.old.turn
            → IsFreedAtOnce (Y.setting yard.now) (Y.Pass.view pass.old) (Y.Pass.view pass.new) self.old.turn release.now result }
    {
        let Err(fault) = yard.free(
            pass,
            self.number(),
            release.tree,
            &release.range,
            release.first,
        ) else {
            self.freed();
            return Ok(Moved::Played);
        };
        self.give_way();
        Err(fault)
    }

    /// Makes all that is left of its release.
    fn release<Y: Yard>(&mut self, yard: &Y, pass: &mut Y::Pass) -> Result<Moved, Fault>
        requires of { Y.Pass.origin pass.old ≡ origin_of (Y.identity yard.now) (Y.setting yard.now) }
        requires ready { IsReady (Y.setting yard.now) (Y.Pass.view pass.old) }
        requires fit { IsFit (Y.setting yard.now) self.old }
        requires goes { self.old.turn.waits ≡ false }
        requires ended { IsTrue (is_some self.old.turn.outcome) }
        ensures of { Y.Pass.origin pass.new ≡ origin_of (Y.identity yard.now) (Y.setting yard.now) }
        ensures kept { IsKept (Y.setting yard.now) (Y.Pass.view pass.old) (Y.Pass.view pass.new) }
        ensures noted { KeepsNotes (Y.setting yard.now) (Y.Pass.view pass.old) (Y.Pass.view pass.new) }
        ensures fit { UnlessShort result (IsFit (Y.setting yard.now) self.new) }
        ensures plays { UnlessShort result (PlaysOn (Y.setting yard.now) [] (Y.Pass.view pass.old) (Y.Pass.view pass.new)
            self.old self.new) }
        ensures moved { IsMoved self.old self.new result }
        ensures spends { UnlessShort result (Spends (Y.setting yard.now) (Y.Pass.view pass.old) (Y.Pass.view pass.new)
            self.old self.new) }
        ensures steps { StepsOn self.old self.new result }
        ensures farther { IsFarther self.old self.new result }
        ensures caused { IsCaused (Y.setting yard.now) (Y.Pass.view pass.old) (Y.Pass.view pass.new) result }
        ensures alone { IsAtOnce (Y.setting yard.now) (Y.Pass.view pass.old) (Y.Pass.view pass.new) self.old self.new result }
    {
        for _free in 0..self.frees_left() {
            let Some(release) = self.next_free() else {
                unreachable!();
            };
            match self.free(yard, pass, &release) {
                Ok(_) => {}
                Err(fault) => return Err(fault),
            }
        }
        Ok(Moved::Ended)
    }

    /// Plays on: one attempt at its next line, or, once it has ended, all that is left of its release. The release may be
    /// done already.
    ///
    /// `Held` comes exactly where a `lock` line's ask was held: the line stays next, and it waits there. `Ended` comes
    /// exactly where it had ended before, and then the release is done. `Played` comes in the other cases: the line is done,
    /// or its ask was out of locks, so that the release is next with that outcome. A fault is the table's, with its
    /// cause, or want of memory, and never `OutOfLocks`. After `Busy` or `HistoryFull` the line, or the rest of the
    /// release, stays next, and the turn is played on by a pass that has all the rights. The events that a play makes are
    /// paid for by what is left of the turn, and each line that is done or held is a step on. After want of memory the events
    /// that were made stand, and the turn is not played any more.
    pub fn play<Y: Yard>(&mut self, yard: &Y, pass: &mut Y::Pass) -> Result<Moved, Fault>
        requires of { Y.Pass.origin pass.old ≡ origin_of (Y.identity yard.now) (Y.setting yard.now) }
        requires ready { IsReady (Y.setting yard.now) (Y.Pass.view pass.old) }
        requires fit { IsFit (Y.setting yard.now) self.old }
        requires next { IsNext (Y.setting yard.now) (Y.Pass.view pass.old) self.old }
        requires left { self.old.turn.outcome ≡ None → self.old.turn.lines ≢ [] }
        ensures of { Y.Pass.origin pass.new ≡ origin_of (Y.identity yard.now) (Y.setting yard.now) }
        ensures kept { IsKept (Y.setting yard.now) (Y.Pass.view pass.old) (Y.Pass.view pass.new) }
        ensures noted { KeepsNotes (Y.setting yard.now) (Y.Pass.view pass.old) (Y.Pass.view pass.new) }
        ensures fit { UnlessShort result (IsFit (Y.setting yard.now) self.new) }
        ensures plays { UnlessShort result (PlaysOn (Y.setting yard.now) [] (Y.Pass.view pass.old) (Y.Pass.view pass.new)
            self.old self.new) }
        ensures moved { IsMoved self.old self.new result }
        ensures spends { UnlessShort result (Spends (Y.setting yard.now) (Y.Pass.view pass.old) (Y.Pass.view pass.new)
            self.old self.new) }
        ensures steps { StepsOn self.old self.new result }
        ensures farther { IsFarther self.old self.new result }
        ensures caused { IsCaused (Y.setting yard.now) (Y.Pass.view pass.old) (Y.Pass.view pass.new) result }
        ensures alone { IsAtOnce (Y.setting yard.now) (Y.Pass.view pass.old) (Y.Pass.view pass.new) self.old self.new result }
    {
        match self.next_line() {
            Some(line) => self.play_line(yard, pass, &line),
            None => self.release(yard, pass),
        }
    }
}
