//! The steps of the plain scheduler: a line of the trace, and, behind the last line, one transaction that is ended.
ghost use Rattle.std.specs.Prelude.{OnOk};
ghost use Rattle.std.specs.List.{find};
ghost use Rattle.lt_runner.specs.Serial.{is_ready, added, takes_line, ends_first, ends_one};
ghost use Rattle.lt_runner.specs.Steps.{IsFit};
ghost use Rattle.lt_runner.specs.Board.{HasTable, IsBoard, IsOn, IsLinePut, Shows, HasRoom, turns_of, game_on, numbers_on, turn_on};

use crate::board::Board;
use lt_seq::{Pass, Yard};
use lt_trace::{Line, LineDeed};
use std::alloc::AllocError;

impl Board {
    /// Puts a line behind the others of its transaction.
    fn put_line(&mut self, line: &Line) -> Result<(), AllocError>
        requires on { IsOn line.now.txn self.old }
        ensures { OnOk result (IsLinePut line.now self.old self.new) }
    {
        let place = self.place_of(line.txn);
        self.turns[place].add_line(line.number, line.deed)
    }

    /// Adds a line of a transaction. It is played at once where the transaction is ready, and passed over where it has
    /// ended.
    fn add<Y: Yard>(&mut self, yard: &Y, pass: &mut Y::Pass, line: &Line) -> Result<(), AllocError>
        requires acts { HasTable (Y.Pass.origin pass.old) (Y.identity yard.now) (Y.setting yard.now) (Y.Pass.view pass.old) }
        requires board { IsBoard (Y.setting yard.now) (numbers_on self.old) (Y.Pass.view pass.old).front self.old }
        requires line { IsFit (Y.setting yard.now) (numbers_on self.old) line.now }
        requires room { HasRoom (Y.setting yard.now) (numbers_on self.old)
            (added (Y.setting yard.now) line.now (turn_on (Y.setting yard.now) line.now.txn self.old)
            (game_on (Y.Pass.view pass.old).front self.old)) }
        ensures acts { HasTable (Y.Pass.origin pass.new) (Y.identity yard.now) (Y.setting yard.now) (Y.Pass.view pass.new) }
        ensures comes { OnOk result (Shows (Y.setting yard.now) (numbers_on self.old) (Y.Pass.view pass.new).front self.new
            (added (Y.setting yard.now) line.now (turn_on (Y.setting yard.now) line.now.txn self.old)
            (game_on (Y.Pass.view pass.old).front self.old))) }
    {
        if self.has_ended(line.txn) {
            return Ok(());
        }
        self.put_line(line)?;
        if self.is_waiting(line.txn) {
            return Ok(());
        }
        self.play_next(yard, pass, line.txn)
    }

    /// Takes a line of the trace.
    pub(crate) fn take_line<Y: Yard>(
        &mut self,
        yard: &Y,
        pass: &mut Y::Pass,
        line: &Line,
    ) -> Result<(), AllocError>
        requires acts { HasTable (Y.Pass.origin pass.old) (Y.identity yard.now) (Y.setting yard.now) (Y.Pass.view pass.old) }
        requires board { IsBoard (Y.setting yard.now) (numbers_on self.old) (Y.Pass.view pass.old).front self.old }
        requires line { IsFit (Y.setting yard.now) (numbers_on self.old) line.now }
        requires room { HasRoom (Y.setting yard.now) (numbers_on self.old)
            (takes_line (Y.setting yard.now) (numbers_on self.old) (game_on (Y.Pass.view pass.old).front self.old) line.now) }
        ensures acts { HasTable (Y.Pass.origin pass.new) (Y.identity yard.now) (Y.setting yard.now) (Y.Pass.view pass.new) }
        ensures comes { OnOk result (Shows (Y.setting yard.now) (numbers_on self.old) (Y.Pass.view pass.new).front self.new
            (takes_line (Y.setting yard.now) (numbers_on self.old) (game_on (Y.Pass.view pass.old).front self.old) line.now)) }
    {
        self.add(yard, pass, line)?;
        self.settle(yard, pass)
    }

    /// Ends the least transaction that is ready. Where there is none, those that are left ask again.
    fn end_first<Y: Yard>(&mut self, yard: &Y, pass: &mut Y::Pass) -> Result<(), AllocError>
        requires acts { HasTable (Y.Pass.origin pass.old) (Y.identity yard.now) (Y.setting yard.now) (Y.Pass.view pass.old) }
        requires board { IsBoard (Y.setting yard.now) (numbers_on self.old) (Y.Pass.view pass.old).front self.old }
        requires room { HasRoom (Y.setting yard.now) (numbers_on self.old)
            (ends_first (Y.setting yard.now) (numbers_on self.old) (find is_ready (turns_of self.old.seats))
            (game_on (Y.Pass.view pass.old).front self.old)) }
        ensures acts { HasTable (Y.Pass.origin pass.new) (Y.identity yard.now) (Y.setting yard.now) (Y.Pass.view pass.new) }
        ensures comes { OnOk result (Shows (Y.setting yard.now) (numbers_on self.old) (Y.Pass.view pass.new).front self.new
            (ends_first (Y.setting yard.now) (numbers_on self.old) (find is_ready (turns_of self.old.seats))
            (game_on (Y.Pass.view pass.old).front self.old))) }
    {
        let Some(txn) = self.first_ready() else {
            return self.sweep(yard, pass);
        };
        let end = Line {
            txn,
            number: 0,
            deed: LineDeed::End,
        };
        self.add(yard, pass, &end)
    }

    /// Ends one transaction behind the last line.
    pub(crate) fn end_one<Y: Yard>(
        &mut self,
        yard: &Y,
        pass: &mut Y::Pass,
    ) -> Result<(), AllocError>
        requires acts { HasTable (Y.Pass.origin pass.old) (Y.identity yard.now) (Y.setting yard.now) (Y.Pass.view pass.old) }
        requires board { IsBoard (Y.setting yard.now) (numbers_on self.old) (Y.Pass.view pass.old).front self.old }
        requires room { HasRoom (Y.setting yard.now) (numbers_on self.old)
            (ends_one (Y.setting yard.now) (numbers_on self.old) (game_on (Y.Pass.view pass.old).front self.old)) }
        ensures acts { HasTable (Y.Pass.origin pass.new) (Y.identity yard.now) (Y.setting yard.now) (Y.Pass.view pass.new) }
        ensures comes { OnOk result (Shows (Y.setting yard.now) (numbers_on self.old) (Y.Pass.view pass.new).front self.new
            (ends_one (Y.setting yard.now) (numbers_on self.old) (game_on (Y.Pass.view pass.old).front self.old))) }
    {
        self.end_first(yard, pass)?;
        self.settle(yard, pass)
    }
}
