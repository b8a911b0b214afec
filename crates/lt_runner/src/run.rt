//! The whole run of the plain scheduler.
ghost use Rattle.std.specs.Prelude.{◌≡◌, ℕ, fold, OnOk, IfOk};
ghost use Rattle.std.specs.List.{AllByRecursion, filter_map};
ghost use Rattle.lt_runner.specs.Serial.{takes_line, ends_one, opening_game, played, ended_in};
ghost use Rattle.lt_runner.specs.Steps.{IsFit};
ghost use Rattle.lt_runner.specs.Board.{HasTable, IsBoard, Shows, HasRoom, game_on, numbers_on};

use crate::board::Board;
use crate::turn::Turn;
use lt_history::Ended;
use lt_seq::{Pass, Yard};
use lt_trace::Line;
use std::alloc::AllocError;

impl Board {
    /// Takes lines of the trace, one after another.
    fn take_lines<Y: Yard>(
        &mut self,
        yard: &Y,
        pass: &mut Y::Pass,
        lines: &[Line],
    ) -> Result<(), AllocError>
        requires acts { HasTable (Y.Pass.origin pass.old) (Y.identity yard.now) (Y.setting yard.now) (Y.Pass.view pass.old) }
        requires board { IsBoard (Y.setting yard.now) (numbers_on self.old) (Y.Pass.view pass.old).front self.old }
        requires lines { AllByRecursion (IsFit (Y.setting yard.now) (numbers_on self.old)) lines.now }
        requires room { HasRoom (Y.setting yard.now) (numbers_on self.old)
            (fold (takes_line (Y.setting yard.now) (numbers_on self.old)) (game_on (Y.Pass.view pass.old).front self.old) lines.now) }
        ensures acts { HasTable (Y.Pass.origin pass.new) (Y.identity yard.now) (Y.setting yard.now) (Y.Pass.view pass.new) }
        ensures comes { OnOk result (Shows (Y.setting yard.now) (numbers_on self.old) (Y.Pass.view pass.new).front self.new
            (fold (takes_line (Y.setting yard.now) (numbers_on self.old)) (game_on (Y.Pass.view pass.old).front self.old) lines.now)) }
    {
        for line in lines {
            self.take_line(yard, pass, line)?;
        }
        Ok(())
    }

    /// Ends one transaction after another, as often as there are transactions.
    fn end_all<Y: Yard>(&mut self, yard: &Y, pass: &mut Y::Pass) -> Result<(), AllocError>
        requires acts { HasTable (Y.Pass.origin pass.old) (Y.identity yard.now) (Y.setting yard.now) (Y.Pass.view pass.old) }
        requires board { IsBoard (Y.setting yard.now) (numbers_on self.old) (Y.Pass.view pass.old).front self.old }
        requires room { HasRoom (Y.setting yard.now) (numbers_on self.old)
            (fold (λ game (txn : ℕ). ends_one (Y.setting yard.now) (numbers_on self.old) game)
            (game_on (Y.Pass.view pass.old).front self.old) (numbers_on self.old)) }
        ensures acts { HasTable (Y.Pass.origin pass.new) (Y.identity yard.now) (Y.setting yard.now) (Y.Pass.view pass.new) }
        ensures comes { OnOk result (Shows (Y.setting yard.now) (numbers_on self.old) (Y.Pass.view pass.new).front self.new
            (fold (λ game (txn : ℕ). ends_one (Y.setting yard.now) (numbers_on self.old) game)
            (game_on (Y.Pass.view pass.old).front self.old) (numbers_on self.old))) }
    {
        for _round in 0..self.how_many() {
            self.end_one(yard, pass)?;
        }
        Ok(())
    }

    /// Plays the lines of a trace from the first one on, and all transactions to their ends.
    pub(crate) fn play_all<Y: Yard>(
        &mut self,
        yard: &Y,
        pass: &mut Y::Pass,
        lines: &[Line],
    ) -> Result<(), AllocError>
        requires acts { HasTable (Y.Pass.origin pass.old) (Y.identity yard.now) (Y.setting yard.now) (Y.Pass.view pass.old) }
        requires board { IsBoard (Y.setting yard.now) (numbers_on self.old) (Y.Pass.view pass.old).front self.old }
        requires fresh { game_on (Y.Pass.view pass.old).front self.old ≡ opening_game (Y.setting yard.now) (numbers_on self.old) }
        requires lines { AllByRecursion (IsFit (Y.setting yard.now) (numbers_on self.old)) lines.now }
        requires room { HasRoom (Y.setting yard.now) (numbers_on self.old) (played (Y.setting yard.now) (numbers_on self.old) lines.now) }
        ensures acts { HasTable (Y.Pass.origin pass.new) (Y.identity yard.now) (Y.setting yard.now) (Y.Pass.view pass.new) }
        ensures comes { OnOk result (Shows (Y.setting yard.now) (numbers_on self.old) (Y.Pass.view pass.new).front self.new
            (played (Y.setting yard.now) (numbers_on self.old) lines.now)) }
    {
        self.take_lines(yard, pass, lines)?;
        self.end_all(yard, pass)
    }

    /// How the transactions ended.
    pub(crate) fn into_outcomes(self) -> Result<Vec<Ended>, AllocError>
        ensures { IfOk result (λ outcomes. outcomes.items ≡ filter_map (λ seat. ended_in seat.turn) self.seats) }
    {
        let alloc = self.alloc;
        self.turns
            .into_iter()
            .filter_map(Turn::into_ended)
            .collect(alloc)
    }
}
