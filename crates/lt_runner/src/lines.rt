//! The next lines of a transaction, by the plain scheduler.
ghost use Rattle.std.specs.Prelude.{◌≡◌, None, Some, OnOk, true};
ghost use Rattle.lt_ranges.specs.Numbers.{is_in};
ghost use Rattle.lt_runner.specs.Plays.{next_wish};
ghost use Rattle.lt_runner.specs.Serial.{settles, plays_next, plays_on};
ghost use Rattle.lt_runner.specs.Board.{HasTable, IsBoard, Shows, HasRoom, GoesOn, game_on, numbers_on, turn_on, moved};

use crate::board::Board;
use lt_requests::Wish;
use lt_seq::{Pass, Yard};
use std::alloc::AllocError;

impl Board {
    /// Plays the next line of a transaction, one that is no `lock` line.
    fn play_line<Y: Yard>(
        &mut self,
        yard: &Y,
        pass: &mut Y::Pass,
        txn: u64,
    ) -> Result<(), AllocError>
        requires acts { HasTable (Y.Pass.origin pass.old) (Y.identity yard.now) (Y.setting yard.now) (Y.Pass.view pass.old) }
        requires board { IsBoard (Y.setting yard.now) (numbers_on self.old) (Y.Pass.view pass.old).front self.old }
        requires goes { GoesOn (Y.setting yard.now) txn self.old }
        requires plain { next_wish (turn_on (Y.setting yard.now) txn self.old).txn (turn_on (Y.setting yard.now) txn self.old).lines
            ≡ None }
        requires room { HasRoom (Y.setting yard.now) (numbers_on self.old)
            (moved (Y.setting yard.now) txn (game_on (Y.Pass.view pass.old).front self.old)) }
        ensures acts { HasTable (Y.Pass.origin pass.new) (Y.identity yard.now) (Y.setting yard.now) (Y.Pass.view pass.new) }
        ensures comes { OnOk result (Shows (Y.setting yard.now) (numbers_on self.old) (Y.Pass.view pass.new).front self.new
            (moved (Y.setting yard.now) txn (game_on (Y.Pass.view pass.old).front self.old))) }
    {
        let place = self.place_of(txn);
        self.turns[place].play_alone(yard, pass)
    }

    /// Asks for what the next line of a transaction, a `lock` line, waits for.
    fn start_line<Y: Yard>(
        &mut self,
        yard: &Y,
        pass: &mut Y::Pass,
        txn: u64,
        wish: &Wish,
    ) -> Result<(), AllocError>
        requires acts { HasTable (Y.Pass.origin pass.old) (Y.identity yard.now) (Y.setting yard.now) (Y.Pass.view pass.old) }
        requires board { IsBoard (Y.setting yard.now) (numbers_on self.old) (Y.Pass.view pass.old).front self.old }
        requires goes { GoesOn (Y.setting yard.now) txn self.old }
        requires lock { next_wish (turn_on (Y.setting yard.now) txn self.old).txn (turn_on (Y.setting yard.now) txn self.old).lines
            ≡ Some wish.now }
        requires room { HasRoom (Y.setting yard.now) (numbers_on self.old)
            (moved (Y.setting yard.now) txn (game_on (Y.Pass.view pass.old).front self.old)) }
        ensures acts { HasTable (Y.Pass.origin pass.new) (Y.identity yard.now) (Y.setting yard.now) (Y.Pass.view pass.new) }
        ensures comes { OnOk result (Shows (Y.setting yard.now) (numbers_on self.old) (Y.Pass.view pass.new).front self.new
            (moved (Y.setting yard.now) txn (game_on (Y.Pass.view pass.old).front self.old))) }
    {
        let big = self.is_big(txn);
        let started = lt_requests::start(self.alloc, &mut self.registry, yard, pass, wish, big);
        self.take_answer(txn, started)
    }

    /// Makes a move at the next line of a transaction.
    fn move_on<Y: Yard>(&mut self, yard: &Y, pass: &mut Y::Pass, txn: u64) -> Result<(), AllocError>
        requires acts { HasTable (Y.Pass.origin pass.old) (Y.identity yard.now) (Y.setting yard.now) (Y.Pass.view pass.old) }
        requires board { IsBoard (Y.setting yard.now) (numbers_on self.old) (Y.Pass.view pass.old).front self.old }
        requires goes { GoesOn (Y.setting yard.now) txn self.old }
        requires room { HasRoom (Y.setting yard.now) (numbers_on self.old)
            (moved (Y.setting yard.now) txn (game_on (Y.Pass.view pass.old).front self.old)) }
        ensures acts { HasTable (Y.Pass.origin pass.new) (Y.identity yard.now) (Y.setting yard.now) (Y.Pass.view pass.new) }
        ensures comes { OnOk result (Shows (Y.setting yard.now) (numbers_on self.old) (Y.Pass.view pass.new).front self.new
            (moved (Y.setting yard.now) txn (game_on (Y.Pass.view pass.old).front self.old))) }
    {
        match self.wish(txn) {
            None => self.play_line(yard, pass, txn),
            Some(wish) => self.start_line(yard, pass, txn, &wish),
        }
    }

    /// Makes the release of a transaction, where it has ended.
    pub(crate) fn release<Y: Yard>(
        &mut self,
        yard: &Y,
        pass: &mut Y::Pass,
        txn: u64,
    ) -> Result<(), AllocError>
        requires acts { HasTable (Y.Pass.origin pass.old) (Y.identity yard.now) (Y.setting yard.now) (Y.Pass.view pass.old) }
        requires board { IsBoard (Y.setting yard.now) (numbers_on self.old) (Y.Pass.view pass.old).front self.old }
        requires number { is_in txn (numbers_on self.old) ≡ true }
        requires room { HasRoom (Y.setting yard.now) (numbers_on self.old)
            (settles (Y.setting yard.now) (turn_on (Y.setting yard.now) txn self.old) (game_on (Y.Pass.view pass.old).front self.old)) }
        ensures acts { HasTable (Y.Pass.origin pass.new) (Y.identity yard.now) (Y.setting yard.now) (Y.Pass.view pass.new) }
        ensures comes { OnOk result (Shows (Y.setting yard.now) (numbers_on self.old) (Y.Pass.view pass.new).front self.new
            (settles (Y.setting yard.now) (turn_on (Y.setting yard.now) txn self.old) (game_on (Y.Pass.view pass.old).front self.old))) }
    {
        if !self.has_ended(txn) {
            return Ok(());
        }
        let place = self.place_of(txn);
        self.turns[place].play_alone(yard, pass)?;
        self.released = true;
        Ok(())
    }

    /// Plays the next line of a transaction that goes on, and its release where it has ended then.
    pub(crate) fn play_next<Y: Yard>(
        &mut self,
        yard: &Y,
        pass: &mut Y::Pass,
        txn: u64,
    ) -> Result<(), AllocError>
        requires acts { HasTable (Y.Pass.origin pass.old) (Y.identity yard.now) (Y.setting yard.now) (Y.Pass.view pass.old) }
        requires board { IsBoard (Y.setting yard.now) (numbers_on self.old) (Y.Pass.view pass.old).front self.old }
        requires goes { GoesOn (Y.setting yard.now) txn self.old }
        requires room { HasRoom (Y.setting yard.now) (numbers_on self.old)
            (plays_next (Y.setting yard.now) txn (game_on (Y.Pass.view pass.old).front self.old)) }
        ensures acts { HasTable (Y.Pass.origin pass.new) (Y.identity yard.now) (Y.setting yard.now) (Y.Pass.view pass.new) }
        ensures comes { OnOk result (Shows (Y.setting yard.now) (numbers_on self.old) (Y.Pass.view pass.new).front self.new
            (plays_next (Y.setting yard.now) txn (game_on (Y.Pass.view pass.old).front self.old))) }
    {
        self.move_on(yard, pass, txn)?;
        self.release(yard, pass, txn)
    }

    /// Plays the lines that are left of a transaction, until it waits or has ended.
    pub(crate) fn play_on<Y: Yard>(
        &mut self,
        yard: &Y,
        pass: &mut Y::Pass,
        txn: u64,
    ) -> Result<(), AllocError>
        requires acts { HasTable (Y.Pass.origin pass.old) (Y.identity yard.now) (Y.setting yard.now) (Y.Pass.view pass.old) }
        requires board { IsBoard (Y.setting yard.now) (numbers_on self.old) (Y.Pass.view pass.old).front self.old }
        requires number { is_in txn (numbers_on self.old) ≡ true }
        requires room { HasRoom (Y.setting yard.now) (numbers_on self.old)
            (plays_on (Y.setting yard.now) txn (turn_on (Y.setting yard.now) txn self.old).lines (game_on (Y.Pass.view pass.old).front self.old)) }
        ensures acts { HasTable (Y.Pass.origin pass.new) (Y.identity yard.now) (Y.setting yard.now) (Y.Pass.view pass.new) }
        ensures comes { OnOk result (Shows (Y.setting yard.now) (numbers_on self.old) (Y.Pass.view pass.new).front self.new
            (plays_on (Y.setting yard.now) txn (turn_on (Y.setting yard.now) txn self.old).lines (game_on (Y.Pass.view pass.old).front self.old))) }
    {
        for _line in 0..self.lines_left(txn) {
            if !self.is_ready(txn) {
                return Ok(());
            }
            if self.lines_left(txn) == 0 {
                return Ok(());
            }
            self.play_next(yard, pass, txn)?;
        }
        Ok(())
    }
}
