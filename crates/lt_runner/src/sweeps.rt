//! Those that wait ask again, by the plain scheduler.
ghost use Rattle.std.specs.Prelude.{◌≡◌, OnOk, true};
ghost use Rattle.lt_ranges.specs.Numbers.{is_in};
ghost use Rattle.lt_runner.specs.Serial.{is_waiting, retried, swept, settled};
ghost use Rattle.lt_runner.specs.Board.{HasTable, IsBoard, Shows, HasRoom, game_on, numbers_on, turn_on, moved};

use crate::board::Board;
use lt_seq::{Pass, Yard};
use std::alloc::AllocError;

impl Board {
    /// Asks once more for what a transaction waits for.
    fn retry_line<Y: Yard>(
        &mut self,
        yard: &Y,
        pass: &mut Y::Pass,
        txn: u64,
    ) -> Result<(), AllocError>
        requires acts { HasTable (Y.Pass.origin pass.old) (Y.identity yard.now) (Y.setting yard.now) (Y.Pass.view pass.old) }
        requires board { IsBoard (Y.setting yard.now) (numbers_on self.old) (Y.Pass.view pass.old).front self.old }
        requires number { is_in txn (numbers_on self.old) ≡ true }
        requires waits { is_waiting (turn_on (Y.setting yard.now) txn self.old) ≡ true }
        requires room { HasRoom (Y.setting yard.now) (numbers_on self.old)
            (moved (Y.setting yard.now) txn (game_on (Y.Pass.view pass.old).front self.old)) }
        ensures acts { HasTable (Y.Pass.origin pass.new) (Y.identity yard.now) (Y.setting yard.now) (Y.Pass.view pass.new) }
        ensures comes { OnOk result (Shows (Y.setting yard.now) (numbers_on self.old) (Y.Pass.view pass.new).front self.new
            (moved (Y.setting yard.now) txn (game_on (Y.Pass.view pass.old).front self.old))) }
    {
        let big = self.is_big(txn);
        let started = lt_requests::retry(self.alloc, &mut self.registry, yard, pass, txn, big);
        self.take_answer(txn, started)
    }

    /// Asks once more for what a transaction waits for. One that is granted goes on with its lines.
    fn retry<Y: Yard>(&mut self, yard: &Y, pass: &mut Y::Pass, txn: u64) -> Result<(), AllocError>
        requires acts { HasTable (Y.Pass.origin pass.old) (Y.identity yard.now) (Y.setting yard.now) (Y.Pass.view pass.old) }
        requires board { IsBoard (Y.setting yard.now) (numbers_on self.old) (Y.Pass.view pass.old).front self.old }
        requires number { is_in txn (numbers_on self.old) ≡ true }
        requires waits { is_waiting (turn_on (Y.setting yard.now) txn self.old) ≡ true }
        requires room { HasRoom (Y.setting yard.now) (numbers_on self.old) (retried (Y.setting yard.now)
            (game_on (Y.Pass.view pass.old).front self.old) txn) }
        ensures acts { HasTable (Y.Pass.origin pass.new) (Y.identity yard.now) (Y.setting yard.now) (Y.Pass.view pass.new) }
        ensures comes { OnOk result (Shows (Y.setting yard.now) (numbers_on self.old) (Y.Pass.view pass.new).front self.new
            (retried (Y.setting yard.now) (game_on (Y.Pass.view pass.old).front self.old) txn)) }
    {
        self.retry_line(yard, pass, txn)?;
        self.release(yard, pass, txn)?;
        self.play_on(yard, pass, txn)
    }

    /// Each one that waits asks again, in ascending order.
    pub(crate) fn sweep<Y: Yard>(&mut self, yard: &Y, pass: &mut Y::Pass) -> Result<(), AllocError>
        requires acts { HasTable (Y.Pass.origin pass.old) (Y.identity yard.now) (Y.setting yard.now) (Y.Pass.view pass.old) }
        requires board { IsBoard (Y.setting yard.now) (numbers_on self.old) (Y.Pass.view pass.old).front self.old }
        requires room { HasRoom (Y.setting yard.now) (numbers_on self.old) (swept (Y.setting yard.now) (numbers_on self.old)
            (game_on (Y.Pass.view pass.old).front self.old)) }
        ensures acts { HasTable (Y.Pass.origin pass.new) (Y.identity yard.now) (Y.setting yard.now) (Y.Pass.view pass.new) }
        ensures comes { OnOk result (Shows (Y.setting yard.now) (numbers_on self.old) (Y.Pass.view pass.new).front self.new
            (swept (Y.setting yard.now) (numbers_on self.old) (game_on (Y.Pass.view pass.old).front self.old))) }
    {
        self.begin_sweep();
        let mut last = 0;
        while let Some(txn) = self.next_waiting(last) {
            self.retry(yard, pass, txn)?;
            last = txn;
        }
        Ok(())
    }

    /// Sweeps while a transaction was released since the last sweep began.
    pub(crate) fn settle<Y: Yard>(&mut self, yard: &Y, pass: &mut Y::Pass) -> Result<(), AllocError>
        requires acts { HasTable (Y.Pass.origin pass.old) (Y.identity yard.now) (Y.setting yard.now) (Y.Pass.view pass.old) }
        requires board { IsBoard (Y.setting yard.now) (numbers_on self.old) (Y.Pass.view pass.old).front self.old }
        requires room { HasRoom (Y.setting yard.now) (numbers_on self.old) (settled (Y.setting yard.now) (numbers_on self.old)
            (game_on (Y.Pass.view pass.old).front self.old)) }
        ensures acts { HasTable (Y.Pass.origin pass.new) (Y.identity yard.now) (Y.setting yard.now) (Y.Pass.view pass.new) }
        ensures comes { OnOk result (Shows (Y.setting yard.now) (numbers_on self.old) (Y.Pass.view pass.new).front self.new
            (settled (Y.setting yard.now) (numbers_on self.old) (game_on (Y.Pass.view pass.old).front self.old))) }
    {
        for _sweep in 0..self.how_many() {
            if !self.was_released() {
                return Ok(());
            }
            self.sweep(yard, pass)?;
        }
        Ok(())
    }
}
