//! Plays of a pass that has all the rights.
ghost use Rattle.std.specs.Prelude.{◌≡◌, ◌≢◌, ◌+◌, ◌<◌, [], None, false, length, OnOk};
ghost use Rattle.lt_runner.specs.PlaysOn.{IsFit};
ghost use Rattle.lt_runner.specs.PlaysAlone.{MayPlayAtOnce, IsPlayedAtOnce};
ghost use Rattle.lt_runner.specs.Board.{HasTable};

use crate::turn::Turn;
use lt_seq::{Fault, Pass, Yard};
use std::alloc::AllocError;

impl Turn {
    /// Plays on by a pass that has all the rights, where there are places: the only fault is want of memory.
    pub(crate) fn play_alone<Y: Yard>(
        &mut self,
        yard: &Y,
        pass: &mut Y::Pass,
    ) -> Result<(), AllocError>
        requires acts { HasTable (Y.Pass.origin pass.old) (Y.identity yard.now) (Y.setting yard.now) (Y.Pass.view pass.old) }
        requires fit { IsFit (Y.setting yard.now) self.old }
        requires goes { self.old.turn.waits ≡ false }
        requires calm { self.old.busy ≡ false }
        requires left { self.old.turn.outcome ≡ None → self.old.turn.lines ≢ [] }
        requires may { MayPlayAtOnce (Y.setting yard.now) (Y.Pass.view pass.old) self.old.turn }
        ensures acts { HasTable (Y.Pass.origin pass.new) (Y.identity yard.now) (Y.setting yard.now) (Y.Pass.view pass.new) }
        ensures played { OnOk result (IsPlayedAtOnce (Y.setting yard.now) self.old.turn.lines
            (Y.Pass.view pass.old).front (Y.Pass.view pass.new).front self.old self.new) }
    {
        match self.play(yard, pass) {
            Ok(_) => Ok(()),
            Err(Fault::OutOfMemory) => Err(AllocError),
            Err(Fault::Busy { .. }) => unreachable!(),
            Err(Fault::HistoryFull { .. }) => unreachable!(),
            Err(Fault::OutOfLocks { .. }) => unreachable!(),
        }
    }
}
