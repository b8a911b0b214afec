//! A pass that draws transactions, plays them and gives them back.
ghost use Rattle.std.specs.Prelude.{◌≡◌, OnOk, IfOk};
ghost use Rattle.std.specs.List.{All};
ghost use Rattle.lt_seq.specs.Yard.{origin_of};
ghost use Rattle.lt_runner.specs.PlaysOn.{IsFit, IsReady};
ghost use Rattle.lt_deal.specs.Handles.{knows, IsSeatOf, Rests};
ghost use Rattle.lt_deal.specs.Fresh.{waiting};
ghost use Rattle.lt_crew.specs.Crew.{AreDistinct};
ghost use Rattle.lt_crew.specs.Drawing.{IsDrawn, DrawsOn};

use crate::gate::Gate;
use crate::play;
use lt_deal::{Deal, DealSeat};
use lt_runner::Turn;
use lt_seq::{Pass, Yard};
use std::alloc::AllocError;

/// Draws a transaction, plays it, and gives it back. It says whether one was left. The only error is want of memory.
fn play_next<Y: Yard, G: Gate>(
    yard: &Y,
    deal: &Deal<Turn>,
    pass: &mut Y::Pass,
    seat: &mut DealSeat<Turn>,
    gate: &G,
) -> Result<bool, AllocError>
    requires of { Y.Pass.origin pass.old ≡ origin_of (Y.identity yard.now) (Y.setting yard.now) }
    requires ready { IsReady (Y.setting yard.now) (Y.Pass.view pass.old) }
    requires seat { IsSeatOf deal.now seat.old × Rests seat.old × ((knows seat.old).nones ≡ 0) }
    requires fit { All (IsFit (Y.setting yard.now)) (knows seat.old).stock }
    ensures of { Y.Pass.origin pass.new ≡ origin_of (Y.identity yard.now) (Y.setting yard.now) }
    ensures seat { IsSeatOf deal.now seat.new × Rests seat.new }
    ensures next { IfOk result (λ more. DrawsOn more (Y.setting yard.now) (Y.Pass.view pass.old) (Y.Pass.view pass.new)
        (knows seat.old) (knows seat.new)) }
{
    let Some((index, turn)) = deal.draw(seat) else {
        return Ok(false);
    };
    let mut turn = turn;
    let played = play::play_turn(yard, pass, &mut turn, gate);
    deal.give_back(seat, index, turn);
    played?;
    Ok(true)
}

/// Draws transactions and plays them, one after another, until none is left. The only error is want of memory.
pub(crate) fn play_drawn<Y: Yard, G: Gate>(
    yard: &Y,
    deal: &Deal<Turn>,
    pass: &mut Y::Pass,
    seat: &mut DealSeat<Turn>,
    gate: &G,
) -> Result<(), AllocError>
    requires of { Y.Pass.origin pass.old ≡ origin_of (Y.identity yard.now) (Y.setting yard.now) }
    requires ready { IsReady (Y.setting yard.now) (Y.Pass.view pass.old) }
    requires seat { IsSeatOf deal.now seat.old × Rests seat.old }
    requires blank { knows seat.old ≡ waiting 1 (knows seat.old).stock }
    requires fit { All (IsFit (Y.setting yard.now)) (knows seat.old).stock }
    requires distinct { AreDistinct (knows seat.old).stock }
    ensures of { Y.Pass.origin pass.new ≡ origin_of (Y.identity yard.now) (Y.setting yard.now) }
    ensures seat { IsSeatOf deal.now seat.new × Rests seat.new }
    ensures plays { OnOk result (IsDrawn (Y.setting yard.now) (knows seat.old).stock (Y.Pass.view pass.old) (Y.Pass.view pass.new)
        (knows seat.new)) }
    ensures ended { OnOk result ((knows seat.new).nones ≡ 1) }
{
    while play_next(yard, deal, pass, seat, gate)? {}
    Ok(())
}
