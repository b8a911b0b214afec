//! A worker with its pass, and its seat in a deal of transactions.
ghost use Rattle.lt_seq.specs.Yard.{origin_of};
ghost use Rattle.lt_crew.specs.DealRounds.{IsSeated, HasWorked};

use crate::drawing::play_drawn;
use crate::gate::Gate;
use lt_deal::{Deal, DealSeat};
use lt_runner::Turn;
use lt_seq::{Pass, Yard};

/// A worker.
#[derive(Drop)]
pub struct Worker<P> {
    /// What it acts through.
    pub pass: P,
    /// Its seat in the deal of a round. Between rounds it has none.
    pub seat: Option<DealSeat<Turn>>,
    /// Whether it found no memory. It draws no more then.
    pub short: bool,
}

/// Plays the transactions that the worker draws, each until it has given back all, waits at a held line, or a call is
/// refused, and gives each back. Where memory is short the worker says so, and draws no more.
pub(crate) fn play<Y: Yard, G: Gate>(
    yard: &Y,
    deal: &Deal<Turn>,
    worker: &mut Worker<Y::Pass>,
    gate: &G,
)
    requires { IsSeated Y.Pass.origin Y.Pass.view (origin_of (Y.identity yard.now) (Y.setting yard.now)) deal.now worker.old }
    ensures { HasWorked Y.Pass.origin Y.Pass.view (origin_of (Y.identity yard.now) (Y.setting yard.now)) deal.now
        worker.old worker.new }
{
    let Some(mut seat) = worker.seat.take() else {
        unreachable!()
    };
    if play_drawn(yard, deal, &mut worker.pass, &mut seat, gate).is_err() {
        worker.short = true;
    }
    worker.seat = Some(seat);
}
