//! Rounds whose transactions the workers draw from a deal.
ghost use Rattle.std.specs.Prelude.{◌≡◌, ◌+◌, ◌≤◌, ◌<◌, All, List, length, is_some, IsTrue, OnOk, IfOk};
ghost use Rattle.lt_seq.specs.Yard.{origin_of, IsSound};
ghost use Rattle.lt_runner.specs.TurnView.{Seat};
ghost use Rattle.lt_runner.specs.Notes.{HasOwnNotes};
ghost use Rattle.lt_deal.specs.declared.deal.Deal.{Deal as DealOf};
ghost use Rattle.lt_deal.specs.Fresh.{IsNewSeat};
ghost use Rattle.lt_crew.specs.Workers.{IsResting, HasTaken, EachPair, IsCaller, AreNumbered};
ghost use Rattle.lt_crew.specs.Caller.{IsSomeCrew};
ghost use Rattle.lt_crew.specs.DealRounds.{GetsSeat, KeepsPass, AreSeatsOf, IsSeated, HavePlayed, IsDealtRound};

use crate::crew;
use crate::gate::Gate;
use crate::worker::Worker;
use lt_deal::{Deal, DealSeat};
use lt_runner::Turn;
use lt_seq::{Pass, Yard};
use std::alloc::{AllocError, Global};
use std::thread::Threads;

/// Gives a seat to each worker.
pub(crate) fn seat_all<P>(workers: &mut [Worker<P>], seats: Vec<DealSeat<Turn>>)
    requires { length seats.items ≡ length workers.old }
    ensures { (deal : DealOf Seat) (stock : List Seat) → All (IsNewSeat deal.table.shared.table_id stock) seats.items
        → EachPair (GetsSeat deal stock) workers.old workers.new }
{
    let mut left = seats;
    for worker in workers.iter_mut() {
        worker.seat = left.pop();
    }
}

/// Takes the seats of all workers.
fn take_seats<P>(
    alloc: Global,
    workers: &mut [Worker<P>],
) -> Result<Vec<DealSeat<Turn>>, AllocError>
    requires { All (λ w. IsTrue (is_some w.seat)) workers.old }
    ensures seats { IfOk result (λ seats. AreSeatsOf workers.old seats.items) }
    ensures workers { OnOk result (EachPair KeepsPass workers.old workers.new) }
{
    let mut seats = Vec::new(alloc);
    for worker in workers.iter_mut() {
        let Some(seat) = worker.seat.take() else {
            unreachable!()
        };
        seats.push(seat)?;
    }
    Ok(seats)
}

/// The workers, which have each a right and a seat, play, and give both back. Then each has seen what the caller has seen.
/// The only error is want of memory.
fn play_lent<R: Threads + Sync, Y: Yard, G: Gate>(
    rt: &R,
    alloc: Global,
    yard: &Y,
    deal: &Deal<Turn>,
    me: &mut Y::Pass,
    workers: &mut [Worker<Y::Pass>],
    gate: &G,
) -> Result<Vec<DealSeat<Turn>>, AllocError>
    requires of { Y.Pass.origin me.old ≡ origin_of (Y.identity yard.now) (Y.setting yard.now) }
    requires sound { IsSound (Y.setting yard.now) (Y.Pass.view me.old) }
    requires several { 2 ≤ (Y.setting yard.now).plan.passes }
    requires rest { (Y.Pass.view me.old).rights + length workers.old ≤ (Y.setting yard.now).plan.passes }
    requires some { 0 < length workers.old }
    requires seated { All (IsSeated Y.Pass.origin Y.Pass.view (origin_of (Y.identity yard.now) (Y.setting yard.now)) deal.now)
        workers.old }
    requires one { All (λ w. (Y.Pass.view w.pass).rights ≡ 1) workers.old }
    ensures of { Y.Pass.origin me.new ≡ origin_of (Y.identity yard.now) (Y.setting yard.now) }
    ensures me { OnOk result (HasTaken (Y.setting yard.now) (Y.Pass.view me.old) (Y.Pass.view me.new) (length workers.old)) }
    ensures played { IfOk result (λ seats. HavePlayed Y.Pass.origin Y.Pass.view
        (origin_of (Y.identity yard.now) (Y.setting yard.now)) deal.now (Y.Pass.view me.new).front workers.old workers.new seats.items) }
{
    crew::side_by_side(rt, yard, deal, workers, gate);
    if crew::any_short(workers) {
        return Err(AllocError);
    }
    let seats = take_seats(alloc, workers)?;
    crew::take_back(yard, me, workers);
    crew::tell(yard, me, workers);
    Ok(seats)
}

/// One round: each worker gets a right, and the workers draw the transactions, play them side by side and give them back,
/// until none is left to draw. Then the rights come back, the caller has all of them again, and each pass has seen the whole
/// history. The transactions stand at their indexes again, and each pass has the notes of its own joins.
///
/// Each transaction is drawn by one worker, which plays it until it waits at a held line, a call is refused, or it has given
/// back all. One that waits, or whose last call was refused, is left as it is, and none is registered. The only error is want
/// of memory. Then the events that were made stand, rights may be left with the workers, and the transactions are gone.
pub fn deal_round<R: Threads + Sync, Y: Yard, G: Gate>(
    rt: &R,
    alloc: Global,
    yard: &Y,
    me: &mut Y::Pass,
    workers: &mut [Worker<Y::Pass>],
    turns: Vec<Turn>,
    gate: &G,
) -> Result<Vec<Turn>, AllocError>
    requires of { Y.Pass.origin me.old ≡ origin_of (Y.identity yard.now) (Y.setting yard.now) }
    requires caller { IsCaller (Y.setting yard.now) (length workers.old) (Y.Pass.view me.old) }
    requires resting { All (IsResting Y.Pass.origin Y.Pass.view (origin_of (Y.identity yard.now) (Y.setting yard.now))
        (Y.Pass.view me.old).front) workers.old }
    requires numbers { AreNumbered Y.Pass.view workers.old }
    requires noted { HasOwnNotes (Y.setting yard.now) (Y.Pass.view me.old) }
    requires workers_noted { All (λ w. HasOwnNotes (Y.setting yard.now) (Y.Pass.view w.pass)) workers.old }
    requires crew { IsSomeCrew (Y.setting yard.now) (Y.Pass.view me.old).front turns.items }
    requires few { length turns.items ≤ 1024 }
    ensures of { Y.Pass.origin me.new ≡ origin_of (Y.identity yard.now) (Y.setting yard.now) }
    ensures caller { OnOk result (IsCaller (Y.setting yard.now) (length workers.old) (Y.Pass.view me.new)) }
    ensures resting { OnOk result (All (IsResting Y.Pass.origin Y.Pass.view (origin_of (Y.identity yard.now) (Y.setting yard.now))
        (Y.Pass.view me.new).front) workers.new) }
    ensures workers { OnOk result (length workers.new ≡ length workers.old) }
    ensures numbers { OnOk result (AreNumbered Y.Pass.view workers.new) }
    ensures noted { OnOk result (HasOwnNotes (Y.setting yard.now) (Y.Pass.view me.new)) }
    ensures workers_noted { OnOk result (All (λ w. HasOwnNotes (Y.setting yard.now) (Y.Pass.view w.pass)) workers.new) }
    ensures dealt { IfOk result (λ r. IsDealtRound (Y.setting yard.now) (Y.Pass.view me.old).front (Y.Pass.view me.new).front
        turns.items r.items) }
{
    let (deal, seats) = Deal::build(alloc, turns, workers.len() as u32)?;
    crew::lend(yard, me, workers);
    seat_all(workers, seats);
    let seats = play_lent(rt, alloc, yard, &deal, me, workers, gate)?;
    deal.close(alloc, seats)
}
