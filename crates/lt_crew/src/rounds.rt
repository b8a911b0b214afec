//! Rounds, until all transactions have ended.
ghost use Rattle.std.specs.Prelude.{◌≡◌, ◌≤◌, [], length, false, IsTrue, OnOk, IfOk};
ghost use Rattle.std.specs.List.{AllByRecursion};
ghost use Rattle.lt_runner.specs.Notes.{HasOwnNotes};
ghost use Rattle.lt_runner.specs.Played.{IsOver};
ghost use Rattle.lt_runner.specs.Retries.{AllWaitersListed};
ghost use Rattle.lt_seq.specs.Yard.{origin_of};
ghost use Rattle.lt_crew.specs.Caller.{IsCrewOf};
ghost use Rattle.lt_crew.specs.Idle.{AreIdle};
ghost use Rattle.lt_crew.specs.RunCrew.{ComesNearer, HasRoomFor, LeadsTo, SomeLeft, bound_on};
ghost use Rattle.lt_crew.specs.Workers.{IsCaller};

use crate::caller::callers_turn;
use crate::crew::tell;
use crate::dealing::deal_round;
use crate::gate::Gate;
use crate::worker::Worker;
use lt_requests::Registry;
use lt_runner::Turn;
use lt_seq::{Pass, Yard};
use std::alloc::{AllocError, Global};
use std::thread::Threads;

/// Whether all have ended and have given back all.
fn are_over(turns: &[Turn]) -> bool
    ensures over { IsTrue result → AllByRecursion IsOver turns.now }
    ensures left { result ≡ false → SomeLeft turns.now }
{
    for turn in turns {
        if !turn.is_over() {
            return false;
        }
    }
    true
}

/// One round of the workers with the caller's turn behind it, of which each worker is told.
fn play_round<R: Threads + Sync, Y: Yard, G: Gate>(
    rt: &R,
    alloc: Global,
    registry: &mut Registry,
    yard: &Y,
    me: &mut Y::Pass,
    workers: &mut [Worker<Y::Pass>],
    turns: Vec<Turn>,
    gate: &G,
) -> Result<Vec<Turn>, AllocError>
    requires of { Y.Pass.origin me.old ≡ origin_of (Y.identity yard.now) (Y.setting yard.now) }
    requires caller { IsCaller (Y.setting yard.now) (length workers.old) (Y.Pass.view me.old) }
    requires noted { HasOwnNotes (Y.setting yard.now) (Y.Pass.view me.old) }
    requires idle { AreIdle Y.Pass.origin Y.Pass.view (origin_of (Y.identity yard.now) (Y.setting yard.now))
        (Y.Pass.view me.old).front workers.old }
    requires crew { IsCrewOf (Y.setting yard.now) (Y.Pass.view me.old).front registry.old turns.items }
    requires listed { AllWaitersListed turns.items }
    requires left { SomeLeft turns.items }
    requires few { length turns.items ≤ 1024 }
    requires room { HasRoomFor (Y.setting yard.now) (Y.Pass.view me.old).front turns.items }
    ensures of { OnOk result (Y.Pass.origin me.new ≡ origin_of (Y.identity yard.now) (Y.setting yard.now)) }
    ensures caller { OnOk result (IsCaller (Y.setting yard.now) (length workers.new) (Y.Pass.view me.new)) }
    ensures noted { OnOk result (HasOwnNotes (Y.setting yard.now) (Y.Pass.view me.new)) }
    ensures idle { OnOk result (AreIdle Y.Pass.origin Y.Pass.view (origin_of (Y.identity yard.now) (Y.setting yard.now))
        (Y.Pass.view me.new).front workers.new) }
    ensures comes { IfOk result (λ now. ComesNearer (Y.setting yard.now) (Y.Pass.view me.old).front (Y.Pass.view me.new).front
        registry.old registry.new turns.items now.items) }
{
    let mut turns = deal_round(rt, alloc, yard, me, workers, turns, gate)?;
    callers_turn(alloc, registry, yard, me, &mut turns)?;
    tell(yard, me, workers);
    Ok(turns)
}

/// Rounds of the workers, each with the caller's turn behind it, until all transactions have ended and have given back all.
/// The only error is want of memory.
pub(crate) fn play_rounds<R: Threads + Sync, Y: Yard, G: Gate>(
    rt: &R,
    alloc: Global,
    yard: &Y,
    me: &mut Y::Pass,
    workers: &mut [Worker<Y::Pass>],
    turns: Vec<Turn>,
    gate: &G,
) -> Result<Vec<Turn>, AllocError>
    requires of { Y.Pass.origin me.old ≡ origin_of (Y.identity yard.now) (Y.setting yard.now) }
    requires caller { IsCaller (Y.setting yard.now) (length workers.old) (Y.Pass.view me.old) }
    requires noted { HasOwnNotes (Y.setting yard.now) (Y.Pass.view me.old) }
    requires idle { AreIdle Y.Pass.origin Y.Pass.view (origin_of (Y.identity yard.now) (Y.setting yard.now))
        (Y.Pass.view me.old).front workers.old }
    requires crew { IsCrewOf (Y.setting yard.now) (Y.Pass.view me.old).front [] turns.items }
    requires listed { AllWaitersListed turns.items }
    requires few { length turns.items ≤ 1024 }
    requires room { HasRoomFor (Y.setting yard.now) (Y.Pass.view me.old).front turns.items }
    ensures of { OnOk result (Y.Pass.origin me.new ≡ origin_of (Y.identity yard.now) (Y.setting yard.now)) }
    ensures caller { OnOk result (IsCaller (Y.setting yard.now) (length workers.new) (Y.Pass.view me.new)) }
    ensures noted { OnOk result (HasOwnNotes (Y.setting yard.now) (Y.Pass.view me.new)) }
    ensures idle { OnOk result (AreIdle Y.Pass.origin Y.Pass.view (origin_of (Y.identity yard.now) (Y.setting yard.now))
        (Y.Pass.view me.new).front workers.new) }
    ensures crew { IfOk result (λ now. LeadsTo (Y.setting yard.now) (Y.Pass.view me.old).front (Y.Pass.view me.new).front
        turns.items now.items) }
    ensures over { IfOk result (λ now. AllByRecursion IsOver now.items) }
    ensures few { OnOk result (length (Y.Pass.view me.new).front
        ≤ bound_on (Y.setting yard.now) (Y.Pass.view me.old).front turns.items) }
{
    let mut registry = Registry::new(alloc);
    let mut turns = turns;
    while !are_over(&turns) {
        turns = play_round(rt, alloc, &mut registry, yard, me, workers, turns, gate)?;
    }
    Ok(turns)
}
