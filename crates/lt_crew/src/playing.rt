//! A crew over a table of its own, from the opening to the end.
ghost use Rattle.std.specs.Prelude.{◌≡◌, ◌≤◌, [], map, length, IfOk};
ghost use Rattle.std.specs.List.{AllByRecursion};
ghost use Rattle.lt_seq.specs.Passes.{opening_passes};
ghost use Rattle.lt_seq.specs.Yard.{origin_of, IsPlan};
ghost use Rattle.lt_runner.specs.Retries.{AllWaitersListed};
ghost use Rattle.lt_crew.specs.Caller.{IsCrewOf};
ghost use Rattle.lt_crew.specs.Passes.{IsPlayedCrew};
ghost use Rattle.lt_crew.specs.RunCrew.{HasRoomFor};

use crate::gate::Gate;
use crate::passes::{all_passes, idle_workers, take_all_notes};
use crate::rounds::play_rounds;
use lt_runner::Turn;
use lt_seq::{JoinNote, Pass, Yard};
use std::alloc::{AllocError, Global};
use std::thread::Threads;

/// What is left where all transactions have ended.
#[derive(Drop)]
pub(crate) struct Played<P> {
    /// All passes, the caller's first.
    pub(crate) passes: Vec<P>,
    /// The transactions, ascending.
    pub(crate) turns: Vec<Turn>,
    /// The notes of all joins, by place.
    pub(crate) notes: Vec<JoinNote>,
}

/// The first pass is the caller's, and each other a worker's: they play the transactions to their ends. The only error is
/// want of memory.
pub(crate) fn play_crew<R: Threads + Sync, Y: Yard, G: Gate>(
    rt: &R,
    alloc: Global,
    yard: &Y,
    passes: Vec<Y::Pass>,
    turns: Vec<Turn>,
    gate: &G,
) -> Result<Played<Y::Pass>, AllocError>
    requires plan { IsPlan (Y.setting yard.now).plan }
    requires several { 2 ≤ (Y.setting yard.now).plan.passes }
    requires of { AllByRecursion (λ p. Y.Pass.origin p ≡ origin_of (Y.identity yard.now) (Y.setting yard.now)) passes.items }
    requires passes { map Y.Pass.view passes.items ≡ opening_passes (Y.setting yard.now).plan.passes }
    requires crew { IsCrewOf (Y.setting yard.now) [] [] turns.items }
    requires listed { AllWaitersListed turns.items }
    requires few { length turns.items ≤ 1024 }
    requires room { HasRoomFor (Y.setting yard.now) [] turns.items }
    ensures { IfOk result (IsPlayedCrew Y.Pass.origin Y.Pass.view (origin_of (Y.identity yard.now) (Y.setting yard.now)) turns.items) }
{
    let mut passes = passes;
    let mut me = passes.remove(0);
    let mut workers = idle_workers(alloc, passes)?;
    let turns = play_rounds(rt, alloc, yard, &mut me, &mut workers, turns, gate)?;
    let mut all = all_passes(alloc, me, workers)?;
    let notes = take_all_notes(alloc, yard, &mut all)?;
    Ok(Played {
        passes: all,
        turns,
        notes,
    })
}
