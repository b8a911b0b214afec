//! A crew's whole run over a table that the caller made.
ghost use Rattle.std.specs.Prelude.{◌≡◌, ◌≤◌, ◌+◌, ◌^◌, map, IfOk, OnErr};
ghost use Rattle.std.specs.List.{AllByRecursion, filter_map};
ghost use Rattle.lt_trace.specs.Grammar.{txns_of, IsTrace};
ghost use Rattle.lt_seq.specs.Passes.{opening_passes};
ghost use Rattle.lt_seq.specs.Yard.{origin_of};
ghost use Rattle.lt_runner.specs.Serial.{ended_in, most_events};
ghost use Rattle.lt_runner.specs.CrewCost.{seats_of};
ghost use Rattle.lt_watch.specs.Tellings.{after_notes};
ghost use Rattle.lt_crew.specs.RunCrew.{TellsCrewRun, notes_told, setting_with};

use crate::gate::Gate;
use crate::opening::opening_turns;
use crate::playing::{Played, play_crew};
use lt_history::{Ended, merge};
use lt_runner::{Transcript, Turn};
use lt_seq::{Closed, Pass, Yard};
use lt_trace::Trace;
use lt_watch::{Tells, tell_notes};
use std::alloc::{AllocError, Global};
use std::thread::Threads;

/// How the transactions ended.
fn outcomes_of(alloc: Global, turns: Vec<Turn>) -> Result<Vec<Ended>, AllocError>
    ensures { IfOk result (λ outcomes. outcomes.items ≡ filter_map (λ seat. ended_in seat.turn) turns.items) }
{
    turns
        .into_iter()
        .filter_map(Turn::into_ended)
        .collect(alloc)
}

/// Plays the transactions of a trace from their opening to their ends, and tells the watches.
pub(crate) fn play_turns<R: Threads + Sync, Y: Yard, T: Tells, G: Gate>(
    rt: &R,
    alloc: Global,
    _trace: &Trace,
    turns: Vec<Turn>,
    made: (Y, Vec<Y::Pass>),
    watch: &mut T,
    gate: &G,
) -> Result<Transcript, AllocError>
    requires trace { IsTrace _trace.now }
    requires turns { turns.items ≡ seats_of _trace.now }
    requires table { Y.setting made.0
        ≡ setting_with _trace.now (Y.setting made.0).plan.passes (Y.setting made.0).plan.first (Y.setting made.0).marks }
    requires first { (Y.setting made.0).plan.first ≤ 2 ^ 38 }
    requires some { 2 ≤ (Y.setting made.0).plan.passes }
    requires most { (Y.setting made.0).plan.passes ≤ 17 }
    requires of { AllByRecursion (λ p. Y.Pass.origin p ≡ origin_of (Y.identity made.0) (Y.setting made.0)) made.1.items }
    requires fresh { map Y.Pass.view made.1.items ≡ opening_passes (Y.setting made.0).plan.passes }
    ensures run { IfOk result (TellsCrewRun (Y.setting made.0) _trace.now.lines) }
    ensures played_to_end { IfOk result (λ transcript. map (λ ended. ended.txn) transcript.outcomes.items ≡ txns_of _trace.now.lines) }
    ensures few { IfOk result (λ transcript. transcript.places ≤ most_events _trace.now) }
    ensures told { IfOk result (λ transcript. T.logs watch.new
        ≡ map (after_notes (notes_told (Y.setting made.0) transcript)) (T.logs watch.old)) }
    ensures untold { OnErr result (watch.new ≡ watch.old) }
{
    let (yard, passes) = made;
    let Played {
        passes,
        turns,
        notes,
    } = play_crew(rt, alloc, &yard, passes, turns, gate)?;
    let Closed {
        lists,
        places,
        used,
        ..
    } = yard.close(alloc, passes)?;
    let receipts = merge(alloc, lists)?;
    let outcomes = outcomes_of(alloc, turns)?;
    tell_notes(watch, &notes);
    Ok(Transcript {
        receipts,
        outcomes,
        places,
        used,
    })
}

/// Plays a trace by a crew over a table that the caller made, as `run_crew` does over one of its own. The table's joins may
/// stop at marks.
///
/// The table is fresh, and has the trace's sizes. These are all its passes in the order of their numbers, as its maker gave
/// them, of which the first is the caller's, and each other a worker's: at least two, and at most 17. The first event has a
/// place of at most 2^38. The only error is want of memory.
///
/// Each watch is told the joins of the run once, by place, but for those that do not fit into it. After want of memory none
/// is told any.
pub fn run_crew_on<R: Threads + Sync, Y: Yard, T: Tells, G: Gate>(
    rt: &R,
    alloc: Global,
    trace: &Trace,
    yard: Y,
    passes: Vec<Y::Pass>,
    watch: &mut T,
    gate: &G,
) -> Result<Transcript, AllocError>
    requires table { Y.setting yard
        ≡ setting_with trace.now (Y.setting yard).plan.passes (Y.setting yard).plan.first (Y.setting yard).marks }
    requires first { (Y.setting yard).plan.first ≤ 2 ^ 38 }
    requires some { 2 ≤ (Y.setting yard).plan.passes }
    requires most { (Y.setting yard).plan.passes ≤ 17 }
    requires of { AllByRecursion (λ p. Y.Pass.origin p ≡ origin_of (Y.identity yard) (Y.setting yard)) passes.items }
    requires fresh { map Y.Pass.view passes.items ≡ opening_passes (Y.setting yard).plan.passes }
    ensures run { IfOk result (TellsCrewRun (Y.setting yard) trace.now.lines) }
    ensures played_to_end { IfOk result (λ transcript. map (λ ended. ended.txn) transcript.outcomes.items ≡ txns_of trace.now.lines) }
    ensures few { IfOk result (λ transcript. transcript.places ≤ most_events trace.now) }
    ensures told { IfOk result (λ transcript. T.logs watch.new
        ≡ map (after_notes (notes_told (Y.setting yard) transcript)) (T.logs watch.old)) }
    ensures untold { OnErr result (watch.new ≡ watch.old) }
{
    let turns = opening_turns(alloc, trace.lines(), trace.trees())?;
    play_turns(rt, alloc, trace, turns, (yard, passes), watch, gate)
}
