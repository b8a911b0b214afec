//! A crew's whole run.
ghost use Rattle.std.specs.Prelude.{◌≡◌, ◌≤◌, ◌+◌, ◌^◌, map, IfOk, OnErr};
ghost use Rattle.lt_trace.specs.Grammar.{txns_of};
ghost use Rattle.lt_runner.specs.Serial.{setting_of, most_events};
ghost use Rattle.lt_watch.specs.Tellings.{after_notes};
ghost use Rattle.lt_crew.specs.RunCrew.{TellsCrewRun, notes_told};

use crate::gate::Gate;
use crate::opening::{opening_turns, plan_of};
use crate::run_on::play_turns;
use lt_runner::Transcript;
use lt_seq::Yard;
use lt_trace::Trace;
use lt_watch::Tells;
use std::alloc::{AllocError, Global};
use std::thread::Threads;

/// Plays a trace by a crew of so many workers, over a table of its own. The workers play transactions side by side, each in
/// a thread, and between two rounds of theirs the caller plays on what was refused and asks for those that wait, until all
/// have ended and have given back all. The gate is called round each line that a worker plays.
///
/// There are 1 to 16 workers, and the table serves a pass for each of them and one for the caller. The first event has the
/// place `first`. That is at most 2^38, and a run makes few events, so that no look of the run shows a full history. The
/// only error is want of memory.
///
/// Each watch is told the joins of the run once, by place, but for those that do not fit into it. After want of memory none
/// is told any.
pub fn run_crew<R: Threads + Sync, Y: Yard, T: Tells, G: Gate>(
    rt: &R,
    alloc: Global,
    trace: &Trace,
    first: u64,
    workers: u32,
    watch: &mut T,
    gate: &G,
) -> Result<Transcript, AllocError>
    requires first { first ≤ 2 ^ 38 }
    requires some { 1 ≤ workers }
    requires most { workers ≤ 16 }
    requires passes { workers + 1 ≤ Y.MOST_PASSES }
    ensures run { IfOk result (TellsCrewRun (setting_of trace.now (workers + 1) first) trace.now.lines) }
    ensures played_to_end { IfOk result (λ transcript. map (λ ended. ended.txn) transcript.outcomes.items ≡ txns_of trace.now.lines) }
    ensures few { IfOk result (λ transcript. transcript.places ≤ most_events trace.now) }
    ensures told { IfOk result (λ transcript. T.logs watch.new
        ≡ map (after_notes (notes_told (setting_of trace.now (workers + 1) first) transcript)) (T.logs watch.old)) }
    ensures untold { OnErr result (watch.new ≡ watch.old) }
{
    let plan = plan_of(trace, workers + 1, first);
    let turns = opening_turns(alloc, trace.lines(), plan.trees)?;
    let made = Y::build(alloc, &plan)?;
    play_turns(rt, alloc, trace, turns, made, watch, gate)
}
