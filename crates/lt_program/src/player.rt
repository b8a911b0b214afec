//! Who plays a trace, and the text of its run.
ghost use Rattle.std.specs.Prelude.{◌≡◌, ◌⊎◌, ℕ, List, IfOk, OnErr};
ghost use Rattle.lt_trace.specs.Grammar.{IsTrace};
ghost use Rattle.lt_program.specs.Playings.{MayPlay, playing_of};
ghost use Rattle.lt_program.specs.Runs.{HasPlayed, transcript_text};

use crate::cutting::run_cut;
use lt_barrier::Barrier;
use lt_crew::{Gate, run_crew};
use lt_history::print;
use lt_live::run_live;
use lt_manager::Manager;
use lt_runner::{Transcript, run_serial};
use lt_trace::Trace;
use lt_watch::Tells;
use std::alloc::{AllocError, Global};
use std::sync::Wait;
use std::thread::Threads;

/// Who plays a trace.
#[derive(Clone, Copy, Debug, PartialEq, Eq, Hash)]
pub(crate) enum Player {
    /// The plain scheduler.
    Serial,
    /// A crew of so many workers.
    Crew(u32),
    /// So many threads that wait for each other.
    Live(u32),
    /// A crew of so many workers, over a table whose joins stop at the marks of the barrier.
    Cut(u32),
}

/// A run of the trace by this player. Each watch is told the joins of the run.
fn run_of<R: Threads + Wait + Sync, T: Tells, G: Gate>(
    rt: &R,
    alloc: Global,
    player: Player,
    barrier: Box<dyn Barrier>,
    trace: &Trace,
    watch: &mut T,
    gate: &G,
) -> Result<Transcript, AllocError>
    requires player { MayPlay player }
    requires trace { IsTrace trace.now }
    ensures run { IfOk result (λ transcript. HasPlayed (playing_of player (marks barrier)) trace.now (transcript_text transcript)
        (T.logs watch.old) (T.logs watch.new)) }
    ensures untold { OnErr result (T.logs watch.new ≡ T.logs watch.old) }
{
    match player {
        Player::Serial => run_serial::<Manager, T>(alloc, trace, 0, watch),
        Player::Crew(workers) => {
            run_crew::<R, Manager, T, G>(rt, alloc, trace, 0, workers, watch, gate)
        }
        Player::Live(threads) => {
            run_live::<R, Manager, T, G>(rt, alloc, trace, 0, threads, watch, gate)
        }
        Player::Cut(workers) => run_cut(rt, alloc, trace, workers, barrier, watch, gate),
    }
}

/// The text of a run of the trace by this player. Each watch is told the joins of the run.
pub(crate) fn played_text<R: Threads + Wait + Sync, T: Tells, G: Gate>(
    rt: &R,
    alloc: Global,
    player: Player,
    barrier: Box<dyn Barrier>,
    trace: &Trace,
    watch: &mut T,
    gate: &G,
) -> Result<Vec<u8>, AllocError>
    requires player { MayPlay player }
    requires trace { IsTrace trace.now }
    ensures run { IfOk result (λ text. HasPlayed (playing_of player (marks barrier)) trace.now text.items
        (T.logs watch.old) (T.logs watch.new)) }
    ensures short { OnErr result ((T.logs watch.new ≡ T.logs watch.old) ⊎ ((text : List ℕ)
        × HasPlayed (playing_of player (marks barrier)) trace.now text (T.logs watch.old) (T.logs watch.new))) }
{
    let run = run_of(rt, alloc, player, barrier, trace, watch, gate)?;
    print(alloc, &run.receipts, &run.outcomes, run.places, run.used)
}
