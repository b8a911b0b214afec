//! A crew over a table whose joins stop at marks.
ghost use Rattle.std.specs.Prelude.{◌≡◌, ◌+◌, ◌≤◌, map, IfOk, OnErr};
ghost use Rattle.lt_trace.specs.Grammar.{IsTrace};
ghost use Rattle.lt_watch.specs.Tellings.{after_notes};
ghost use Rattle.lt_crew.specs.RunCrew.{TellsCrewRun, notes_told, setting_with};

use lt_barrier::Barrier;
use lt_crew::{Gate, run_crew_on};
use lt_manager::Manager;
use lt_runner::Transcript;
use lt_seq::YardPlan;
use lt_trace::Trace;
use lt_watch::Tells;
use std::alloc::{AllocError, Global};
use std::thread::Threads;

/// A run of the trace by a crew of so many workers, over a table whose joins stop at the marks of the barrier. Each watch is
/// told the joins of the run.
pub(crate) fn run_cut<R: Threads + Sync, T: Tells, G: Gate>(
    rt: &R,
    alloc: Global,
    trace: &Trace,
    workers: u32,
    barrier: Box<dyn Barrier>,
    watch: &mut T,
    gate: &G,
) -> Result<Transcript, AllocError>
    requires workers { (1 ≤ workers) × (workers ≤ 16) }
    requires trace { IsTrace trace.now }
    ensures run { IfOk result (TellsCrewRun (setting_with trace.now (workers + 1) 0 (marks barrier)) trace.now.lines) }
    ensures told { IfOk result (λ transcript. T.logs watch.new
        ≡ map (after_notes (notes_told (setting_with trace.now (workers + 1) 0 (marks barrier)) transcript)) (T.logs watch.old)) }
    ensures untold { OnErr result (T.logs watch.new ≡ T.logs watch.old) }
{
    let plan = YardPlan {
        trees: trace.trees(),
        limit: trace.limit(),
        buffer: trace.buffer(),
        passes: workers + 1,
        first: 0,
    };
    let Ok((yard, passes)) = Manager::build_cut(alloc, &plan, barrier) else {
        return Err(AllocError);
    };
    run_crew_on(rt, alloc, trace, yard, passes, watch, gate)
}
