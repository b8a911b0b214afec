//! The plain scheduler.
ghost use Rattle.std.specs.Prelude.{◌≡◌, ◌≤◌, ◌^◌, [], map, IfOk, OnOk, OnErr};
ghost use Rattle.std.specs.List.{AllByRecursion};
ghost use Rattle.lt_trace.specs.Grammar.{txns_of};
ghost use Rattle.lt_runner.specs.Serial.{most_events, played, plan_of, serial};
ghost use Rattle.lt_runner.specs.Steps.{IsFit};
ghost use Rattle.lt_watch.specs.Tellings.{after_notes};
ghost use Rattle.lt_runner.specs.Transcript.{Tells as TellsRun};
ghost use Rattle.lt_runner.specs.Notes.{run_notes};
ghost use Rattle.lt_runner.specs.Board.{HasTable, Shows, HasRoom};

use crate::board::Board;
use crate::transcript::Transcript;
use lt_seq::{Closed, Pass, Yard, YardPlan};
use lt_trace::{Line, Trace};
use lt_watch::{Tells, tell_notes};
use std::alloc::{AllocError, Global};
use std::collections::BTreeSet;

/// The numbers of the transactions that have lines.
pub fn numbers(alloc: Global, lines: &[Line]) -> Result<BTreeSet<u64>, AllocError>
    ensures { IfOk result (λ numbers. numbers.keys ≡ txns_of lines.now) }
{
    let mut numbers = BTreeSet::new(alloc);
    for line in lines {
        numbers.insert(line.txn)?;
    }
    Ok(numbers)
}

/// Plays the lines of a trace on a board of their transactions.
fn play_trace<Y: Yard>(
    alloc: Global,
    yard: &Y,
    pass: &mut Y::Pass,
    lines: &[Line],
    trees: u32,
) -> Result<Board, AllocError>
    requires acts { HasTable (Y.Pass.origin pass.old) (Y.identity yard.now) (Y.setting yard.now) (Y.Pass.view pass.old) }
    requires fresh { (Y.Pass.view pass.old).front ≡ [] }
    requires trees { trees ≡ (Y.setting yard.now).plan.trees }
    requires lines { AllByRecursion (IsFit (Y.setting yard.now) (txns_of lines.now)) lines.now }
    requires numbered { AllByRecursion (λ n. 1 ≤ n) (txns_of lines.now) }
    requires room { HasRoom (Y.setting yard.now) (txns_of lines.now) (played (Y.setting yard.now) (txns_of lines.now) lines.now) }
    ensures acts { HasTable (Y.Pass.origin pass.new) (Y.identity yard.now) (Y.setting yard.now) (Y.Pass.view pass.new) }
    ensures comes { IfOk result (λ board. Shows (Y.setting yard.now) (txns_of lines.now) (Y.Pass.view pass.new).front board
        (played (Y.setting yard.now) (txns_of lines.now) lines.now)) }
{
    let numbers = numbers(alloc, lines)?;
    let mut board = Board::opening(alloc, &numbers, trees)?;
    board.play_all(yard, pass, lines)?;
    Ok(board)
}

/// The table that a trace asks for: one pass, and places from this one on.
fn plan_of(trace: &Trace, first: u64) -> YardPlan
    ensures { result ≡ plan_of trace.now 1 first }
{
    YardPlan {
        trees: trace.trees(),
        limit: trace.limit(),
        buffer: trace.buffer(),
        passes: 1,
        first,
    }
}

/// Plays a trace by the plain scheduler, over a table of its own: one line after another, with sweeps behind each
/// release, and behind the last line one transaction that is ready after another is ended, the least first.
///
/// The first event has the place `first`. That is at most 2^38, and a run makes few events, so that no look of the run
/// shows a full history. The table need serve one pass alone. The only error is want of memory.
///
/// Each watch is told the joins of the run once, by place, but for those that do not fit into it. After want of memory none
/// is told any.
pub fn run_serial<Y: Yard, T: Tells>(
    alloc: Global,
    trace: &Trace,
    first: u64,
    watch: &mut T,
) -> Result<Transcript, AllocError>
    requires first { first ≤ 2 ^ 38 }
    requires passes { 1 ≤ Y.MOST_PASSES }
    ensures serial { IfOk result (TellsRun (serial trace.now first)) }
    ensures played_to_end { IfOk result (λ transcript. map (λ ended. ended.txn) transcript.outcomes.items ≡ txns_of trace.now.lines) }
    ensures few { IfOk result (λ transcript. transcript.places ≤ most_events trace.now) }
    ensures told { OnOk result (T.logs watch.new ≡ map (after_notes (run_notes trace.now first)) (T.logs watch.old)) }
    ensures untold { OnErr result (watch.new ≡ watch.old) }
{
    let plan = plan_of(trace, first);
    let lines = trace.lines();
    let (yard, mut passes) = Y::build(alloc, &plan)?;
    let board = play_trace(alloc, &yard, &mut passes[0], lines, plan.trees)?;
    let notes = yard.take_notes(&mut passes[0]);
    let Closed {
        mut lists,
        places,
        used,
        ..
    } = yard.close(alloc, passes)?;
    let Some(receipts) = lists.pop() else {
        unreachable!();
    };
    let outcomes = board.into_outcomes()?;
    tell_notes(watch, &notes);
    Ok(Transcript {
        receipts,
        outcomes,
        places,
        used,
    })
}
