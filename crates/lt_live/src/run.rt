//! A whole run by threads that wait for each other.
ghost use Rattle.std.specs.Prelude.{◌≡◌, ◌≤◌, ◌^◌, [], map, IfOk, OnErr};
ghost use Rattle.std.specs.List.{AllByRecursion, filter_map};
ghost use Rattle.crossbeam_queue.specs.Passes.{view, IsPassOf};
ghost use Rattle.lt_trace.specs.Grammar.{txns_of};
ghost use Rattle.lt_runner.specs.Serial.{ended_in, plan_of};
ghost use Rattle.lt_watch.specs.Tellings.{after_notes};
ghost use Rattle.lt_live.specs.Deals.{hand};
ghost use Rattle.lt_live.specs.RunLive.{TellsLiveRun, notes_told};

use crate::hire::Played;
use crate::live::play;
use crate::queue::{Line as Queue, Ticket, open, put_all};
use lt_crew::Gate;
use lt_history::{Ended, merge};
use lt_runner::{Transcript, Turn};
use lt_seq::{Closed, Pass, Yard, YardPlan};
use lt_trace::{Line, Trace};
use lt_watch::{Tells, tell_notes};
use std::alloc::{AllocError, Global};
use std::sync::Wait;
use std::thread::Threads;

/// The table that a trace asks for, of so many passes, and with places from this one on.
fn plan_of(trace: &Trace, passes: u32, first: u64) -> YardPlan
    ensures { result ≡ plan_of trace.now passes first }
{
    YardPlan {
        trees: trace.trees(),
        limit: trace.limit(),
        buffer: trace.buffer(),
        passes,
        first,
    }
}

/// The numbers of the transactions that have lines, ascending.
fn numbers_in(alloc: Global, lines: &[Line]) -> Result<Vec<u64>, AllocError>
    ensures { IfOk result (λ numbers. numbers.items ≡ txns_of lines.now) }
{
    let mut numbers = Vec::new(alloc);
    for txn in &lt_runner::numbers(alloc, lines)? {
        numbers.push(*txn)?;
    }
    Ok(numbers)
}

/// A queue with these numbers in it.
fn fill<R: Wait>(rt: &R, alloc: Global, numbers: &[u64]) -> Result<(Queue, Ticket), AllocError>
    requires some { AllByRecursion (λ n. 1 ≤ n) numbers.now }
    ensures { IfOk result (λ q. IsPassOf q.0 q.1 × (view q.1 ≡ hand 1024 numbers.now [])) }
{
    let (queue, mut ticket) = open(alloc, numbers.len().max(1))?;
    put_all(rt, &queue, &mut ticket, numbers);
    Ok((queue, ticket))
}

/// How the transactions ended.
fn outcomes_of(alloc: Global, turns: Vec<Turn>) -> Result<Vec<Ended>, AllocError>
    ensures { IfOk result (λ outcomes. outcomes.items ≡ filter_map (λ seat. ended_in seat.turn) turns.items) }
{
    turns
        .into_iter()
        .filter_map(Turn::into_ended)
        .collect(alloc)
}

/// Plays a trace by so many workers, each in a thread, over a table of its own with a pass for each. A worker takes one
/// transaction after another and plays it to its end. Where a transaction is held its worker waits, until another has ended or
/// it is called on to try again. The gate is called round each line that a worker plays.
///
/// There are 1 to 16 workers. The first event has the place `first`, which is at most 2^38. The only error is want of memory.
/// The run may wait, and that it returns is not promised.
///
/// Each watch is told the joins of the run once, by place, but for those that do not fit into it. After want of memory none
/// is told any.
pub fn run_live<R: Threads + Wait + Sync, Y: Yard, T: Tells, G: Gate>(
    rt: &R,
    alloc: Global,
    trace: &Trace,
    first: u64,
    workers: u32,
    watch: &mut T,
    gate: &G,
) -> Result<Transcript, AllocError>
    requires first { first ≤ 2 ^ 38 }
    requires some { 1 ≤ workers }
    requires most { workers ≤ 16 }
    requires passes { workers ≤ Y.MOST_PASSES }
    ensures run { IfOk result (TellsLiveRun trace.now workers first) }
    ensures played_to_end { IfOk result (λ transcript. map (λ ended. ended.txn) transcript.outcomes.items ≡ txns_of trace.now.lines) }
    ensures told { IfOk result (λ transcript. T.logs watch.new
        ≡ map (after_notes (notes_told trace.now workers first transcript)) (T.logs watch.old)) }
    ensures untold { OnErr result (watch.new ≡ watch.old) }
{
    let lines = trace.lines();
    let plan = plan_of(trace, workers, first);
    let numbers = numbers_in(alloc, lines)?;
    let (queue, ticket) = fill(rt, alloc, &numbers)?;
    let (yard, passes) = Y::build(alloc, &plan)?;
    let Played {
        passes,
        turns,
        notes,
    } = play(
        rt, alloc, &yard, workers, passes, &queue, ticket, lines, plan.trees, gate,
    )?;
    let Closed {
        lists,
        places,
        used,
        ..
    } = yard.close(alloc, passes)?;
    let receipts = merge(alloc, lists)?;
    let outcomes = outcomes_of(alloc, turns)?;
    tell_notes(watch, &notes);
    Ok(Transcript {
        receipts,
        outcomes,
        places,
        used,
    })
}
