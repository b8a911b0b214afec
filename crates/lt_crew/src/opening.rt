//! Where a crew begins.
ghost use Rattle.std.specs.Prelude.{◌≡◌, ℕ, [], map, IfOk};
ghost use Rattle.std.specs.Option.{option_map_or};
ghost use Rattle.std.specs.BTreeMap.{get};
ghost use Rattle.std.specs.Ordering.{nat_cmp};
ghost use Rattle.lt_trace.specs.Grammar.{txns_of};
ghost use Rattle.lt_runner.specs.Plays.{own_of, lines_for};
ghost use Rattle.lt_runner.specs.Seats.{opening_seat};
ghost use Rattle.lt_runner.specs.Serial.{plan_of};

use lt_runner::Turn;
use lt_seq::YardPlan;
use lt_trace::{Line, Trace};
use std::alloc::{AllocError, Global};
use std::collections::BTreeMap;

/// The table that a trace asks for, of so many passes, and with places from this one on.
pub(crate) fn plan_of(trace: &Trace, passes: u32, first: u64) -> YardPlan
    ensures { result ≡ plan_of trace.now passes first }
{
    YardPlan {
        trees: trace.trees(),
        limit: trace.limit(),
        buffer: trace.buffer(),
        passes,
        first,
    }
}

/// The lines of each transaction that has some, in their order.
fn lines_by_txn(alloc: Global, lines: &[Line]) -> Result<BTreeMap<u64, Vec<Line>>, AllocError>
    ensures { IfOk result (λ by_txn. (txn : ℕ) → option_map_or (λ own. own.items) (get nat_cmp by_txn txn) [] ≡ own_of txn lines.now) }
{
    let mut by_txn: BTreeMap<u64, Vec<Line>> = BTreeMap::new(alloc);
    for line in lines {
        by_txn.entry(line.txn)?.or_default().push(*line)?;
    }
    Ok(by_txn)
}

/// The lines of one transaction.
fn own_lines(by_txn: &BTreeMap<u64, Vec<Line>>, txn: u64) -> &[Line]
    ensures { result.now ≡ option_map_or (λ own. own.items) (get nat_cmp by_txn.now txn) [] }
{
    match by_txn.get(&txn) {
        Some(own) => own,
        None => &[],
    }
}

/// The transactions of these lines, ascending, each with its own, for a table of so many trees.
pub(crate) fn opening_turns(
    alloc: Global,
    lines: &[Line],
    trees: u32,
) -> Result<Vec<Turn>, AllocError>
    ensures { IfOk result (λ turns. turns.items
        ≡ map (λ txn. opening_seat trees txn (lines_for txn lines.now)) (txns_of lines.now)) }
{
    let numbers = lt_runner::numbers(alloc, lines)?;
    let by_txn = lines_by_txn(alloc, lines)?;
    let mut turns = Vec::new(alloc);
    for txn in &numbers {
        turns.push(Turn::new(alloc, *txn, own_lines(&by_txn, *txn), trees)?)?;
    }
    Ok(turns)
}
