//! The search: breadth first from the transaction along the edges backwards, and then forwards by the least steps.
ghost use Rattle.std.specs.Prelude.{◌≡◌, ◌≤◌, ◌<◌, ◌^◌, ◌+◌, ◌∷◌, ◌++◌, [], List, All};
ghost use Rattle.std.specs.Prelude.{Contains, length, is_none, IfOk, Option, MatchOption, vec_len, if◌then◌else◌, slice_index_or};
ghost use Rattle.std.specs.List.Sorted.{IsPermutation, IsNonDecreasingBy};
ghost use Rattle.lt_waits.specs.Walks.{HasNoClosedWalk, IsLeastWalk};
ghost use Rattle.lt_waits.specs.Steps.{steps_in, IsTaken, HasEdgesTo, Grows, AddsOnly, IsNext, IsOpened};
ghost use Rattle.lt_waits.specs.Steps.{IsSearch, IsHere, AreSteps, IsWalkBy, next_of, waiting};

use crate::wait::Wait;
use std::alloc::{AllocError, Global};
use std::collections::BTreeMap;

/// How a transaction comes to the one that is searched for.
#[derive(Clone, Copy, Debug, PartialEq, Eq)]
pub struct Step {
    /// How many edges the shortest walk has.
    pub left: u64,
    /// Where the least of the shortest walks goes first.
    pub next: u64,
}

/// The least of the shortest closed walks.
pub fn least_cycle(alloc: Global, waits: &[Wait], txn: u64) -> Result<Option<Vec<u64>>, AllocError>
    ensures { IfOk result (λ found. MatchOption found (HasNoClosedWalk waits.now txn) (λ walk. IsLeastWalk waits.now txn walk.items)) }
{
    let by_holder = sorted_by_holder(alloc, waits)?;
    let steps = all_steps(alloc, &by_holder, txn)?;
    walk_by(alloc, &steps, txn)
}

/// The edges by ascending holder.
fn sorted_by_holder(alloc: Global, waits: &[Wait]) -> Result<Vec<Wait>, AllocError>
    ensures same { IfOk result (λ sorted. IsPermutation waits.now sorted.items) }
    ensures order { IfOk result (λ sorted. IsNonDecreasingBy (λ w. w.holder) sorted.items) }
{
    let mut sorted = Vec::from_slice(alloc, waits)?;
    sorted.sort_by_key(|wait| wait.holder)?;
    Ok(sorted)
}

/// The edges to one holder.
fn edges_to(by_holder: &[Wait], holder: u64) -> &[Wait]
    requires { IsNonDecreasingBy (λ w. w.holder) by_holder.now }
    ensures { HasEdgesTo by_holder.now holder result.now }
{
    let start = by_holder.partition_point(|wait| wait.holder < holder);
    let (_, from) = by_holder.split_at(start);
    let end = from.partition_point(|wait| wait.holder <= holder);
    &from[..end]
}

/// A step of each transaction from which a walk leads to this one.
fn all_steps(alloc: Global, by_holder: &[Wait], txn: u64) -> Result<BTreeMap<u64, Step>, AllocError>
    requires { IsNonDecreasingBy (λ w. w.holder) by_holder.now }
    ensures { IfOk result (λ steps. AreSteps by_holder.now txn (steps_in steps)) }
{
    let mut steps = BTreeMap::new(alloc);
    let mut layer = vec![in alloc; txn]?;
    let mut left = 0;
    while !layer.is_empty() {
        left += 1;
        layer = next_layer(alloc, by_holder, txn, left, &layer, &mut steps)?;
    }
    Ok(steps)
}

/// Those that come to the searched one by so many edges and no fewer.
fn next_layer(
    alloc: Global,
    by_holder: &[Wait],
    txn: u64,
    left: u64,
    layer: &[u64],
    steps: &mut BTreeMap<u64, Step>,
) -> Result<Vec<u64>, AllocError>
    requires order { IsNonDecreasingBy (λ w. w.holder) by_holder.now }
    requires search { IsSearch by_holder.now txn left (steps_in steps.old) [] }
    requires here { IsHere by_holder.now txn left (steps_in steps.old) layer.now }
    requires layer { All (λ w. IsNext txn (steps_in steps.old) w left) layer.now }
    ensures search { IfOk result (λ next. IsSearch by_holder.now txn left (steps_in steps.new) next.items) }
    ensures here { IfOk result (λ next. IsHere by_holder.now txn left (steps_in steps.new) []) }
    ensures fewer { IfOk result (λ next. waiting by_holder.now (steps_in steps.new) + vec_len next
        ≤ waiting by_holder.now (steps_in steps.old)) }
{
    let mut next = Vec::new(alloc);
    for holder in layer {
        open(by_holder, txn, left, *holder, steps, &mut next)?;
    }
    Ok(next)
}

/// Takes the step along each edge to this holder.
fn open(
    by_holder: &[Wait],
    txn: u64,
    left: u64,
    holder: u64,
    steps: &mut BTreeMap<u64, Step>,
    found: &mut Vec<u64>,
) -> Result<(), AllocError>
    requires order { IsNonDecreasingBy (λ w. w.holder) by_holder.now }
    requires search { IsSearch by_holder.now txn left (steps_in steps.old) found.old.items }
    requires next { IsNext txn (steps_in steps.old) holder left }
    ensures search { IfOk result (λ _. IsSearch by_holder.now txn left (steps_in steps.new) found.new.items) }
    ensures grows { IfOk result (λ _. Grows (steps_in steps.old) (steps_in steps.new)) }
    ensures adds { IfOk result (λ _. AddsOnly left (steps_in steps.old) (steps_in steps.new)) }
    ensures opened { IfOk result (λ _. IsOpened by_holder.now (steps_in steps.new) holder left) }
    ensures fewer { IfOk result (λ _. waiting by_holder.now (steps_in steps.new) + vec_len found.new
        ≤ waiting by_holder.now (steps_in steps.old) + vec_len found.old) }
{
    for wait in edges_to(by_holder, holder) {
        take_step(wait, left, steps, found)?;
    }
    Ok(())
}

/// Takes the step along one edge, where its waiter has none yet, or one as long to a greater number.
fn take_step(
    wait: &Wait,
    left: u64,
    steps: &mut BTreeMap<u64, Step>,
    found: &mut Vec<u64>,
) -> Result<(), AllocError>
    ensures { IfOk result (λ _. IsTaken wait.now left (steps_in steps.old) found.old.items (steps_in steps.new) found.new.items) }
{
    let step = Step {
        left,
        next: wait.holder,
    };
    let old = steps.get(&wait.waiter).copied();
    let Some(old) = old else {
        found.push(wait.waiter)?;
        steps.insert(wait.waiter, step)?;
        return Ok(());
    };
    if old.left == left && wait.holder < old.next {
        steps.insert(wait.waiter, step)?;
    }
    Ok(())
}

/// The walk that the steps lead.
fn walk_by(
    alloc: Global,
    steps: &BTreeMap<u64, Step>,
    txn: u64,
) -> Result<Option<Vec<u64>>, AllocError>
    ensures { IfOk result (λ found. MatchOption found (steps_in steps.now txn ≡ None)
        (λ walk. IsWalkBy (steps_in steps.now) txn walk.items)) }
{
    let Some(first) = steps.get(&txn) else {
        return Ok(None);
    };
    let mut walk = vec![in alloc; txn]?;
    let mut at = txn;
    for _made in 0..first.left {
        at = next_from(steps, at);
        walk.push(at)?;
    }
    Ok(Some(walk))
}

/// Where the step of this one leads.
fn next_from(steps: &BTreeMap<u64, Step>, at: u64) -> u64
    ensures { result ≡ next_of (steps_in steps.now) at }
{
    match steps.get(&at) {
        Some(step) => step.next,
        None => at,
    }
}
