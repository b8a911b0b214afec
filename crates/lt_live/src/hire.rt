//! Workers before they begin, and behind their end.
ghost use Rattle.std.specs.Prelude.{◌≡◌, ◌<◌, ◌-◌, ◌+◌, ◌∷◌, ◌++◌, map, length, false, IfOk, OnOk};
ghost use Rattle.std.specs.List.{All, AllByRecursion, flat_map};
ghost use Rattle.crossbeam_queue.specs.Passes.{view, IsPassOf};
ghost use Rattle.lt_live.specs.Deals.{hand};
ghost use Rattle.lt_live.specs.Ends.{IsFresh, IsParted, all_told};

use crate::queue::{Line as Queue, Ticket, absorb, another};
use crate::worker::Worker;
use lt_runner::Turn;
use lt_seq::JoinNote;
use std::alloc::{AllocError, Global};

/// What is left where all transactions have ended.
#[derive(Drop)]
pub(crate) struct Played<P> {
    /// All passes, in the order of their numbers.
    pub(crate) passes: Vec<P>,
    /// The transactions, ascending.
    pub(crate) turns: Vec<Turn>,
    /// The notes of all joins, by place.
    pub(crate) notes: Vec<JoinNote>,
}

/// A worker for a pass.
fn hire<P>(alloc: Global, queue: &Queue, ticket: &mut Ticket, pass: P) -> Worker<P>
    requires queue { IsPassOf queue.now ticket.old }
    requires parts { 1 < (view ticket.old).parts }
    ensures queue { IsPassOf queue.now ticket.new }
    ensures ticket { view ticket.new ≡ hand ((view ticket.old).parts - 1) (view ticket.old).put (view ticket.old).taken }
    ensures pass { result.pass ≡ pass }
    ensures fresh { IsFresh (IsPassOf queue.now) result }
{
    Worker {
        pass,
        ticket: another(queue, ticket),
        turns: Vec::new(alloc),
        stopped: false,
    }
}

/// A worker for each of these passes.
pub(crate) fn hire_all<P: Drop>(
    alloc: Global,
    queue: &Queue,
    ticket: &mut Ticket,
    passes: Vec<P>,
) -> Result<Vec<Worker<P>>, AllocError>
    requires queue { IsPassOf queue.now ticket.old }
    requires parts { length passes.items < (view ticket.old).parts }
    ensures queue { OnOk result (IsPassOf queue.now ticket.new) }
    ensures ticket { OnOk result (view ticket.new
        ≡ hand ((view ticket.old).parts - length passes.items) (view ticket.old).put (view ticket.old).taken) }
    ensures passes { IfOk result (λ workers. map (λ w. w.pass) workers.items ≡ passes.items) }
    ensures fresh { IfOk result (λ workers. All (IsFresh (IsPassOf queue.now)) workers.items) }
{
    let mut workers = Vec::new(alloc);
    for pass in passes {
        workers.push(hire(alloc, queue, ticket, pass))?;
    }
    Ok(workers)
}

/// Whether memory ran out at one of them.
pub(crate) fn any_stopped<P>(workers: &[Worker<P>]) -> bool
    ensures { result ≡ false → All (λ w. w.stopped ≡ false) workers.now }
{
    for worker in workers {
        if worker.stopped {
            return true;
        }
    }
    false
}

/// Takes from each worker its pass, the turns that it has played, and what its pass of the queue has put and taken.
pub(crate) fn part_all<P: Drop>(
    alloc: Global,
    queue: &Queue,
    ticket: &mut Ticket,
    turns: &mut Vec<Turn>,
    workers: Vec<Worker<P>>,
) -> Result<Vec<P>, AllocError>
    requires queue { IsPassOf queue.now ticket.old }
    requires queues { AllByRecursion (λ w. IsPassOf queue.now w.ticket) workers.items }
    requires parts { 0 < (view ticket.old).parts }
    ensures queue { OnOk result (IsPassOf queue.now ticket.new) }
    ensures ticket { OnOk result (view ticket.new ≡ all_told (view ticket.old) (map (λ w. view w.ticket) workers.items)) }
    ensures turns { OnOk result (turns.new.items ≡ turns.old.items ++ flat_map (λ w. w.turns.items) workers.items) }
    ensures passes { IfOk result (λ passes. passes.items ≡ map (λ w. w.pass) workers.items) }
{
    let mut passes = Vec::new(alloc);
    for worker in workers {
        let Worker {
            pass,
            ticket: own,
            turns: mut played,
            ..
        } = worker;
        absorb(queue, ticket, own);
        turns.append(&mut played)?;
        passes.push(pass)?;
    }
    Ok(passes)
}

/// This pass, and the others behind it.
pub(crate) fn put_first<P: Drop>(
    alloc: Global,
    first: P,
    others: Vec<P>,
) -> Result<Vec<P>, AllocError>
    ensures { IfOk result (λ passes. passes.items ≡ first ∷ others.items) }
{
    let mut others = others;
    let mut passes = Vec::new(alloc);
    passes.push(first)?;
    passes.append(&mut others)?;
    Ok(passes)
}

/// The first worker, hired anew with all that the passes of the queue knew, and what was taken from all.
#[derive(Drop)]
pub(crate) struct Parted<P> {
    /// The first, before it serves again.
    pub(crate) first: Worker<P>,
    /// The passes of the others.
    pub(crate) others: Vec<P>,
    /// The turns that all have played.
    pub(crate) turns: Vec<Turn>,
}

/// Takes all from the workers, but for the first's pass. That one is given all parts of the queue.
pub(crate) fn part_with<P: Drop>(
    alloc: Global,
    queue: &Queue,
    ticket: Ticket,
    workers: Vec<Worker<P>>,
) -> Result<Parted<P>, AllocError>
    requires some { 0 < length workers.items }
    requires queue { IsPassOf queue.now ticket }
    requires queues { AllByRecursion (λ w. IsPassOf queue.now w.ticket) workers.items }
    requires parts { 0 < (view ticket).parts }
    ensures { IfOk result (IsParted (IsPassOf queue.now) (view ticket) workers.items) }
{
    let mut workers = workers;
    let mut ticket = ticket;
    let Worker {
        pass,
        ticket: own,
        mut turns,
        ..
    } = workers.remove(0);
    absorb(queue, &mut ticket, own);
    let others = part_all(alloc, queue, &mut ticket, &mut turns, workers)?;
    Ok(Parted {
        first: Worker {
            pass,
            ticket,
            turns: Vec::new(alloc),
            stopped: false,
        },
        others,
        turns,
    })
}
