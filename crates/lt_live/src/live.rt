//! Workers side by side in threads, which share one house.
ghost use Rattle.std.specs.Prelude.{◌≡◌, ◌<◌, ◌+◌, [], ◌∷◌, ◌++◌, map, length, false, IfOk, OnOk};
ghost use Rattle.std.specs.List.{All, AllByRecursion};
ghost use Rattle.crossbeam_queue.specs.Passes.{view, IsPassOf};
ghost use Rattle.lt_runner.specs.Standing.{AreFitDeeds};
ghost use Rattle.lt_seq.specs.Passes.{opening_passes};
ghost use Rattle.lt_seq.specs.Yard.{origin_of, HasAll, IsPlan};
ghost use Rattle.lt_live.specs.Ends.{AreDone, IsPlayedLive, IsTogether};
ghost use Rattle.lt_live.specs.House.{IsPassFit, Hears};
ghost use Rattle.lt_live.specs.Live.{HasServed};
ghost use Rattle.lt_live.specs.Workers.{IsHired, HasWorked, HasTaken, EachPair};

use crate::hire::{Parted, Played, any_stopped, hire_all, part_with, put_first};
use crate::house::{House, Named, Shared, gather, spread};
use crate::notes::take_all_notes;
use crate::queue::{Line as Queue, Ticket};
use crate::worker::{Worker, serve};
use lt_crew::Gate;
use lt_runner::Turn;
use lt_seq::{Note, Pass, Yard};
use lt_trace::Line;
use std::alloc::{AllocError, Global};
use std::marker::Brand;
use std::sync::{Condvar, Mutex, Wait};
use std::thread;
use std::thread::Threads;

/// Each worker serves in a thread.
fn side_by_side<R: Threads + Wait + Sync, Y: Yard, J: Named + Send + Sync, G: Gate>(
    rt: &R,
    alloc: Global,
    yard: &Y,
    shared: &Shared<Y::Note, J>,
    queue: &Queue,
    lines: &[Line],
    trees: u32,
    gate: &G,
    workers: &mut [Worker<Y::Pass>],
)
    requires name { origin_of (Y.identity yard.now) (Y.setting yard.now) ≡ J.yard }
    requires deeds { AreFitDeeds (Y.setting yard.now) lines.now }
    requires trees { trees ≡ (Y.setting yard.now).plan.trees }
    requires some { 0 < length workers.old }
    requires hired { All (IsHired Y.Pass.origin Y.Pass.view (origin_of (Y.identity yard.now) (Y.setting yard.now)) (IsPassOf queue.now))
        workers.old }
    ensures { EachPair (HasWorked Y.Pass.origin Y.Pass.view (origin_of (Y.identity yard.now) (Y.setting yard.now)) (IsPassOf queue.now)
        lines.now) workers.old workers.new }
{
    let threads = workers.len();
    let part = |_: usize, worker: &mut Worker<Y::Pass>|
        requires { (origin_of (Y.identity yard.now) (Y.setting yard.now) ≡ J.yard)
            × AreFitDeeds (Y.setting yard.now) lines.now × (trees ≡ (Y.setting yard.now).plan.trees)
            × IsHired Y.Pass.origin Y.Pass.view (origin_of (Y.identity yard.now) (Y.setting yard.now)) (IsPassOf queue.now) worker.old }
        ensures { HasWorked Y.Pass.origin Y.Pass.view (origin_of (Y.identity yard.entry.now) (Y.setting yard.entry.now))
            (IsPassOf queue.entry.now) lines.entry.now worker.old worker.new }
    { serve(rt, alloc, yard, shared, queue, lines, trees, gate, worker) };
    thread::for_each_mut(rt, workers, threads, &part);
}

/// The house, with a right in it for each pass before any begins.
fn open_house<Y: Yard, J: Named>(
    alloc: Global,
    yard: &Y,
    passes: u32,
    first: &mut Y::Pass,
) -> Result<Shared<Y::Note, J>, AllocError>
    requires of { Y.Pass.origin first.old ≡ origin_of (Y.identity yard.now) (Y.setting yard.now) }
    requires name { origin_of (Y.identity yard.now) (Y.setting yard.now) ≡ J.yard }
    requires fit { IsPassFit (Y.setting yard.now) (Y.Pass.view first.old) }
    requires passes { passes ≡ (Y.setting yard.now).plan.passes }
    ensures of { OnOk result (Y.Pass.origin first.new ≡ origin_of (Y.identity yard.now) (Y.setting yard.now)) }
    ensures fit { OnOk result (IsPassFit (Y.setting yard.now) (Y.Pass.view first.new)) }
    ensures hears { OnOk result (Hears (Y.Pass.view first.old) (Y.Pass.view first.new)) }
{
    let mut house: House<Y::Note, J> = House::new(alloc, passes)?;
    spread(yard, &mut house, first);
    Ok(Shared {
        house: Mutex::new(house),
        moved: Condvar::new(),
    })
}

/// Gathers all the rights from the house.
fn gather_all<R: Wait, Y: Yard, J: Named>(
    rt: &R,
    yard: &Y,
    shared: &Shared<Y::Note, J>,
    pass: &mut Y::Pass,
)
    requires of { Y.Pass.origin pass.old ≡ origin_of (Y.identity yard.now) (Y.setting yard.now) }
    requires name { origin_of (Y.identity yard.now) (Y.setting yard.now) ≡ J.yard }
    requires fit { IsPassFit (Y.setting yard.now) (Y.Pass.view pass.old) }
    ensures of { Y.Pass.origin pass.new ≡ origin_of (Y.identity yard.now) (Y.setting yard.now) }
    ensures fit { IsPassFit (Y.setting yard.now) (Y.Pass.view pass.new) }
    ensures hears { Hears (Y.Pass.view pass.old) (Y.Pass.view pass.new) }
    ensures all { HasAll (Y.setting yard.now) (Y.Pass.view pass.new) }
{
    let house = shared.house.lock(rt);
    let _house = gather(rt, yard, &shared.moved, house, pass);
}

/// The first worker takes what the others have left, and gathers all the rights.
fn serve_last<R: Wait, Y: Yard, J: Named, G: Gate>(
    rt: &R,
    alloc: Global,
    yard: &Y,
    shared: &Shared<Y::Note, J>,
    queue: &Queue,
    lines: &[Line],
    trees: u32,
    gate: &G,
    first: &mut Worker<Y::Pass>,
)
    requires name { origin_of (Y.identity yard.now) (Y.setting yard.now) ≡ J.yard }
    requires deeds { AreFitDeeds (Y.setting yard.now) lines.now }
    requires trees { trees ≡ (Y.setting yard.now).plan.trees }
    requires hired { IsHired Y.Pass.origin Y.Pass.view (origin_of (Y.identity yard.now) (Y.setting yard.now)) (IsPassOf queue.now) first.old }
    ensures of { Y.Pass.origin first.new.pass ≡ origin_of (Y.identity yard.now) (Y.setting yard.now) }
    ensures fit { IsPassFit (Y.setting yard.now) (Y.Pass.view first.new.pass) }
    ensures all { HasAll (Y.setting yard.now) (Y.Pass.view first.new.pass) }
    ensures serves { first.new.stopped ≡ false
        → HasServed (Y.setting yard.now) lines.now (Y.Pass.view first.old.pass) (Y.Pass.view first.new.pass) first.new.turns.items }
    ensures taken { first.new.stopped ≡ false → HasTaken (view first.old.ticket) (view first.new.ticket) first.new.turns.items }
{
    serve(rt, alloc, yard, shared, queue, lines, trees, gate, first);
    gather_all(rt, yard, shared, &mut first.pass);
}

/// Puts together what the first worker and the others leave.
fn put_together<Y: Yard>(
    alloc: Global,
    yard: &Y,
    first: Worker<Y::Pass>,
    others: Vec<Y::Pass>,
    turns: Vec<Turn>,
) -> Result<Played<Y::Pass>, AllocError>
    requires of { All (λ p. Y.Pass.origin p ≡ origin_of (Y.identity yard.now) (Y.setting yard.now)) (first.pass ∷ others.items) }
    ensures { IfOk result (IsTogether Y.Pass.origin Y.Pass.view (origin_of (Y.identity yard.now) (Y.setting yard.now))
        (first.pass ∷ others.items) (turns.items ++ first.turns.items)) }
{
    let Worker {
        pass,
        turns: mut last,
        ..
    } = first;
    let mut turns = turns;
    turns.append(&mut last)?;
    turns.sort_by_key(|turn| turn.number())?;
    let mut passes = put_first(alloc, pass, others)?;
    let notes = take_all_notes(alloc, yard, &mut passes)?;
    Ok(Played {
        passes,
        turns,
        notes,
    })
}

/// Behind the end of all workers: the first serves once more, so that it is known that all transactions were taken.
fn end_all<R: Wait, Y: Yard, J: Named, G: Gate>(
    rt: &R,
    alloc: Global,
    yard: &Y,
    shared: &Shared<Y::Note, J>,
    queue: &Queue,
    ticket: Ticket,
    lines: &[Line],
    trees: u32,
    gate: &G,
    workers: Vec<Worker<Y::Pass>>,
) -> Result<Played<Y::Pass>, AllocError>
    requires name { origin_of (Y.identity yard.now) (Y.setting yard.now) ≡ J.yard }
    requires deeds { AreFitDeeds (Y.setting yard.now) lines.now }
    requires trees { trees ≡ (Y.setting yard.now).plan.trees }
    requires queue { IsPassOf queue.now ticket }
    requires some { 0 < length workers.items }
    requires count { length workers.items ≡ (Y.setting yard.now).plan.passes }
    requires parts { 0 < (view ticket).parts }
    requires whole { (view ticket).parts + length workers.items ≡ 1024 }
    requires none { (view ticket).taken ≡ [] }
    requires done { AreDone Y.Pass.origin Y.Pass.view (origin_of (Y.identity yard.now) (Y.setting yard.now)) (IsPassOf queue.now)
        lines.now 0 workers.items }
    ensures { IfOk result (IsPlayedLive Y.Pass.origin Y.Pass.view (origin_of (Y.identity yard.now) (Y.setting yard.now))
        lines.now (view ticket).put) }
{
    let Parted {
        mut first,
        others,
        turns,
    } = part_with(alloc, queue, ticket, workers)?;
    serve_last(
        rt, alloc, yard, shared, queue, lines, trees, gate, &mut first,
    );
    if first.stopped {
        return Err(AllocError);
    }
    put_together(alloc, yard, first, others, turns)
}

/// Plays with a house of its own.
fn play_in_house<R: Threads + Wait + Sync, Y: Yard, J: Named + Send + Sync, G: Gate>(
    rt: &R,
    alloc: Global,
    yard: &Y,
    count: u32,
    passes: Vec<Y::Pass>,
    queue: &Queue,
    ticket: Ticket,
    lines: &[Line],
    trees: u32,
    gate: &G,
) -> Result<Played<Y::Pass>, AllocError>
    requires name { origin_of (Y.identity yard.now) (Y.setting yard.now) ≡ J.yard }
    requires deeds { AreFitDeeds (Y.setting yard.now) lines.now }
    requires trees { trees ≡ (Y.setting yard.now).plan.trees }
    requires plan { IsPlan (Y.setting yard.now).plan }
    requires count { count ≡ (Y.setting yard.now).plan.passes }
    requires of { AllByRecursion (λ p. Y.Pass.origin p ≡ origin_of (Y.identity yard.now) (Y.setting yard.now)) passes.items }
    requires passes { map Y.Pass.view passes.items ≡ opening_passes (Y.setting yard.now).plan.passes }
    requires queue { IsPassOf queue.now ticket }
    requires whole { (view ticket).parts ≡ 1024 }
    requires none { (view ticket).taken ≡ [] }
    ensures { IfOk result (IsPlayedLive Y.Pass.origin Y.Pass.view (origin_of (Y.identity yard.now) (Y.setting yard.now))
        lines.now (view ticket).put) }
{
    let mut passes = passes;
    let mut ticket = ticket;
    let mut first = passes.remove(0);
    let shared: Shared<Y::Note, J> = open_house(alloc, yard, count, &mut first)?;
    let passes = put_first(alloc, first, passes)?;
    let mut workers = hire_all(alloc, queue, &mut ticket, passes)?;
    side_by_side(
        rt,
        alloc,
        yard,
        &shared,
        queue,
        lines,
        trees,
        gate,
        &mut workers,
    );
    if any_stopped(&workers) {
        return Err(AllocError);
    }
    end_all(
        rt, alloc, yard, &shared, queue, ticket, lines, trees, gate, workers,
    )
}

/// So many workers play the transactions that lie in the queue, each in a thread and with one of the passes. The only error is
/// want of memory.
pub(crate) fn play<R: Threads + Wait + Sync, Y: Yard, G: Gate>(
    rt: &R,
    alloc: Global,
    yard: &Y,
    count: u32,
    passes: Vec<Y::Pass>,
    queue: &Queue,
    ticket: Ticket,
    lines: &[Line],
    trees: u32,
    gate: &G,
) -> Result<Played<Y::Pass>, AllocError>
    requires deeds { AreFitDeeds (Y.setting yard.now) lines.now }
    requires trees { trees ≡ (Y.setting yard.now).plan.trees }
    requires plan { IsPlan (Y.setting yard.now).plan }
    requires count { count ≡ (Y.setting yard.now).plan.passes }
    requires of { AllByRecursion (λ p. Y.Pass.origin p ≡ origin_of (Y.identity yard.now) (Y.setting yard.now)) passes.items }
    requires passes { map Y.Pass.view passes.items ≡ opening_passes (Y.setting yard.now).plan.passes }
    requires queue { IsPassOf queue.now ticket }
    requires whole { (view ticket).parts ≡ 1024 }
    requires none { (view ticket).taken ≡ [] }
    ensures { IfOk result (IsPlayedLive Y.Pass.origin Y.Pass.view (origin_of (Y.identity yard.now) (Y.setting yard.now))
        lines.now (view ticket).put) }
{
    play_in_house::<R, Y, Brand, G>(
        rt, alloc, yard, count, passes, queue, ticket, lines, trees, gate,
    )
}
