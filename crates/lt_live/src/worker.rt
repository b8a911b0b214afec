//! A worker: it takes one transaction after another, and plays each to its end.
ghost use Rattle.std.specs.Prelude.{◌≡◌, ◌≤◌, [], ◌∷◌, ◌++◌, IsTrue};
ghost use Rattle.crossbeam_queue.specs.Passes.{view, IsPassOf};
ghost use Rattle.lt_seq.specs.Yard.{origin_of};
ghost use Rattle.lt_runner.specs.Standing.{AreFitDeeds};
ghost use Rattle.lt_live.specs.House.{IsPassFit, Hears};
ghost use Rattle.lt_live.specs.Live.{ServesOne, HasServed};
ghost use Rattle.lt_live.specs.Workers.{IsHired, HasWorked, HasTaken};

use crate::house::{Named, Shared, enter, finish};
use crate::play::play_out;
use crate::queue::{Line as Queue, Ticket, take};
use lt_crew::Gate;
use lt_runner::Turn;
use lt_seq::{Pass, Yard};
use lt_trace::Line;
use std::alloc::Global;
use std::sync::Wait;

/// A worker.
#[derive(Drop)]
pub struct Worker<P> {
    /// What it acts through.
    pub pass: P,
    /// Its pass of the queue of transactions.
    pub ticket: Ticket,
    /// The transactions that it played to their ends.
    pub turns: Vec<Turn>,
    /// Whether it ended before the queue was empty, since memory ran out.
    pub stopped: bool,
}

/// Keeps one that was played to its end. False where memory ran out.
fn keep(turns: &mut Vec<Turn>, turn: Turn) -> bool
    ensures { IsTrue result → turns.new.items ≡ turns.old.items ++ turn ∷ [] }
{
    turns.push(turn).is_ok()
}

/// Plays one more transaction to its end. False where memory ran out.
fn serve_one<R: Wait, Y: Yard, J: Named, G: Gate>(
    rt: &R,
    alloc: Global,
    yard: &Y,
    shared: &Shared<Y::Note, J>,
    lines: &[Line],
    trees: u32,
    gate: &G,
    pass: &mut Y::Pass,
    turns: &mut Vec<Turn>,
    txn: u64,
) -> bool
    requires of { Y.Pass.origin pass.old ≡ origin_of (Y.identity yard.now) (Y.setting yard.now) }
    requires name { origin_of (Y.identity yard.now) (Y.setting yard.now) ≡ J.yard }
    requires deeds { AreFitDeeds (Y.setting yard.now) lines.now }
    requires trees { trees ≡ (Y.setting yard.now).plan.trees }
    requires fit { IsPassFit (Y.setting yard.now) (Y.Pass.view pass.old) }
    requires right { 1 ≤ (Y.Pass.view pass.old).rights }
    requires txn { 1 ≤ txn }
    ensures of { Y.Pass.origin pass.new ≡ origin_of (Y.identity yard.now) (Y.setting yard.now) }
    ensures fit { IsPassFit (Y.setting yard.now) (Y.Pass.view pass.new) }
    ensures right { IsTrue result → 1 ≤ (Y.Pass.view pass.new).rights }
    ensures serves { IsTrue result → ServesOne (Y.setting yard.now) lines.now (Y.Pass.view pass.old) (Y.Pass.view pass.new)
        turns.old.items turns.new.items txn }
{
    let Ok(mut turn) = Turn::new(alloc, txn, lines, trees) else {
        shared.stop(rt);
        return false;
    };
    if !play_out(rt, alloc, yard, shared, gate, pass, &mut turn) {
        return false;
    }
    shared.tell_end(rt);
    if !keep(turns, turn) {
        shared.stop(rt);
        return false;
    }
    true
}

/// Ends, under the lock.
fn go_home<R: Wait, Y: Yard, J: Named>(
    rt: &R,
    yard: &Y,
    shared: &Shared<Y::Note, J>,
    pass: &mut Y::Pass,
)
    requires of { Y.Pass.origin pass.old ≡ origin_of (Y.identity yard.now) (Y.setting yard.now) }
    requires name { origin_of (Y.identity yard.now) (Y.setting yard.now) ≡ J.yard }
    requires fit { IsPassFit (Y.setting yard.now) (Y.Pass.view pass.old) }
    ensures of { Y.Pass.origin pass.new ≡ origin_of (Y.identity yard.now) (Y.setting yard.now) }
    ensures fit { IsPassFit (Y.setting yard.now) (Y.Pass.view pass.new) }
    ensures hears { Hears (Y.Pass.view pass.old) (Y.Pass.view pass.new) }
    ensures none { (Y.Pass.view pass.new).rights ≡ 0 }
{
    let mut house = shared.house.lock(rt);
    finish(yard, &shared.moved, &mut house, pass);
}

/// Begins, under the lock.
fn come_in<R: Wait, Y: Yard, J: Named>(
    rt: &R,
    yard: &Y,
    shared: &Shared<Y::Note, J>,
    pass: &mut Y::Pass,
)
    requires of { Y.Pass.origin pass.old ≡ origin_of (Y.identity yard.now) (Y.setting yard.now) }
    requires name { origin_of (Y.identity yard.now) (Y.setting yard.now) ≡ J.yard }
    requires fit { IsPassFit (Y.setting yard.now) (Y.Pass.view pass.old) }
    ensures of { Y.Pass.origin pass.new ≡ origin_of (Y.identity yard.now) (Y.setting yard.now) }
    ensures fit { IsPassFit (Y.setting yard.now) (Y.Pass.view pass.new) }
    ensures hears { Hears (Y.Pass.view pass.old) (Y.Pass.view pass.new) }
    ensures right { 1 ≤ (Y.Pass.view pass.new).rights }
{
    let house = shared.house.lock(rt);
    let _house = enter(rt, yard, &shared.moved, house, pass);
}

/// Takes transactions until none is left, and plays each to its end. False where memory ran out.
fn serve_all<R: Wait, Y: Yard, J: Named, G: Gate>(
    rt: &R,
    alloc: Global,
    yard: &Y,
    shared: &Shared<Y::Note, J>,
    queue: &Queue,
    lines: &[Line],
    trees: u32,
    gate: &G,
    worker: &mut Worker<Y::Pass>,
) -> bool
    requires name { origin_of (Y.identity yard.now) (Y.setting yard.now) ≡ J.yard }
    requires deeds { AreFitDeeds (Y.setting yard.now) lines.now }
    requires trees { trees ≡ (Y.setting yard.now).plan.trees }
    requires hired { IsHired Y.Pass.origin Y.Pass.view (origin_of (Y.identity yard.now) (Y.setting yard.now)) (IsPassOf queue.now) worker.old }
    requires right { 1 ≤ (Y.Pass.view worker.old.pass).rights }
    ensures of { Y.Pass.origin worker.new.pass ≡ origin_of (Y.identity yard.now) (Y.setting yard.now) }
    ensures fit { IsPassFit (Y.setting yard.now) (Y.Pass.view worker.new.pass) }
    ensures queue { IsPassOf queue.now worker.new.ticket }
    ensures serves { IsTrue result → HasServed (Y.setting yard.now) lines.now (Y.Pass.view worker.old.pass)
        (Y.Pass.view worker.new.pass) worker.new.turns.items }
    ensures taken { IsTrue result → HasTaken (view worker.old.ticket) (view worker.new.ticket) worker.new.turns.items }
{
    for _ in rt.forever() {
        let Some(txn) = take(rt, queue, &mut worker.ticket) else {
            return true;
        };
        let pass = &mut worker.pass;
        let turns = &mut worker.turns;
        if !serve_one(
            rt, alloc, yard, shared, lines, trees, gate, pass, turns, txn,
        ) {
            return false;
        }
    }
    unreachable!()
}

/// Begins, takes transactions from the queue until none is left and plays each to its end, and ends without a right. The gate
/// is called round each line that is not played alone.
///
/// It may wait for others, and its return is not promised. Where memory runs out it stops, and so do the others.
pub(crate) fn serve<R: Wait, Y: Yard, J: Named, G: Gate>(
    rt: &R,
    alloc: Global,
    yard: &Y,
    shared: &Shared<Y::Note, J>,
    queue: &Queue,
    lines: &[Line],
    trees: u32,
    gate: &G,
    worker: &mut Worker<Y::Pass>,
)
    requires name { origin_of (Y.identity yard.now) (Y.setting yard.now) ≡ J.yard }
    requires deeds { AreFitDeeds (Y.setting yard.now) lines.now }
    requires trees { trees ≡ (Y.setting yard.now).plan.trees }
    requires hired { IsHired Y.Pass.origin Y.Pass.view (origin_of (Y.identity yard.now) (Y.setting yard.now)) (IsPassOf queue.now) worker.old }
    ensures { HasWorked Y.Pass.origin Y.Pass.view (origin_of (Y.identity yard.now) (Y.setting yard.now)) (IsPassOf queue.now) lines.now
        worker.old worker.new }
{
    come_in(rt, yard, shared, &mut worker.pass);
    let served = serve_all(rt, alloc, yard, shared, queue, lines, trees, gate, worker);
    go_home(rt, yard, shared, &mut worker.pass);
    worker.stopped = !served;
}
