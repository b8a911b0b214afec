//! Workers that play side by side: they are lent rights, which come back, and are told what was seen.
ghost use Rattle.std.specs.Prelude.{◌≡◌, ◌+◌, ◌-◌, ◌≤◌, ◌<◌, All, length, false};
ghost use Rattle.lt_seq.specs.Yard.{origin_of, Learns, IsSound};
ghost use Rattle.lt_seq.specs.History.{IsFront};
ghost use Rattle.lt_crew.specs.Workers.{IsResting, IsLent, IsTaken, IsTold, HasTaken, IsSeenBy, EachPair};
ghost use Rattle.lt_crew.specs.DealRounds.{IsSeated, HasWorked};

use crate::gate::Gate;
use crate::worker::{Worker, play};
use lt_deal::Deal;
use lt_runner::Turn;
use lt_seq::{Pass, Yard};
use std::thread;
use std::thread::Threads;

/// Each worker plays in a thread.
pub(crate) fn side_by_side<R: Threads + Sync, Y: Yard, G: Gate>(
    rt: &R,
    yard: &Y,
    deal: &Deal<Turn>,
    workers: &mut [Worker<Y::Pass>],
    gate: &G,
)
    requires some { 0 < length workers.old }
    requires seated { All (IsSeated Y.Pass.origin Y.Pass.view (origin_of (Y.identity yard.now) (Y.setting yard.now)) deal.now)
        workers.old }
    ensures { EachPair (HasWorked Y.Pass.origin Y.Pass.view (origin_of (Y.identity yard.now) (Y.setting yard.now)) deal.now)
        workers.old workers.new }
{
    let threads = workers.len();
    let part = |_: usize, worker: &mut Worker<Y::Pass>|
        requires { IsSeated Y.Pass.origin Y.Pass.view (origin_of (Y.identity yard.now) (Y.setting yard.now)) deal.now worker.old }
        ensures { HasWorked Y.Pass.origin Y.Pass.view (origin_of (Y.identity yard.entry.now) (Y.setting yard.entry.now))
            deal.entry.now worker.old worker.new }
    { play(yard, deal, worker, gate) };
    thread::for_each_mut(rt, workers, threads, &part);
}

/// Gives a right to a worker.
fn lend_one<Y: Yard>(yard: &Y, me: &mut Y::Pass, worker: &mut Worker<Y::Pass>)
    requires of { Y.Pass.origin me.old ≡ origin_of (Y.identity yard.now) (Y.setting yard.now) }
    requires right { 1 ≤ (Y.Pass.view me.old).rights }
    requires several { 2 ≤ (Y.setting yard.now).plan.passes }
    requires resting { IsResting Y.Pass.origin Y.Pass.view (origin_of (Y.identity yard.now) (Y.setting yard.now))
        (Y.Pass.view me.old).front worker.old }
    ensures of { Y.Pass.origin me.new ≡ origin_of (Y.identity yard.now) (Y.setting yard.now) }
    ensures me { Y.Pass.view me.new ≡ record (Y.Pass.view me.old) { rights = (Y.Pass.view me.old).rights - 1 } }
    ensures worker { IsLent Y.Pass.origin Y.Pass.view (origin_of (Y.identity yard.now) (Y.setting yard.now))
        (Y.Pass.view me.old).front worker.old worker.new }
{
    let note = yard.share(me, 1);
    yard.learn(&mut worker.pass, note);
}

/// Takes the right back, and learns what the worker has seen.
fn take_one<Y: Yard>(yard: &Y, me: &mut Y::Pass, worker: &mut Worker<Y::Pass>)
    requires of { Y.Pass.origin me.old ≡ origin_of (Y.identity yard.now) (Y.setting yard.now) }
    requires of_worker { Y.Pass.origin worker.old.pass ≡ origin_of (Y.identity yard.now) (Y.setting yard.now) }
    requires several { 2 ≤ (Y.setting yard.now).plan.passes }
    requires one { (Y.Pass.view worker.old.pass).rights ≡ 1 }
    requires fits { (Y.Pass.view me.old).rights + 1 ≤ (Y.setting yard.now).plan.passes }
    ensures of { Y.Pass.origin me.new ≡ origin_of (Y.identity yard.now) (Y.setting yard.now) }
    ensures me { Learns (Y.setting yard.now) (Y.Pass.view me.old) (record { rights = 1; front = (Y.Pass.view worker.old.pass).front })
        (Y.Pass.view me.new) }
    ensures of_worker { Y.Pass.origin worker.new.pass ≡ origin_of (Y.identity yard.now) (Y.setting yard.now) }
    ensures worker { IsTaken Y.Pass.view worker.old worker.new }
{
    let note = yard.share(&mut worker.pass, 1);
    yard.learn(me, note);
}

/// Tells a worker what the caller has seen.
fn tell_one<Y: Yard>(yard: &Y, me: &mut Y::Pass, worker: &mut Worker<Y::Pass>)
    requires of { Y.Pass.origin me.old ≡ origin_of (Y.identity yard.now) (Y.setting yard.now) }
    requires of_worker { Y.Pass.origin worker.old.pass ≡ origin_of (Y.identity yard.now) (Y.setting yard.now) }
    requires several { 2 ≤ (Y.setting yard.now).plan.passes }
    requires none { (Y.Pass.view worker.old.pass).rights ≡ 0 }
    requires seen { IsFront (Y.Pass.view worker.old.pass).front (Y.Pass.view me.old).front }
    ensures of { Y.Pass.origin me.new ≡ origin_of (Y.identity yard.now) (Y.setting yard.now) }
    ensures me { Y.Pass.view me.new ≡ Y.Pass.view me.old }
    ensures worker { IsTold Y.Pass.origin Y.Pass.view (origin_of (Y.identity yard.now) (Y.setting yard.now))
        (Y.Pass.view me.old).front worker.old worker.new }
{
    let note = yard.share(me, 0);
    yard.learn(&mut worker.pass, note);
}

/// Gives a right to each worker.
pub(crate) fn lend<Y: Yard>(yard: &Y, me: &mut Y::Pass, workers: &mut [Worker<Y::Pass>])
    requires of { Y.Pass.origin me.old ≡ origin_of (Y.identity yard.now) (Y.setting yard.now) }
    requires rights { length workers.old ≤ (Y.Pass.view me.old).rights }
    requires several { 2 ≤ (Y.setting yard.now).plan.passes }
    requires resting { All (IsResting Y.Pass.origin Y.Pass.view (origin_of (Y.identity yard.now) (Y.setting yard.now))
        (Y.Pass.view me.old).front) workers.old }
    ensures of { Y.Pass.origin me.new ≡ origin_of (Y.identity yard.now) (Y.setting yard.now) }
    ensures me { Y.Pass.view me.new ≡ record (Y.Pass.view me.old) { rights = (Y.Pass.view me.old).rights - length workers.old } }
    ensures workers { EachPair (IsLent Y.Pass.origin Y.Pass.view (origin_of (Y.identity yard.now) (Y.setting yard.now))
        (Y.Pass.view me.old).front) workers.old workers.new }
{
    for worker in workers.iter_mut() {
        lend_one(yard, me, worker);
    }
}

/// Takes the right of each worker back.
pub(crate) fn take_back<Y: Yard>(yard: &Y, me: &mut Y::Pass, workers: &mut [Worker<Y::Pass>])
    requires of { Y.Pass.origin me.old ≡ origin_of (Y.identity yard.now) (Y.setting yard.now) }
    requires sound { IsSound (Y.setting yard.now) (Y.Pass.view me.old) }
    requires several { 2 ≤ (Y.setting yard.now).plan.passes }
    requires of_workers { All (λ w. Y.Pass.origin w.pass ≡ origin_of (Y.identity yard.now) (Y.setting yard.now)) workers.old }
    requires one { All (λ w. (Y.Pass.view w.pass).rights ≡ 1) workers.old }
    requires fits { (Y.Pass.view me.old).rights + length workers.old ≤ (Y.setting yard.now).plan.passes }
    ensures of { Y.Pass.origin me.new ≡ origin_of (Y.identity yard.now) (Y.setting yard.now) }
    ensures me { HasTaken (Y.setting yard.now) (Y.Pass.view me.old) (Y.Pass.view me.new) (length workers.old) }
    ensures of_workers { All (λ w. Y.Pass.origin w.pass ≡ origin_of (Y.identity yard.now) (Y.setting yard.now)) workers.new }
    ensures seen { All (IsSeenBy Y.Pass.view (Y.Pass.view me.new).front) workers.new }
    ensures workers { EachPair (IsTaken Y.Pass.view) workers.old workers.new }
{
    for worker in workers.iter_mut() {
        take_one(yard, me, worker);
    }
}

/// Tells each worker what the caller has seen.
pub(crate) fn tell<Y: Yard>(yard: &Y, me: &mut Y::Pass, workers: &mut [Worker<Y::Pass>])
    requires of { Y.Pass.origin me.old ≡ origin_of (Y.identity yard.now) (Y.setting yard.now) }
    requires several { 2 ≤ (Y.setting yard.now).plan.passes }
    requires of_workers { All (λ w. Y.Pass.origin w.pass ≡ origin_of (Y.identity yard.now) (Y.setting yard.now)) workers.old }
    requires none { All (λ w. (Y.Pass.view w.pass).rights ≡ 0) workers.old }
    requires seen { All (IsSeenBy Y.Pass.view (Y.Pass.view me.old).front) workers.old }
    ensures of { Y.Pass.origin me.new ≡ origin_of (Y.identity yard.now) (Y.setting yard.now) }
    ensures me { Y.Pass.view me.new ≡ Y.Pass.view me.old }
    ensures workers { EachPair (IsTold Y.Pass.origin Y.Pass.view (origin_of (Y.identity yard.now) (Y.setting yard.now))
        (Y.Pass.view me.old).front) workers.old workers.new }
{
    for worker in workers.iter_mut() {
        tell_one(yard, me, worker);
    }
}

/// Whether a worker found no memory.
pub(crate) fn any_short<P>(workers: &[Worker<P>]) -> bool
    ensures { result ≡ false → All (λ w. w.short ≡ false) workers.now }
{
    for worker in workers {
        if worker.short {
            return true;
        }
    }
    false
}
