//! Those that wait for one another, over the plain table.
ghost use Rattle.std.specs.Prelude.{◌≡◌, ◌≤◌};
ghost use Rattle.lt_seq.specs.Yard.{IsPlan, origin_of};
ghost use Rattle.lt_requests.specs.Registered.{MayAsk};

use super::*;
use lt_ranges::{Key, KeyRange};
use lt_seq::{Fault, Pass, SeqYard, Yard, YardPlan};
use std::alloc::Global;
use std::test::Fail;

fn point(key: &[u8]) -> Result<KeyRange, Fail> {
    let key = Key::new(key)?;
    Ok(KeyRange::new(key, key)?)
}

fn plan() -> YardPlan
    ensures plan { IsPlan result }
    ensures passes { result.passes ≡ 1 }
{
    YardPlan {
        trees: 1,
        limit: 64,
        buffer: 0,
        passes: 1,
        first: 0,
    }
}

/// A start of one that does not wait.
fn begin<Y: Yard>(
    alloc: Global,
    registry: &mut Registry,
    yard: &Y,
    pass: &mut Y::Pass,
    txn: u64,
    range: &KeyRange,
) -> Result<Started, Fault>
    requires of { Y.Pass.origin pass.old ≡ origin_of (Y.identity yard.now) (Y.setting yard.now) }
    requires right { 1 ≤ (Y.Pass.view pass.old).rights }
    requires txn { 1 ≤ txn }
    requires trees { 1 ≤ (Y.setting yard.now).plan.trees }
    requires may { MayAsk (Y.setting yard.now).plan.trees registry.old }
    ensures of { Y.Pass.origin pass.new ≡ origin_of (Y.identity yard.now) (Y.setting yard.now) }
    ensures right { 1 ≤ (Y.Pass.view pass.new).rights }
    ensures may { MayAsk (Y.setting yard.now).plan.trees registry.new }
{
    if registry.is_waiting(txn) {
        return Err(Fault::OutOfMemory);
    }
    let wish = Wish {
        txn,
        tree: 0,
        range: *range,
    };
    start(alloc, registry, yard, pass, &wish, false)
}

/// Each of these holds its point, and then asks for the point of the next one, the last for the first's: what the last
/// ask came to.
fn ring<Y: Yard>(alloc: Global, points: &[KeyRange]) -> Result<Started, Fault>
    requires { 1 ≤ Y.MOST_PASSES }
{
    let (yard, mut passes) = Y::build(alloc, &plan())?;
    let Some(mut pass) = passes.pop() else {
        unreachable!();
    };
    let mut registry = Registry::new(alloc);
    let mut last = Started::Granted {
        place: 0,
        buffered: false,
    };
    for (i, range) in points.iter().enumerate() {
        begin(alloc, &mut registry, &yard, &mut pass, i as u64 + 1, range)?;
    }
    for i in 0..points.len() {
        let next = if i + 1 < points.len() { i + 1 } else { 0 };
        last = begin(
            alloc,
            &mut registry,
            &yard,
            &mut pass,
            i as u64 + 1,
            &points[next],
        )?;
    }
    Ok(last)
}

fn walk_of(started: &Started) -> &[Edge] {
    match started {
        Started::Deadlock(walk) => walk.as_slice(),
        Started::Granted { .. } | Started::Waits { .. } => &[],
    }
}

#[test]
fn a_deadlock_of_two(rt: HostRuntime) -> Result<(), Fail> {
    let last = ring::<SeqYard>(rt.alloc(), &[point(b"a")?, point(b"b")?])?;
    let walk = [
        Edge {
            waiter: 2,
            holder: 1,
            place: 3,
        },
        Edge {
            waiter: 1,
            holder: 2,
            place: 4,
        },
    ];
    assert!(rt; walk_of(&last) == walk.as_slice());
    Ok(())
}

#[test]
fn a_cycle_of_three(rt: HostRuntime) -> Result<(), Fail> {
    let last = ring::<SeqYard>(rt.alloc(), &[point(b"a")?, point(b"b")?, point(b"c")?])?;
    let walk = walk_of(&last);
    assert_eq!(rt; walk.len(), 3);
    assert_eq!(rt; (walk[0].waiter, walk[0].holder), (3, 1));
    assert_eq!(rt; (walk[1].waiter, walk[1].holder), (1, 2));
    assert_eq!(rt; (walk[2].waiter, walk[2].holder), (2, 3));
    Ok(())
}

/// What became of one that started for a held point, and tried again once it was free; and who waited after each.
#[derive(Drop)]
struct Tried {
    held: Started,
    waited: Option<u64>,
    then: Started,
    waits: Option<u64>,
}

fn try_twice<Y: Yard>(alloc: Global, range: &KeyRange) -> Result<Tried, Fault>
    requires { 1 ≤ Y.MOST_PASSES }
{
    let (yard, mut passes) = Y::build(alloc, &plan())?;
    let Some(mut pass) = passes.pop() else {
        unreachable!();
    };
    let mut registry = Registry::new(alloc);
    begin(alloc, &mut registry, &yard, &mut pass, 1, range)?;
    let held = begin(alloc, &mut registry, &yard, &mut pass, 2, range)?;
    let waited = registry.next_after(0);
    yard.free(&mut pass, 1, 0, range, true)?;
    if !registry.is_waiting(2) {
        return Err(Fault::OutOfMemory);
    }
    let then = retry(alloc, &mut registry, &yard, &mut pass, 2, false)?;
    let waits = registry.next_after(0);
    Ok(Tried {
        held,
        waited,
        then,
        waits,
    })
}

#[test]
fn waits_and_is_granted_once_it_is_free(rt: HostRuntime) -> Result<(), Fail> {
    let tried = try_twice::<SeqYard>(rt.alloc(), &point(b"a")?)?;
    let Started::Waits { owners } = &tried.held else {
        return Err("it should wait")?;
    };
    assert_eq!(rt; owners.as_slice(), [1].as_slice());
    assert_eq!(rt; tried.waited, Some(2));
    let Started::Granted { place, buffered } = &tried.then else {
        return Err("it should be granted")?;
    };
    assert_eq!(rt; (*place, *buffered), (3, false));
    assert_eq!(rt; tried.waits, None);
    Ok(())
}

#[test]
fn none_is_forgotten_where_none_waits(rt: HostRuntime) {
    let mut registry = Registry::new(rt.alloc());
    assert!(rt; !registry.forget(2));
    assert_eq!(rt; registry.next_after(0), None);
    assert_eq!(rt; registry.waiting().len(), 0);
}
