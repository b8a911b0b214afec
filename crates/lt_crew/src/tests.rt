//! Transactions that one pass of the plain table plays. A round wants a table of several passes.
ghost use Rattle.std.specs.Prelude.{◌≡◌, All, length, false, OnOk};
ghost use Rattle.lt_seq.specs.Yard.{origin_of};
ghost use Rattle.lt_runner.specs.PlaysOn.{IsFit, IsReady};

use crate::crew::side_by_side;
use crate::dealing::seat_all;
use crate::gate::{Gate, OpenGate};
use crate::play::play_turn;
use crate::worker::Worker;
use lt_deal::Deal;
use lt_ranges::KeyRange;
use lt_runner::Turn;
use lt_seq::{Pass, SeqYard, Yard, YardPlan};
use lt_trace::LineDeed;
use std::alloc::{AllocError, Global};
use std::sync::atomic::{AtomicU64, Ordering};
use std::test::Fail;
use std::thread::Threads;

const PLAN: YardPlan = YardPlan {
    trees: 1,
    limit: 64,
    buffer: 0,
    passes: 1,
    first: 0,
};

/// Sums up the numbers of the lines that it is called round.
#[derive(Drop)]
struct SumGate {
    before: AtomicU64,
    after: AtomicU64,
}

impl SumGate {
    fn new() -> SumGate {
        SumGate {
            before: AtomicU64::new(0),
            after: AtomicU64::new(0),
        }
    }
}

impl Gate for SumGate {
    fn before(&self, _txn: u64, line: u32) {
        self.before.fetch_add(u64::from(line), Ordering::SeqCst);
    }

    fn after(&self, _txn: u64, line: u32) {
        self.after.fetch_add(u64::from(line), Ordering::SeqCst);
    }
}

#[test]
fn a_gate_sees_each_line_before_and_after_it_is_played(rt: HostRuntime) -> Result<(), Fail> {
    let alloc = rt.alloc();
    let (yard, mut passes) = SeqYard::build(alloc, &PLAN)?;
    let pass = &mut passes[0];
    let gate = SumGate::new();
    let mut turn = Turn::without_lines(alloc, 1, 1)?;
    let range = KeyRange::whole();
    turn.add_line(5, LineDeed::Try { tree: 0, range })?;
    turn.add_line(7, LineDeed::Big)?;
    turn.add_line(0, LineDeed::End)?;
    play_turn(&yard, pass, &mut turn, &gate)?;
    assert!(rt; turn.has_ended());
    assert_eq!(rt; yard.look(pass).used, 0);
    assert_eq!(rt; yard.look(pass).place, 2);
    assert_eq!(rt; gate.before.load(Ordering::SeqCst), 12);
    assert_eq!(rt; gate.after.load(Ordering::SeqCst), 12);
    Ok(())
}

#[test]
fn a_held_line_is_played_once_and_waits(rt: HostRuntime) -> Result<(), Fail> {
    let alloc = rt.alloc();
    let (yard, mut passes) = SeqYard::build(alloc, &PLAN)?;
    let pass = &mut passes[0];
    let range = KeyRange::whole();
    yard.ask(pass, 9, 0, &range, false)?;
    let mut turn = Turn::without_lines(alloc, 1, 1)?;
    turn.add_line(5, LineDeed::Lock { tree: 0, range })?;
    turn.add_line(6, LineDeed::End)?;
    play_turn(&yard, pass, &mut turn, &OpenGate)?;
    assert!(rt; turn.is_waiting());
    assert_eq!(rt; turn.next_number(), Some(5));
    assert_eq!(rt; yard.look(pass).place, 2);
    play_turn(&yard, pass, &mut turn, &OpenGate)?;
    assert_eq!(rt; yard.look(pass).place, 2);
    Ok(())
}

/// Workers draw a transaction in threads, and play it.
fn draw_one<R: Threads + Sync, Y: Yard>(
    rt: &R,
    alloc: Global,
    yard: &Y,
    workers: &mut [Worker<Y::Pass>],
    turn: Turn,
) -> Result<(), AllocError>
    requires one { length workers.old ≡ 1 }
    requires of { All (λ w. Y.Pass.origin w.pass ≡ origin_of (Y.identity yard.now) (Y.setting yard.now)) workers.old }
    requires ready { All (λ w. IsReady (Y.setting yard.now) (Y.Pass.view w.pass)) workers.old }
    requires memory { All (λ w. w.short ≡ false) workers.old }
    requires fit { IsFit (Y.setting yard.now) turn }
    ensures count { length workers.new ≡ length workers.old }
    ensures of { OnOk result (All (λ w. Y.Pass.origin w.pass ≡ origin_of (Y.identity yard.now) (Y.setting yard.now)) workers.new) }
{
    let turns = vec![in alloc; turn]?;
    let (deal, seats) = Deal::build(alloc, turns, 1)?;
    seat_all(workers, seats);
    side_by_side(rt, yard, &deal, workers, &OpenGate);
    Ok(())
}

#[test]
fn a_thread_plays_what_a_worker_draws(rt: HostRuntime) -> Result<(), Fail> {
    let alloc = rt.alloc();
    let (yard, mut passes) = SeqYard::build(alloc, &PLAN)?;
    let mut turn = Turn::without_lines(alloc, 1, 1)?;
    let range = KeyRange::whole();
    turn.add_line(5, LineDeed::Try { tree: 0, range })?;
    turn.add_line(6, LineDeed::End)?;
    let mut workers = vec![in alloc;
        Worker {
            pass: passes.remove(0),
            seat: None,
            short: false,
        },
    ]?;
    draw_one(&rt, alloc, &yard, &mut workers, turn)?;
    assert!(rt; !workers[0].short);
    assert_eq!(rt; yard.look(&mut workers[0].pass).place, 2);
    Ok(())
}
