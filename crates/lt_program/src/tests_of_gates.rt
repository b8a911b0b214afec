//! Crews and threads whose workers are seen to play side by side, and to draw what they play: by tests alone, since no clause
//! says so.
use crate::tests::HEADER;
use lt_crew::{Gate, run_crew};
use lt_live::run_live;
use lt_manager::Manager;
use lt_runner::Transcript;
use lt_seq::{Deed, Receipt};
use lt_trace::read;
use lt_watch::NoWatches;
use std::alloc::Global;
use std::sync::Wait;
use std::sync::atomic::{AtomicU64, Ordering};
use std::test::Fail;
use std::thread::Threads;

/// How many turns a transaction waits at the gate for another.
const MOST_TURNS: u32 = 100_000_000;

/// A gate at which the lines of one transaction wait until a line of another was entered.
#[derive(Drop)]
struct MeetGate {
    /// The transaction for which that of this number waits, or 0.
    awaited: [u64; 4],
    /// How many lines of that of this number were entered.
    entered: [AtomicU64; 4],
    /// How many lines were played.
    played: AtomicU64,
    /// How many waited in vain.
    late: AtomicU64,
}

impl MeetGate {
    fn new(awaited: [u64; 4]) -> MeetGate {
        MeetGate {
            awaited,
            entered: [
                AtomicU64::new(0),
                AtomicU64::new(0),
                AtomicU64::new(0),
                AtomicU64::new(0),
            ],
            played: AtomicU64::new(0),
            late: AtomicU64::new(0),
        }
    }

    /// Waits until a line of the transaction was entered, for a number of turns.
    fn meet(&self, txn: u64) {
        let Some(entered) = self.entered.get(txn as usize) else {
            return;
        };
        for _turn in 0..MOST_TURNS {
            if entered.load(Ordering::SeqCst) > 0 {
                return;
            }
        }
        self.late.fetch_add(1, Ordering::SeqCst);
    }
}

impl Gate for MeetGate {
    fn before(&self, txn: u64, line: u32) {
        if line == 0 {
            return;
        }
        if let Some(entered) = self.entered.get(txn as usize) {
            entered.fetch_add(1, Ordering::SeqCst);
        }
        if let Some(awaited) = self.awaited.get(txn as usize) {
            if *awaited > 0 {
                self.meet(*awaited);
            }
        }
    }

    fn after(&self, _txn: u64, line: u32) {
        if line > 0 {
            self.played.fetch_add(1, Ordering::SeqCst);
        }
    }
}

/// What two workers make of these lines at a gate.
fn played_at<R: Threads + Wait + Sync>(
    rt: &R,
    alloc: Global,
    lines: &str,
    gate: &MeetGate,
) -> Result<Transcript, Fail> {
    let input = format!(in alloc; "{HEADER}{lines}")?;
    let trace = read(alloc, input.as_bytes())?;
    let transcript = run_crew::<R, Manager, NoWatches, MeetGate>(
        rt,
        alloc,
        &trace,
        0,
        2,
        &mut NoWatches,
        gate,
    )?;
    Ok(transcript)
}

/// What two threads that wait for each other make of these lines at a gate.
fn lived_at<R: Threads + Wait + Sync>(
    rt: &R,
    alloc: Global,
    lines: &str,
    gate: &MeetGate,
) -> Result<Transcript, Fail> {
    let input = format!(in alloc; "{HEADER}{lines}")?;
    let trace = read(alloc, input.as_bytes())?;
    let transcript = run_live::<R, Manager, NoWatches, MeetGate>(
        rt,
        alloc,
        &trace,
        0,
        2,
        &mut NoWatches,
        gate,
    )?;
    Ok(transcript)
}

/// Whether another pass than the caller's asked.
fn is_a_workers_ask(receipt: &Receipt) -> bool {
    match receipt.event.deed {
        Deed::Ask { .. } => receipt.event.pass > 0,
        _ => false,
    }
}

#[test]
fn two_workers_play_at_one_time(rt: HostRuntime) -> Result<(), Fail> {
    let alloc = rt.alloc();
    let gate = MeetGate::new([0, 2, 1, 0]);
    let lines = "1 try 0 \"a\" \"a\"\n2 try 0 \"b\" \"b\"\n";
    let transcript = played_at(&rt, alloc, lines, &gate)?;
    assert_eq!(rt; gate.late.load(Ordering::SeqCst), 0);
    assert_eq!(rt; gate.played.load(Ordering::SeqCst), 2);
    assert!(rt; transcript.receipts.iter().any(is_a_workers_ask));
    assert_eq!(rt; transcript.places, 4);
    Ok(())
}

#[test]
fn two_threads_play_at_one_time(rt: HostRuntime) -> Result<(), Fail> {
    let alloc = rt.alloc();
    let gate = MeetGate::new([0, 2, 1, 0]);
    let lines = "1 try 0 \"a\" \"a\"\n2 try 0 \"b\" \"b\"\n";
    let transcript = lived_at(&rt, alloc, lines, &gate)?;
    assert_eq!(rt; gate.late.load(Ordering::SeqCst), 0);
    assert_eq!(rt; gate.played.load(Ordering::SeqCst), 2);
    assert_eq!(rt; transcript.places, 4);
    Ok(())
}

#[test]
fn no_worker_has_transactions_of_its_own(rt: HostRuntime) -> Result<(), Fail> {
    let alloc = rt.alloc();
    let lines = "1 try 0 \"a\" \"a\"\n2 try 0 \"b\" \"b\"\n3 try 0 \"c\" \"c\"\n";
    for awaited in [[0, 3, 0, 0], [0, 2, 0, 0], [0, 0, 3, 0]] {
        let gate = MeetGate::new(awaited);
        let transcript = played_at(&rt, alloc, lines, &gate)?;
        assert_eq!(rt; gate.late.load(Ordering::SeqCst), 0);
        assert_eq!(rt; gate.played.load(Ordering::SeqCst), 3);
        assert_eq!(rt; transcript.places, 6);
    }
    Ok(())
}
