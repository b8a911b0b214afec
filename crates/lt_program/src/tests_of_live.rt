//! Threads that wait for each other: that they wait, and do not play in rounds, is seen by tests alone.
use crate::tests::{HEADER, run_failing};
use lt_crew::Gate;
use lt_live::run_live;
use lt_manager::Manager;
use lt_runner::Transcript;
use lt_trace::{Trace, read};
use lt_watch::NoWatches;
use std::alloc::{AllocError, Global};
use std::sync::Wait;
use std::sync::atomic::{AtomicU64, Ordering};
use std::test::Fail;
use std::thread::Threads;

/// What is shown, the lines of the body, and the end of the transcript.
const LIVE: [(&str, &str, &str); 5] = [
    ("an empty trace", "", "end 0 0\n"),
    (
        "one transaction",
        "1 try 0 \"a\" \"c\"\n1 end\n",
        "0 1 ask 0 \"a\" \"c\" granted\n1 1 free 0 \"a\" \"c\" 1\ntxn 1 done\nend 2 0\n",
    ),
    (
        "two that do not meet",
        "1 try 0 \"a\" \"c\"\n2 try 0 \"d\" \"e\"\n1 end\n2 abort\n",
        "txn 1 done\ntxn 2 aborted\nend 4 0\n",
    ),
    (
        "two that want one range",
        "1 lock 0 \"a\" \"a\"\n2 lock 0 \"a\" \"c\"\n",
        " 0\n",
    ),
    (
        "two that may wait for each other",
        "1 lock 0 \"a\" \"a\"\n2 lock 0 \"b\" \"b\"\n1 lock 0 \"b\" \"b\"\n2 lock 0 \"a\" \"a\"\n",
        " 0\n",
    ),
];

#[test]
fn threads_play(rt: HostRuntime) -> Result<(), Fail> {
    let alloc = rt.alloc();
    for (name, lines, end) in LIVE {
        let input = format!(in alloc; "{HEADER}{lines}")?;
        for threads in ["1", "2", "16"] {
            let (status, written) = run_failing(
                &rt,
                alloc,
                &["live", threads],
                input.as_str(),
                None,
                None,
            )?;
            assert_eq!(rt; status, 0, "at {name}");
            assert!(rt; written.ends_with(end.as_bytes()), "at {name}");
        }
    }
    Ok(())
}

#[test]
fn no_threads_play_what_is_no_trace(rt: HostRuntime) -> Result<(), Fail> {
    let alloc = rt.alloc();
    let input = format!(in alloc; "{HEADER}1 end\n1 end\n")?;
    let (status, written) = run_failing(&rt, alloc, &["live", "2"], input.as_str(), None, None)?;
    assert_eq!(rt; status, 3);
    assert_eq!(rt; written.as_slice(), b"refused 6 8 after end\n".as_slice());
    let (status, _) = run_failing(&rt, alloc, &["live", "2"], input.as_str(), Some(0), None)?;
    assert_eq!(rt; status, 4);
    let (status, _) = run_failing(&rt, alloc, &["live", "2"], input.as_str(), None, Some(1))?;
    assert_eq!(rt; status, 5);
    Ok(())
}

/// For how many turns a line waits at the gate for others, before the test has failed.
const MOST_TURNS: u32 = 100_000_000;

/// For how many turns each line of the long transaction waits for the one that was held, before it goes on.
const FEW_TURNS: u32 = 10_000;

/// The number of the last line.
const LAST: u32 = 20_008;

/// A gate at which the lines of three transactions wait for each other, so that the second one is held, and granted while the
/// third still plays.
#[derive(Drop)]
struct HeldGate {
    /// Whether the lines 5, 6 and 9 were played.
    fifth: AtomicU64,
    sixth: AtomicU64,
    ninth: AtomicU64,
    /// Whether line 7, which stands behind the held one, was entered, and whether it was when the last line was.
    seventh: AtomicU64,
    in_time: AtomicU64,
    /// How many waited in vain.
    late: AtomicU64,
}

impl HeldGate {
    fn new() -> HeldGate {
        HeldGate {
            fifth: AtomicU64::new(0),
            sixth: AtomicU64::new(0),
            ninth: AtomicU64::new(0),
            seventh: AtomicU64::new(0),
            in_time: AtomicU64::new(0),
            late: AtomicU64::new(0),
        }
    }

    /// Waits until the other was played.
    fn meet(&self, other: &AtomicU64) {
        if !is_set_within(other, MOST_TURNS) {
            self.late.fetch_add(1, Ordering::SeqCst);
        }
    }
}

/// Whether it is set within so many turns.
fn is_set_within(flag: &AtomicU64, turns: u32) -> bool {
    for _turn in 0..turns {
        if flag.load(Ordering::SeqCst) > 0 {
            return true;
        }
    }
    false
}

impl Gate for HeldGate {
    fn before(&self, _txn: u64, line: u32) {
        match line {
            6 => {
                self.meet(&self.fifth);
                self.meet(&self.ninth);
            }
            7 => self.seventh.store(1, Ordering::SeqCst),
            8 => self.meet(&self.sixth),
            9 => self.meet(&self.fifth),
            10..=LAST => {
                let entered = is_set_within(&self.seventh, FEW_TURNS);
                if line == LAST && entered {
                    self.in_time.store(1, Ordering::SeqCst);
                }
            }
            _ => {}
        }
    }

    fn after(&self, _txn: u64, line: u32) {
        match line {
            5 => self.fifth.store(1, Ordering::SeqCst),
            6 => self.sixth.store(1, Ordering::SeqCst),
            9 => self.ninth.store(1, Ordering::SeqCst),
            _ => {}
        }
    }
}

/// A trace of three transactions: the second waits for the first, and the third plays twenty thousand lines in another tree.
fn long_trace(alloc: Global) -> Result<String, AllocError> {
    let mut text = String::from_str(
        alloc,
        "rangelock 1\ntrees 2\nlimit 64\nbuffer 0\n1 lock 0 \"a\" \"a\"\n2 lock 0 \"a\" \"a\"\n2 try 0 \"b\" \"b\"\n1 end\n",
    )?;
    for _line in 9..=LAST {
        text.push_str("3 try 1 \"c\" \"c\"\n")?;
    }
    Ok(text)
}

/// What three threads make of the trace at the gate.
fn held_at<R: Threads + Wait + Sync>(
    rt: &R,
    alloc: Global,
    trace: &Trace,
    gate: &HeldGate,
) -> Result<Transcript, AllocError> {
    run_live::<R, Manager, NoWatches, HeldGate>(rt, alloc, trace, 0, 3, &mut NoWatches, gate)
}

#[test]
fn one_that_was_held_goes_on_while_others_play(rt: HostRuntime) -> Result<(), Fail> {
    let alloc = rt.alloc();
    let text = long_trace(alloc)?;
    let trace = read(alloc, text.as_bytes())?;
    let gate = HeldGate::new();
    let transcript = held_at(&rt, alloc, &trace, &gate)?;
    assert_eq!(rt; gate.late.load(Ordering::SeqCst), 0);
    assert_eq!(rt; gate.in_time.load(Ordering::SeqCst), 1);
    assert_eq!(rt; transcript.outcomes.len(), 3);
    assert_eq!(rt; transcript.used, 0);
    Ok(())
}
