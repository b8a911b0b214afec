//! Crews on tables whose joins stop at marks. One worker plays the lines in their order.
use crate::run;
use crate::tests::{HEADER, owned, run_failing};
use crate::tests_of_makers::joins_told;
use lt_barrier::{Barrier, MarkBarrier};
use lt_crew::OpenGate;
use lt_edge::{MemSink, MemSource};
use lt_ranges::Key;
use lt_watch::NoWatches;
use std::alloc::{AllocError, Global};
use std::sync::Wait;
use std::test::Fail;
use std::thread::Threads;

/// Three points of one transaction, and a join.
const LINES: &str = "1 try 0 \"a\" \"a\"\n1 try 0 \"c\" \"c\"\n1 try 0 \"e\" \"e\"\n1 escalate 0\n";

const ASKS: &str = "0 1 ask 0 \"a\" \"a\" granted\n\
        1 1 ask 0 \"c\" \"c\" granted\n\
        2 1 ask 0 \"e\" \"e\" granted\n";

/// What stands behind the asks where a mark keeps the last point apart, where one keeps the first apart, where both do,
/// and where none does.
const LAST_APART: &str = "3 1 join 0 3 2\n\
        4 1 free 0 \"a\" \"a\" 1\n\
        5 1 free 0 \"c\" \"c\" 0\n\
        6 1 free 0 \"e\" \"e\" 1\n\
        txn 1 done\n\
        end 7 0\n";

const FIRST_APART: &str = "3 1 join 0 3 2\n\
        4 1 free 0 \"a\" \"a\" 1\n\
        5 1 free 0 \"c\" \"c\" 1\n\
        6 1 free 0 \"e\" \"e\" 0\n\
        txn 1 done\n\
        end 7 0\n";

const ALL_APART: &str = "3 1 join 0 3 3\n\
        4 1 free 0 \"a\" \"a\" 1\n\
        5 1 free 0 \"c\" \"c\" 1\n\
        6 1 free 0 \"e\" \"e\" 1\n\
        txn 1 done\n\
        end 7 0\n";

const NONE_APART: &str = "3 1 join 0 3 1\n\
        4 1 free 0 \"a\" \"a\" 1\n\
        5 1 free 0 \"c\" \"c\" 0\n\
        6 1 free 0 \"e\" \"e\" 0\n\
        txn 1 done\n\
        end 7 0\n";

/// A mark, and what stands behind the asks. One that is equal to a left end keeps apart, and one that is equal to a right end
/// does not.
const CUTS: [(&str, &str); 6] = [
    ("\"d\"", LAST_APART),
    ("\"e\"", LAST_APART),
    ("\"c\"", FIRST_APART),
    ("\"b\"", FIRST_APART),
    ("\"a\"", NONE_APART),
    ("\"z\"", NONE_APART),
];

#[test]
fn a_join_stops_at_the_mark(rt: HostRuntime) -> Result<(), Fail> {
    let alloc = rt.alloc();
    let input = format!(in alloc; "{HEADER}{LINES}")?;
    for (mark, behind) in CUTS {
        let words = ["cut", "1", mark];
        let (status, written) = run_failing(&rt, alloc, &words, input.as_str(), None, None)?;
        let text = format!(in alloc; "{ASKS}{behind}")?;
        assert_eq!(rt; status, 0, "at {mark}");
        assert_eq!(rt; written.as_slice(), text.as_bytes(), "at {mark}");
    }
    Ok(())
}

/// What is written by `cut 1 "d"` over a barrier that had this mark before.
fn run_marked<R: Threads + Wait + Sync>(
    rt: &R,
    alloc: Global,
    input: &str,
    mark: &Key,
) -> Result<(u8, Vec<u8>), AllocError> {
    let words = owned(alloc, &["cut", "1", "\"d\""])?;
    let mut source = MemSource::new(input.as_bytes().to_vec(alloc)?, 16, Vec::new(alloc));
    let mut sink = MemSink::new(alloc, 4096, 64, Vec::new(alloc))?;
    let mut barrier = Box::new(alloc, MarkBarrier::new(alloc))?;
    barrier.add(mark)?;
    let status = run(
        rt,
        alloc,
        words.as_slice(),
        &mut source,
        &mut sink,
        &mut NoWatches,
        &OpenGate,
        barrier,
    );
    Ok((status, sink.bytes().to_vec(alloc)?))
}

#[test]
fn marks_that_the_barrier_had_count(rt: HostRuntime) -> Result<(), Fail> {
    let alloc = rt.alloc();
    let input = format!(in alloc; "{HEADER}{LINES}")?;
    let (status, written) = run_marked(&rt, alloc, input.as_str(), &Key::new(b"b")?)?;
    let text = format!(in alloc; "{ASKS}{ALL_APART}")?;
    assert_eq!(rt; status, 0);
    assert_eq!(rt; written.as_slice(), text.as_bytes());
    Ok(())
}

/// The note of a join has an item for the join, and one for each range behind it: two where the mark keeps two apart.
#[test]
fn a_watch_is_told_the_ranges_that_the_mark_leaves(rt: HostRuntime) -> Result<(), Fail> {
    let alloc = rt.alloc();
    let input = format!(in alloc; "{HEADER}{LINES}")?;
    let apart = ["cut", "1", "\"d\""];
    let joined = ["cut", "1", "\"z\""];
    assert_eq!(rt; joins_told(&rt, alloc, &apart, input.as_str(), 3)?, (0, 1));
    assert_eq!(rt; joins_told(&rt, alloc, &apart, input.as_str(), 2)?, (0, 0));
    assert_eq!(rt; joins_told(&rt, alloc, &joined, input.as_str(), 2)?, (0, 1));
    assert_eq!(rt; joins_told(&rt, alloc, &joined, input.as_str(), 1)?, (0, 0));
    Ok(())
}
