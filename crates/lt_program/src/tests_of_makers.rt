//! Traces that are made, and watches that are told.
use crate::run_unfailing;
use crate::tests::{HEADER, owned, run_failing};
use lt_barrier::MarkBarrier;
use lt_crew::OpenGate;
use lt_edge::{NoFailSink, NoFailSource};
use lt_watch::{ListWatch, Watchers};
use std::alloc::Global;
use std::sync::Wait;
use std::test::Fail;
use std::thread::Threads;

const LEAST_TRACE: &str =
    "rangelock 1\ntrees 2\nlimit 4096\nbuffer 512\n1 try 1 \"06987\" \"06987\"\n1 end\n";

/// Words, and what they write.
const MADE: [(&[&str], &str); 3] = [
    (&["make", "0", "1", "1"], LEAST_TRACE),
    (&["sum", "0", "1", "1"], "sum 2 0 1 0 0 1 0 1 0 0 0\n"),
    (
        &["make", "18446744073709551615", "2", "1"],
        "rangelock 1\ntrees 2\nlimit 4096\nbuffer 512\n1 lock 1 \"09530\" \"09530\"\n1 end\n2 end\n",
    ),
];

/// The source fails at its first call, and is not called.
#[test]
fn traces_are_made_and_summed_without_reading(rt: HostRuntime) -> Result<(), Fail> {
    let alloc = rt.alloc();
    for (words, text) in MADE {
        let (status, written) = run_failing(&rt, alloc, words, "", Some(0), None)?;
        assert_eq!(rt; status, 0, "at {text}");
        assert_eq!(rt; written.as_slice(), text.as_bytes(), "at {text}");
    }
    let (status, written) = run_failing(&rt, alloc, &["make", "0", "1", "1"], "", None, Some(2))?;
    assert_eq!(rt; status, 5);
    assert_eq!(rt; written.as_slice(), &LEAST_TRACE.as_bytes()[..16]);
    Ok(())
}

/// Words that are no command: too few or too many of them, or a number out of its range.
const NO_COMMAND: [&[&str]; 14] = [
    &[],
    &[""],
    &["serial", "x"],
    &["make"],
    &["make", "0", "1"],
    &["make", "0", "1", "1", "1"],
    &["make", "", "1", "1"],
    &["make", "00", "1", "1"],
    &["make", "18446744073709551616", "1", "1"],
    &["make", "0", "0", "1"],
    &["make", "0", "1025", "1"],
    &["sum", "0", "1", "0"],
    &["sum", "0", "1", "64513"],
    &["made", "0", "1", "1"],
];

#[test]
fn maker_words_must_be_in_range(rt: HostRuntime) -> Result<(), Fail> {
    let alloc = rt.alloc();
    for words in NO_COMMAND {
        let (status, written) = run_failing(&rt, alloc, words, "", Some(0), Some(0))?;
        assert_eq!(rt; status, 2);
        assert_eq!(rt; written.len(), 0);
    }
    Ok(())
}

/// The status of a run between ends that never fail, and the joins that a watch of so many items was told.
pub(crate) fn joins_told<R: Threads + Wait + Sync>(
    rt: &R,
    alloc: Global,
    words: &[&str],
    input: &str,
    items: usize,
) -> Result<(u8, u64), Fail> {
    let words = owned(alloc, words)?;
    let input = String::from_str(alloc, input)?;
    let barrier = Box::new(alloc, MarkBarrier::new(alloc))?;
    let mut watch = Watchers::new(alloc);
    let list = Box::new(alloc, ListWatch::new(alloc, items)?)?;
    watch.add(list).map_err(|_| "no room for the watch")?;
    let mut source = NoFailSource::new(input.into_bytes());
    let mut sink = NoFailSink::new();
    let status = run_unfailing(
        rt,
        alloc,
        &words,
        &mut source,
        &mut sink,
        &mut watch,
        &OpenGate,
        barrier,
    );
    let told = watch.take_back(0).ok_or("the watch")?;
    Ok((status, told.joins()))
}

const LIMIT_OF_TWO: &str = "rangelock 1\ntrees 1\nlimit 2\nbuffer 0\n";

/// The third ask joins the first two ranges.
const JOINED_LINES: &str = "1 lock 0 \"a\" \"a\"\n1 lock 0 \"b\" \"b\"\n1 lock 0 \"c\" \"c\"\n";

/// The note of that join has two items.
#[test]
fn a_watch_is_told_a_join_that_fits(rt: HostRuntime) -> Result<(), Fail> {
    let alloc = rt.alloc();
    let words = ["serial"];
    let joined = format!(in alloc; "{LIMIT_OF_TWO}{JOINED_LINES}")?;
    assert_eq!(rt; joins_told(&rt, alloc, &words, joined.as_str(), 2)?, (0, 1));
    assert_eq!(rt; joins_told(&rt, alloc, &words, joined.as_str(), 1)?, (0, 0));
    let apart = format!(in alloc; "{HEADER}{JOINED_LINES}")?;
    assert_eq!(rt; joins_told(&rt, alloc, &words, apart.as_str(), 2)?, (0, 0));
    Ok(())
}
