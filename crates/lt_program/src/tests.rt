//! What the program writes on worked traces, and where an end fails: the texts here come from outside.
use crate::run;
use lt_barrier::MarkBarrier;
use lt_crew::OpenGate;
use lt_edge::{MemSink, MemSource};
use lt_watch::NoWatches;
use std::alloc::{AllocError, Global};
use std::sync::Wait;
use std::test::Fail;
use std::thread::Threads;

/// The header that stands before the lines of a table.
pub(crate) const HEADER: &str = "rangelock 1\ntrees 1\nlimit 64\nbuffer 0\n";

/// The same in the second version.
const SECOND_HEADER: &str = "rangelock 2\ntrees 1\nlimit 64\nbuffer 0\n";

/// A trace whose second transaction is held, and its transcript.
const HELD_LINES: &str = "1 try 0 \"a\" \"c\"\n2 try 0 \"c\" \"e\"\n";

const HELD_TEXT: &str = "0 1 ask 0 \"a\" \"c\" granted\n\
        1 2 ask 0 \"c\" \"e\" held by 1\n\
        2 1 free 0 \"a\" \"c\" 1\n\
        txn 1 done\n\
        txn 2 done\n\
        end 3 0\n";

/// Words as the program is given them.
pub(crate) fn owned(alloc: Global, words: &[&str]) -> Result<Vec<String>, AllocError> {
    let mut owned = Vec::new(alloc);
    for word in words {
        owned.push(String::from_str(alloc, word)?)?;
    }
    Ok(owned)
}

fn numbers(alloc: Global, number: Option<u64>) -> Result<Vec<u64>, AllocError> {
    let mut numbers = Vec::new(alloc);
    if let Some(number) = number {
        numbers.push(number)?;
    }
    Ok(numbers)
}

/// The status and what was written, where the source's and the sink's calls of these numbers fail.
pub(crate) fn run_failing<R: Threads + Wait + Sync>(
    rt: &R,
    alloc: Global,
    words: &[&str],
    input: &str,
    read: Option<u64>,
    put: Option<u64>,
) -> Result<(u8, Vec<u8>), AllocError> {
    let words = owned(alloc, words)?;
    let mut source = MemSource::new(input.as_bytes().to_vec(alloc)?, 16, numbers(alloc, read)?);
    let mut sink = MemSink::new(alloc, 16_384, 8, numbers(alloc, put)?)?;
    let barrier = Box::new(alloc, MarkBarrier::new(alloc))?;
    let status = run(
        rt,
        alloc,
        words.as_slice(),
        &mut source,
        &mut sink,
        &mut NoWatches,
        &OpenGate,
        barrier,
    );
    Ok((status, sink.bytes().to_vec(alloc)?))
}

/// The status and what was written on these lines.
pub(crate) fn run_serial<R: Threads + Wait + Sync>(
    rt: &R,
    alloc: Global,
    header: &str,
    lines: &str,
) -> Result<(u8, Vec<u8>), AllocError> {
    let input = format!(in alloc; "{header}{lines}")?;
    run_failing(rt, alloc, &["serial"], input.as_str(), None, None)
}

/// What is shown, the lines of the body, and the transcript.
const PLAYED: [(&str, &str, &str); 8] = [
    ("an empty trace", "", "end 0 0\n"),
    (
        "a range is given back",
        "1 try 0 \"a\" \"c\"\n1 end\n",
        "0 1 ask 0 \"a\" \"c\" granted\n1 1 free 0 \"a\" \"c\" 1\ntxn 1 done\nend 2 0\n",
    ),
    ("a shared endpoint is refused", HELD_LINES, HELD_TEXT),
    (
        "own ranges are joined",
        "1 try 0 \"a\" \"c\"\n1 try 0 \"b\" \"d\"\n1 end\n",
        "0 1 ask 0 \"a\" \"c\" granted\n\
            1 1 ask 0 \"b\" \"d\" granted\n\
            2 1 free 0 \"a\" \"c\" 1\n\
            3 1 free 0 \"b\" \"d\" 0\n\
            txn 1 done\n\
            end 4 0\n",
    ),
    (
        "infinities hold every key",
        "1 try 0 - +\n2 try 0 \"\" \"\"\n",
        "0 1 ask 0 - + granted\n1 2 ask 0 \"\" \"\" held by 1\n2 1 free 0 - + 1\ntxn 1 done\ntxn 2 done\nend 3 0\n",
    ),
    (
        "above is a point",
        "1 try 0 \"x\" +\n2 try 0 + +\n",
        "0 1 ask 0 \"x\" + granted\n1 2 ask 0 + + held by 1\n2 1 free 0 \"x\" + 1\ntxn 1 done\ntxn 2 done\nend 3 0\n",
    ),
    (
        "two owners are named",
        "1 try 0 \"a\" \"a\"\n2 try 0 \"c\" \"c\"\n3 try 0 - +\n",
        "0 1 ask 0 \"a\" \"a\" granted\n\
            1 2 ask 0 \"c\" \"c\" granted\n\
            2 3 ask 0 - + held by 1 2\n\
            3 1 free 0 \"a\" \"a\" 1\n\
            4 2 free 0 \"c\" \"c\" 1\n\
            txn 1 done\n\
            txn 2 done\n\
            txn 3 done\n\
            end 5 0\n",
    ),
    ("an end alone", "7 end\n", "txn 7 done\nend 0 0\n"),
];

#[test]
fn traces_are_played(rt: HostRuntime) -> Result<(), Fail> {
    let alloc = rt.alloc();
    for (name, lines, text) in PLAYED {
        let (status, written) = run_serial(&rt, alloc, HEADER, lines)?;
        assert_eq!(rt; status, 0, "at {name}");
        assert_eq!(rt; written.as_slice(), text.as_bytes(), "at {name}");
    }
    Ok(())
}

/// What is shown, the header, the lines of the body, and the transcript.
const WITH_HEADERS: [(&str, &str, &str, &str); 5] = [
    (
        "the limit is one row",
        "rangelock 1\ntrees 1\nlimit 1\nbuffer 0\n",
        "1 try 0 \"a\" \"a\"\n2 try 0 \"c\" \"c\"\n",
        "0 1 ask 0 \"a\" \"a\" granted\n\
            1 2 join 0 1 1\n\
            2 1 free 0 \"a\" \"a\" 1\n\
            txn 1 done\n\
            txn 2 outoflocks 2 1\n\
            end 3 0\n",
    ),
    (
        "trees are given back in ascending order",
        "rangelock 1\ntrees 2\nlimit 64\nbuffer 0\n",
        "1 try 1 \"a\" \"a\"\n1 try 0 \"b\" \"b\"\n2 try 0 \"a\" \"a\"\n1 end\n",
        "0 1 ask 1 \"a\" \"a\" granted\n\
            1 1 ask 0 \"b\" \"b\" granted\n\
            2 2 ask 0 \"a\" \"a\" granted\n\
            3 1 free 0 \"b\" \"b\" 1\n\
            4 1 free 1 \"a\" \"a\" 1\n\
            5 2 free 0 \"a\" \"a\" 1\n\
            txn 1 done\n\
            txn 2 done\n\
            end 6 0\n",
    ),
    (
        "the limit counts the rows of all trees",
        "rangelock 1\ntrees 2\nlimit 2\nbuffer 0\n",
        "1 try 1 \"a\" \"a\"\n2 try 0 \"a\" \"a\"\n3 try 1 \"c\" \"c\"\n",
        "0 1 ask 1 \"a\" \"a\" granted\n\
            1 2 ask 0 \"a\" \"a\" granted\n\
            2 3 join 0 1 1\n\
            3 3 join 1 1 1\n\
            4 1 free 1 \"a\" \"a\" 1\n\
            5 2 free 0 \"a\" \"a\" 1\n\
            txn 1 done\n\
            txn 2 done\n\
            txn 3 outoflocks 4 2\n\
            end 6 0\n",
    ),
    (
        "joining neighbours makes room at the limit",
        "rangelock 1\ntrees 1\nlimit 2\nbuffer 0\n",
        "1 try 0 \"a\" \"a\"\n1 try 0 \"b\" \"b\"\n1 try 0 \"c\" \"c\"\n",
        "0 1 ask 0 \"a\" \"a\" granted\n\
            1 1 ask 0 \"b\" \"b\" granted\n\
            2 1 join 0 2 1\n\
            3 1 ask 0 \"c\" \"c\" granted\n\
            4 1 free 0 \"a\" \"a\" 1\n\
            5 1 free 0 \"b\" \"b\" 0\n\
            6 1 free 0 \"c\" \"c\" 1\n\
            txn 1 done\n\
            end 7 0\n",
    ),
    (
        "prefix endpoints in the second version",
        SECOND_HEADER,
        "1 try 0 \"ab\" \"ab\"*\n2 try 0 \"abz\" \"abz\"\n3 try 0 \"ac\" \"ac\"\n",
        "0 1 ask 0 \"ab\" \"ab\"* granted\n\
            1 2 ask 0 \"abz\" \"abz\" held by 1\n\
            2 3 ask 0 \"ac\" \"ac\" granted\n\
            3 1 free 0 \"ab\" \"ab\"* 1\n\
            4 3 free 0 \"ac\" \"ac\" 1\n\
            txn 1 done\n\
            txn 2 done\n\
            txn 3 done\n\
            end 5 0\n",
    ),
];

#[test]
fn headers_count(rt: HostRuntime) -> Result<(), Fail> {
    let alloc = rt.alloc();
    for (name, header, lines, text) in WITH_HEADERS {
        let (status, written) = run_serial(&rt, alloc, header, lines)?;
        assert_eq!(rt; status, 0, "at {name}");
        assert_eq!(rt; written.as_slice(), text.as_bytes(), "at {name}");
    }
    Ok(())
}

/// The header, the lines of the body, and the line that refuses them.
const REFUSED: [(&str, &str, &str); 10] = [
    (HEADER, "1 try 0 \"b\" \"a\"\n", "refused 5 7 backwards\n"),
    (
        HEADER,
        "1 try 1 \"a\" \"a\"\n",
        "refused 5 5 tree out of range\n",
    ),
    (HEADER, "1 end\n1 end\n", "refused 6 8 after end\n"),
    (HEADER, "1 steal 0\n", "refused 5 2 bad line\n"),
    (HEADER, "1 try 0 \"ab\"* \"ab\"\n", "refused 5 2 bad line\n"),
    (
        SECOND_HEADER,
        "1 try 0 \"ab\"* \"ab\"\n",
        "refused 5 7 backwards\n",
    ),
    (HEADER, "1 end", "refused 5 10 no final newline\n"),
    ("", "", "refused 1 1 bad header\n"),
    ("rangelock 1\n", "", "refused 2 1 bad header\n"),
    ("rangelock 3\n", "", "refused 1 1 bad header\n"),
];

#[test]
fn other_bytes_are_refused(rt: HostRuntime) -> Result<(), Fail> {
    let alloc = rt.alloc();
    for (header, lines, line) in REFUSED {
        let (status, written) = run_serial(&rt, alloc, header, lines)?;
        assert_eq!(rt; status, 3, "for {line}");
        assert_eq!(rt; written.as_slice(), line.as_bytes(), "for {line}");
    }
    Ok(())
}

#[test]
fn a_key_has_at_most_63_bytes(rt: HostRuntime) -> Result<(), Fail> {
    let alloc = rt.alloc();
    let key = "abcdefghijklmnopqrstuvwxyzabcdefghijklmnopqrstuvwxyzabcdefghijk";
    assert_eq!(rt; key.len(), 63);
    let lines = format!(in alloc; "1 try 0 \"{key}\" +\n")?;
    let (status, _written) = run_serial(&rt, alloc, HEADER, lines.as_str())?;
    assert_eq!(rt; status, 0);
    let lines = format!(in alloc; "1 try 0 \"{key}l\" +\n")?;
    let (status, written) = run_serial(&rt, alloc, HEADER, lines.as_str())?;
    assert_eq!(rt; status, 3);
    assert_eq!(rt;
        written.as_slice(),
        b"refused 5 6 key too long\n".as_slice()
    );
    Ok(())
}

#[test]
fn other_words_are_no_command(rt: HostRuntime) -> Result<(), Fail> {
    let alloc = rt.alloc();
    let others: [&[&str]; 16] = [
        &[],
        &[""],
        &["serial", ""],
        &["serial "],
        &["serial", "x"],
        &["Serial"],
        &["crew"],
        &["crew", ""],
        &["crew", "4", "4"],
        &["Crew", "4"],
        &["crew", "17"],
        &["crew", "0"],
        &["crew", "04"],
        &["crew", "--", "4"],
        &["help"],
        &["--help"],
    ];
    for (place, words) in others.iter().enumerate() {
        let (status, written) = run_failing(&rt, alloc, words, HEADER, None, None)?;
        assert_eq!(rt; status, 2, "at {place}");
        assert_eq!(rt; written.len(), 0, "at {place}");
    }
    Ok(())
}

/// A trace of five pieces of at most 16 bytes: its end is the sixth call.
#[test]
fn each_call_of_the_source_may_fail(rt: HostRuntime) -> Result<(), Fail> {
    let alloc = rt.alloc();
    let input = format!(in alloc; "{HEADER}{HELD_LINES}")?;
    assert_eq!(rt; input.len(), 70);
    for call in 0..6u64 {
        let (status, written) = run_failing(
            &rt,
            alloc,
            &["serial"],
            input.as_str(),
            Some(call),
            None,
        )?;
        assert_eq!(rt; status, 4, "at {call}");
        assert_eq!(rt; written.len(), 0, "at {call}");
    }
    let (status, written) = run_failing(&rt, alloc, &["serial"], input.as_str(), Some(6), None)?;
    assert_eq!(rt; status, 0);
    assert_eq!(rt; written.as_slice(), HELD_TEXT.as_bytes());
    Ok(())
}

/// A text of fourteen pieces of at most 8 bytes.
#[test]
fn each_put_of_the_sink_may_fail(rt: HostRuntime) -> Result<(), Fail> {
    let alloc = rt.alloc();
    let input = format!(in alloc; "{HEADER}{HELD_LINES}")?;
    let text = HELD_TEXT.as_bytes();
    assert_eq!(rt; text.len(), 105);
    for call in 0..14usize {
        let put = Some(call as u64);
        let (status, written) = run_failing(&rt, alloc, &["serial"], input.as_str(), None, put)?;
        assert_eq!(rt; status, 5, "at {call}");
        assert_eq!(rt; written.as_slice(), &text[..8 * call], "at {call}");
    }
    let (status, written) = run_failing(&rt, alloc, &["serial"], input.as_str(), None, Some(14))?;
    assert_eq!(rt; status, 0);
    assert_eq!(rt; written.as_slice(), text);
    Ok(())
}
