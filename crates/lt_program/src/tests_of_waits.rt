//! What the program writes where transactions wait, join, fill a buffer or are big: the texts here come from outside.
use crate::run;
use crate::tests::{HEADER, run_failing, run_serial};
use lt_barrier::MarkBarrier;
use lt_crew::OpenGate;
use lt_edge::{MemSink, MemSource};
use lt_watch::NoWatches;
use std::alloc::{AllocError, Global};
use std::sync::Wait;
use std::test::Fail;
use std::thread::Threads;

/// Two transactions that wait for each other, and the transcript.
const DEADLOCK_LINES: &str =
    "1 lock 0 \"a\" \"a\"\n2 lock 0 \"b\" \"b\"\n1 lock 0 \"b\" \"b\"\n2 lock 0 \"a\" \"a\"\n";

const DEADLOCK_TEXT: &str = "0 1 ask 0 \"a\" \"a\" granted\n\
        1 2 ask 0 \"b\" \"b\" granted\n\
        2 1 ask 0 \"b\" \"b\" held by 2\n\
        3 2 ask 0 \"a\" \"a\" held by 1\n\
        4 2 who 0 \"b\" \"b\" 1 held by 2\n\
        5 2 free 0 \"b\" \"b\" 1\n\
        6 1 ask 0 \"b\" \"b\" granted\n\
        7 1 free 0 \"a\" \"a\" 1\n\
        8 1 free 0 \"b\" \"b\" 1\n\
        txn 1 done\n\
        txn 2 deadlock 2 1 2\n\
        end 9 0\n";

/// What is shown, the header, the lines of the body, and the transcript.
const WAITS: [(&str, &str, &str, &str); 4] = [
    ("a deadlock of two", HEADER, DEADLOCK_LINES, DEADLOCK_TEXT),
    (
        "lines are put off",
        HEADER,
        "1 lock 0 \"a\" \"a\"\n2 lock 0 \"a\" \"c\"\n2 try 0 \"x\" \"x\"\n1 end\n",
        "0 1 ask 0 \"a\" \"a\" granted\n\
            1 2 ask 0 \"a\" \"c\" held by 1\n\
            2 1 free 0 \"a\" \"a\" 1\n\
            3 2 ask 0 \"a\" \"c\" granted\n\
            4 2 ask 0 \"x\" \"x\" granted\n\
            5 2 free 0 \"a\" \"c\" 1\n\
            6 2 free 0 \"x\" \"x\" 1\n\
            txn 1 done\n\
            txn 2 done\n\
            end 7 0\n",
    ),
    (
        "an abort",
        HEADER,
        "1 lock 0 \"a\" \"a\"\n1 abort\n",
        "0 1 ask 0 \"a\" \"a\" granted\n1 1 free 0 \"a\" \"a\" 1\ntxn 1 aborted\nend 2 0\n",
    ),
    (
        "a cycle of three, and a retry that still waits",
        HEADER,
        "1 lock 0 \"a\" \"a\"\n\
            2 lock 0 \"b\" \"b\"\n\
            3 lock 0 \"c\" \"c\"\n\
            1 lock 0 \"b\" \"b\"\n\
            2 lock 0 \"c\" \"c\"\n\
            3 lock 0 \"a\" \"a\"\n",
        "0 1 ask 0 \"a\" \"a\" granted\n\
            1 2 ask 0 \"b\" \"b\" granted\n\
            2 3 ask 0 \"c\" \"c\" granted\n\
            3 1 ask 0 \"b\" \"b\" held by 2\n\
            4 2 ask 0 \"c\" \"c\" held by 3\n\
            5 3 ask 0 \"a\" \"a\" held by 1\n\
            6 3 who 0 \"b\" \"b\" 1 held by 2\n\
            7 3 who 0 \"c\" \"c\" 2 held by 3\n\
            8 3 free 0 \"c\" \"c\" 1\n\
            9 1 ask 0 \"b\" \"b\" held by 2\n\
            10 1 who 0 \"c\" \"c\" 2 held by none\n\
            11 2 ask 0 \"c\" \"c\" granted\n\
            12 2 free 0 \"b\" \"b\" 1\n\
            13 2 free 0 \"c\" \"c\" 1\n\
            14 1 ask 0 \"b\" \"b\" granted\n\
            15 1 free 0 \"a\" \"a\" 1\n\
            16 1 free 0 \"b\" \"b\" 1\n\
            txn 1 done\n\
            txn 2 done\n\
            txn 3 deadlock 3 1 2 3\n\
            end 17 0\n",
    ),
];

#[test]
fn waits_are_played(rt: HostRuntime) -> Result<(), Fail> {
    let alloc = rt.alloc();
    for (name, header, lines, text) in WAITS {
        let (status, written) = run_serial(&rt, alloc, header, lines)?;
        assert_eq!(rt; status, 0, "at {name}");
        assert_eq!(rt; written.as_slice(), text.as_bytes(), "at {name}");
    }
    Ok(())
}

/// The header of a table of two rows.
const TWO_ROWS: &str = "rangelock 1\ntrees 1\nlimit 2\nbuffer 0\n";

/// The header of a table of four rows, in the version that has big transactions.
const FOUR_ROWS: &str = "rangelock 2\ntrees 1\nlimit 4\nbuffer 0\n";

/// What is shown, the header, the lines of the body, and the transcript.
const JOINS: [(&str, &str, &str, &str); 6] = [
    (
        "a key is gained",
        HEADER,
        "1 try 0 \"a\" \"a\"\n\
            1 try 0 \"c\" \"c\"\n\
            1 try 0 \"e\" \"e\"\n\
            2 try 0 \"g\" \"g\"\n\
            1 escalate 0\n\
            3 try 0 \"d\" \"d\"\n",
        "0 1 ask 0 \"a\" \"a\" granted\n\
            1 1 ask 0 \"c\" \"c\" granted\n\
            2 1 ask 0 \"e\" \"e\" granted\n\
            3 2 ask 0 \"g\" \"g\" granted\n\
            4 1 join 0 4 2\n\
            5 3 ask 0 \"d\" \"d\" held by 1\n\
            6 1 free 0 \"a\" \"a\" 1\n\
            7 1 free 0 \"c\" \"c\" 0\n\
            8 1 free 0 \"e\" \"e\" 0\n\
            9 2 free 0 \"g\" \"g\" 1\n\
            txn 1 done\n\
            txn 2 done\n\
            txn 3 done\n\
            end 10 0\n",
    ),
    (
        "nothing is joined",
        HEADER,
        "1 try 0 \"a\" \"a\"\n1 try 0 \"e\" \"e\"\n2 try 0 \"c\" \"c\"\n1 escalate 0\n",
        "0 1 ask 0 \"a\" \"a\" granted\n\
            1 1 ask 0 \"e\" \"e\" granted\n\
            2 2 ask 0 \"c\" \"c\" granted\n\
            3 1 join 0 3 3\n\
            4 1 free 0 \"a\" \"a\" 1\n\
            5 1 free 0 \"e\" \"e\" 1\n\
            6 2 free 0 \"c\" \"c\" 1\n\
            txn 1 done\n\
            txn 2 done\n\
            end 7 0\n",
    ),
    (
        "the limit stands",
        TWO_ROWS,
        "1 lock 0 \"a\" \"a\"\n2 lock 0 \"c\" \"c\"\n3 lock 0 \"e\" \"e\"\n",
        "0 1 ask 0 \"a\" \"a\" granted\n\
            1 2 ask 0 \"c\" \"c\" granted\n\
            2 3 join 0 2 2\n\
            3 1 free 0 \"a\" \"a\" 1\n\
            4 2 free 0 \"c\" \"c\" 1\n\
            txn 1 done\n\
            txn 2 done\n\
            txn 3 outoflocks 3 2\n\
            end 5 0\n",
    ),
    (
        "a join makes room at the limit",
        TWO_ROWS,
        "1 lock 0 \"a\" \"a\"\n1 lock 0 \"b\" \"b\"\n1 lock 0 \"c\" \"c\"\n",
        "0 1 ask 0 \"a\" \"a\" granted\n\
            1 1 ask 0 \"b\" \"b\" granted\n\
            2 1 join 0 2 1\n\
            3 1 ask 0 \"c\" \"c\" granted\n\
            4 1 free 0 \"a\" \"a\" 1\n\
            5 1 free 0 \"b\" \"b\" 0\n\
            6 1 free 0 \"c\" \"c\" 1\n\
            txn 1 done\n\
            end 7 0\n",
    ),
    (
        "a big transaction has half the limit",
        FOUR_ROWS,
        "1 big\n1 lock 0 \"a\" \"a\"\n2 lock 0 \"c\" \"c\"\n1 lock 0 \"e\" \"e\"\n",
        "0 1 ask 0 \"a\" \"a\" granted\n\
            1 2 ask 0 \"c\" \"c\" granted\n\
            2 1 join 0 2 2\n\
            3 1 free 0 \"a\" \"a\" 1\n\
            4 2 free 0 \"c\" \"c\" 1\n\
            txn 1 outoflocks 3 2\n\
            txn 2 done\n\
            end 5 0\n",
    ),
    (
        "any other has all of it",
        FOUR_ROWS,
        "1 lock 0 \"a\" \"a\"\n2 lock 0 \"c\" \"c\"\n1 lock 0 \"e\" \"e\"\n",
        "0 1 ask 0 \"a\" \"a\" granted\n\
            1 2 ask 0 \"c\" \"c\" granted\n\
            2 1 ask 0 \"e\" \"e\" granted\n\
            3 1 free 0 \"a\" \"a\" 1\n\
            4 1 free 0 \"e\" \"e\" 1\n\
            5 2 free 0 \"c\" \"c\" 1\n\
            txn 1 done\n\
            txn 2 done\n\
            end 6 0\n",
    ),
];

#[test]
fn joins_are_played(rt: HostRuntime) -> Result<(), Fail> {
    let alloc = rt.alloc();
    for (name, header, lines, text) in JOINS {
        let (status, written) = run_serial(&rt, alloc, header, lines)?;
        assert_eq!(rt; status, 0, "at {name}");
        assert_eq!(rt; written.as_slice(), text.as_bytes(), "at {name}");
    }
    Ok(())
}

/// The header of a table with buffers of at most four ranges.
const BUFFERS_OF_FOUR: &str = "rangelock 1\ntrees 1\nlimit 64\nbuffer 4\n";

/// What is shown, the lines of the body, and the transcript.
const BUFFERS: [(&str, &str, &str); 3] = [
    (
        "a buffer at its maximum",
        "1 lock 0 \"a\" \"a\"\n\
            1 lock 0 \"b\" \"b\"\n\
            1 lock 0 \"c\" \"c\"\n\
            1 lock 0 \"d\" \"d\"\n\
            1 lock 0 \"e\" \"e\"\n",
        "0 1 ask 0 \"a\" \"a\" buffered\n\
            1 1 ask 0 \"b\" \"b\" buffered\n\
            2 1 ask 0 \"c\" \"c\" buffered\n\
            3 1 ask 0 \"d\" \"d\" buffered\n\
            4 1 ask 0 \"e\" \"e\" granted\n\
            5 1 free 0 \"a\" \"a\" 1\n\
            6 1 free 0 \"b\" \"b\" 1\n\
            7 1 free 0 \"c\" \"c\" 1\n\
            8 1 free 0 \"d\" \"d\" 1\n\
            9 1 free 0 \"e\" \"e\" 1\n\
            txn 1 done\n\
            end 10 0\n",
    ),
    (
        "a buffer ended by another",
        "1 try 0 \"a\" \"a\"\n2 try 0 \"a\" \"a\"\n1 end\n3 try 0 \"b\" \"b\"\n",
        "0 1 ask 0 \"a\" \"a\" buffered\n\
            1 2 ask 0 \"a\" \"a\" held by 1\n\
            2 1 free 0 - + 1\n\
            3 3 ask 0 \"b\" \"b\" granted\n\
            4 3 free 0 \"b\" \"b\" 1\n\
            txn 1 done\n\
            txn 2 done\n\
            txn 3 done\n\
            end 5 0\n",
    ),
    (
        "a buffer dropped whole",
        "1 lock 0 \"a\" \"a\"\n1 lock 0 \"c\" \"c\"\n1 end\n2 lock 0 \"z\" \"z\"\n",
        "0 1 ask 0 \"a\" \"a\" buffered\n\
            1 1 ask 0 \"c\" \"c\" buffered\n\
            2 1 free 0 - + 2\n\
            3 2 ask 0 \"z\" \"z\" buffered\n\
            4 2 free 0 - + 1\n\
            txn 1 done\n\
            txn 2 done\n\
            end 5 0\n",
    ),
];

#[test]
fn buffers_are_played(rt: HostRuntime) -> Result<(), Fail> {
    let alloc = rt.alloc();
    for (name, lines, text) in BUFFERS {
        let (status, written) = run_serial(&rt, alloc, BUFFERS_OF_FOUR, lines)?;
        assert_eq!(rt; status, 0, "at {name}");
        assert_eq!(rt; written.as_slice(), text.as_bytes(), "at {name}");
    }
    Ok(())
}

/// The lines that end a buffer, and a hundred transactions that each ask and end.
fn lines_of_a_hundred(alloc: Global) -> Result<String, AllocError> {
    let mut lines = String::from_str(alloc, "1 try 0 \"a\" \"a\"\n2 try 0 \"a\" \"a\"\n1 end\n")?;
    for txn in 3..=102u64 {
        let own = format!(in alloc; "{txn} lock 0 \"b\" \"b\"\n{txn} end\n")?;
        lines.push_str(own.as_str())?;
    }
    Ok(lines)
}

/// The first release and 99 more raise the score to 100, so that the last ask begins a buffer again.
fn text_of_a_hundred(alloc: Global) -> Result<String, AllocError> {
    let mut text = String::from_str(
        alloc,
        "0 1 ask 0 \"a\" \"a\" buffered\n\
            1 2 ask 0 \"a\" \"a\" held by 1\n\
            2 1 free 0 - + 1\n",
    )?;
    for txn in 3..=101u64 {
        let (ask, free) = (2 * txn - 3, 2 * txn - 2);
        let own = format!(in alloc;
            "{ask} {txn} ask 0 \"b\" \"b\" granted\n{free} {txn} free 0 \"b\" \"b\" 1\n"
        )?;
        text.push_str(own.as_str())?;
    }
    text.push_str("201 102 ask 0 \"b\" \"b\" buffered\n202 102 free 0 - + 1\n")?;
    for txn in 1..=102u64 {
        let done = format!(in alloc; "txn {txn} done\n")?;
        text.push_str(done.as_str())?;
    }
    text.push_str("end 203 0\n")?;
    Ok(text)
}

#[test]
fn a_hundred_releases_let_a_buffer_begin(rt: HostRuntime) -> Result<(), Fail> {
    let alloc = rt.alloc();
    let lines = lines_of_a_hundred(alloc)?;
    let text = text_of_a_hundred(alloc)?;
    let (status, written) = run_serial(&rt, alloc, BUFFERS_OF_FOUR, lines.as_str())?;
    assert_eq!(rt; status, 0);
    assert_eq!(rt; written.as_slice(), text.as_bytes());
    Ok(())
}

/// A trace of seven pieces of at most 16 bytes, whose end is the eighth call, and a text of 34 pieces of at most 8 bytes.
#[test]
fn each_end_may_fail_at_a_deadlock(rt: HostRuntime) -> Result<(), Fail> {
    let alloc = rt.alloc();
    let input = format!(in alloc; "{HEADER}{DEADLOCK_LINES}")?;
    let text = DEADLOCK_TEXT.as_bytes();
    assert_eq!(rt; (input.len(), text.len()), (106, 267));
    for call in 0..8u64 {
        let (status, written) = run_failing(
            &rt,
            alloc,
            &["serial"],
            input.as_str(),
            Some(call),
            None,
        )?;
        assert_eq!(rt; status, 4, "at {call}");
        assert_eq!(rt; written.len(), 0, "at {call}");
    }
    for call in 0..34usize {
        let put = Some(call as u64);
        let (status, written) = run_failing(&rt, alloc, &["serial"], input.as_str(), None, put)?;
        assert_eq!(rt; status, 5, "at {call}");
        assert_eq!(rt; written.as_slice(), &text[..8 * call], "at {call}");
    }
    let (status, written) = run_failing(
        &rt,
        alloc,
        &["serial"],
        input.as_str(),
        Some(8),
        Some(34),
    )?;
    assert_eq!(rt; status, 0);
    assert_eq!(rt; written.as_slice(), text);
    Ok(())
}

/// The status and what was written on these bytes.
fn run_on<R: Threads + Wait + Sync>(
    rt: &R,
    alloc: Global,
    input: &[u8],
) -> Result<(u8, Vec<u8>), AllocError> {
    let mut words = Vec::new(alloc);
    words.push(String::from_str(alloc, "serial")?)?;
    let mut source = MemSource::new(input.to_vec(alloc)?, 16, Vec::new(alloc));
    let mut sink = MemSink::new(alloc, 4096, 64, Vec::new(alloc))?;
    let barrier = Box::new(alloc, MarkBarrier::new(alloc))?;
    let status = run(
        rt,
        alloc,
        words.as_slice(),
        &mut source,
        &mut sink,
        &mut NoWatches,
        &OpenGate,
        barrier,
    );
    Ok((status, sink.bytes().to_vec(alloc)?))
}

/// The number of the line that the front of a text is cut in, or that is missing behind it.
fn line_behind(front: &[u8]) -> u64 {
    let mut line = 1u64;
    for byte in front {
        if *byte == b'\n' {
            line = line.saturating_add(1);
        }
    }
    line
}

/// A front that ends with a line is played once the header is whole, and lacks a header line before; any other lacks
/// the end of its last line.
#[test]
fn each_front_of_a_trace_has_its_answer(rt: HostRuntime) -> Result<(), Fail> {
    let alloc = rt.alloc();
    let input = format!(in alloc; "{HEADER}{DEADLOCK_LINES}")?;
    for len in 0..=input.len() {
        let front = &input.as_bytes()[..len];
        let line = line_behind(front);
        let (status, written) = run_on(&rt, alloc, front)?;
        if !front.is_empty() && !front.ends_with(b"\n") {
            let refusal = format!(in alloc; "refused {line} 10 no final newline\n")?;
            assert_eq!(rt; status, 3, "at {len}");
            assert_eq!(rt; written.as_slice(), refusal.as_bytes(), "at {len}");
        } else if line < 5 {
            let refusal = format!(in alloc; "refused {line} 1 bad header\n")?;
            assert_eq!(rt; status, 3, "at {len}");
            assert_eq!(rt; written.as_slice(), refusal.as_bytes(), "at {len}");
        } else {
            assert_eq!(rt; status, 0, "at {len}");
            assert!(rt; written.ends_with(b" 0\n"), "at {len}");
        }
    }
    Ok(())
}
