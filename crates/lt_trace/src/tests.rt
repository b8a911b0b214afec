//! Worked traces: what is read and written, what is refused, and what is made of a seed.
use crate::TraceFault::{
    AfterEnd, Backwards, BadHeader, BadLine, KeyTooLong, LineTooLong, NoFinalNewline, TooManyLines,
    TooManyTxns, TreeOutOfRange,
};
use crate::{LineDeed, MOST_DRAWN_LINES, TraceFault, make, number, read, write};
use lt_ranges::{Key, KeyRange};
use std::alloc::{AllocError, Global};
use std::test::Fail;

const HEADER: &[u8] = b"rangelock 1\ntrees 2\nlimit 64\nbuffer 0\n";

const LATER_HEADER: &[u8] = b"rangelock 2\ntrees 2\nlimit 64\nbuffer 0\n";

fn behind(alloc: Global, header: &[u8], body: &[u8]) -> Result<Vec<u8>, AllocError> {
    let mut text = Vec::from_slice(alloc, header)?;
    text.extend_from_slice(body)?;
    Ok(text)
}

fn fault(alloc: Global, text: &[u8]) -> Option<TraceFault> {
    read(alloc, text).err()
}

#[test]
fn faults_of_body_lines(rt: HostRuntime) -> Result<(), Fail> {
    let rows = [
        (b"1 steal 0\n".as_slice(), BadLine { line: 5 }),
        (b"\n", BadLine { line: 5 }),
        (b"0 end\n", BadLine { line: 5 }),
        (b"01 end\n", BadLine { line: 5 }),
        (b"1000000000 end\n", BadLine { line: 5 }),
        (b"1  end\n", BadLine { line: 5 }),
        (b"1 end \n", BadLine { line: 5 }),
        (b"1 end\r\n", BadLine { line: 5 }),
        (b"1 try 1234567890 - +\n", BadLine { line: 5 }),
        (b"1 try 0 - + \n", BadLine { line: 5 }),
        (b"1 try 0 \"a\" \"\\x62\"\n", BadLine { line: 5 }),
        (b"1 try 0 \"b\" \"b\"*\n", BadLine { line: 5 }),
        (b"1 try 2 \"b\" \"a\"\n", TreeOutOfRange { line: 5 }),
        (b"1 try 0 \"b\" \"a\"\n", Backwards { line: 5 }),
        (b"1 try 0 + -\n", Backwards { line: 5 }),
        (b"1 end\n1 end\n", AfterEnd { line: 6 }),
        (
            b"1 end\n2 end\n1 try 1 \"b\" \"a\"\n",
            Backwards { line: 7 },
        ),
        (b"1 end\n2 steal\n3 try 9 - +\n", BadLine { line: 6 }),
        (b"1 end", NoFinalNewline { line: 5 }),
        (b"1 end\n1 steal", NoFinalNewline { line: 6 }),
    ];
    for (body, expected) in rows {
        let text = behind(rt.alloc(), HEADER, body)?;
        assert_eq!(rt; fault(rt.alloc(), &text), Some(expected), "{body:?}");
    }
    Ok(())
}

#[test]
fn faults_of_each_form(rt: HostRuntime) -> Result<(), Fail> {
    let rows = [
        (b"1 lock 0 -\n".as_slice(), BadLine { line: 5 }),
        (b"1 lock 1234567890 - +\n", BadLine { line: 5 }),
        (b"1 lock 00 - +\n", BadLine { line: 5 }),
        (b"1 lock 2 \"b\" \"a\"\n", TreeOutOfRange { line: 5 }),
        (b"1 lock 0 \"b\" \"a\"\n", Backwards { line: 5 }),
        (b"1 escalate\n", BadLine { line: 5 }),
        (b"1 escalate \n", BadLine { line: 5 }),
        (b"1 escalate 01\n", BadLine { line: 5 }),
        (b"1 escalate 1 \n", BadLine { line: 5 }),
        (b"1 escalate 0 - +\n", BadLine { line: 5 }),
        (b"1 escalate 1234567890\n", BadLine { line: 5 }),
        (b"1 escalate 999999999\n", TreeOutOfRange { line: 5 }),
        (b"1 escalate 2\n", TreeOutOfRange { line: 5 }),
        (b"1 abort 0\n", BadLine { line: 5 }),
        (b"1 abort\n1 end\n", AfterEnd { line: 6 }),
        (b"1 end\n1 abort\n", AfterEnd { line: 6 }),
        (b"1 abort\n1 lock 0 - +\n", AfterEnd { line: 6 }),
        (b"1 abort\n1 escalate 2\n", TreeOutOfRange { line: 6 }),
        (b"1 abort\n1 escalate 1\n", AfterEnd { line: 6 }),
        (b"1 abort\n1 lock 0 + -\n", Backwards { line: 6 }),
    ];
    for (body, expected) in rows {
        let text = behind(rt.alloc(), HEADER, body)?;
        assert_eq!(rt; fault(rt.alloc(), &text), Some(expected), "{body:?}");
    }
    Ok(())
}

/// In the second version, so that a `big` line is one.
#[test]
fn words_that_begin_like_others_are_none(rt: HostRuntime) -> Result<(), Fail> {
    let rows: [&[u8]; 16] = [
        b"1 e\n",
        b"1 en\n",
        b"1 ends\n",
        b"1 ende\n",
        b"1 End\n",
        b"1 abor\n",
        b"1 aborts\n",
        b"1 bi\n",
        b"1 bigger\n",
        b"1 big 1\n",
        b"1 escalat 0\n",
        b"1 escalates 0\n",
        b"1 try\n",
        b"1 tryst 0 - +\n",
        b"1 locks 0 - +\n",
        b"1 lock0 - +\n",
    ];
    for body in rows {
        let text = behind(rt.alloc(), LATER_HEADER, body)?;
        assert_eq!(rt;
            fault(rt.alloc(), &text),
            Some(BadLine { line: 5 }),
            "{body:?}"
        );
    }
    Ok(())
}

#[test]
fn each_form_is_read(rt: HostRuntime) -> Result<(), Fail> {
    let text = behind(
        rt.alloc(),
        LATER_HEADER,
        b"3 try 0 - +\n3 lock 1 - +\n3 escalate 1\n3 big\n3 end\n4 abort\n",
    )?;
    let range = KeyRange::whole();
    let deeds = [
        LineDeed::Try { tree: 0, range },
        LineDeed::Lock { tree: 1, range },
        LineDeed::Escalate { tree: 1 },
        LineDeed::Big,
        LineDeed::End,
        LineDeed::Abort,
    ];
    let trace = read(rt.alloc(), &text)?;
    assert_eq!(rt; trace.lines().len(), deeds.len());
    for (line, deed) in trace.lines().iter().zip(deeds) {
        assert_eq!(rt; line.deed, deed);
    }
    Ok(())
}

#[test]
fn faults_of_headers(rt: HostRuntime) {
    let rows = [
        (b"".as_slice(), BadHeader { line: 1 }),
        (b"rangelock 3\n", BadHeader { line: 1 }),
        (b"rangelock 01\n", BadHeader { line: 1 }),
        (b"rangelock 1 \n", BadHeader { line: 1 }),
        (b"rangelock 1", NoFinalNewline { line: 1 }),
        (b"rangelock 1\n", BadHeader { line: 2 }),
        (b"rangelock 1\ntrees 0\n", BadHeader { line: 2 }),
        (b"rangelock 1\ntrees 17\n", BadHeader { line: 2 }),
        (b"rangelock 1\ntrees 1\nlimit 0\n", BadHeader { line: 3 }),
        (
            b"rangelock 1\ntrees 1\nlimit 65537\n",
            BadHeader { line: 3 },
        ),
        (
            b"rangelock 1\ntrees 1\nlimit 64\nbuffer 65537\n",
            BadHeader { line: 4 },
        ),
        (
            b"rangelock 1\ntrees 1\nlimit 64\nbuffer 00\n",
            BadHeader { line: 4 },
        ),
        (
            b"rangelock 1\ntrees 1\nlimit 64\n1 end\n",
            BadHeader { line: 4 },
        ),
    ];
    for (text, expected) in rows {
        assert_eq!(rt; fault(rt.alloc(), text), Some(expected), "{text:?}");
    }
    assert!(rt; read(rt.alloc(), HEADER).is_ok());
}

#[test]
fn faults_in_both_versions(rt: HostRuntime) -> Result<(), Fail> {
    const LONG: &[u8] =
        b"1 try 0 \"aaaaaaaaaaaaaaaaaaaaaaaaaaaaaaaaaaaaaaaaaaaaaaaaaaaaaaaaaaaaaaaa\" -\n";
    const LONG_LOCK: &[u8] =
        b"1 lock 0 - \"aaaaaaaaaaaaaaaaaaaaaaaaaaaaaaaaaaaaaaaaaaaaaaaaaaaaaaaaaaaaaaaa\"\n";
    const LONG_END: &[u8] =
        b"1 try 0 \"aaaaaaaaaaaaaaaaaaaaaaaaaaaaaaaaaaaaaaaaaaaaaaaaaaaaaaaaaaaaaaaa\"* -\n";
    let rows = [
        (HEADER, LONG, KeyTooLong { line: 5 }),
        (HEADER, LONG_END, BadLine { line: 5 }),
        (LATER_HEADER, LONG_END, KeyTooLong { line: 5 }),
        (HEADER, b"1 try 0 \"b\"* \"b\"\n", BadLine { line: 5 }),
        (
            LATER_HEADER,
            b"1 try 0 \"b\"* \"b\"\n",
            Backwards { line: 5 },
        ),
        (HEADER, LONG_LOCK, KeyTooLong { line: 5 }),
        (HEADER, b"1 lock 0 \"b\" \"b\"*\n", BadLine { line: 5 }),
        (
            LATER_HEADER,
            b"1 lock 0 \"b\"* \"b\"\n",
            Backwards { line: 5 },
        ),
        (HEADER, b"1 big\n", BadLine { line: 5 }),
        (LATER_HEADER, b"1 big\n1 end\n1 big\n", AfterEnd { line: 7 }),
    ];
    for (header, body, expected) in rows {
        let text = behind(rt.alloc(), header, body)?;
        assert_eq!(rt; fault(rt.alloc(), &text), Some(expected), "{body:?}");
    }
    Ok(())
}

#[test]
fn what_is_read_is_written_again(rt: HostRuntime) -> Result<(), Fail> {
    let mut text = behind(
        rt.alloc(),
        LATER_HEADER,
        b"7 try 1 - +\n7 try 0 \"a b\" \"\"*\n8 big\n8 lock 1 \"\" \"\"*\n8 escalate 0\n8 abort\n",
    )?;
    for byte in 0..=255u8 {
        let key = Key::new(&[byte; 63]).or(Err("a key of 63 bytes"))?.text();
        text.extend_from_slice(b"999999999 try 1 ")?;
        text.extend_from_slice(key.as_slice())?;
        text.extend_from_slice(b" ")?;
        text.extend_from_slice(key.as_slice())?;
        text.extend_from_slice(b"*\n")?;
    }
    text.extend_from_slice(b"7 end\n")?;
    let trace = read(rt.alloc(), &text)?;
    assert_eq!(rt; trace.lines().len(), 263);
    assert_eq!(rt; (trace.version(), trace.trees()), (2, 2));
    assert_eq!(rt; (trace.limit(), trace.buffer()), (64, 0));
    let written = write(rt.alloc(), &trace)?;
    assert!(rt; written.as_slice() == text.as_slice());
    Ok(())
}

#[test]
fn a_text_of_version_1_is_written_again(rt: HostRuntime) -> Result<(), Fail> {
    let text =
        b"rangelock 1\ntrees 16\nlimit 65536\nbuffer 65536\n1 try 15 - \"a\\x00\"\n30 lock 0 \"b c\" +\n30 escalate 15\n30 abort\n1 end\n";
    let trace = read(rt.alloc(), text)?;
    assert_eq!(rt; (trace.limit(), trace.buffer()), (65_536, 65_536));
    let written = write(rt.alloc(), &trace)?;
    assert_eq!(rt; written.as_slice(), text.as_slice());
    Ok(())
}

#[test]
fn limits_are_met(rt: HostRuntime) -> Result<(), Fail> {
    let mut text = behind(rt.alloc(), HEADER, &[b'x'; 600])?;
    assert_eq!(rt; fault(rt.alloc(), &text), Some(NoFinalNewline { line: 5 }));
    text.push(b'x')?;
    assert_eq!(rt; fault(rt.alloc(), &text), Some(LineTooLong { line: 5 }));

    let mut many = behind(rt.alloc(), HEADER, b"")?;
    for txn in 1..=1_024u64 {
        let line = format!(in rt.alloc(); "{txn} try 0 - +\n")?;
        many.extend_from_slice(line.as_bytes())?;
    }
    assert_eq!(rt; read(rt.alloc(), &many)?.lines().len(), 1_024);
    many.extend_from_slice(b"1025 lock 0 - +\n")?;
    assert_eq!(rt; fault(rt.alloc(), &many), Some(TooManyTxns { line: 1_029 }));

    let mut long = behind(rt.alloc(), HEADER, b"")?;
    for _ in 0..65_536u32 {
        long.extend_from_slice(b"1 try 0 \"a\" \"b\"\n")?;
    }
    assert_eq!(rt; read(rt.alloc(), &long)?.lines().len(), 65_536);
    long.extend_from_slice(b"1 end\n")?;
    assert_eq!(rt;
        fault(rt.alloc(), &long),
        Some(TooManyLines { line: 65_541 })
    );
    Ok(())
}

#[test]
fn numbers_are_read(rt: HostRuntime) {
    assert_eq!(rt; number(b"04", 0, 9), None);
    assert_eq!(rt; number(b"4", 1, 16), Some(4));
    assert_eq!(rt; number(b"17", 1, 16), None);
    assert_eq!(rt; number(b"0", 0, 9), Some(0));
    assert_eq!(rt; number(b"+4", 0, 9), None);
    assert_eq!(rt; number(b"", 0, 9), None);
}

#[test]
fn one_line_of_the_seed_0(rt: HostRuntime) -> Result<(), Fail> {
    let trace = make(rt.alloc(), 0, 1, 1)?;
    let text = write(rt.alloc(), &trace)?;
    let expected =
        b"rangelock 1\ntrees 2\nlimit 4096\nbuffer 512\n1 try 1 \"06987\" \"06987\"\n1 end\n";
    assert_eq!(rt; text.as_slice(), expected.as_slice());
    Ok(())
}

#[test]
fn made_traces_are_read_again(rt: HostRuntime) -> Result<(), Fail> {
    for (seed, txns, lines) in [(7, 40, 1_000), (u64::MAX, 1_024, MOST_DRAWN_LINES)] {
        let made = make(rt.alloc(), seed, txns, lines)?;
        let text = write(rt.alloc(), &made)?;
        let trace = read(rt.alloc(), &text)?;
        assert_eq!(rt; trace.lines().len(), lines as usize + txns as usize);
        assert!(rt; trace.lines() == made.lines());
    }
    Ok(())
}
