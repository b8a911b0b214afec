//! Worked scripts: what is read, and what is refused.
use crate::read;
use lt_ranges::{Key, KeyRange};
use lt_store::{Move, Op};
use lt_trace::TraceFault;
use lt_trace::TraceFault::{
    AfterEnd, Backwards, BadHeader, BadLine, KeyTooLong, LineTooLong, NoFinalNewline, TooManyTxns,
};
use std::alloc::{AllocError, Global};
use std::test::Fail;

const HEADER: &[u8] = b"rangestore 1\nlimit 64\n";

fn behind(alloc: Global, body: &[u8]) -> Result<Vec<u8>, AllocError> {
    let mut text = Vec::from_slice(alloc, HEADER)?;
    text.extend_from_slice(body)?;
    Ok(text)
}

fn fault(alloc: Global, text: &[u8]) -> Option<TraceFault> {
    read(alloc, text).err()
}

#[test]
fn each_form_is_read(rt: HostRuntime) -> Result<(), Fail> {
    let text = behind(
        rt.alloc(),
        b"7 put \"a b\" 0\n7 get \"\"\n8 scan - +\n8 scan \"a\" \"\\xff\"\n7 put \"a\" 999999999\n7 commit\n8 abort\n",
    )?;
    let key = |bytes: &[u8]| Key::new(bytes).or(Err("a key of so few bytes"));
    let all = KeyRange::whole();
    let some = KeyRange::new(key(b"a")?, key(b"\xff")?).or(Err("keys in order"))?;
    let expected = [
        (
            7,
            Op::Put {
                key: key(b"a b")?,
                value: 0,
            },
        ),
        (7, Op::Get { key: key(b"")? }),
        (8, Op::Scan { range: all }),
        (8, Op::Scan { range: some }),
        (
            7,
            Op::Put {
                key: key(b"a")?,
                value: 999_999_999,
            },
        ),
        (7, Op::Commit),
        (8, Op::Abort),
    ];
    let script = read(rt.alloc(), &text)?;
    assert_eq!(rt; script.limit(), 64);
    assert_eq!(rt; script.moves().len(), expected.len());
    for (found, (txn, op)) in script.moves().iter().zip(expected) {
        assert_eq!(rt; *found, Move { txn, op });
    }
    Ok(())
}

#[test]
fn faults_of_headers(rt: HostRuntime) {
    let rows = [
        (b"".as_slice(), BadHeader { line: 1 }),
        (b"rangelock 1\nlimit 64\n", BadHeader { line: 1 }),
        (b"rangestore 2\nlimit 64\n", BadHeader { line: 1 }),
        (b"rangestore 1", NoFinalNewline { line: 1 }),
        (b"rangestore 1\n", BadHeader { line: 2 }),
        (b"rangestore 1\nlimit 0\n", BadHeader { line: 2 }),
        (b"rangestore 1\nlimit 65537\n", BadHeader { line: 2 }),
        (b"rangestore 1\nlimit 64 \n", BadHeader { line: 2 }),
        (b"rangestore 1\nlimit 64", NoFinalNewline { line: 2 }),
    ];
    for (text, expected) in rows {
        assert_eq!(rt; fault(rt.alloc(), text), Some(expected), "{text:?}");
    }
    assert!(rt; read(rt.alloc(), HEADER).is_ok());
    assert!(rt; read(rt.alloc(), b"rangestore 1\nlimit 65536\n").is_ok());
}

#[test]
fn faults_of_body_lines(rt: HostRuntime) -> Result<(), Fail> {
    let rows = [
        (b"\n".as_slice(), BadLine { line: 3 }),
        (b"0 commit\n", BadLine { line: 3 }),
        (b"1000000000 commit\n", BadLine { line: 3 }),
        (b"1  commit\n", BadLine { line: 3 }),
        (b"1 commits\n", BadLine { line: 3 }),
        (b"1 end\n", BadLine { line: 3 }),
        (b"1 scan 0 - +\n", BadLine { line: 3 }),
        (b"1 scan \"b\" \"a\"\n", Backwards { line: 3 }),
        (b"1 scan + -\n", Backwards { line: 3 }),
        (b"1 commit\n1 get \"a\"\n", AfterEnd { line: 4 }),
        (b"1 abort\n1 commit\n", AfterEnd { line: 4 }),
        (b"1 commit\n1 scan \"b\" \"a\"\n", Backwards { line: 4 }),
        (b"1 commit\n2 get -\n1 commit\n", BadLine { line: 4 }),
        (b"1 commit", NoFinalNewline { line: 3 }),
        (b"1 commit\n1 commit", NoFinalNewline { line: 4 }),
    ];
    for (body, expected) in rows {
        let text = behind(rt.alloc(), body)?;
        assert_eq!(rt; fault(rt.alloc(), &text), Some(expected), "{body:?}");
    }
    Ok(())
}

/// A get and a put want a key in quotation marks, and a scan no prefix endpoints.
#[test]
fn keys_and_values_are_of_their_forms(rt: HostRuntime) -> Result<(), Fail> {
    let rows: [&[u8]; 14] = [
        b"1 get -\n",
        b"1 get +\n",
        b"1 get a\n",
        b"1 get \"a\"*\n",
        b"1 get \"a\" \n",
        b"1 get\n",
        b"1 put - 1\n",
        b"1 put \"a\"\n",
        b"1 put \"a\" \n",
        b"1 put \"a\" 01\n",
        b"1 put \"a\" 1000000000\n",
        b"1 put \"a\"* 1\n",
        b"1 scan \"a\" \"a\"*\n",
        b"1 scan \"a\"* +\n",
    ];
    for body in rows {
        let text = behind(rt.alloc(), body)?;
        assert_eq!(rt;
            fault(rt.alloc(), &text),
            Some(BadLine { line: 3 }),
            "{body:?}"
        );
    }
    Ok(())
}

#[test]
fn long_keys_are_refused(rt: HostRuntime) -> Result<(), Fail> {
    const LONG: &[u8] = b"\"aaaaaaaaaaaaaaaaaaaaaaaaaaaaaaaaaaaaaaaaaaaaaaaaaaaaaaaaaaaaaaaa\"";
    let rows: [(&[u8], &[u8]); 4] = [
        (b"1 get ", b"\n"),
        (b"1 put ", b" 1\n"),
        (b"1 scan ", b" -\n"),
        (b"1 commit\n1 scan - ", b"\n"),
    ];
    for ((front, back), line) in rows.iter().zip([3, 3, 3, 4]) {
        let mut text = behind(rt.alloc(), front)?;
        text.extend_from_slice(LONG)?;
        text.extend_from_slice(back)?;
        assert_eq!(rt; fault(rt.alloc(), &text), Some(KeyTooLong { line }));
    }
    Ok(())
}

#[test]
fn limits_are_met(rt: HostRuntime) -> Result<(), Fail> {
    let mut text = behind(rt.alloc(), &[b'x'; 600])?;
    assert_eq!(rt; fault(rt.alloc(), &text), Some(NoFinalNewline { line: 3 }));
    text.push(b'x')?;
    assert_eq!(rt; fault(rt.alloc(), &text), Some(LineTooLong { line: 3 }));

    let mut many = behind(rt.alloc(), b"")?;
    for txn in 1..=1_024u64 {
        let line = format!(in rt.alloc(); "{txn} commit\n")?;
        many.extend_from_slice(line.as_bytes())?;
    }
    assert_eq!(rt; read(rt.alloc(), &many)?.moves().len(), 1_024);
    many.extend_from_slice(b"1025 commit\n")?;
    assert_eq!(rt; fault(rt.alloc(), &many), Some(TooManyTxns { line: 1_027 }));
    Ok(())
}
