//! Scripts that are played over the plain table.
use crate::{read, run_script};
use lt_seq::SeqYard;
use std::alloc::Global;
use std::test::Fail;

/// What is written of a script.
fn written(alloc: Global, script: &[u8]) -> Result<Vec<u8>, Fail> {
    let script = read(alloc, script)?;
    Ok(run_script::<SeqYard>(alloc, &script)?)
}

#[test]
fn what_others_hold_is_refused_and_an_abort_undoes(rt: HostRuntime) -> Result<(), Fail> {
    let script =
        b"rangestore 1\nlimit 64\n1 put \"a\" 5\n2 get \"a\"\n1 commit\n2 get \"a\"\n2 put \"a\" 6\n2 abort\n";
    let text = written(rt.alloc(), script)?;
    assert_eq!(rt;
        text.as_slice(),
        b"1 put \"a\" ok\n2 held by 1\n1 commit\n2 get \"a\" 5\n2 put \"a\" ok\n2 abort\nmap \"a\" 5\nend 1\n".as_slice()
    );
    Ok(())
}

#[test]
fn no_key_comes_into_a_range_that_was_read(rt: HostRuntime) -> Result<(), Fail> {
    let script =
        b"rangestore 1\nlimit 64\n1 scan \"a\" \"c\"\n2 put \"b\" 1\n1 commit\n2 put \"b\" 1\n2 commit\n";
    let text = written(rt.alloc(), script)?;
    assert_eq!(rt;
        text.as_slice(),
        b"1 scan \"a\" \"c\" none\n2 held by 1\n1 commit\n2 put \"b\" ok\n2 commit\nmap \"b\" 1\nend 2\n".as_slice()
    );
    Ok(())
}

#[test]
fn one_that_is_out_of_locks_is_gone(rt: HostRuntime) -> Result<(), Fail> {
    let script = b"rangestore 1\nlimit 1\n1 put \"a\" 1\n2 get \"b\"\n2 get \"a\"\n1 commit\n";
    let text = written(rt.alloc(), script)?;
    assert_eq!(rt;
        text.as_slice(),
        b"1 put \"a\" ok\n2 outoflocks\n2 gone\n1 commit\nmap \"a\" 1\nend 1\n".as_slice()
    );
    Ok(())
}
