//! What the plain scheduler plays over the plain table and over the one that threads share.
ghost use Rattle.std.specs.Prelude.{◌≤◌};

use crate::tests::HEADER;
use lt_history::print;
use lt_manager::Manager;
use lt_runner::run_serial;
use lt_seq::{SeqYard, Yard};
use lt_trace::read;
use lt_watch::NoWatches;
use std::alloc::Global;
use std::test::Fail;

/// The transcript of a trace that is played over one kind of table.
fn transcript<Y: Yard>(alloc: Global, input: &[u8]) -> Result<Vec<u8>, Fail>
    requires { 1 ≤ Y.MOST_PASSES }
{
    let trace = read(alloc, input)?;
    let run = run_serial::<Y, NoWatches>(alloc, &trace, 0, &mut NoWatches)?;
    Ok(print(alloc, &run.receipts, &run.outcomes, run.places, run.used)?)
}

/// Two transactions of which one waits behind a join, and then both for each other, and the transcript.
const LINES: &str = "1 lock 0 \"a\" \"a\"\n\
    1 lock 0 \"c\" \"c\"\n\
    2 lock 0 \"f\" \"f\"\n\
    1 escalate 0\n\
    2 lock 0 \"b\" \"b\"\n\
    1 lock 0 \"f\" \"f\"\n";

const TEXT: &str = "0 1 ask 0 \"a\" \"a\" granted\n\
    1 1 ask 0 \"c\" \"c\" granted\n\
    2 2 ask 0 \"f\" \"f\" granted\n\
    3 1 join 0 3 2\n\
    4 2 ask 0 \"b\" \"b\" held by 1\n\
    5 1 ask 0 \"f\" \"f\" held by 2\n\
    6 1 who 0 \"b\" \"b\" 2 held by 1\n\
    7 1 free 0 \"a\" \"a\" 1\n\
    8 1 free 0 \"c\" \"c\" 0\n\
    9 2 ask 0 \"b\" \"b\" granted\n\
    10 2 free 0 \"f\" \"f\" 1\n\
    11 2 free 0 \"b\" \"b\" 1\n\
    txn 1 deadlock 1 2 1\n\
    txn 2 done\n\
    end 12 0\n";

#[test]
fn both_tables_have_one_transcript(rt: HostRuntime) -> Result<(), Fail> {
    let alloc = rt.alloc();
    let input = format!(in alloc; "{HEADER}{LINES}")?;
    let plain = transcript::<SeqYard>(alloc, input.as_bytes())?;
    let shared = transcript::<Manager>(alloc, input.as_bytes())?;
    assert_eq!(rt; plain.as_slice(), shared.as_slice());
    assert_eq!(rt; plain.as_slice(), TEXT.as_bytes());
    Ok(())
}
