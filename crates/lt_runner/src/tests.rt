//! Traces played over the plain table.
ghost use Rattle.std.specs.Prelude.{◌≤◌, ◌^◌};

use crate::{Moved, Turn, run_serial};
use lt_history::print;
use lt_ranges::KeyRange;
use lt_seq::{SeqYard, Yard, YardPlan};
use lt_trace::LineDeed;
use lt_watch::Watchers;
use std::alloc::Global;
use std::test::Fail;

/// The transcript of a trace's run.
fn transcript(alloc: Global, trace: &[u8], first: u64) -> Result<Vec<u8>, Fail>
    requires { first ≤ 2 ^ 38 }
{
    let trace = lt_trace::read(alloc, trace)?;
    let run = run_serial::<SeqYard, Watchers>(alloc, &trace, first, &mut Watchers::new(alloc))?;
    Ok(print(alloc, &run.receipts, &run.outcomes, run.places, run.used)?)
}

#[test]
fn a_shared_endpoint_is_refused_and_what_is_open_is_ended(rt: HostRuntime) -> Result<(), Fail> {
    let trace =
        b"rangelock 1\ntrees 1\nlimit 64\nbuffer 0\n1 try 0 \"a\" \"c\"\n2 try 0 \"c\" \"e\"\n";
    let text = transcript(rt.alloc(), trace, 0)?;
    assert_eq!(rt;
        text.as_slice(),
        b"0 1 ask 0 \"a\" \"c\" granted\n1 2 ask 0 \"c\" \"e\" held by 1\n2 1 free 0 \"a\" \"c\" 1\ntxn 1 done\ntxn 2 done\nend 3 0\n".as_slice()
    );
    Ok(())
}

#[test]
fn lines_behind_an_out_of_locks_are_dropped(rt: HostRuntime) -> Result<(), Fail> {
    let trace =
        b"rangelock 1\ntrees 1\nlimit 1\nbuffer 0\n2 try 0 \"a\" \"c\"\n2 try 0 \"e\" \"g\"\n2 try 0 \"a\" \"c\"\n2 end\n1 end\n";
    let text = transcript(rt.alloc(), trace, 7)?;
    assert_eq!(rt;
        text.as_slice(),
        b"7 2 ask 0 \"a\" \"c\" granted\n8 2 join 0 1 1\n9 2 free 0 \"a\" \"c\" 1\ntxn 1 done\ntxn 2 outoflocks 9 1\nend 3 0\n".as_slice()
    );
    Ok(())
}

#[test]
fn a_turn_plays_its_lines_and_then_its_release(rt: HostRuntime) -> Result<(), Fail> {
    let alloc = rt.alloc();
    let plan = YardPlan {
        trees: 1,
        limit: 64,
        buffer: 0,
        passes: 1,
        first: 0,
    };
    let (yard, mut passes) = SeqYard::build(alloc, &plan)?;
    let pass = &mut passes[0];
    let mut turn = Turn::without_lines(alloc, 1, 1)?;
    let range = KeyRange::whole();
    turn.add_line(5, LineDeed::Try { tree: 0, range })?;
    turn.add_line(6, LineDeed::End)?;
    let tried = turn.play(&yard, pass)?;
    assert_eq!(rt; tried, Moved::Played);
    assert_eq!(rt; turn.lines_left(), 1);
    let ended = turn.play(&yard, pass)?;
    assert_eq!(rt; ended, Moved::Played);
    assert!(rt; turn.has_ended());
    let released = turn.play(&yard, pass)?;
    assert_eq!(rt; released, Moved::Ended);
    assert_eq!(rt; yard.look(pass).used, 0);
    Ok(())
}
