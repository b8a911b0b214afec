//! Tables whose joins stop at marks.
ghost use Rattle.std.specs.Prelude.{◌≡◌};
ghost use Rattle.lt_seq.specs.Yard.{IsPlan};

use crate::manager::Manager;
use crate::tests::{Call, Kind, Played, Said, assert_same, key, plan, play, play_in, span};
use lt_barrier::{Barrier, MarkBarrier};
use lt_seq::{Deed, Held, SeqYard, YardPlan};
use std::alloc::{AllocError, Global};
use std::process::Abort;
use std::test::Fail;

/// Makes the calls in a fresh table of one pass with a mark.
fn play_cut(alloc: Global, plan: &YardPlan, mark: u8, calls: &[Call]) -> Result<Played, AllocError>
    requires plan { IsPlan plan.now }
    requires one { plan.now.passes ≡ 1 }
{
    let mut barrier: Box<dyn Barrier> = Box::new(alloc, MarkBarrier::new(alloc))?;
    barrier.add(&key(mark))?;
    let Ok((yard, passes)) = Manager::build_cut(alloc, plan, barrier) else {
        return Err(AllocError);
    };
    play_in::<Manager<Box<dyn Barrier>>>(alloc, yard, passes, calls)
}

/// What transaction 1 holds.
fn held(left: u8, right: u8) -> Held {
    Held {
        tree: 0,
        owner: 1,
        range: span(left, right),
    }
}

/// Whether the last receipt of the table's first pass is that of a join which found and left so many ranges.
fn ends_with_join(played: &Played, before: u64, after: u64) -> bool {
    match played.closed.lists.as_slice() {
        [mine, ..] => match mine.as_slice() {
            [.., last] => {
                last.event.deed
                    == Deed::Join {
                        tree: 0,
                        before,
                        after,
                    }
            }
            [] => false,
        },
        [] => false,
    }
}

/// Asks of one transaction for three points, and a join.
const JOINED: [Call; 4] = [
    Call::Ask(1, b'a'),
    Call::Ask(1, b'c'),
    Call::Ask(1, b'e'),
    Call::Escalate(1),
];

/// A played join of three points left this note alone.
fn assert_note(rt: &impl Abort, played: &Played, after: u64, pairs: &[Held]) {
    match played.notes.as_slice() {
        [note] => {
            assert_eq!(rt; (note.place, note.tree), (3, 0));
            assert_eq!(rt; (note.before, note.after), (3, after));
            assert_eq!(rt; note.pairs.as_slice(), pairs);
        }
        _ => assert!(rt; false, "there is not one note"),
    }
}

#[test]
fn a_join_stops_at_a_mark(rt: HostRuntime) -> Result<(), Fail> {
    let played = play_cut(rt.alloc(), &plan(8, 0, 1), b'd', &JOINED)?;
    assert!(rt; ends_with_join(&played, 3, 2));
    assert_note(&rt, &played, 2, &[held(b'a', b'c'), held(b'e', b'e')]);
    assert_eq!(rt; (played.look.used, played.closed.used), (2, 2));
    assert_eq!(rt;
        played.closed.left.as_slice(),
        [held(b'a', b'c'), held(b'e', b'e')].as_slice()
    );
    Ok(())
}

/// It answers as a table without marks.
#[test]
fn a_mark_behind_all_keeps_nothing_apart(rt: HostRuntime) -> Result<(), Fail> {
    let alloc = rt.alloc();
    let played = play_cut(alloc, &plan(8, 0, 1), b'f', &JOINED)?;
    assert!(rt; ends_with_join(&played, 3, 1));
    assert_note(&rt, &played, 1, &[held(b'a', b'e')]);
    assert_same(
        &rt,
        &played,
        &play::<SeqYard>(alloc, &plan(8, 0, 1), &JOINED)?,
    );
    Ok(())
}

/// The third ask finds the limit reached. Its join would have made room without the mark.
#[test]
fn an_ask_is_out_of_locks_behind_a_join_that_stopped(rt: HostRuntime) -> Result<(), Fail> {
    let calls = [Call::Ask(1, b'a'), Call::Ask(1, b'e'), Call::Ask(1, b'g')];
    let played = play_cut(rt.alloc(), &plan(2, 0, 1), b'e', &calls)?;
    assert_eq!(rt;
        played.answers.as_slice(),
        [
            Said(Kind::Granted, 0, 0),
            Said(Kind::Granted, 1, 0),
            Said(Kind::OutOfLocks, 3, 2),
        ]
        .as_slice()
    );
    assert!(rt; ends_with_join(&played, 2, 2));
    let played = play_cut(rt.alloc(), &plan(2, 0, 1), b'g', &calls)?;
    assert_eq!(rt;
        played.answers.as_slice(),
        [
            Said(Kind::Granted, 0, 0),
            Said(Kind::Granted, 1, 0),
            Said(Kind::Granted, 3, 0),
        ]
        .as_slice()
    );
    Ok(())
}

/// A buffer that a join ends is cut as well.
#[test]
fn a_join_of_a_buffer_stops_at_a_mark(rt: HostRuntime) -> Result<(), Fail> {
    let played = play_cut(rt.alloc(), &plan(8, 4, 1), b'c', &JOINED)?;
    assert_eq!(rt;
        played.answers.as_slice(),
        [
            Said(Kind::Buffered, 0, 0),
            Said(Kind::Buffered, 1, 0),
            Said(Kind::Buffered, 2, 0),
            Said(Kind::Joined, 3, 2),
        ]
        .as_slice()
    );
    assert_note(&rt, &played, 2, &[held(b'a', b'a'), held(b'c', b'e')]);
    Ok(())
}
