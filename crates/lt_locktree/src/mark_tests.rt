//! Joins in a table with a mark.
ghost use Rattle.std.specs.Prelude.{◌≤◌};

use crate::test_calls::{Answer, Call, plan, point, said};
use crate::tests::{may_ask, one_pass_cut};
use lt_ranges::{Key, KeyRange};
use lt_seq::JoinNote;
use std::alloc::{AllocError, Global};
use std::test::Fail;

/// A list of one key.
fn only(alloc: Global, letters: &[u8]) -> Result<Vec<Key>, AllocError> {
    let mut keys = Vec::new(alloc);
    if let Ok(key) = Key::new(letters) {
        keys.push(key)?;
    }
    Ok(keys)
}

/// What an ask of a lone transaction answers, with and without buffers.
fn answer(buffer: u64, place: u64) -> Answer {
    if buffer > 0 {
        Answer::Buffered(place)
    } else {
        Answer::Granted(place)
    }
}

/// The note of a join of the points a, b, c and d, for which one transaction asked, in a table with this mark.
fn joined(alloc: Global, buffer: u64, mark: &[u8]) -> Result<Option<JoinNote>, AllocError>
    requires { buffer ≤ 4 }
{
    let marks = only(alloc, mark)?;
    let Some((table, mut pass)) = one_pass_cut(alloc, &plan(1, buffer, 1, 0), marks)? else {
        return Ok(None);
    };
    let answers = [
        said(&table, &mut pass, Call::Ask(1, 0, b'a')),
        said(&table, &mut pass, Call::Ask(1, 0, b'b')),
        said(&table, &mut pass, Call::Ask(1, 0, b'c')),
        said(&table, &mut pass, Call::Ask(1, 0, b'd')),
    ];
    let wanted = [
        answer(buffer, 0),
        answer(buffer, 1),
        answer(buffer, 2),
        answer(buffer, 3),
    ];
    if answers != wanted || !may_ask(&table, &mut pass) {
        return Ok(None);
    }
    Ok(table.escalate(&mut pass, 1, 0).ok())
}

fn span(first: u8, last: u8) -> KeyRange {
    point(first).hull(&point(last))
}

/// Whether a join of four ranges left these two.
fn left_two(note: &JoinNote, first: &KeyRange, second: &KeyRange) -> bool {
    match note.pairs.as_slice() {
        [one, two] => {
            note.before == 4 && note.after == 2 && one.range == *first && two.range == *second
        }
        _ => false,
    }
}

#[test]
fn a_join_makes_one_range_of_those_up_to_a_mark_and_one_of_those_behind(
    rt: HostRuntime,
) -> Result<(), Fail> {
    match joined(rt.alloc(), 0, b"bb")? {
        Some(note) => assert!(rt; left_two(&note, &span(b'a', b'b'), &span(b'c', b'd'))),
        None => assert!(rt; false, "no join"),
    }
    Ok(())
}

#[test]
fn a_join_of_a_buffer_stops_at_a_mark(rt: HostRuntime) -> Result<(), Fail> {
    match joined(rt.alloc(), 4, b"bb")? {
        Some(note) => assert!(rt; left_two(&note, &span(b'a', b'b'), &span(b'c', b'd'))),
        None => assert!(rt; false, "no join"),
    }
    Ok(())
}

#[test]
fn a_mark_that_is_a_ranges_left_end_keeps_it_apart(rt: HostRuntime) -> Result<(), Fail> {
    for buffer in [0, 4] {
        match joined(rt.alloc(), buffer, b"b")? {
            Some(note) => assert!(rt; left_two(&note, &span(b'a', b'a'), &span(b'b', b'd'))),
            None => assert!(rt; false, "no join"),
        }
    }
    Ok(())
}
