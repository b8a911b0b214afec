//! The map at work, over the plain table.
ghost use Rattle.std.specs.Prelude.{◌≤◌};

use crate::{Answer, Finished, Move, Op, Store, StoreRow};
use lt_ranges::{Key, KeyRange};
use lt_seq::{Owners, SeqYard, Yard};
use std::alloc::{AllocError, Global};
use std::test::Fail;

/// What a step answered.
#[derive(Clone, Copy, Debug, Drop, PartialEq, Eq)]
enum Said {
    Value(Option<u64>),
    Stored,
    /// So many rows.
    Rows(usize),
    Committed,
    Aborted,
    /// The only owner, or 0.
    Held(u64),
    OutOfLocks(u64, u64),
    Gone,
    /// It was no step that a map takes.
    NoStep,
}

fn only_of(owners: &Owners) -> u64 {
    match owners.as_slice() {
        [owner] => *owner,
        _ => 0,
    }
}

fn answer_of(answer: &Answer) -> Said {
    match answer {
        Answer::Value(value) => Said::Value(*value),
        Answer::Stored => Said::Stored,
        Answer::Rows(rows) => Said::Rows(rows.as_slice().len()),
        Answer::Committed => Said::Committed,
        Answer::Aborted => Said::Aborted,
        Answer::Held(owners) => Said::Held(only_of(owners)),
        Answer::OutOfLocks { place, used } => Said::OutOfLocks(*place, *used),
        Answer::Gone => Said::Gone,
    }
}

fn key(byte: u8) -> Key {
    match Key::new(&[byte]) {
        Ok(key) => key,
        Err(_) => Key::Below,
    }
}

fn get(txn: u64, byte: u8) -> Move {
    Move {
        txn,
        op: Op::Get { key: key(byte) },
    }
}

fn put(txn: u64, byte: u8, value: u64) -> Move {
    Move {
        txn,
        op: Op::Put {
            key: key(byte),
            value,
        },
    }
}

/// The rows from the one key to the other, or all where they stand the wrong way round.
fn scan(txn: u64, left: u8, right: u8) -> Move {
    let range = match KeyRange::new(key(left), key(right)) {
        Ok(range) => range,
        Err(_) => KeyRange::whole(),
    };
    Move {
        txn,
        op: Op::Scan { range },
    }
}

fn commit(txn: u64) -> Move {
    Move {
        txn,
        op: Op::Commit,
    }
}

fn abort(txn: u64) -> Move {
    Move { txn, op: Op::Abort }
}

fn row(byte: u8, value: u64) -> StoreRow {
    StoreRow {
        key: key(byte),
        value,
    }
}

/// Makes a step, if it is one.
fn make<Y: Yard>(store: Store<Y>, order: Move) -> Result<(Store<Y>, Said), AllocError> {
    if order.txn == 0 || store.has_ended(order.txn) || store.steps() >= 1 << 32 {
        return Ok((store, Said::NoStep));
    }
    let (store, answer) = store.step(order)?;
    Ok((store, answer_of(&answer)))
}

/// What the steps answered, and what was left.
#[derive(Drop)]
struct Played {
    answers: Vec<Said>,
    finished: Option<Finished>,
}

/// Makes the steps, one after another, on an empty map.
fn play<Y: Yard>(alloc: Global, limit: u64, orders: &[Move]) -> Result<Played, AllocError>
    requires limit { (1 ≤ limit) × (limit ≤ 65536) }
    requires served { 1 ≤ Y.MOST_PASSES }
{
    let mut store = Store::<Y>::build(alloc, limit)?;
    let mut answers = Vec::new(alloc);
    for order in orders {
        let (next, answer) = make(store, *order)?;
        store = next;
        answers.push(answer)?;
    }
    let finished = if store.steps() < 1 << 32 {
        Some(store.finish()?)
    } else {
        None
    };
    Ok(Played { answers, finished })
}

#[test]
fn a_put_is_seen_once_it_is_committed_and_an_abort_undoes_its_own(
    rt: HostRuntime,
) -> Result<(), Fail> {
    let orders = [
        put(1, b'a', 5),
        get(2, b'a'),
        commit(1),
        get(2, b'a'),
        put(2, b'a', 6),
        abort(2),
    ];
    let played = play::<SeqYard>(rt.alloc(), 64, &orders)?;
    assert_eq!(rt;
        played.answers.as_slice(),
        [
            Said::Stored,
            Said::Held(1),
            Said::Committed,
            Said::Value(Some(5)),
            Said::Stored,
            Said::Aborted,
        ]
        .as_slice()
    );
    let finished = played.finished.expect(&rt, "few steps");
    assert_eq!(rt; finished.rows.as_slice(), [row(b'a', 5)].as_slice());
    assert_eq!(rt; finished.commits, 1);
    Ok(())
}

#[test]
fn no_row_comes_into_a_range_that_was_read(rt: HostRuntime) -> Result<(), Fail> {
    let orders = [
        scan(1, b'a', b'c'),
        put(2, b'b', 1),
        commit(1),
        put(2, b'b', 1),
        commit(2),
    ];
    let played = play::<SeqYard>(rt.alloc(), 64, &orders)?;
    assert_eq!(rt;
        played.answers.as_slice(),
        [
            Said::Rows(0),
            Said::Held(1),
            Said::Committed,
            Said::Stored,
            Said::Committed,
        ]
        .as_slice()
    );
    let finished = played.finished.expect(&rt, "few steps");
    assert_eq!(rt; finished.rows.as_slice(), [row(b'b', 1)].as_slice());
    assert_eq!(rt; finished.commits, 2);
    Ok(())
}

#[test]
fn one_without_a_lock_left_is_gone(rt: HostRuntime) -> Result<(), Fail> {
    let orders = [put(1, b'a', 1), get(2, b'b'), get(2, b'a'), commit(1)];
    let played = play::<SeqYard>(rt.alloc(), 1, &orders)?;
    assert_eq!(rt;
        played.answers.as_slice(),
        [
            Said::Stored,
            Said::OutOfLocks(2, 1),
            Said::Gone,
            Said::Committed,
        ]
        .as_slice()
    );
    let finished = played.finished.expect(&rt, "few steps");
    assert_eq!(rt; finished.rows.as_slice(), [row(b'a', 1)].as_slice());
    assert_eq!(rt; finished.commits, 1);
    Ok(())
}
