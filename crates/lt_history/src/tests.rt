//! The text of events and outcomes, of every kind, and their numbers.
use crate::{Ended, Outcome, merge, print, summary};
use lt_ranges::{Key, KeyRange};
use lt_requests::{Cycle, Edge};
use lt_seq::{Deed, Event, Owners, Receipt, Reply};
use std::test::Fail;

fn edge(waiter: u64, holder: u64) -> Edge {
    Edge {
        waiter,
        holder,
        place: 0,
    }
}

fn range_of(text: &[u8]) -> Result<KeyRange, Fail> {
    let range = KeyRange::new(Key::new(text)?, Key::new(text)?)?;
    Ok(range)
}

fn who(range: KeyRange, as_txn: u64, owners: Vec<u64>) -> Deed {
    Deed::Who {
        tree: 0,
        range,
        as_txn,
        owners: Owners::of(owners),
    }
}

fn receipt(place: u64, txn: u64, deed: Deed) -> Receipt {
    Receipt {
        place,
        event: Event { pass: 0, txn, deed },
    }
}

fn ended(txn: u64, outcome: Outcome) -> Ended {
    Ended { txn, outcome }
}

#[test]
fn nothing_at_all_has_a_last_line(rt: HostRuntime) -> Result<(), Fail> {
    let text = print(rt.alloc(), &[], &[], 0, 0)?;
    assert_eq!(rt; text.as_slice(), b"end 0 0\n".as_slice());
    Ok(())
}

#[test]
fn buffered_asks_questions_and_joins(rt: HostRuntime) -> Result<(), Fail> {
    let alloc = rt.alloc();
    let buffered = Deed::Ask {
        tree: 0,
        range: range_of(b"a")?,
        reply: Reply::Buffered,
    };
    let join = Deed::Join {
        tree: 0,
        before: 4,
        after: 2,
    };
    let mut owner = Vec::new(alloc);
    owner.push(2)?;
    let mut receipts = Vec::new(alloc);
    receipts.push(receipt(0, 1, buffered))?;
    receipts.push(receipt(4, 1, join))?;
    receipts.push(receipt(4, 2, who(range_of(b"b")?, 1, owner)))?;
    receipts.push(receipt(10, 1, who(range_of(b"c")?, 2, Vec::new(alloc))))?;
    let text = print(alloc, &receipts, &[], 11, 0)?;
    let expected = b"0 1 ask 0 \"a\" \"a\" buffered\n4 1 join 0 4 2\n\
        4 2 who 0 \"b\" \"b\" 1 held by 2\n10 1 who 0 \"c\" \"c\" 2 held by none\nend 11 0\n";
    assert_eq!(rt; text.as_slice(), expected.as_slice());
    Ok(())
}

#[test]
fn ways_to_end(rt: HostRuntime) -> Result<(), Fail> {
    let alloc = rt.alloc();
    let mut walk = Vec::new(alloc);
    walk.push(edge(3, 1))?;
    walk.push(edge(1, 2))?;
    walk.push(edge(2, 3))?;
    let mut outcomes = Vec::new(alloc);
    outcomes.push(ended(1, Outcome::Aborted))?;
    outcomes.push(ended(2, Outcome::OutOfLocks { place: 3, used: 2 }))?;
    outcomes.push(ended(3, Outcome::Deadlock(Cycle::of(walk))))?;
    let text = print(alloc, &[], &outcomes, 11, 0)?;
    let expected = b"txn 1 aborted\ntxn 2 outoflocks 3 2\ntxn 3 deadlock 3 1 2 3\nend 11 0\n";
    assert_eq!(rt; text.as_slice(), expected.as_slice());
    Ok(())
}

#[test]
fn a_buffered_ask_and_its_free_are_summed(rt: HostRuntime) -> Result<(), Fail> {
    let alloc = rt.alloc();
    let range = range_of(b"06987")?;
    let buffered = Deed::Ask {
        tree: 1,
        range,
        reply: Reply::Buffered,
    };
    let free = Deed::Free {
        tree: 1,
        range,
        first: true,
        count: 1,
    };
    let mut receipts = Vec::new(alloc);
    receipts.push(receipt(0, 1, buffered))?;
    receipts.push(receipt(1, 1, free))?;
    let mut outcomes = Vec::new(alloc);
    outcomes.push(ended(1, Outcome::Done))?;
    let text = summary(alloc, &receipts, &outcomes)?;
    assert_eq!(rt; text.as_slice(), b"sum 2 0 1 0 0 1 0 1 0 0 0\n".as_slice());
    Ok(())
}

#[test]
fn lists_of_two_passes_become_one_by_place(rt: HostRuntime) -> Result<(), Fail> {
    let alloc = rt.alloc();
    let join = |place| {
        receipt(
            place,
            1,
            Deed::Join {
                tree: 0,
                before: 0,
                after: 0,
            },
        )
    };
    let first = Vec::from_array(alloc, [join(1), join(4)])?;
    let second = Vec::from_array(alloc, [join(0), join(2), join(3)])?;
    let merged = merge(alloc, Vec::from_array(alloc, [first, second])?)?;
    let mut places = Vec::new(alloc);
    for receipt in &merged {
        places.push(receipt.place)?;
    }
    assert_eq!(rt; places.as_slice(), [0, 1, 2, 3, 4].as_slice());
    Ok(())
}
