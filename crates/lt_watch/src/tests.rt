//! Watches with much and little room, and lists of them.
use super::*;
use lt_ranges::{Key, KeyRange};
use lt_seq::{Held, HeldList, JoinNote};
use std::test::Fail;

fn held(owner: u64, left: &[u8], right: &[u8]) -> Result<Held, Fail> {
    let range = KeyRange::new(Key::new(left)?, Key::new(right)?)?;
    Ok(Held {
        tree: 0,
        owner,
        range,
    })
}

/// A join at the place, which left these pairs of the two before it.
fn note(place: u64, pairs: Vec<Held>) -> JoinNote {
    JoinNote {
        place,
        tree: 0,
        before: 2,
        after: pairs.len() as u64,
        pairs: HeldList::of(pairs),
    }
}

#[test]
fn a_join_and_its_pair_fill_a_watch_of_two_items(rt: HostRuntime) -> Result<(), Fail> {
    let alloc = rt.alloc();
    let pair = held(1, b"a", b"b")?;
    let mut watch = ListWatch::new(alloc, 2)?;
    assert!(rt; watch.escalated(&note(2, vec![in alloc; pair]?)).is_ok());
    let join = Told::Join {
        place: 2,
        tree: 0,
        before: 2,
        after: 1,
    };
    assert_eq!(rt; watch.told(), [join, Told::Pair { held: pair }].as_slice());
    assert_eq!(rt; watch.joins(), 1);
    Ok(())
}

#[test]
fn a_note_that_does_not_fit_is_left_out_whole(rt: HostRuntime) -> Result<(), Fail> {
    let alloc = rt.alloc();
    let pairs = vec![in alloc; held(1, b"a", b"a")?, held(2, b"c", b"c")?]?;
    let mut watch = ListWatch::new(alloc, 2)?;
    assert!(rt; watch.escalated(&note(2, pairs)).is_err());
    assert_eq!(rt; watch.told().len(), 0);
    assert_eq!(rt; watch.joins(), 0);
    assert!(rt; watch.escalated(&note(3, Vec::new(alloc))).is_ok());
    assert_eq!(rt; watch.joins(), 1);
    Ok(())
}

#[test]
fn watches_are_added_and_taken_back(rt: HostRuntime) -> Result<(), Fail> {
    let alloc = rt.alloc();
    let mut watchers = Watchers::new(alloc);
    assert!(rt; watchers.is_empty());
    assert!(rt;
        watchers
            .add(Box::new(alloc, ListWatch::new(alloc, 1)?)?)
            .is_ok()
    );
    watchers.tell_all(&note(2, Vec::new(alloc)));
    assert!(rt;
        watchers
            .add(Box::new(alloc, ListWatch::new(alloc, 2)?)?)
            .is_ok()
    );
    assert_eq!(rt; watchers.len(), 2);
    let first = watchers.take_back(0).ok_or("the first watch")?;
    assert_eq!(rt; first.joins(), 1);
    assert!(rt; watchers.take_back(1).is_none());
    assert_eq!(rt; watchers.len(), 1);
    assert!(rt; !watchers.drop_one(1));
    assert!(rt; watchers.drop_one(0));
    assert!(rt; watchers.is_empty());
    Ok(())
}

#[test]
fn each_watch_is_told_and_the_full_ones_are_counted(rt: HostRuntime) -> Result<(), Fail> {
    let alloc = rt.alloc();
    let pair = held(1, b"a", b"b")?;
    let mut watchers = Watchers::new(alloc);
    assert!(rt;
        watchers
            .add(Box::new(alloc, ListWatch::new(alloc, 1)?)?)
            .is_ok()
    );
    assert!(rt;
        watchers
            .add(Box::new(alloc, ListWatch::new(alloc, 3)?)?)
            .is_ok()
    );
    assert_eq!(rt; watchers.tell_all(&note(2, vec![in alloc; pair]?)), 1);
    assert_eq!(rt; watchers.tell_all(&note(3, vec![in alloc; pair]?)), 2);
    assert_eq!(rt; watchers.tell_all(&note(4, Vec::new(alloc))), 0);
    let small = watchers.take_back(0).ok_or("the small watch")?;
    let large = watchers.take_back(0).ok_or("the large watch")?;
    assert_eq!(rt; small.joins(), 1);
    assert_eq!(rt; large.joins(), 2);
    Ok(())
}

#[test]
fn notes_are_told_in_their_order(rt: HostRuntime) -> Result<(), Fail> {
    let alloc = rt.alloc();
    let mut watchers = Watchers::new(alloc);
    assert!(rt;
        watchers
            .add(Box::new(alloc, ListWatch::new(alloc, 9)?)?)
            .is_ok()
    );
    let notes = vec![in alloc; note(2, Vec::new(alloc)), note(5, Vec::new(alloc))]?;
    tell_notes(&mut watchers, &notes);
    let watch = watchers.take_back(0).ok_or("the watch")?;
    assert_eq!(rt; watch.joins(), 2);
    Ok(())
}
