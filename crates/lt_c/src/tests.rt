//! The calls as C makes them.
use crate::answer::{BAD_ARGUMENT, BUFFERED, DONE, GRANTED, HELD, OUT_OF_LOCKS};
use crate::c_handle::shut;
use crate::exports::{
    lt_ask, lt_close, lt_counters, lt_escalate, lt_free, lt_look, lt_open, lt_release, lt_who,
};
use std::test::Fail;

#[test]
fn a_refusal_names_the_holder(rt: HostRuntime) -> Result<(), Fail> {
    let alloc = rt.alloc();
    let mut handles = [shut(alloc), shut(alloc)];
    let opened = lt_open(alloc, &mut handles, 1, 64, 0);
    assert_eq!(rt; opened.status, DONE);
    let [mut one, mut two] = handles;
    let mut holders = [0; 4];
    let first = lt_ask(alloc, &mut one, 1, 0, b"a", b"c", &mut holders);
    assert_eq!(rt; (first.status, first.place, holders[0]), (GRANTED, 0, 0));
    let second = lt_ask(alloc, &mut two, 2, 0, b"c", b"e", &mut holders);
    assert_eq!(rt;
        (second.status, second.count, holders),
        (HELD, 1, [1, 0, 0, 0])
    );
    let who = lt_who(alloc, &mut two, 2, 2, 0, b"b", b"b", &mut holders);
    assert_eq!(rt; (who.status, who.count), (DONE, 1));
    let freed = lt_free(alloc, &mut one, 1, 0, b"a", b"z", true);
    assert_eq!(rt; (freed.status, freed.count), (DONE, 1));
    let again = lt_ask(alloc, &mut two, 2, 0, b"c", b"e", &mut holders);
    assert_eq!(rt; (again.status, again.place), (GRANTED, 4));
    let counts = lt_counters(alloc, &mut two);
    assert_eq!(rt; (counts.granted, counts.held, counts.busy), (1, 1, 0));
    assert_eq!(rt; lt_close(alloc, &mut one).status, DONE);
    assert_eq!(rt; lt_close(alloc, &mut two).status, DONE);
    assert_eq!(rt; lt_close(alloc, &mut two).status, BAD_ARGUMENT);
    Ok(())
}

#[test]
fn an_ask_at_the_limit_joins_first(rt: HostRuntime) -> Result<(), Fail> {
    let alloc = rt.alloc();
    let mut handles = [shut(alloc)];
    lt_open(alloc, &mut handles, 1, 2, 0);
    let [mut one] = handles;
    let mut holders = [0; 1];
    lt_ask(alloc, &mut one, 1, 0, b"a", b"a", &mut holders);
    lt_ask(alloc, &mut one, 1, 0, b"b", b"b", &mut holders);
    let joined = lt_ask(alloc, &mut one, 2, 0, b"c", b"c", &mut holders);
    assert_eq!(rt;
        (joined.status, joined.joins, joined.place),
        (GRANTED, 1, 3)
    );
    let full = lt_ask(alloc, &mut one, 1, 0, b"d", b"d", &mut holders);
    assert_eq!(rt; (full.status, full.joins, full.count), (OUT_OF_LOCKS, 1, 2));
    let join = lt_escalate(alloc, &mut one, 1, 0);
    assert_eq!(rt; (join.status, join.joins, join.count), (DONE, 1, 2));
    let look = lt_look(alloc, &mut one);
    assert_eq!(rt; (look.status, look.place, look.count), (DONE, 6, 2));
    assert_eq!(rt; lt_counters(alloc, &mut one).joins, 3);
    assert_eq!(rt; lt_close(alloc, &mut one).status, DONE);
    Ok(())
}

#[test]
fn a_release_leaves_the_transaction_nothing(rt: HostRuntime) -> Result<(), Fail> {
    let alloc = rt.alloc();
    let mut handles = [shut(alloc)];
    lt_open(alloc, &mut handles, 2, 64, 8);
    let [mut one] = handles;
    let mut holders = [0; 2];
    let ask = lt_ask(alloc, &mut one, 1, 0, b"a", b"b", &mut holders);
    assert_eq!(rt; ask.status, BUFFERED);
    lt_ask(alloc, &mut one, 1, 0, b"", b"", &mut holders);
    lt_ask(alloc, &mut one, 1, 1, b"a", b"b", &mut holders);
    let whole_buffer = lt_release(alloc, &mut one, 1, 0);
    assert_eq!(rt; (whole_buffer.status, whole_buffer.count), (DONE, 2));
    assert_eq!(rt; lt_look(alloc, &mut one).count, 1);
    lt_ask(alloc, &mut one, 2, 1, b"x", b"y", &mut holders);
    lt_ask(alloc, &mut one, 1, 1, b"c", b"d", &mut holders);
    let its_own = lt_release(alloc, &mut one, 1, 1);
    assert_eq!(rt; (its_own.status, its_own.count), (DONE, 2));
    let who = lt_who(alloc, &mut one, 3, 3, 1, b"a", b"z", &mut holders);
    assert_eq!(rt; (who.count, holders[0]), (1, 2));
    assert_eq!(rt; lt_release(alloc, &mut one, 1, 1).count, 0);
    assert_eq!(rt; lt_release(alloc, &mut one, 0, 1).status, BAD_ARGUMENT);
    assert_eq!(rt; lt_release(alloc, &mut one, 1, 2).status, BAD_ARGUMENT);
    assert_eq!(rt; lt_close(alloc, &mut one).status, DONE);
    assert_eq!(rt; lt_release(alloc, &mut one, 1, 1).status, BAD_ARGUMENT);
    Ok(())
}

#[test]
fn what_is_wrong_is_refused(rt: HostRuntime) -> Result<(), Fail> {
    let alloc = rt.alloc();
    let mut handles = [shut(alloc)];
    assert_eq!(rt; lt_open(alloc, &mut [], 1, 8, 0).status, BAD_ARGUMENT);
    assert_eq!(rt; lt_open(alloc, &mut handles, 17, 8, 0).status, BAD_ARGUMENT);
    assert_eq!(rt; lt_open(alloc, &mut handles, 1, 8, 0).status, DONE);
    assert_eq!(rt; lt_open(alloc, &mut handles, 1, 8, 0).status, BAD_ARGUMENT);
    let [mut one] = handles;
    let mut none = [];
    let long = [b'x'; 64];
    assert_eq!(rt;
        lt_ask(alloc, &mut one, 0, 0, b"a", b"a", &mut none).status,
        BAD_ARGUMENT
    );
    assert_eq!(rt;
        lt_ask(alloc, &mut one, 1, 1, b"a", b"a", &mut none).status,
        BAD_ARGUMENT
    );
    assert_eq!(rt;
        lt_ask(alloc, &mut one, 1, 0, b"b", b"a", &mut none).status,
        BAD_ARGUMENT
    );
    assert_eq!(rt;
        lt_ask(alloc, &mut one, 1, 0, &long, &long, &mut none).status,
        BAD_ARGUMENT
    );
    assert_eq!(rt; lt_look(alloc, &mut one).place, 0);
    assert_eq!(rt; lt_close(alloc, &mut one).status, DONE);
    Ok(())
}
