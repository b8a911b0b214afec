//! A lone transaction's buffer at work, through the trait.
use crate::SeqYard;
use crate::tests::{Call, Kind, Said, plan, play};
use std::test::Fail;

#[test]
fn a_buffer_serves_up_to_its_maximum(rt: HostRuntime) -> Result<(), Fail> {
    let calls = [
        Call::Ask(1, b'a'),
        Call::Ask(1, b'b'),
        Call::Ask(1, b'c'),
        Call::Ask(1, b'd'),
        Call::Ask(1, b'e'),
        Call::Free(1, b'a'),
    ];
    let played = play::<SeqYard>(rt.alloc(), &plan(64, 4, 0), &calls)?;
    assert_eq!(rt;
        played.answers.as_slice(),
        [
            Said(Kind::Buffered, 0, 0),
            Said(Kind::Buffered, 1, 0),
            Said(Kind::Buffered, 2, 0),
            Said(Kind::Buffered, 3, 0),
            Said(Kind::Granted, 4, 0),
            Said(Kind::Freed, 5, 1),
        ]
        .as_slice()
    );
    Ok(())
}

#[test]
fn a_free_of_the_whole_range_drops_a_buffer_and_another_begins(
    rt: HostRuntime,
) -> Result<(), Fail> {
    let calls = [
        Call::Ask(1, b'a'),
        Call::Ask(1, b'c'),
        Call::FreeAll(1),
        Call::Ask(2, b'z'),
    ];
    let played = play::<SeqYard>(rt.alloc(), &plan(64, 4, 0), &calls)?;
    assert_eq!(rt;
        played.answers.as_slice(),
        [
            Said(Kind::Buffered, 0, 0),
            Said(Kind::Buffered, 1, 0),
            Said(Kind::Freed, 2, 2),
            Said(Kind::Buffered, 3, 0)
        ]
        .as_slice()
    );
    Ok(())
}

#[test]
fn an_ask_a_question_of_another_and_a_join_end_a_buffer(rt: HostRuntime) -> Result<(), Fail> {
    let by_ask = [
        Call::Ask(1, b'a'),
        Call::Ask(2, b'a'),
        Call::FreeAll(1),
        Call::Ask(3, b'b'),
    ];
    let by_who = [
        Call::Ask(1, b'a'),
        Call::Who(2, 2, b'b'),
        Call::Ask(1, b'b'),
    ];
    let by_itself = [
        Call::Ask(1, b'a'),
        Call::Who(2, 1, b'b'),
        Call::Ask(1, b'b'),
    ];
    let by_join = [Call::Ask(1, b'a'), Call::Escalate(1), Call::Ask(1, b'b')];
    let plan = plan(64, 4, 0);
    assert_eq!(rt;
        play::<SeqYard>(rt.alloc(), &plan, &by_ask)?
            .answers
            .as_slice(),
        [
            Said(Kind::Buffered, 0, 0),
            Said(Kind::HeldBy, 1, 1),
            Said(Kind::Freed, 2, 1),
            Said(Kind::Granted, 3, 0)
        ]
        .as_slice()
    );
    assert_eq!(rt;
        play::<SeqYard>(rt.alloc(), &plan, &by_who)?
            .answers
            .as_slice(),
        [
            Said(Kind::Buffered, 0, 0),
            Said(Kind::Named, 1, 0),
            Said(Kind::Granted, 2, 0)
        ]
        .as_slice()
    );
    assert_eq!(rt;
        play::<SeqYard>(rt.alloc(), &plan, &by_itself)?
            .answers
            .as_slice(),
        [
            Said(Kind::Buffered, 0, 0),
            Said(Kind::Named, 1, 0),
            Said(Kind::Buffered, 2, 0)
        ]
        .as_slice()
    );
    assert_eq!(rt;
        play::<SeqYard>(rt.alloc(), &plan, &by_join)?
            .answers
            .as_slice(),
        [
            Said(Kind::Buffered, 0, 0),
            Said(Kind::Joined, 1, 1),
            Said(Kind::Granted, 2, 0)
        ]
        .as_slice()
    );
    Ok(())
}
