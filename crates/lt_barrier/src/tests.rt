//! Marks, and joins of small trees.
ghost use Rattle.std.specs.Prelude.{◌≡◌, IfOk};
ghost use Rattle.lt_ranges.specs.declared.key.Key.TheVariants.{Bytes};

use super::*;
use lt_ranges::{Key, KeyRange};
use lt_seq::Held;
use std::test::Fail;

/// The owner's range in tree 3, from one key to another.
fn held(owner: u64, left: &[u8], right: &[u8]) -> Result<Held, Fail>
    ensures { IfOk result (λ h. h ≡ record { tree = 3; owner = owner; range = record { left = Bytes left.now; right = Bytes right.now } }) }
{
    let range = KeyRange::new(Key::new(left)?, Key::new(right)?)?;
    Ok(Held {
        tree: 3,
        owner,
        range,
    })
}

#[test]
fn a_barrier_is_asked_between_two_keys(rt: HostRuntime) -> Result<(), Fail> {
    let mut barrier = MarkBarrier::new(rt.alloc());
    let (a, c, e) = (Key::new(b"a")?, Key::new(b"c")?, Key::new(b"e")?);
    assert!(rt; !barrier.cuts(&a, &e));
    barrier.add(&c)?;
    assert!(rt; barrier.cuts(&a, &c));
    assert!(rt; barrier.cuts(&a, &e));
    assert!(rt; !barrier.cuts(&c, &e));
    barrier.add(&a)?;
    barrier.add(&c)?;
    assert_eq!(rt; barrier.list()?.as_slice(), [c, a, c].as_slice());
    Ok(())
}

#[test]
#[tactic(auto, unfolding(lt_ranges::specs::Key::key_le))]
fn a_mark_equal_to_a_left_end_keeps_apart(rt: HostRuntime) -> Result<(), Fail> {
    let mut barrier = MarkBarrier::new(rt.alloc());
    barrier.add(&Key::new(b"c")?)?;
    let pairs = [
        held(1, b"a", b"a")?,
        held(1, b"c", b"c")?,
        held(1, b"e", b"e")?,
    ];
    let left = join_cut(rt.alloc(), &pairs, &barrier)?;
    assert_eq!(rt;
        left.as_slice(),
        [held(1, b"a", b"a")?, held(1, b"c", b"e")?].as_slice()
    );
    Ok(())
}

#[test]
#[tactic(auto, unfolding(lt_ranges::specs::Key::key_le))]
fn a_mark_equal_to_a_right_end_keeps_nothing_apart(rt: HostRuntime) -> Result<(), Fail> {
    let alloc = rt.alloc();
    let mut barrier: Box<dyn Barrier> = Box::new(alloc, MarkBarrier::new(alloc))?;
    barrier.add(&Key::new(b"a")?)?;
    let pairs = [
        held(1, b"a", b"a")?,
        held(1, b"c", b"c")?,
        held(2, b"d", b"d")?,
        held(1, b"e", b"e")?,
    ];
    let left = join_cut(alloc, &pairs, &*barrier)?;
    assert_eq!(rt;
        left.as_slice(),
        [
            held(1, b"a", b"c")?,
            held(2, b"d", b"d")?,
            held(1, b"e", b"e")?
        ]
        .as_slice()
    );
    Ok(())
}

#[test]
fn no_ranges_are_joined(rt: HostRuntime) -> Result<(), Fail> {
    let barrier = MarkBarrier::new(rt.alloc());
    assert_eq!(rt; join_cut(rt.alloc(), &[], &barrier)?.len(), 0);
    Ok(())
}
