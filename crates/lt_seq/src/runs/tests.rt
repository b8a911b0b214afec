//! Joins of small lists.
ghost use Rattle.std.specs.Prelude.{◌≡◌, IfOk};
ghost use Rattle.lt_ranges.specs.declared.key.Key.TheVariants.{Bytes};

use super::*;
use lt_ranges::KeyRange;
use std::test::Fail;

/// The owner's range from one key to another.
fn pair(owner: u64, left: &[u8], right: &[u8]) -> Result<Pair, Fail>
    ensures { IfOk result (λ p. p ≡ record { owner = owner; range = record { left = Bytes left.now; right = Bytes right.now } }) }
{
    let range = KeyRange::new(Key::new(left)?, Key::new(right)?)?;
    Ok(Pair { owner, range })
}

#[test]
#[tactic(auto, unfolding(lt_ranges::specs::Key::key_le))]
fn gives_a_key_between_two_neighbours(rt: HostRuntime) -> Result<(), Fail> {
    let mut pairs = vec![in rt.alloc();
        pair(1, b"a", b"a")?,
        pair(1, b"c", b"c")?,
        pair(1, b"e", b"e")?,
        pair(2, b"g", b"g")?,
    ]?;
    let counts = join_pairs(&mut pairs, &[]);
    assert_eq!(rt;
        counts,
        JoinCounts {
            before: 4,
            after: 2
        }
    );
    assert_eq!(rt;
        pairs.as_slice(),
        [pair(1, b"a", b"e")?, pair(2, b"g", b"g")?].as_slice()
    );
    Ok(())
}

#[test]
#[tactic(auto, unfolding(lt_ranges::specs::Key::key_le))]
fn joins_over_no_other_owner(rt: HostRuntime) -> Result<(), Fail> {
    let mut pairs = vec![in rt.alloc();
        pair(1, b"a", b"a")?,
        pair(2, b"c", b"c")?,
        pair(1, b"e", b"e")?,
    ]?;
    let counts = join_pairs(&mut pairs, &[]);
    assert_eq!(rt;
        counts,
        JoinCounts {
            before: 3,
            after: 3
        }
    );
    assert_eq!(rt;
        pairs.as_slice(),
        [
            pair(1, b"a", b"a")?,
            pair(2, b"c", b"c")?,
            pair(1, b"e", b"e")?
        ]
        .as_slice()
    );
    Ok(())
}

#[test]
#[tactic(auto, unfolding(lt_ranges::specs::Key::key_le))]
fn ends_a_run_at_a_mark(rt: HostRuntime) -> Result<(), Fail> {
    let mut pairs = vec![in rt.alloc();
        pair(1, b"a", b"a")?,
        pair(1, b"c", b"c")?,
        pair(1, b"e", b"e")?,
    ]?;
    let counts = join_pairs(&mut pairs, &[Key::new(b"c")?]);
    assert_eq!(rt;
        counts,
        JoinCounts {
            before: 3,
            after: 2
        }
    );
    assert_eq!(rt;
        pairs.as_slice(),
        [pair(1, b"a", b"a")?, pair(1, b"c", b"e")?].as_slice()
    );
    Ok(())
}
