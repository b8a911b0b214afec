//! Events side by side.
use super::*;
use lt_ranges::Key;
use std::alloc::Global;
use std::test::Fail;

/// An ask that others hold.
fn held_by(alloc: Global, place: u64, owners: &[u64]) -> Result<Receipt, Fail> {
    let a = Key::new(b"a")?;
    Ok(Receipt {
        place,
        event: Event {
            pass: 0,
            txn: 9,
            deed: Deed::Ask {
                tree: 0,
                range: KeyRange::new(a, a)?,
                reply: Reply::HeldBy(Owners::of(owners.to_vec(alloc)?)),
            },
        },
    })
}

#[test]
fn receipts_differ_by_place_and_by_the_owners_named(rt: HostRuntime) -> Result<(), Fail> {
    let alloc = rt.alloc();
    let receipt = held_by(alloc, 3, &[1, 2])?;
    assert_eq!(rt; receipt, held_by(alloc, 3, &[1, 2])?);
    assert_ne!(rt; receipt, held_by(alloc, 4, &[1, 2])?);
    assert_ne!(rt; receipt, held_by(alloc, 3, &[1])?);
    assert_ne!(rt;
        receipt.event.deed,
        Deed::Join {
            tree: 0,
            before: 2,
            after: 1
        }
    );
    Ok(())
}
