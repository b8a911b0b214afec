//! A buffer's chain, read and dropped by one of two passes.
ghost use Rattle.std.specs.Prelude.{◌≡◌, [], IfOk, IfSome};
ghost use Rattle.lt_seq.specs.Yard.{IsPlan};
ghost use Rattle.lt_rows.specs.Plan.{with_marks};
ghost use Rattle.lt_rows.specs.Handles.{knows, IsPassOf};
ghost use Rattle.lt_tree.specs.States.{HoldsNone};

use crate::worked::{ask, free_whole};
use lt_ranges::{Key, KeyRange};
use lt_rows::{RowPass, RowTable};
use lt_seq::{Held, YardPlan};
use std::alloc::{AllocError, Global};
use std::test::Fail;

fn plan() -> YardPlan
    ensures { IsPlan result × (result.trees ≡ 1) × (result.passes ≡ 2) }
{
    YardPlan {
        trees: 1,
        limit: 64,
        buffer: 4,
        passes: 2,
        first: 0,
    }
}

/// A table of two passes, of which each has a right.
fn both(alloc: Global, plan: &YardPlan) -> Result<Option<(RowTable, RowPass, RowPass)>, AllocError>
    requires plan { IsPlan plan.now × (plan.now.passes ≡ 2) }
    ensures of { IfOk result (λ o. IfSome o (λ r. IsPassOf r.0 r.1 × IsPassOf r.0 r.2 × (r.0.plan ≡ with_marks plan.now []))) }
    ensures rights { IfOk result (λ o. IfSome o (λ r. (r.1.rights ≡ 1) × (r.2.rights ≡ 1))) }
    ensures none { IfOk result (λ o. IfSome o (λ r. HoldsNone (knows r.1) × HoldsNone (knows r.2))) }
{
    let (table, passes) = RowTable::build(alloc, plan)?;
    let mut passes = passes;
    let Some(mut two) = passes.pop() else {
        return Ok(None);
    };
    let Some(mut one) = passes.pop() else {
        return Ok(None);
    };
    let note = table.share(&mut one, 1);
    table.learn(&mut two, note);
    Ok(Some((table, one, two)))
}

fn letter(byte: u8) -> Key {
    match Key::new(&[byte]) {
        Ok(key) => key,
        Err(_) => Key::Below,
    }
}

fn span(left: u8, right: u8) -> KeyRange {
    match KeyRange::new(letter(left), letter(right)) {
        Ok(range) => range,
        Err(_) => KeyRange::whole(),
    }
}

/// A range of the first transaction in tree 0.
fn held(left: u8, right: u8) -> Held {
    Held {
        tree: 0,
        owner: 1,
        range: span(left, right),
    }
}

/// The last range that was asked for stands in the chain's first row. The first two overlap, and are one pair.
#[test]
fn a_chain_of_three_rows_is_read_as_two_pairs(rt: HostRuntime) -> Result<(), Fail> {
    let Some((table, one, _two)) = both(rt.alloc(), &plan())? else {
        assert!(rt; false, "no passes");
        return Ok(());
    };
    let mut one = one;
    let ranges = [span(b'a', b'c'), span(b'b', b'd'), span(b'x', b'x')];
    for (n, range) in ranges.iter().enumerate() {
        assert_eq!(rt; ask(&table, &mut one, 0, 1, range), Some(n as u64));
    }
    let Some((read, place)) = free_whole(rt.alloc(), &table, &mut one, 0) else {
        assert!(rt; false, "there is no buffer");
        return Ok(());
    };
    assert_eq!(rt; place, 3);
    assert_eq!(rt; read.rows.as_slice(), [4, 3, 2].as_slice());
    assert_eq!(rt;
        read.pairs.as_slice(),
        [held(b'a', b'd'), held(b'x', b'x')].as_slice()
    );
    Ok(())
}
