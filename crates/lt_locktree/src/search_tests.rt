//! Searches over the rows that asks left, beside the calls of another pass.
ghost use Rattle.std.specs.Prelude.{◌≡◌, ◌<◌, IfOk, IfSome};
ghost use Rattle.lt_rows.specs.Handles.{IsPassOf, IsSamePass};
ghost use Rattle.lt_locktree.specs.Calls.{IsOfTable};

use crate::locktree::Locktree;
use crate::test_calls::{Answer, Call, plan, point, said, two_passes};
use crate::tree_pass::TreePass;
use lt_forest::Part;
use lt_tree::{Prepared, try_prepare};
use std::alloc::{AllocError, Global};
use std::test::Fail;

/// A table of one tree, in which the first of two passes was granted m, f and t for the first transaction, in this order.
fn three_asked(alloc: Global) -> Result<Option<(Locktree, TreePass, TreePass)>, AllocError>
    ensures of { IfOk result (λ o. IfSome o (λ r. IsOfTable r.0 r.1 × IsOfTable r.0 r.2 × (r.0.rows.plan.trees ≡ 1))) }
{
    let Some((table, mut one, two)) = two_passes(alloc, &plan(1, 0, 2, 0))? else {
        return Ok(None);
    };
    let said = [
        said(&table, &mut one, Call::Ask(1, 0, b'm')),
        said(&table, &mut one, Call::Ask(1, 0, b'f')),
        said(&table, &mut one, Call::Ask(1, 0, b't')),
    ];
    if said != [Answer::Granted(0), Answer::Granted(1), Answer::Granted(2)] {
        return Ok(None);
    }
    Ok(Some((table, one, two)))
}

/// The tree's anchor, taken by a pass.
fn prepared<'a>(table: &'a Locktree, pass: TreePass) -> Option<Prepared<'a>>
    requires of { IsOfTable table.now pass × (0 < table.now.rows.plan.trees) }
{
    let rows = pass.into_rows();
    if rows.rights() == 0 {
        return None;
    }
    try_prepare(table.table(), rows, 0, 64).ok()
}

/// Whether a part has these rows, and these links between them.
fn is_part(part: &Part, rows: &[u32], hangs: &[u32]) -> bool {
    part.rows.len() == rows.len()
        && part
            .rows
            .iter()
            .zip(rows)
            .all(|(row, number)| row.row == *number)
        && part.hangs.as_slice() == hangs
}

#[test]
fn a_search_that_holds_a_row_stops_only_those_who_need_it(rt: HostRuntime) -> Result<(), Fail> {
    let alloc = rt.alloc();
    let Some((table, one, mut two)) = three_asked(alloc)? else {
        assert!(rt; false, "not all are granted");
        return Ok(());
    };
    let Some(first) = prepared(&table, one) else {
        assert!(rt; false, "the anchor is held");
        return Ok(());
    };
    if first.anchor().buffer_txn != 0 {
        assert!(rt; false, "the tree is a buffer");
        return Ok(());
    }
    let Ok(locked) = first.acquire(alloc, &point(b'g')) else {
        assert!(rt; false, "the search is refused");
        return Ok(());
    };
    assert_eq!(rt; locked.held(), 3);
    assert_eq!(rt;
        said(&table, &mut two, Call::Ask(2, 0, b'u')),
        Answer::Granted(3)
    );
    assert_eq!(rt;
        said(&table, &mut two, Call::Ask(2, 0, b'e')),
        Answer::Busy(3, 0)
    );
    let look = table.look(&mut two);
    assert_eq!(rt; (look.place, look.used), (4, 4));
    Ok(())
}

#[test]
fn a_part_of_the_top_row_is_widened_by_its_left_child(rt: HostRuntime) -> Result<(), Fail> {
    let alloc = rt.alloc();
    let Some((table, one, _two)) = three_asked(alloc)? else {
        assert!(rt; false, "not all are granted");
        return Ok(());
    };
    let Some(first) = prepared(&table, one) else {
        assert!(rt; false, "the anchor is held");
        return Ok(());
    };
    if first.anchor().buffer_txn != 0 {
        assert!(rt; false, "the tree is a buffer");
        return Ok(());
    }
    let Ok(mut locked) = first.acquire(alloc, &point(b'm')) else {
        assert!(rt; false, "the search is refused");
        return Ok(());
    };
    assert_eq!(rt; locked.held(), 0);
    assert!(rt; is_part(locked.part(), &[2], &[4, 5]));
    if locked.part().hangs.is_empty() || locked.part().hangs[0] == 0 {
        assert!(rt; false, "no left child");
        return Ok(());
    }
    assert_eq!(rt; locked.widen(0), Ok(()));
    assert!(rt; is_part(locked.part(), &[3, 2], &[0, 0, 5]));
    Ok(())
}

#[test]
fn a_search_that_keeps_the_anchor_takes_the_path_below_it(rt: HostRuntime) -> Result<(), Fail> {
    let alloc = rt.alloc();
    let Some((table, one, _two)) = three_asked(alloc)? else {
        assert!(rt; false, "not all are granted");
        return Ok(());
    };
    let Some(first) = prepared(&table, one) else {
        assert!(rt; false, "the anchor is held");
        return Ok(());
    };
    if first.anchor().buffer_txn != 0 {
        assert!(rt; false, "the tree is a buffer");
        return Ok(());
    }
    let Ok(kept) = first.keep_anchor(alloc, &point(b'g')) else {
        assert!(rt; false, "the search is refused");
        return Ok(());
    };
    assert_eq!(rt; kept.held(), 0);
    assert!(rt; is_part(kept.part(), &[3, 2], &[0, 0, 5]));
    Ok(())
}
