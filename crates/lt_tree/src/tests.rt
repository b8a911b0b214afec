//! Searches of an empty tree, on one thread, and rows that are turned.
ghost use Rattle.std.specs.Prelude.{◌≡◌, [], IfOk, IfSome, true};
ghost use Rattle.lt_seq.specs.Yard.{IsPlan};
ghost use Rattle.lt_rows.specs.Plan.{with_marks};
ghost use Rattle.lt_rows.specs.Nodes.{node_of};
ghost use Rattle.lt_rows.specs.Handles.{knows, IsPassOf, IsSamePass};
ghost use Rattle.lt_tree.specs.States.{HoldsNone};

use crate::estimates::{Side, deeper_side, measure, re_estimate, relink, turn};
use crate::prepare::try_prepare;
use lt_ranges::KeyRange;
use lt_rows::{RowImage, RowPass, RowTable};
use lt_seq::{Fault, YardPlan};
use std::alloc::{AllocError, Global};
use std::test::Fail;

fn plan() -> YardPlan
    ensures { IsPlan result × (result.trees ≡ 2) × (result.passes ≡ 2) }
{
    YardPlan {
        trees: 2,
        limit: 4,
        buffer: 0,
        passes: 2,
        first: 0,
    }
}

/// A table of two passes, of which each has a right.
fn both(alloc: Global, plan: &YardPlan) -> Result<Option<(RowTable, RowPass, RowPass)>, AllocError>
    requires plan { IsPlan plan.now × (plan.now.passes ≡ 2) }
    ensures of { IfOk result (λ o. IfSome o (λ r. IsPassOf r.0 r.1 × IsPassOf r.0 r.2 × (r.0.plan ≡ with_marks plan.now []))) }
    ensures rights { IfOk result (λ o. IfSome o (λ r. (r.1.rights ≡ 1) × (r.2.rights ≡ 1))) }
    ensures none { IfOk result (λ o. IfSome o (λ r. HoldsNone (knows r.1) × HoldsNone (knows r.2))) }
{
    let (table, passes) = RowTable::build(alloc, plan)?;
    let mut passes = passes;
    let Some(mut two) = passes.pop() else {
        return Ok(None);
    };
    let Some(mut one) = passes.pop() else {
        return Ok(None);
    };
    let note = table.share(&mut one, 1);
    table.learn(&mut two, note);
    Ok(Some((table, one, two)))
}

/// Whether an event may come, and take a row.
fn is_licensed(table: &RowTable, pass: &mut RowPass) -> bool
    requires of { IsPassOf table.now pass.old }
    ensures of { IsPassOf table.now pass.new × IsSamePass pass.old pass.new }
    ensures licensed { result ≡ true → (knows pass.new).licensed ≡ true }
    ensures same { (knows pass.new).held ≡ (knows pass.old).held }
{
    let look = table.look(pass);
    look.place < 1 << 39 && look.used < table.plan().limit
}

#[test]
fn a_prepared_tree_is_given_back(rt: HostRuntime) -> Result<(), Fail> {
    let Some((table, one, two)) = both(rt.alloc(), &plan())? else {
        assert!(rt; false, "no passes");
        return Ok(());
    };
    let Ok(first) = try_prepare(&table, one, 1, 0) else {
        assert!(rt; false, "the anchor is held");
        return Ok(());
    };
    let anchor = first.anchor();
    assert!(rt; anchor.top == 0 && anchor.buffer_txn == 0 && anchor.score == 100);
    let _one = first.cancel();
    assert!(rt; try_prepare(&table, two, 1, 0).is_ok());
    Ok(())
}

#[test]
fn a_tree_is_prepared_by_one_pass_alone(rt: HostRuntime) -> Result<(), Fail> {
    let Some((table, one, two)) = both(rt.alloc(), &plan())? else {
        assert!(rt; false, "no passes");
        return Ok(());
    };
    let Ok(_first) = try_prepare(&table, one, 1, 3) else {
        assert!(rt; false, "the anchor is held");
        return Ok(());
    };
    match try_prepare(&table, two, 1, 3) {
        Ok(_) => assert!(rt; false, "the anchor is free"),
        Err((_, fault)) => assert!(rt; matches!(fault, Fault::Busy { row: 1, holder: 0 })),
    }
    Ok(())
}

#[test]
fn a_prepared_tree_is_busy_at_the_only_try(rt: HostRuntime) -> Result<(), Fail> {
    let Some((table, one, two)) = both(rt.alloc(), &plan())? else {
        assert!(rt; false, "no passes");
        return Ok(());
    };
    let Ok(_first) = try_prepare(&table, one, 0, 0) else {
        assert!(rt; false, "the anchor is held");
        return Ok(());
    };
    match try_prepare(&table, two, 0, 0) {
        Ok(_) => assert!(rt; false, "the anchor is free"),
        Err((_, fault)) => assert!(rt; matches!(fault, Fault::Busy { row: 0, holder: 0 })),
    }
    Ok(())
}

#[test]
fn a_search_of_an_empty_tree_holds_the_anchor(rt: HostRuntime) -> Result<(), Fail> {
    let Some((table, one, two)) = both(rt.alloc(), &plan())? else {
        assert!(rt; false, "no passes");
        return Ok(());
    };
    let Ok(first) = try_prepare(&table, one, 1, 0) else {
        assert!(rt; false, "the anchor is held");
        return Ok(());
    };
    if first.anchor().buffer_txn != 0 {
        assert!(rt; false, "the tree is a buffer");
        return Ok(());
    }
    let Ok(locked) = first.acquire(rt.alloc(), &KeyRange::whole()) else {
        assert!(rt; false, "the search is refused");
        return Ok(());
    };
    assert!(rt; locked.held() == 1);
    assert!(rt; locked.part().rows.is_empty() && locked.part().hangs.as_slice() == [0].as_slice());
    let _one = locked.release();
    assert!(rt; try_prepare(&table, two, 1, 0).is_ok());
    Ok(())
}

#[test]
fn a_search_takes_the_pools_anchor_and_gives_it_back(rt: HostRuntime) -> Result<(), Fail> {
    let Some((table, one, two)) = both(rt.alloc(), &plan())? else {
        assert!(rt; false, "no passes");
        return Ok(());
    };
    let Ok(first) = try_prepare(&table, one, 0, 0) else {
        assert!(rt; false, "the anchor is held");
        return Ok(());
    };
    if first.anchor().buffer_txn != 0 {
        assert!(rt; false, "the tree is a buffer");
        return Ok(());
    }
    let Ok(kept) = first.keep_anchor(rt.alloc(), &KeyRange::whole()) else {
        assert!(rt; false, "the search is refused");
        return Ok(());
    };
    let mut kept = kept;
    assert!(rt; kept.held() == 0);
    assert!(rt; kept.pool().is_ok());
    let Ok(second) = try_prepare(&table, two, 1, 0) else {
        assert!(rt; false, "the other anchor is held");
        return Ok(());
    };
    let _two = second.cancel();
    let _one = kept.release();
    Ok(())
}

#[test]
fn a_licensed_search_takes_the_pools_first_row(rt: HostRuntime) -> Result<(), Fail> {
    let Some((table, one, _two)) = both(rt.alloc(), &plan())? else {
        assert!(rt; false, "no passes");
        return Ok(());
    };
    let mut one = one;
    if !is_licensed(&table, &mut one) {
        assert!(rt; false, "there is no room");
        return Ok(());
    }
    let Ok(first) = try_prepare(&table, one, 0, 0) else {
        assert!(rt; false, "the anchor is held");
        return Ok(());
    };
    if first.anchor().buffer_txn != 0 {
        assert!(rt; false, "the tree is a buffer");
        return Ok(());
    }
    let Ok(kept) = first.keep_anchor(rt.alloc(), &KeyRange::whole()) else {
        assert!(rt; false, "the search is refused");
        return Ok(());
    };
    let mut kept = kept;
    let Ok(row) = kept.vacant() else {
        assert!(rt; false, "the pool is held");
        return Ok(());
    };
    assert!(rt; row == 3);
    assert!(rt; kept.image(row).left() == 5);
    let _one = kept.release();
    Ok(())
}

/// A row with these links and estimates.
fn image(row: u32, links: (u32, u32), estimates: (u64, u64)) -> RowImage
    ensures row { result.row ≡ row }
    ensures links { ((node_of result.words).left ≡ links.0) × ((node_of result.words).right ≡ links.1) }
{
    let bare = RowImage {
        row,
        words: [0; 21],
    };
    let linked = relink(relink(bare, Side::Left, links.0), Side::Right, links.1);
    let measured = re_estimate(&linked, Side::Left, estimates.0);
    re_estimate(&measured, Side::Right, estimates.1)
}

#[test]
fn a_row_is_turned_with_its_left_child(rt: HostRuntime) {
    let row = image(6, (6, 0), (3, 0));
    let child = image(5, (5, 8), (2, 1));
    assert!(rt; matches!(deeper_side(&row), Some(Side::Left)));
    let turned = turn(&row, &child, Side::Left);
    assert!(rt; turned.upper.row == 5 && turned.lower.row == 6);
    assert!(rt; turned.upper.words[17] == 5 && turned.upper.words[18] == 7);
    assert!(rt; turned.lower.words[17] == 8 && turned.lower.words[18] == 0);
    assert!(rt; turned.upper.words[19] == 2 && turned.upper.words[20] == 2);
    assert!(rt; turned.lower.words[19] == 1 && turned.lower.words[20] == 0);
    assert!(rt; deeper_side(&turned.upper).is_none());
}

#[test]
fn a_row_is_turned_with_its_right_child(rt: HostRuntime) {
    let row = image(4, (0, 6), (0, 2));
    let child = image(5, (0, 7), (0, 1));
    assert!(rt; matches!(deeper_side(&row), Some(Side::Right)));
    let turned = turn(&row, &child, Side::Right);
    assert!(rt; turned.upper.words[17] == 5 && turned.upper.words[18] == 7);
    assert!(rt; turned.lower.words[17] == 0 && turned.lower.words[18] == 0);
    assert!(rt; turned.upper.words[19] == 1 && turned.upper.words[20] == 1);
    assert!(rt; turned.lower.words[19] == 0 && turned.lower.words[20] == 0);
}

#[test]
fn a_row_is_measured_by_its_child_and_an_anchor_is_not(rt: HostRuntime) {
    let row = image(6, (6, 0), (0, 0));
    let child = image(5, (5, 8), (2, 1));
    match measure(1, &row, &child) {
        Some(now) => assert!(rt; now.words[19] == 3 && now.words[20] == 0),
        None => assert!(rt; false, "the row has the estimate"),
    }
    assert!(rt; measure(6, &row, &child).is_none());
    assert!(rt; measure(1, &image(6, (6, 0), (3, 7)), &child).is_none());
}
