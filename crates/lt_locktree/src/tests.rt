//! Asks, questions and frees, by one pass.
ghost use Rattle.std.specs.Prelude.{◌≡◌, ◌<◌, [], IfOk, IfSome, true};
ghost use Rattle.lt_seq.specs.Yard.{IsPlan};
ghost use Rattle.lt_rows.specs.Plan.{with_marks};
ghost use Rattle.lt_locktree.specs.Calls.{sees, IsOfTable, StaysOf};

use crate::locktree::Locktree;
use crate::tree_pass::TreePass;
use lt_ranges::{Key, KeyRange};
use lt_seq::{Reply, YardPlan};
use std::alloc::{AllocError, Global};
use std::test::Fail;

fn plan(buffer: u64) -> YardPlan
    requires { buffer < 3 }
    ensures { IsPlan result × (result.trees ≡ 2) }
{
    YardPlan {
        trees: 2,
        limit: 4,
        buffer,
        passes: 1,
        first: 0,
    }
}

/// A table without marks, with its one pass.
pub(crate) fn one_pass(
    alloc: Global,
    plan: &YardPlan,
) -> Result<Option<(Locktree, TreePass)>, AllocError>
    requires plan { IsPlan plan.now }
    ensures of { IfOk result (λ o. IfSome o (λ r. IsOfTable r.0 r.1 × (r.0.rows.plan ≡ with_marks plan.now []))) }
{
    one_pass_cut(alloc, plan, Vec::new(alloc))
}

/// A table whose joins stop at these marks, with its one pass.
pub(crate) fn one_pass_cut(
    alloc: Global,
    plan: &YardPlan,
    marks: Vec<Key>,
) -> Result<Option<(Locktree, TreePass)>, AllocError>
    requires plan { IsPlan plan.now }
    ensures of { IfOk result (λ o. IfSome o (λ r. IsOfTable r.0 r.1 × (r.0.rows.plan ≡ with_marks plan.now marks.items))) }
{
    let (table, passes) = Locktree::build_cut(alloc, plan, marks)?;
    let mut passes = passes;
    match passes.pop() {
        Some(pass) => Ok(Some((table, pass))),
        None => Ok(None),
    }
}

/// Whether the pass may make an event, and take a row.
pub(crate) fn may_ask(table: &Locktree, pass: &mut TreePass) -> bool
    requires of { IsOfTable table.now pass.old }
    ensures of { StaysOf table.now pass.old pass.new }
    ensures room { result ≡ true → ((sees pass.new).fresh ≡ true) × ((sees pass.new).licensed ≡ true) × (0 < (sees pass.new).rights) }
{
    let look = table.look(pass);
    look.place < 1 << 39 && look.used < table.plan().limit && pass.rights() > 0
}

/// What an ask for the range comes to.
pub(crate) fn asked(
    table: &Locktree,
    pass: &mut TreePass,
    txn: u64,
    range: &KeyRange,
) -> Option<Reply>
    requires of { IsOfTable table.now pass.old × (0 < table.now.rows.plan.trees) }
    requires txn { 0 < txn }
    ensures of { StaysOf table.now pass.old pass.new }
{
    if !may_ask(table, pass) {
        return None;
    }
    match table.ask(pass, txn, 0, range) {
        Ok(asked) => Some(asked.copy),
        Err(_) => None,
    }
}

#[test]
fn an_ask_is_granted_and_held_until_the_range_is_freed(rt: HostRuntime) -> Result<(), Fail> {
    let Some((table, pass)) = one_pass(rt.alloc(), &plan(0))? else {
        assert!(rt; false, "no pass");
        return Ok(());
    };
    let mut pass = pass;
    assert!(rt;
        matches!(
            asked(&table, &mut pass, 1, &KeyRange::whole()),
            Some(Reply::Granted)
        )
    );
    match asked(&table, &mut pass, 2, &KeyRange::whole()) {
        Some(Reply::HeldBy(owners)) => assert!(rt; owners.as_slice() == [1].as_slice()),
        _ => assert!(rt; false, "it is not held"),
    }
    if may_ask(&table, &mut pass) {
        match table.who(&mut pass, 2, 2, 0, &KeyRange::whole()) {
            Ok(named) => assert!(rt; named.place == 2 && named.owners.as_slice() == [1].as_slice()),
            Err(_) => assert!(rt; false, "no answer"),
        }
    }
    if may_ask(&table, &mut pass) {
        match table.free(&mut pass, 1, 0, &KeyRange::whole(), true) {
            Ok(freed) => assert!(rt; freed == (3, 1)),
            Err(_) => assert!(rt; false, "no answer"),
        }
    }
    assert!(rt;
        matches!(
            asked(&table, &mut pass, 2, &KeyRange::whole()),
            Some(Reply::Granted)
        )
    );
    Ok(())
}

#[test]
fn asks_of_a_lone_transaction_go_into_its_buffer(rt: HostRuntime) -> Result<(), Fail> {
    let Some((table, pass)) = one_pass(rt.alloc(), &plan(2))? else {
        assert!(rt; false, "no pass");
        return Ok(());
    };
    let mut pass = pass;
    assert!(rt;
        matches!(
            asked(&table, &mut pass, 1, &KeyRange::whole()),
            Some(Reply::Buffered)
        )
    );
    assert!(rt;
        matches!(
            asked(&table, &mut pass, 1, &KeyRange::whole()),
            Some(Reply::Buffered)
        )
    );
    Ok(())
}
