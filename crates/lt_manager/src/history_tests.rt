//! What two threads did side by side, once more in the plain table, call by call.
ghost use Rattle.std.specs.Prelude.{◌≡◌, ◌<◌, ◌≤◌, IfOk};
ghost use Rattle.lt_seq.specs.Yard.{IsPlan, origin_of};
ghost use Rattle.lt_manager.specs.Views.{view_of, IsPassOfTable};

use crate::manager::Manager;
use crate::manager_pass::ManagerPass;
use crate::tests::{both, close_both, point};
use lt_seq::{Closed, Deed, Event, Fault, Pass, Receipt, SeqYard, Yard, YardPlan};
use std::alloc::{AllocError, Global};
use std::test::Fail;
use std::thread::{Threads, join};

/// How many calls a thread makes.
const CALLS: u32 = 2000;

fn plan(trees: u32, passes: u32) -> YardPlan
    requires trees { (1 ≤ trees) × (trees ≤ 2) }
    requires passes { (1 ≤ passes) × (passes ≤ 2) }
    ensures plan { IsPlan result }
    ensures sizes { (result.trees ≡ trees) × (result.passes ≡ passes) }
{
    YardPlan {
        trees,
        limit: 1000,
        buffer: 0,
        passes,
        first: 0,
    }
}

/// The call of this number in a tree: of eight, four ask, two free, one is a question and one a join.
fn call(
    yard: &Manager,
    pass: &mut ManagerPass,
    txn: u64,
    tree: u32,
    number: u32,
) -> Result<Receipt, Fault>
    requires of { IsPassOfTable yard.now.tree pass.old }
    requires right { 1 ≤ (view_of pass.old).rights }
    requires tree { tree < yard.now.tree.rows.plan.trees }
    requires txn { 1 ≤ txn }
    ensures of { IsPassOfTable yard.now.tree pass.new }
    ensures number { (view_of pass.new).number ≡ (view_of pass.old).number }
    ensures rights { (view_of pass.new).rights ≡ (view_of pass.old).rights }
{
    let letter = point(b'a' + (number % 26) as u8);
    match number % 8 {
        0..=3 => yard.ask(pass, txn, tree, &letter, false),
        4 => yard.who(pass, txn, txn, tree, &letter),
        5 => yard.free(pass, txn, tree, &letter, true),
        6 => yard.free(pass, txn, tree, &letter, false),
        _ => yard.escalate(pass, txn, tree),
    }
}

/// Makes calls as a transaction, three in a tree and then three in the next one, and counts those that made an event.
fn call_all(yard: &Manager, pass: ManagerPass, txn: u64, trees: u32) -> (ManagerPass, u64)
    requires of { IsPassOfTable yard.now.tree pass }
    requires right { 1 ≤ (view_of pass).rights }
    requires trees { (1 ≤ trees) × (trees ≡ yard.now.tree.rows.plan.trees) }
    requires txn { 1 ≤ txn }
    ensures of { IsPassOfTable yard.now.tree result.0 }
    ensures number { (view_of result.0).number ≡ (view_of pass).number }
    ensures rights { (view_of result.0).rights ≡ (view_of pass).rights }
{
    let mut pass = pass;
    let mut made: u64 = 0;
    for number in 0..CALLS {
        let tree = number / 3 % trees;
        if call(yard, &mut pass, txn, tree, number).is_ok() {
            made = made.wrapping_add(1);
        }
    }
    (pass, made)
}

/// What two threads leave that make their calls side by side, and how many events they counted.
fn both_called<R: Threads + Sync>(
    rt: &R,
    alloc: Global,
    plan: &YardPlan,
) -> Result<(Closed, u64), AllocError>
    requires plan { IsPlan plan.now × (plan.now.passes ≡ 2) }
{
    let (yard, one, two) = both(alloc, plan)?;
    let trees = plan.trees;
    let ((one, first), (two, second)) = join(
        rt,
        || -> (ManagerPass, u64)
            requires { IsPassOfTable yard.tree one × (1 ≤ (view_of one).rights) × (1 ≤ trees) × (trees ≡ yard.tree.rows.plan.trees) }
            ensures { IsPassOfTable yard.tree result.0 × ((view_of result.0).number ≡ (view_of one).number)
                × ((view_of result.0).rights ≡ (view_of one).rights) }
        { call_all(&yard, one, 1, trees) },
        || -> (ManagerPass, u64)
            requires { IsPassOfTable yard.tree two × (1 ≤ (view_of two).rights) × (1 ≤ trees) × (trees ≡ yard.tree.rows.plan.trees) }
            ensures { IsPassOfTable yard.tree result.0 × ((view_of result.0).number ≡ (view_of two).number)
                × ((view_of result.0).rights ≡ (view_of two).rights) }
        { call_all(&yard, two, 2, trees) },
    );
    let closed = close_both(alloc, yard, one, two)?;
    Ok((closed, first.wrapping_add(second)))
}

/// All receipts in the order of their places.
fn by_place(alloc: Global, lists: Vec<Vec<Receipt>>) -> Result<Vec<Receipt>, AllocError> {
    let mut all = Vec::new(alloc);
    for list in lists {
        let mut list = list;
        all.append(&mut list)?;
    }
    all.sort_by_key(|receipt| receipt.place)?;
    Ok(all)
}

/// Makes the call of an event once more. A transaction that is named 0 is taken for 1.
fn again<Y: Yard>(yard: &Y, pass: &mut Y::Pass, trees: u32, event: &Event) -> Result<Receipt, Fault>
    requires of { Y.Pass.origin pass.old ≡ origin_of (Y.identity yard.now) (Y.setting yard.now) }
    requires right { 1 ≤ (Y.Pass.view pass.old).rights }
    requires trees { (1 ≤ trees) × (trees ≡ (Y.setting yard.now).plan.trees) }
    ensures of { Y.Pass.origin pass.new ≡ origin_of (Y.identity yard.now) (Y.setting yard.now) }
    ensures number { (Y.Pass.view pass.new).number ≡ (Y.Pass.view pass.old).number }
    ensures rights { (Y.Pass.view pass.new).rights ≡ (Y.Pass.view pass.old).rights }
{
    let txn = event.txn.max(1);
    match &event.deed {
        Deed::Ask { tree, range, .. } => yard.ask(pass, txn, *tree % trees, range, false),
        Deed::Free {
            tree,
            range,
            first,
            ..
        } => yard.free(pass, txn, *tree % trees, range, *first),
        Deed::Who {
            tree,
            range,
            as_txn,
            ..
        } => yard.who(pass, txn, (*as_txn).max(1), *tree % trees, range),
        Deed::Join { tree, .. } => yard.escalate(pass, txn, *tree % trees),
    }
}

/// Whether the call has the same place and answer as before. The plain table has one pass alone.
fn is_same(receipt: &Receipt, answer: &Result<Receipt, Fault>) -> bool {
    match answer {
        Ok(again) => {
            again.place == receipt.place
                && again.event.txn == receipt.event.txn
                && again.event.deed == receipt.event.deed
        }
        Err(_) => false,
    }
}

/// Makes the calls of a history once more, in a fresh table of one pass: the first place at which the answer is another one, and
/// what is left.
fn replayed<Y: Yard>(
    alloc: Global,
    plan: &YardPlan,
    history: &[Receipt],
) -> Result<(Option<u64>, Closed), AllocError>
    requires plan { IsPlan plan.now }
    requires one { plan.now.passes ≡ 1 }
    requires served { 1 ≤ Y.MOST_PASSES }
{
    let (yard, mut passes) = Y::build(alloc, plan)?;
    let Some(mut pass) = passes.pop() else {
        unreachable!();
    };
    let mut other = None;
    for receipt in history {
        let answer = again(&yard, &mut pass, plan.trees, &receipt.event);
        if other.is_none() && !is_same(receipt, &answer) {
            other = Some(receipt.place);
        }
    }
    passes.push(pass)?;
    let closed = yard.close(alloc, passes)?;
    Ok((other, closed))
}

/// By place, the plain table answers each call the same, and leaves the same.
#[test]
fn what_two_threads_do_is_one_history_of_the_plain_table(rt: HostRuntime) -> Result<(), Fail> {
    let alloc = rt.alloc();
    for trees in 1..=2u32 {
        let (closed, made) = both_called(&rt, alloc, &plan(trees, 2))?;
        let Closed {
            lists,
            places,
            used,
            left,
        } = closed;
        assert_eq!(rt; places, made, "in {trees} trees");
        assert!(rt; made > 0, "in {trees} trees");
        let history = by_place(alloc, lists)?;
        let (other, plain) = replayed::<SeqYard>(alloc, &plan(trees, 1), &history)?;
        assert_eq!(rt; other, None, "in {trees} trees");
        assert_eq!(rt;
            (plain.places, plain.used),
            (places, used),
            "in {trees} trees"
        );
        assert_eq!(rt; plain.left.as_slice(), left.as_slice(), "in {trees} trees");
    }
    Ok(())
}
