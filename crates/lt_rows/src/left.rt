//! The pairs that are left in the words of a closed table.
ghost use Rattle.std.specs.Prelude.{◌≡◌, ◌<◌, ◌≤◌, ◌++◌, List, OnOk, IfOk};
ghost use Rattle.lt_rows.specs.declared.row_plan.RowPlan.{RowPlan};
ghost use Rattle.lt_seq.specs.Table.{held_in};
ghost use Rattle.lt_seq.specs.Passes.{held_from};
ghost use Rattle.lt_seq.specs.Table.{TreeState, tree_at};
ghost use Rattle.lt_forest.specs.Trees.{Tree, LeadsTo, pairs_in};
ghost use Rattle.lt_forest.specs.Forest.{IsChain, folded};
ghost use Rattle.lt_rows.specs.LastWords.{nodes_in, AllBelow, AreRows, LeadsToTree, LeadsToChain, IsLastForest};

use crate::last_words::LastWords;
use crate::row_plan::RowPlan;
use lt_seq::{Held, Pair, add_held, grant};
use std::alloc::{AllocError, Global};

/// Puts the pairs of a search tree behind others, in key order. A tree may be as deep as it has rows, so the rows whose left
/// side is gone into wait in a list.
fn add_tree(
    alloc: Global,
    last: &LastWords,
    tree: u32,
    top: u64,
    left: &mut Vec<Held>,
) -> Result<(), AllocError>
    requires { LeadsToTree last.now top }
    ensures { OnOk result ((t : Tree) → LeadsTo (nodes_in last.now) top t
        → left.new.items ≡ left.old.items ++ held_in tree (pairs_in (nodes_in last.now) t)) }
{
    let mut above: Vec<usize> = Vec::new(alloc);
    let mut link = top;
    loop {
        if link != 0 {
            let row = link as usize - 1;
            above.push(row)?;
            link = last.row(row).left();
        } else if let Some(row) = above.pop() {
            let image = last.row(row);
            left.push(Held {
                tree,
                owner: image.owner(),
                range: image.range(),
            })?;
            link = image.right();
        } else {
            return Ok(());
        }
    }
}

/// The rows of a chain, the first record's ahead.
fn chain_rows(alloc: Global, last: &LastWords, first: u64) -> Result<Vec<usize>, AllocError>
    requires { LeadsToChain last.now first }
    ensures { IfOk result (λ rows. IsChain (nodes_in last.now) first rows.items × AllBelow last.now.rows rows.items) }
{
    let mut rows = Vec::new(alloc);
    let mut link = first;
    while link != 0 {
        let row = link as usize - 1;
        rows.push(row)?;
        link = last.row(row).left();
    }
    Ok(rows)
}

/// The pairs of a chain: what its records grant to the transaction, from the last to the first.
fn chain_pairs(
    alloc: Global,
    last: &LastWords,
    txn: u64,
    rows: Vec<usize>,
) -> Result<Vec<Pair>, AllocError>
    requires { AllBelow last.now.rows rows.items }
    ensures { IfOk result (λ pairs. pairs.items ≡ folded txn (nodes_in last.now) rows.items) }
{
    let mut rows = rows;
    let mut pairs = Vec::new(alloc);
    while let Some(row) = rows.pop() {
        grant(&mut pairs, txn, &last.row(row).range())?;
    }
    Ok(pairs)
}

/// Puts the pairs that are left in a tree behind those of the trees below it.
fn add_left(
    alloc: Global,
    last: &LastWords,
    plan: &RowPlan,
    tree: u32,
    left: &mut Vec<Held>,
) -> Result<(), AllocError>
    requires tree { tree < plan.now.trees }
    requires forest { (state : List TreeState) × IsLastForest plan.now last.now state }
    ensures { OnOk result ((state : List TreeState) → IsLastForest plan.now last.now state
        → left.new.items ≡ left.old.items ++ held_in tree (tree_at state tree).pairs) }
{
    let anchor = last.row(tree as usize);
    if anchor.owner() == 0 {
        return add_tree(alloc, last, tree, anchor.left(), left);
    }
    let rows = chain_rows(alloc, last, anchor.left())?;
    let pairs = chain_pairs(alloc, last, anchor.owner(), rows)?;
    add_held(left, tree, &pairs)
}

/// The pairs that are left, by tree and left end.
pub(crate) fn left_of(
    alloc: Global,
    last: &LastWords,
    plan: &RowPlan,
) -> Result<Vec<Held>, AllocError>
    requires { (state : List TreeState) × IsLastForest plan.now last.now state }
    ensures { IfOk result (λ left. (state : List TreeState) → IsLastForest plan.now last.now state → left.items ≡ held_from 0 state) }
{
    let mut left = Vec::new(alloc);
    for tree in 0..plan.trees {
        add_left(alloc, last, plan, tree, &mut left)?;
    }
    Ok(left)
}
