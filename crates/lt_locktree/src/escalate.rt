//! Joins of trees.
ghost use Rattle.std.specs.Prelude.{◌≡◌, ◌<◌, true, IfOk, IfErr};
ghost use Rattle.lt_ranges.specs.Interval.{whole};
ghost use Rattle.lt_forest.specs.Forest.{IsTree};
ghost use Rattle.lt_rows.specs.Nodes.{mode_of};
ghost use Rattle.lt_rows.specs.Handles.{knows, IsPassOf, IsSamePass};
ghost use Rattle.lt_tree.specs.States.{HoldsNone, OnlyRows, IsRefused};
ghost use Rattle.lt_locktree.specs.Deeds.{MakesJoin};
ghost use Rattle.lt_locktree.specs.Makes.{IsOf};

use crate::asking::Asking;
use crate::buffer_join::join_of_buffer;
use crate::locktree::{Locktree, SPINS};
use crate::rejoining::join_tree;
use crate::tree_pass::TreePass;
use core::mem::replace_with;
use lt_ranges::KeyRange;
use lt_rows::{RowPass, RowTable};
use lt_seq::{Fault, JoinNote};
use lt_tree::{Prepared, try_prepare};
use std::alloc::Global;

/// Joins a tree in Tree mode, whose anchor is held.
fn join_prepared<'a>(
    alloc: Global,
    prepared: Prepared<'a>,
    asking: &Asking,
) -> (RowPass, Result<JoinNote, Fault>)
    requires fresh { (knows prepared.pass).fresh ≡ true }
    requires tree_mode { IsTree (mode_of prepared.image.words) }
    requires asking { IsOf prepared.pass prepared.tree whole asking.now }
    ensures of { IsPassOf prepared.entry.table.now result.0 × IsSamePass prepared.entry.pass result.0 × HoldsNone (knows result.0) }
    ensures made { IfOk result.1 (MakesJoin (knows prepared.entry.pass) (knows result.0) asking.now) }
    ensures only { IfErr result.1 (λ _. OnlyRows (knows prepared.entry.pass) (knows result.0)) }
    ensures refused { IfErr result.1 (IsRefused (knows prepared.entry.pass) (knows result.0)) }
{
    let locked = match prepared.keep_anchor(alloc, &asking.range) {
        Ok(locked) => locked,
        Err((pass, fault)) => return (pass, Err(fault)),
    };
    match join_tree(alloc, locked, asking) {
        Ok((pass, note)) => (pass, Ok(note)),
        Err((pass, fault)) => (pass, Err(fault)),
    }
}

/// Joins a tree with the pass, which holds no row before nor afterwards.
fn serve_join(
    pass: RowPass,
    call: (Global, &RowTable, &Asking),
) -> (RowPass, Result<JoinNote, Fault>)
    requires of { IsPassOf call.1.now pass }
    requires fresh { (0 < pass.rights) × ((knows pass).fresh ≡ true) }
    requires none { HoldsNone (knows pass) }
    requires asking { IsOf pass call.2.now.tree whole call.2.now × (call.2.now.tree < call.1.now.plan.trees) }
    ensures of { IsPassOf call.entry.1.now result.0 × IsSamePass pass result.0 × HoldsNone (knows result.0) }
    ensures made { IfOk result.1 (MakesJoin (knows pass) (knows result.0) call.entry.2.now) }
    ensures only { IfErr result.1 (λ _. OnlyRows (knows pass) (knows result.0)) }
    ensures refused { IfErr result.1 (IsRefused (knows pass) (knows result.0)) }
{
    let (alloc, table, asking) = call;
    let prepared = match try_prepare(table, pass, asking.tree, SPINS) {
        Ok(prepared) => prepared,
        Err((pass, fault)) => return (pass, Err(fault)),
    };
    if prepared.anchor().buffer_txn == 0 {
        return join_prepared(alloc, prepared, asking);
    }
    let mut pass = prepared.into_pass();
    let note = join_of_buffer(alloc, table, &mut pass, asking, SPINS);
    (pass, note)
}

impl Locktree {
    ghost use Rattle.lt_locktree.specs.Calls.{sees, IsOfTable, StaysOf, Joins, Leaves};

    /// Joins each longest run of neighbours of one owner in a tree, between which no mark lies, into one range. The answer is the join's
    /// note.
    ///
    /// # Errors
    /// As those of `ask`.
    pub fn escalate(&self, pass: &mut TreePass, txn: u64, tree: u32) -> Result<JoinNote, Fault>
        requires of { IsOfTable self.now pass.old }
        requires right { 0 < (sees pass.old).rights }
        requires room { (sees pass.old).fresh ≡ true }
        requires tree { tree < self.now.rows.plan.trees }
        ensures of { StaysOf self.now pass.old pass.new }
        ensures made { IfOk result (Joins (sees pass.old) (sees pass.new) txn tree) }
        ensures left { IfErr result (Leaves (sees pass.old) (sees pass.new)) }
    {
        let asking = Asking {
            pass: pass.number(),
            txn,
            tree,
            range: KeyRange::whole(),
        };
        replace_with(
            &mut pass.pass,
            (self.alloc, &self.rows, &asking),
            serve_join,
        )
    }
}
