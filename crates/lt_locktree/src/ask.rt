//! Asks for ranges of the table.
ghost use Rattle.std.specs.Prelude.{◌≡◌, ◌<◌, true, IfOk, IfErr};
ghost use Rattle.lt_seq.specs.declared.event.Deed.TheVariants.{Ask};
ghost use Rattle.lt_forest.specs.Forest.{IsTree};
ghost use Rattle.lt_rows.specs.Nodes.{mode_of};
ghost use Rattle.lt_rows.specs.Handles.{knows, IsPassOf, IsSamePass};
ghost use Rattle.lt_tree.specs.States.{HoldsNone, SeesOn, IsRefused};
ghost use Rattle.lt_locktree.specs.Deeds.{ReachesDeed};
ghost use Rattle.lt_locktree.specs.Makes.{IsOf};
ghost use Rattle.lt_locktree.specs.Serves.{BeginsNone};

use crate::answers::Asked;
use crate::asked_buffer::{add_to_buffer, begin_buffer};
use crate::asking::Asking;
use crate::buffer_ask::ask_of_buffer;
use crate::granting::ask_in_tree;
use crate::locktree::{Locktree, SPINS};
use crate::serving::{Serving, served_by};
use crate::tree_pass::TreePass;
use core::mem::replace_with;
use lt_ranges::KeyRange;
use lt_rows::{RowPass, RowTable};
use lt_seq::Fault;
use lt_tree::{Prepared, try_prepare};
use std::alloc::Global;

/// Asks in Tree mode, in a tree in which no buffer begins.
fn ask_tree<'a>(
    alloc: Global,
    prepared: Prepared<'a>,
    asking: &Asking,
) -> (RowPass, Result<Asked, Fault>)
    requires fresh { ((knows prepared.pass).fresh ≡ true) × ((knows prepared.pass).licensed ≡ true) }
    requires tree_mode { IsTree (mode_of prepared.image.words) }
    requires begins_none { BeginsNone (knows prepared.pass).plan.buffer prepared.image.words }
    requires asking { IsOf prepared.pass prepared.tree asking.now.range asking.now }
    ensures of { IsPassOf prepared.entry.table.now result.0 × IsSamePass prepared.entry.pass result.0 × HoldsNone (knows result.0) }
    ensures made { IfOk result.1 (λ a. ReachesDeed (knows prepared.entry.pass) (knows result.0) asking.now
        (Ask asking.now.tree asking.now.range a.reply) a.place × (a.copy ≡ a.reply)) }
    ensures only { IfErr result.1 (λ _. SeesOn (knows prepared.entry.pass) (knows result.0)) }
    ensures refused { IfErr result.1 (IsRefused (knows prepared.entry.pass) (knows result.0)) }
{
    let locked = match prepared.acquire(alloc, &asking.range) {
        Ok(locked) => locked,
        Err((pass, fault)) => return (pass, Err(fault)),
    };
    match ask_in_tree(alloc, locked, asking) {
        Ok((pass, asked)) => (pass, Ok(asked)),
        Err((pass, fault)) => (pass, Err(fault)),
    }
}

/// Asks with the pass, which holds no row before nor afterwards.
fn serve_ask(pass: RowPass, call: (Global, &RowTable, &Asking)) -> (RowPass, Result<Asked, Fault>)
    requires of { IsPassOf call.1.now pass }
    requires fresh { (0 < pass.rights) × ((knows pass).fresh ≡ true) × ((knows pass).licensed ≡ true) }
    requires none { HoldsNone (knows pass) }
    requires asking { IsOf pass call.2.now.tree call.2.now.range call.2.now × (call.2.now.tree < call.1.now.plan.trees) }
    requires txn { 0 < call.2.now.txn }
    ensures of { IsPassOf call.entry.1.now result.0 × IsSamePass pass result.0 × HoldsNone (knows result.0) }
    ensures made { IfOk result.1 (λ a. ReachesDeed (knows pass) (knows result.0) call.entry.2.now
        (Ask call.entry.2.now.tree call.entry.2.now.range a.reply) a.place × (a.copy ≡ a.reply)) }
    ensures only { IfErr result.1 (λ _. SeesOn (knows pass) (knows result.0)) }
    ensures refused { IfErr result.1 (IsRefused (knows pass) (knows result.0)) }
{
    let (alloc, table, asking) = call;
    let prepared = match try_prepare(table, pass, asking.tree, SPINS) {
        Ok(prepared) => prepared,
        Err((pass, fault)) => return (pass, Err(fault)),
    };
    match served_by(table.plan().buffer, &prepared.anchor(), asking.txn) {
        Serving::Tree => ask_tree(alloc, prepared, asking),
        Serving::Beginning => {
            let mut pass = prepared.into_pass();
            let asked = begin_buffer(table, &mut pass, asking);
            (pass, asked)
        }
        Serving::Own => {
            let mut pass = prepared.into_pass();
            let asked = add_to_buffer(table, &mut pass, asking);
            (pass, asked)
        }
        Serving::Ending => {
            let mut pass = prepared.into_pass();
            let asked = ask_of_buffer(alloc, table, &mut pass, asking, SPINS);
            (pass, asked)
        }
    }
}

impl Locktree {
    ghost use Rattle.lt_locktree.specs.Calls.{sees, IsOfTable, StaysOf, Makes, Leaves};

    /// Asks for a range for a transaction, from 1: it is buffered where a buffer of its own serves or begins, granted where nobody
    /// else's range overlaps, and held by those others else.
    ///
    /// # Errors
    /// `Busy` only where a row was met held by another pass, which never comes to a pass with all the rights; or want of memory. There is
    /// no event then, and the table is as before.
    pub fn ask(
        &self,
        pass: &mut TreePass,
        txn: u64,
        tree: u32,
        range: &KeyRange,
    ) -> Result<Asked, Fault>
        requires of { IsOfTable self.now pass.old }
        requires right { 0 < (sees pass.old).rights }
        requires room { ((sees pass.old).fresh ≡ true) × ((sees pass.old).licensed ≡ true) }
        requires txn { 0 < txn }
        requires tree { tree < self.now.rows.plan.trees }
        ensures of { StaysOf self.now pass.old pass.new }
        ensures made { IfOk result (λ a. Makes (sees pass.old) (sees pass.new) txn (Ask tree range.now a.reply) a.place
            × (a.copy ≡ a.reply)) }
        ensures left { IfErr result (Leaves (sees pass.old) (sees pass.new)) }
    {
        let asking = Asking {
            pass: pass.number(),
            txn,
            tree,
            range: *range,
        };
        replace_with(&mut pass.pass, (self.alloc, &self.rows, &asking), serve_ask)
    }
}
