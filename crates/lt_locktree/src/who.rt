//! Questions whose ranges stand in the way.
ghost use Rattle.std.specs.Prelude.{◌≡◌, ◌<◌, true, IfOk, IfErr};
ghost use Rattle.lt_seq.specs.declared.event.Deed.TheVariants.{Who};
ghost use Rattle.lt_forest.specs.Forest.{IsTree};
ghost use Rattle.lt_rows.specs.Nodes.{mode_of};
ghost use Rattle.lt_rows.specs.Handles.{knows, IsPassOf, IsSamePass};
ghost use Rattle.lt_tree.specs.States.{HoldsNone, SeesOn, IsRefused};
ghost use Rattle.lt_locktree.specs.Deeds.{ReachesDeed};
ghost use Rattle.lt_locktree.specs.Makes.{IsOf};

use crate::answers::Named;
use crate::asking::Asking;
use crate::buffer_who::who_of_buffer;
use crate::locktree::{Locktree, SPINS};
use crate::questions::ask_who;
use crate::tree_pass::TreePass;
use core::mem::replace_with;
use lt_ranges::KeyRange;
use lt_rows::{RowPass, RowTable};
use lt_seq::Fault;
use lt_tree::{Prepared, try_prepare};
use std::alloc::Global;

/// Asks who holds the range in Tree mode.
fn who_in_tree<'a>(
    alloc: Global,
    prepared: Prepared<'a>,
    asking: &Asking,
    as_txn: u64,
) -> (RowPass, Result<Named, Fault>)
    requires fresh { (knows prepared.pass).fresh ≡ true }
    requires tree_mode { IsTree (mode_of prepared.image.words) }
    requires asking { IsOf prepared.pass prepared.tree asking.now.range asking.now }
    ensures of { IsPassOf prepared.entry.table.now result.0 × IsSamePass prepared.entry.pass result.0 × HoldsNone (knows result.0) }
    ensures made { IfOk result.1 (λ n. ReachesDeed (knows prepared.entry.pass) (knows result.0) asking.now
        (Who asking.now.tree asking.now.range as_txn n.owners) n.place × (n.copy ≡ n.owners)) }
    ensures only { IfErr result.1 (λ _. SeesOn (knows prepared.entry.pass) (knows result.0)) }
    ensures refused { IfErr result.1 (IsRefused (knows prepared.entry.pass) (knows result.0)) }
{
    let locked = match prepared.acquire(alloc, &asking.range) {
        Ok(locked) => locked,
        Err((pass, fault)) => return (pass, Err(fault)),
    };
    match ask_who(alloc, locked, asking, as_txn) {
        Ok((pass, named)) => (pass, Ok(named)),
        Err(pass) => (pass, Err(Fault::OutOfMemory)),
    }
}

/// Asks who holds the range with the pass, which holds no row before nor afterwards.
fn serve_who(
    pass: RowPass,
    call: (Global, &RowTable, &Asking, u64),
) -> (RowPass, Result<Named, Fault>)
    requires of { IsPassOf call.1.now pass }
    requires fresh { (0 < pass.rights) × ((knows pass).fresh ≡ true) }
    requires none { HoldsNone (knows pass) }
    requires asking { IsOf pass call.2.now.tree call.2.now.range call.2.now × (call.2.now.tree < call.1.now.plan.trees) }
    ensures of { IsPassOf call.entry.1.now result.0 × IsSamePass pass result.0 × HoldsNone (knows result.0) }
    ensures made { IfOk result.1 (λ n. ReachesDeed (knows pass) (knows result.0) call.entry.2.now
        (Who call.entry.2.now.tree call.entry.2.now.range call.entry.3 n.owners) n.place × (n.copy ≡ n.owners)) }
    ensures only { IfErr result.1 (λ _. SeesOn (knows pass) (knows result.0)) }
    ensures refused { IfErr result.1 (IsRefused (knows pass) (knows result.0)) }
{
    let (alloc, table, asking, as_txn) = call;
    let prepared = match try_prepare(table, pass, asking.tree, SPINS) {
        Ok(prepared) => prepared,
        Err((pass, fault)) => return (pass, Err(fault)),
    };
    let anchor = prepared.anchor();
    if anchor.buffer_txn == 0 {
        return who_in_tree(alloc, prepared, asking, as_txn);
    }
    let mut pass = prepared.into_pass();
    let named = who_of_buffer(alloc, table, &mut pass, asking, as_txn, SPINS);
    (pass, named)
}

impl Locktree {
    ghost use Rattle.lt_locktree.specs.Calls.{sees, IsOfTable, StaysOf, Makes, Leaves};

    /// Asks whose ranges overlap a range, but those of the transaction `as_txn`. A buffer of another than that one ends.
    ///
    /// # Errors
    /// As those of `ask`.
    pub fn who(
        &self,
        pass: &mut TreePass,
        txn: u64,
        as_txn: u64,
        tree: u32,
        range: &KeyRange,
    ) -> Result<Named, Fault>
        requires of { IsOfTable self.now pass.old }
        requires right { 0 < (sees pass.old).rights }
        requires room { (sees pass.old).fresh ≡ true }
        requires tree { tree < self.now.rows.plan.trees }
        ensures of { StaysOf self.now pass.old pass.new }
        ensures made { IfOk result (λ n. Makes (sees pass.old) (sees pass.new) txn (Who tree range.now as_txn n.owners) n.place
            × (n.copy ≡ n.owners)) }
        ensures left { IfErr result (Leaves (sees pass.old) (sees pass.new)) }
    {
        let asking = Asking {
            pass: pass.number(),
            txn,
            tree,
            range: *range,
        };
        replace_with(
            &mut pass.pass,
            (self.alloc, &self.rows, &asking, as_txn),
            serve_who,
        )
    }
}
