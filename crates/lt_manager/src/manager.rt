//! The lock table as a yard.
ghost use Rattle.std.specs.Prelude.{◌≡◌, map, IfOk};
ghost use Rattle.std.specs.List.{AllByRecursion};
ghost use Rattle.lt_seq.specs.Passes.{opening_passes};
ghost use Rattle.lt_seq.specs.Yard.{IsPlan};
ghost use Rattle.lt_rows.specs.Plan.{setting_of};
ghost use Rattle.lt_manager.specs.Views.{origin_at, origin_in, view_of};

use crate::building::bare_passes;
use crate::closing;
use crate::manager_note::ManagerNote;
use crate::manager_pass::ManagerPass;
use lt_barrier::Barrier;
use lt_locktree::Locktree;
use lt_ranges::KeyRange;
use lt_seq::{Closed, Fault, JoinNote, Look, Receipt, Yard, YardPlan};
use std::alloc::{AllocError, Global};

/// The lock table that threads share, for up to 17 passes. One whose joins stop at marks keeps the barrier that has them.
///
/// It is busy only where a row was met held by another pass, which never comes to a pass that has all the rights.
#[derive(Drop)]
pub struct Manager<B = ()> {
    tree: Locktree,
    alloc: Global,
    _kept: Option<B>,
}

/// A table could not be built for want of memory. The barrier is given back.
#[derive(Drop)]
pub struct NotBuilt {
    pub barrier: Box<dyn Barrier>,
}

/// The rows of a table with the marks of a barrier, and its passes.
fn build_parts(
    alloc: Global,
    plan: &YardPlan,
    barrier: &dyn Barrier,
) -> Result<(Locktree, Vec<ManagerPass>), AllocError>
    requires plan { IsPlan plan.now }
    ensures setting { IfOk result (λ r. setting_of r.0.rows.plan ≡ record { plan = plan.now; marks = marks barrier.now }) }
    ensures of { IfOk result (λ r. AllByRecursion (λ p. origin_in p ≡ origin_at r.0) r.1.items) }
    ensures passes { IfOk result (λ r. map view_of r.1.items ≡ opening_passes plan.now.passes) }
{
    let marks = barrier.list()?;
    let (tree, passes) = Locktree::build_cut(alloc, plan, marks)?;
    let passes = bare_passes(alloc, passes, &tree)?;
    Ok((tree, passes))
}

impl Manager<Box<dyn Barrier>> {
    ghost use Rattle.std.specs.Prelude.{◌≡◌, ◌≤◌, map, IfOk, IfErr};
    ghost use Rattle.std.specs.List.{AllByRecursion};
    ghost use Rattle.lt_seq.specs.Passes.{opening_passes};
    ghost use Rattle.lt_seq.specs.Yard.{IsPlan};
    ghost use Rattle.lt_rows.specs.Plan.{setting_of};
    ghost use Rattle.lt_manager.specs.Views.{origin_at, origin_in, view_of};

    /// As `build`, of a table whose joins stop at the marks of the barrier, which it keeps as long as it lives.
    ///
    /// # Errors
    /// Want of memory alone.
    pub fn build_cut(
        alloc: Global,
        plan: &YardPlan,
        barrier: Box<dyn Barrier>,
    ) -> Result<(Manager<Box<dyn Barrier>>, Vec<ManagerPass>), NotBuilt>
        requires plan { IsPlan plan.now }
        requires passes { plan.now.passes ≤ 17 }
        ensures setting { IfOk result (λ r. setting_of r.0.tree.rows.plan ≡ record { plan = plan.now; marks = marks barrier }) }
        ensures of { IfOk result (λ r. AllByRecursion (λ p. origin_in p ≡ origin_at r.0.tree) r.1.items) }
        ensures passes { IfOk result (λ r. map view_of r.1.items ≡ opening_passes plan.now.passes) }
        ensures refused { IfErr result (λ n. n.barrier ≡ barrier) }
    {
        let Ok((tree, passes)) = build_parts(alloc, plan, &*barrier) else {
            return Err(NotBuilt { barrier });
        };
        let manager = Manager {
            tree,
            alloc,
            _kept: Some(barrier),
        };
        Ok((manager, passes))
    }
}

impl<B: Send + Sync + Drop> Yard for Manager<B> {
    ghost use Rattle.std.specs.Prelude.{◌≡◌, map, IfOk};
    ghost use Rattle.std.specs.List.{AllByRecursion};
    ghost use Rattle.lt_rows.specs.Plan.{setting_of};
    ghost use Rattle.lt_seq.specs.Passes.{AreAll, IsRest, front_of_first};
    ghost use Rattle.lt_manager.specs.Views.{identity_of, origin_at, origin_in, view_of};

    type Pass = ManagerPass;

    type Note = ManagerNote;

    const MOST_PASSES: u32 = 17;

    ghost MOST_PASSES = { 17 };

    ghost identity = { λ m. identity_of m.tree.rows.table.shared.table_id };

    ghost setting = { λ m. setting_of m.tree.rows.plan };

    fn build(alloc: Global, plan: &YardPlan) -> Result<(Self, Vec<ManagerPass>), AllocError> {
        let (tree, passes) = Locktree::build(alloc, plan)?;
        let passes = bare_passes(alloc, passes, &tree)?;
        let manager = Manager {
            tree,
            alloc,
            _kept: None,
        };
        Ok((manager, passes))
    }

    fn look(&self, pass: &mut ManagerPass) -> Look {
        pass.look(&self.tree)
    }

    fn ask(
        &self,
        pass: &mut ManagerPass,
        txn: u64,
        tree: u32,
        range: &KeyRange,
        big: bool,
    ) -> Result<Receipt, Fault> {
        pass.ask(&self.tree, txn, tree, range, big)
    }

    fn free(
        &self,
        pass: &mut ManagerPass,
        txn: u64,
        tree: u32,
        range: &KeyRange,
        first: bool,
    ) -> Result<Receipt, Fault> {
        pass.free(&self.tree, txn, tree, range, first)
    }

    fn who(
        &self,
        pass: &mut ManagerPass,
        txn: u64,
        as_txn: u64,
        tree: u32,
        range: &KeyRange,
    ) -> Result<Receipt, Fault> {
        pass.who(&self.tree, txn, as_txn, tree, range)
    }

    fn escalate(&self, pass: &mut ManagerPass, txn: u64, tree: u32) -> Result<Receipt, Fault> {
        pass.join(&self.tree, txn, tree)
    }

    fn take_notes(&self, pass: &mut ManagerPass) -> Vec<JoinNote> {
        pass.take_notes(self.alloc)
    }

    fn share(&self, pass: &mut ManagerPass, rights: u32) -> ManagerNote {
        pass.share(&self.tree, rights)
    }

    fn learn(&self, pass: &mut ManagerPass, note: ManagerNote) {
        pass.learn(&self.tree, note);
    }

    fn close(self, alloc: Global, passes: Vec<ManagerPass>) -> Result<Closed, AllocError>
        requires of { AllByRecursion (λ p. origin_in p ≡ origin_at self.tree) passes.items }
        requires all { AreAll (setting_of self.tree.rows.plan) (map view_of passes.items) }
        ensures rest { IfOk result (IsRest (setting_of self.tree.rows.plan) (front_of_first (map view_of passes.items))
            (map view_of passes.items)) }
    {
        closing::close(self.tree, alloc, passes)
    }
}
