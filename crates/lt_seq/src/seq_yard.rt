//! The plain lock table, with one pass.
use crate::event::{JoinNote, Look, Receipt};
use crate::fault::Fault;
use crate::plan::YardPlan;
use crate::seq_calls;
use crate::seq_note::SeqNote;
use crate::seq_pass::SeqPass;
use crate::yard::{Closed, Yard};
use lt_ranges::KeyRange;
use std::alloc::{AllocError, Global};
use std::marker::Model;

/// The plain lock table: one sorted list of ranges a tree, and one pass. It is never busy.
#[derive(Drop)]
pub struct SeqYard {
    plan: YardPlan,
}

impl Model for SeqYard {
    ghost use Rattle.lt_seq.specs.declared.plan.YardPlan.{YardPlan};

    ghost Value = { YardPlan };

    ghost view = { λ y. y.plan };
}

impl Yard for SeqYard {
    ghost use Rattle.std.specs.Prelude.{◌≡◌, [], map, IfOk};
    ghost use Rattle.std.specs.List.{AllByRecursion};
    ghost use Rattle.lt_seq.specs.SeqPass.{plain, origin_in};
    ghost use Rattle.lt_seq.specs.Yard.{origin_of};
    ghost use Rattle.lt_seq.specs.Passes.{AreAll, IsRest, front_of_first};

    type Pass = SeqPass;

    type Note = SeqNote;

    const MOST_PASSES: u32 = 1;

    ghost MOST_PASSES = { 1 };

    ghost identity = { λ yard. [] };

    ghost setting = { plain };

    fn build(alloc: Global, plan: &YardPlan) -> Result<(Self, Vec<SeqPass>), AllocError> {
        let pass = SeqPass::new(alloc, plan)?;
        let mut passes = Vec::new(alloc);
        passes.push(pass)?;
        Ok((SeqYard { plan: *plan }, passes))
    }

    fn look(&self, pass: &mut SeqPass) -> Look {
        pass.look()
    }

    fn ask(
        &self,
        pass: &mut SeqPass,
        txn: u64,
        tree: u32,
        range: &KeyRange,
        big: bool,
    ) -> Result<Receipt, Fault> {
        let bar = seq_calls::bar_for(&self.plan, big);
        let look = pass.look();
        if look.used < bar {
            seq_calls::ask_below(pass, txn, tree, range, bar)
        } else {
            seq_calls::join_and_ask(pass, self.plan.trees, txn, tree, range, bar)
        }
    }

    fn free(
        &self,
        pass: &mut SeqPass,
        txn: u64,
        tree: u32,
        range: &KeyRange,
        first: bool,
    ) -> Result<Receipt, Fault> {
        seq_calls::free(pass, txn, tree, range, first)
    }

    fn who(
        &self,
        pass: &mut SeqPass,
        txn: u64,
        as_txn: u64,
        tree: u32,
        range: &KeyRange,
    ) -> Result<Receipt, Fault> {
        seq_calls::who(pass, txn, as_txn, tree, range)
    }

    fn escalate(&self, pass: &mut SeqPass, txn: u64, tree: u32) -> Result<Receipt, Fault> {
        seq_calls::join(pass, txn, tree)
    }

    fn take_notes(&self, pass: &mut SeqPass) -> Vec<JoinNote> {
        pass.take_notes()
    }

    fn share(&self, pass: &mut SeqPass, rights: u32) -> SeqNote {
        pass.share(rights)
    }

    fn learn(&self, pass: &mut SeqPass, note: SeqNote) {
        pass.learn(note);
    }

    fn close(self, alloc: Global, passes: Vec<SeqPass>) -> Result<Closed, AllocError>
        requires of { AllByRecursion (λ p. origin_in p ≡ origin_of [] (plain self)) passes.items }
        requires all { AreAll (plain self) (map (λ p. p.view) passes.items) }
        ensures rest { IfOk result (IsRest (plain self) (front_of_first (map (λ p. p.view) passes.items))
            (map (λ p. p.view) passes.items)) }
    {
        let mut passes = passes;
        let Some(pass) = passes.pop() else {
            unreachable!();
        };
        pass.close(alloc)
    }
}
