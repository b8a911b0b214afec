//! Calls that begin anew where a row was met held by another pass.
ghost use Rattle.std.specs.Prelude.{◌≡◌, true, IfOk};

use crate::manager_pass::ManagerPass;
use lt_locktree::Locktree;
use lt_ranges::KeyRange;
use lt_seq::{Fault, Receipt};
use std::thread::yield_now;

/// How often a call begins anew at the most, each time behind a look of its own.
pub(crate) const AGAIN: u32 = 64;

/// Whether a row was met held by another pass.
pub(crate) fn is_busy(answer: &Result<Receipt, Fault>) -> bool
    ensures { result ≡ true → IfOk answer.now (λ _. ⊥) }
{
    matches!(answer, Err(Fault::Busy { .. }))
}

impl ManagerPass {
    ghost use Rattle.std.specs.Prelude.{◌<◌, []};
    ghost use Rattle.lt_seq.specs.declared.event.Deed.TheVariants.{Free, Who, Join};
    ghost use Rattle.lt_rows.specs.Plan.{setting_of};
    ghost use Rattle.lt_seq.specs.Yard.{Answers};
    ghost use Rattle.lt_locktree.specs.Calls.{sees, IsOfTable, StaysOf};
    ghost use Rattle.lt_manager.specs.Views.{view_of};

    /// Frees the transaction's ranges that overlap the range. Where a row was busy, it lets other threads run and begins anew.
    ///
    /// # Errors
    /// Those of `Yard::free`. `Busy` where each try met a row that another pass held.
    pub(crate) fn free(
        &mut self,
        table: &Locktree,
        txn: u64,
        tree: u32,
        range: &KeyRange,
        first: bool,
    ) -> Result<Receipt, Fault>
        requires of { IsOfTable table.now self.old.pass }
        requires right { 0 < (sees self.old.pass).rights }
        requires tree { tree < table.now.rows.plan.trees }
        ensures of { StaysOf table.now self.old.pass self.new.pass }
        ensures answer { Answers (setting_of (sees self.old.pass).plan) (view_of self.old) (view_of self.new) txn
            (Free tree range.now first 0) result }
    {
        for _ in 0..AGAIN {
            let answer = self.free_once(table, txn, tree, range, first);
            if !is_busy(&answer) {
                return answer;
            }
            yield_now();
        }
        self.free_once(table, txn, tree, range, first)
    }

    /// Asks whose ranges stand in the way of the named transaction. Where a row was busy, it lets other threads run and begins anew.
    ///
    /// # Errors
    /// Those of `Yard::who`. `Busy` where each try met a row that another pass held.
    pub(crate) fn who(
        &mut self,
        table: &Locktree,
        txn: u64,
        as_txn: u64,
        tree: u32,
        range: &KeyRange,
    ) -> Result<Receipt, Fault>
        requires of { IsOfTable table.now self.old.pass }
        requires right { 0 < (sees self.old.pass).rights }
        requires tree { tree < table.now.rows.plan.trees }
        ensures of { StaysOf table.now self.old.pass self.new.pass }
        ensures answer { Answers (setting_of (sees self.old.pass).plan) (view_of self.old) (view_of self.new) txn
            (Who tree range.now as_txn []) result }
    {
        for _ in 0..AGAIN {
            let answer = self.who_once(table, txn, as_txn, tree, range);
            if !is_busy(&answer) {
                return answer;
            }
            yield_now();
        }
        self.who_once(table, txn, as_txn, tree, range)
    }

    /// Joins each run of neighbours of one owner in a tree. Where a row was busy, it lets other threads run and begins anew.
    ///
    /// # Errors
    /// Those of `Yard::escalate`. `Busy` where each try met a row that another pass held.
    pub(crate) fn join(&mut self, table: &Locktree, txn: u64, tree: u32) -> Result<Receipt, Fault>
        requires of { IsOfTable table.now self.old.pass }
        requires right { 0 < (sees self.old.pass).rights }
        requires tree { tree < table.now.rows.plan.trees }
        ensures of { StaysOf table.now self.old.pass self.new.pass }
        ensures answer { Answers (setting_of (sees self.old.pass).plan) (view_of self.old) (view_of self.new) txn (Join tree 0 0) result }
    {
        for _ in 0..AGAIN {
            let answer = self.join_once(table, txn, tree);
            if !is_busy(&answer) {
                return answer;
            }
            yield_now();
        }
        self.join_once(table, txn, tree)
    }
}
