//! Joins of all trees.
use crate::manager_pass::ManagerPass;
use lt_locktree::Locktree;
use lt_seq::Fault;

impl ManagerPass {
    ghost use Rattle.std.specs.Prelude.{◌≡◌, ◌<◌, true, OnOk, IfErr};
    ghost use Rattle.lt_rows.specs.Plan.{setting_of};
    ghost use Rattle.lt_seq.specs.Yard.{place_after, places_end};
    ghost use Rattle.lt_locktree.specs.Calls.{sees, IsOfTable, StaysOf};
    ghost use Rattle.lt_manager.specs.Views.{view_of};
    ghost use Rattle.lt_manager.specs.Behind.{JoinedBehind, StopsBehind};

    /// Joins all trees, ascending: the first behind a look of the pass that showed a place for an event, each further one behind a
    /// look of its own.
    pub(crate) fn join_all(&mut self, table: &Locktree, txn: u64) -> Result<(), Fault>
        requires of { IsOfTable table.now self.old.pass }
        requires right { 0 < (sees self.old.pass).rights }
        requires fresh { (sees self.old.pass).fresh ≡ true }
        requires room { place_after (setting_of (sees self.old.pass).plan) (sees self.old.pass).front < places_end }
        requires trees { 0 < table.now.rows.plan.trees }
        ensures of { StaysOf table.now self.old.pass self.new.pass }
        ensures ok { OnOk result (JoinedBehind self.old (view_of self.new) txn table.now.rows.plan.trees) }
        ensures err { IfErr result (StopsBehind self.old (view_of self.new) txn table.now.rows.plan.trees) }
    {
        self.join_at(table, txn, 0)?;
        for tree in 1..table.plan().trees {
            self.join(table, txn, tree)?;
        }
        Ok(())
    }
}
