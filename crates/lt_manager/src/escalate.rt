//! Joins of trees by a pass.
use crate::manager_pass::ManagerPass;
use crate::receipts::receipt;
use lt_locktree::Locktree;
use lt_seq::{Deed, Fault, JoinNote, Receipt};
use std::alloc::Global;
use std::mem;

impl ManagerPass {
    ghost use Rattle.std.specs.Prelude.{◌≡◌, ◌<◌, true, []};
    ghost use Rattle.lt_seq.specs.declared.event.Deed.TheVariants.{Join};
    ghost use Rattle.lt_rows.specs.Plan.{setting_of};
    ghost use Rattle.lt_seq.specs.Yard.{PassView, Watches, Answers, place_after, places_end};
    ghost use Rattle.lt_locktree.specs.Calls.{sees, IsOfTable, StaysOf};
    ghost use Rattle.lt_manager.specs.Views.{view_of};
    ghost use Rattle.lt_manager.specs.Answers.{AnsweredBehind};

    /// Joins each run of neighbours of one owner in a tree, and keeps the receipt and a note.
    pub(crate) fn join_once(
        &mut self,
        table: &Locktree,
        txn: u64,
        tree: u32,
    ) -> Result<Receipt, Fault>
        requires of { IsOfTable table.now self.old.pass }
        requires right { 0 < (sees self.old.pass).rights }
        requires tree { tree < table.now.rows.plan.trees }
        ensures of { StaysOf table.now self.old.pass self.new.pass }
        ensures answer { Answers (setting_of (sees self.old.pass).plan) (view_of self.old) (view_of self.new) txn (Join tree 0 0) result }
    {
        self.look_for_place(table)?;
        self.join_at(table, txn, tree)
    }

    /// Joins a tree behind a look of the pass that showed a place, whatever it had seen before.
    pub(crate) fn join_at(
        &mut self,
        table: &Locktree,
        txn: u64,
        tree: u32,
    ) -> Result<Receipt, Fault>
        requires of { IsOfTable table.now self.old.pass }
        requires right { 0 < (sees self.old.pass).rights }
        requires fresh { (sees self.old.pass).fresh ≡ true }
        requires room { place_after (setting_of (sees self.old.pass).plan) (sees self.old.pass).front < places_end }
        requires tree { tree < table.now.rows.plan.trees }
        ensures of { StaysOf table.now self.old.pass self.new.pass }
        ensures answer { (old : PassView) → Watches (setting_of (sees self.old.pass).plan) old (view_of self.old)
            → AnsweredBehind (setting_of (sees self.old.pass).plan) (sees self.old.pass).front old (view_of self.new) txn
            (Join tree 0 0) result }
    {
        self.mine.reserve(1)?;
        self.notes.reserve(1)?;
        let pass = self.pass.number();
        let note = table.escalate(&mut self.pass, txn, tree)?;
        let place = note.place;
        let before = note.before;
        let after = note.after;
        self.notes.push_reserved(note);
        let deed = Deed::Join {
            tree,
            before,
            after,
        };
        self.mine.push_reserved(receipt(place, pass, txn, deed));
        let deed = Deed::Join {
            tree,
            before,
            after,
        };
        Ok(receipt(place, pass, txn, deed))
    }

    /// Hands out the notes of its joins that were not handed out yet.
    pub(crate) fn take_notes(&mut self, alloc: Global) -> Vec<JoinNote>
        ensures of { self.new.pass ≡ self.old.pass }
        ensures notes { result.items ≡ self.old.notes }
        ensures pass { view_of self.new ≡ record (view_of self.old) { notes = [] } }
    {
        mem::replace(&mut self.notes, Vec::new(alloc))
    }
}
