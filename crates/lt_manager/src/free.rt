//! Frees by a pass.
use crate::manager_pass::ManagerPass;
use crate::receipts::receipt;
use lt_locktree::Locktree;
use lt_ranges::KeyRange;
use lt_seq::{Deed, Fault, Receipt};

impl ManagerPass {
    ghost use Rattle.std.specs.Prelude.{◌<◌};
    ghost use Rattle.lt_seq.specs.declared.event.Deed.TheVariants.{Free};
    ghost use Rattle.lt_rows.specs.Plan.{setting_of};
    ghost use Rattle.lt_seq.specs.Yard.{Answers};
    ghost use Rattle.lt_locktree.specs.Calls.{sees, IsOfTable, StaysOf};
    ghost use Rattle.lt_manager.specs.Views.{view_of};

    /// Frees the transaction's ranges that overlap the range, and keeps the receipt.
    pub(crate) fn free_once(
        &mut self,
        table: &Locktree,
        txn: u64,
        tree: u32,
        range: &KeyRange,
        first: bool,
    ) -> Result<Receipt, Fault>
        requires of { IsOfTable table.now self.old.pass }
        requires right { 0 < (sees self.old.pass).rights }
        requires tree { tree < table.now.rows.plan.trees }
        ensures of { StaysOf table.now self.old.pass self.new.pass }
        ensures answer { Answers (setting_of (sees self.old.pass).plan) (view_of self.old) (view_of self.new) txn
            (Free tree range.now first 0) result }
    {
        self.look_for_place(table)?;
        self.mine.reserve(1)?;
        let pass = self.pass.number();
        let (place, count) = table.free(&mut self.pass, txn, tree, range, first)?;
        let deed = Deed::Free {
            tree,
            range: *range,
            first,
            count,
        };
        self.mine.push_reserved(receipt(place, pass, txn, deed));
        let deed = Deed::Free {
            tree,
            range: *range,
            first,
            count,
        };
        Ok(receipt(place, pass, txn, deed))
    }
}
