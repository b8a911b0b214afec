//! Questions of a pass whose ranges stand in the way.
use crate::manager_pass::ManagerPass;
use crate::receipts::receipt;
use lt_locktree::{Locktree, Named};
use lt_ranges::KeyRange;
use lt_seq::{Deed, Fault, Receipt};

impl ManagerPass {
    ghost use Rattle.std.specs.Prelude.{◌<◌, []};
    ghost use Rattle.lt_seq.specs.declared.event.Deed.TheVariants.{Who};
    ghost use Rattle.lt_rows.specs.Plan.{setting_of};
    ghost use Rattle.lt_seq.specs.Yard.{Answers};
    ghost use Rattle.lt_locktree.specs.Calls.{sees, IsOfTable, StaysOf};
    ghost use Rattle.lt_manager.specs.Views.{view_of};

    /// Asks whose ranges stand in the way of the named transaction, and keeps the receipt.
    pub(crate) fn who_once(
        &mut self,
        table: &Locktree,
        txn: u64,
        as_txn: u64,
        tree: u32,
        range: &KeyRange,
    ) -> Result<Receipt, Fault>
        requires of { IsOfTable table.now self.old.pass }
        requires right { 0 < (sees self.old.pass).rights }
        requires tree { tree < table.now.rows.plan.trees }
        ensures of { StaysOf table.now self.old.pass self.new.pass }
        ensures answer { Answers (setting_of (sees self.old.pass).plan) (view_of self.old) (view_of self.new) txn
            (Who tree range.now as_txn []) result }
    {
        self.look_for_place(table)?;
        self.mine.reserve(1)?;
        let pass = self.pass.number();
        let Named {
            place,
            owners,
            copy,
        } = table.who(&mut self.pass, txn, as_txn, tree, range)?;
        let deed = Deed::Who {
            tree,
            range: *range,
            as_txn,
            owners,
        };
        self.mine.push_reserved(receipt(place, pass, txn, deed));
        let deed = Deed::Who {
            tree,
            range: *range,
            as_txn,
            owners: copy,
        };
        Ok(receipt(place, pass, txn, deed))
    }
}
