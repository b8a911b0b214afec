//! Asks below the bar.
use crate::manager_pass::ManagerPass;
use crate::receipts::receipt;
use lt_locktree::{Asked, Locktree};
use lt_ranges::KeyRange;
use lt_seq::{Deed, Fault, Receipt};

impl ManagerPass {
    ghost use Rattle.std.specs.Prelude.{◌≡◌, ◌<◌, ◌≤◌, true};
    ghost use Rattle.lt_seq.specs.declared.event.Deed.TheVariants.{Ask};
    ghost use Rattle.lt_seq.specs.declared.event.Reply.TheVariants.{Granted};
    ghost use Rattle.lt_rows.specs.Plan.{setting_of};
    ghost use Rattle.lt_seq.specs.Yard.{place_after, places_end};
    ghost use Rattle.lt_locktree.specs.Calls.{sees, IsOfTable, StaysOf};
    ghost use Rattle.lt_manager.specs.Views.{view_of};
    ghost use Rattle.lt_manager.specs.Behind.{AnswersBehind, AsksBehindAll};

    /// Asks behind a look of the pass that showed a place for an event and a row below the limit, and keeps the receipt.
    pub(crate) fn ask_at(
        &mut self,
        table: &Locktree,
        txn: u64,
        tree: u32,
        range: &KeyRange,
    ) -> Result<Receipt, Fault>
        requires of { IsOfTable table.now self.old.pass }
        requires right { 0 < (sees self.old.pass).rights }
        requires fresh { ((sees self.old.pass).fresh ≡ true) × ((sees self.old.pass).licensed ≡ true) }
        requires room { place_after (setting_of (sees self.old.pass).plan) (sees self.old.pass).front < places_end }
        requires txn { 0 < txn }
        requires tree { tree < table.now.rows.plan.trees }
        ensures of { StaysOf table.now self.old.pass self.new.pass }
        ensures answer { AnswersBehind self.old (view_of self.new) txn (Ask tree range.now Granted) result }
    {
        self.mine.reserve(1)?;
        let pass = self.pass.number();
        let Asked { place, reply, copy } = table.ask(&mut self.pass, txn, tree, range)?;
        let kept = Deed::Ask {
            tree,
            range: *range,
            reply,
        };
        self.mine.push_reserved(receipt(place, pass, txn, kept));
        let deed = Deed::Ask {
            tree,
            range: *range,
            reply: copy,
        };
        Ok(receipt(place, pass, txn, deed))
    }

    /// Looks behind the joins of all trees, and asks where there are a place and a row below the bar.
    pub(crate) fn ask_below(
        &mut self,
        table: &Locktree,
        txn: u64,
        tree: u32,
        range: &KeyRange,
        bar: u64,
    ) -> Result<Receipt, Fault>
        requires of { IsOfTable table.now self.old.pass }
        requires right { 0 < (sees self.old.pass).rights }
        requires txn { 0 < txn }
        requires tree { tree < table.now.rows.plan.trees }
        requires bar { bar ≤ table.now.rows.plan.limit }
        ensures of { StaysOf table.now self.old.pass self.new.pass }
        ensures answer { AsksBehindAll self.old (view_of self.new) bar txn (Ask tree range.now Granted) result }
    {
        let look = self.look_for_place(table)?;
        if look.used >= bar {
            return Err(Fault::OutOfLocks {
                place: look.place,
                used: look.used,
            });
        }
        self.ask_at(table, txn, tree, range)
    }
}
