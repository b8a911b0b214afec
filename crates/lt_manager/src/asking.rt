//! Asks for ranges.
use crate::again::{AGAIN, is_busy};
use crate::bars::bar_for;
use crate::manager_pass::ManagerPass;
use lt_locktree::Locktree;
use lt_ranges::KeyRange;
use lt_seq::{Fault, Receipt};
use std::thread::yield_now;

impl ManagerPass {
    ghost use Rattle.std.specs.Prelude.{◌≡◌, ◌<◌, ◌≤◌, true};
    ghost use Rattle.lt_seq.specs.declared.event.Deed.TheVariants.{Ask};
    ghost use Rattle.lt_seq.specs.declared.event.Reply.TheVariants.{Granted};
    ghost use Rattle.lt_seq.specs.Table.{used};
    ghost use Rattle.lt_seq.specs.History.{after};
    ghost use Rattle.lt_rows.specs.Plan.{setting_of};
    ghost use Rattle.lt_seq.specs.Yard.{AskAnswers, bar_for, place_after, places_end};
    ghost use Rattle.lt_locktree.specs.Calls.{sees, IsOfTable, StaysOf};
    ghost use Rattle.lt_manager.specs.Views.{view_of};
    ghost use Rattle.lt_manager.specs.Behind.{AsksBehind};

    /// Joins all trees behind a look of the pass that showed a place for an event and no row below the bar, and asks then.
    fn join_and_ask(
        &mut self,
        table: &Locktree,
        txn: u64,
        tree: u32,
        range: &KeyRange,
        bar: u64,
    ) -> Result<Receipt, Fault>
        requires of { IsOfTable table.now self.old.pass }
        requires right { 0 < (sees self.old.pass).rights }
        requires fresh { (sees self.old.pass).fresh ≡ true }
        requires room { place_after (setting_of (sees self.old.pass).plan) (sees self.old.pass).front < places_end }
        requires txn { 0 < txn }
        requires tree { tree < table.now.rows.plan.trees }
        requires bar { bar ≤ table.now.rows.plan.limit }
        requires full { bar ≤ used (after (setting_of (sees self.old.pass).plan) (sees self.old.pass).front) }
        ensures of { StaysOf table.now self.old.pass self.new.pass }
        ensures answer { AsksBehind self.old (view_of self.new) bar txn (Ask tree range.now Granted) result }
    {
        self.join_all(table, txn)?;
        self.ask_below(table, txn, tree, range, bar)
    }

    /// Asks for a range behind a look of its own. Where the rows in use have reached the bar, it joins all trees first.
    fn ask_once(
        &mut self,
        table: &Locktree,
        txn: u64,
        tree: u32,
        range: &KeyRange,
        bar: u64,
    ) -> Result<Receipt, Fault>
        requires of { IsOfTable table.now self.old.pass }
        requires right { 0 < (sees self.old.pass).rights }
        requires txn { 0 < txn }
        requires tree { tree < table.now.rows.plan.trees }
        requires bar { bar ≤ table.now.rows.plan.limit }
        ensures of { StaysOf table.now self.old.pass self.new.pass }
        ensures answer { AskAnswers (setting_of (sees self.old.pass).plan) bar (view_of self.old) (view_of self.new) txn
            (Ask tree range.now Granted) result }
    {
        let look = self.look_for_place(table)?;
        if look.used < bar {
            self.ask_at(table, txn, tree, range)
        } else {
            self.join_and_ask(table, txn, tree, range, bar)
        }
    }

    /// Asks for a range. Where a row was busy, it lets other threads run and begins anew, unless it has made joins: a call makes
    /// those of one ask.
    fn ask_again(
        &mut self,
        table: &Locktree,
        txn: u64,
        tree: u32,
        range: &KeyRange,
        bar: u64,
    ) -> Result<Receipt, Fault>
        requires of { IsOfTable table.now self.old.pass }
        requires right { 0 < (sees self.old.pass).rights }
        requires txn { 0 < txn }
        requires tree { tree < table.now.rows.plan.trees }
        requires bar { bar ≤ table.now.rows.plan.limit }
        ensures of { StaysOf table.now self.old.pass self.new.pass }
        ensures answer { AskAnswers (setting_of (sees self.old.pass).plan) bar (view_of self.old) (view_of self.new) txn
            (Ask tree range.now Granted) result }
    {
        for _ in 0..AGAIN {
            let look = self.look_for_place(table)?;
            if look.used >= bar {
                return self.join_and_ask(table, txn, tree, range, bar);
            }
            let answer = self.ask_at(table, txn, tree, range);
            if !is_busy(&answer) {
                return answer;
            }
            yield_now();
        }
        self.ask_once(table, txn, tree, range, bar)
    }

    /// Asks for a range. Where the rows in use have reached the bar, it joins all trees first.
    ///
    /// # Errors
    /// Those of `Yard::ask`.
    pub(crate) fn ask(
        &mut self,
        table: &Locktree,
        txn: u64,
        tree: u32,
        range: &KeyRange,
        big: bool,
    ) -> Result<Receipt, Fault>
        requires of { IsOfTable table.now self.old.pass }
        requires right { 0 < (sees self.old.pass).rights }
        requires txn { 0 < txn }
        requires tree { tree < table.now.rows.plan.trees }
        ensures of { StaysOf table.now self.old.pass self.new.pass }
        ensures answer { AskAnswers (setting_of (sees self.old.pass).plan) (bar_for (setting_of (sees self.old.pass).plan) big) (view_of self.old)
            (view_of self.new) txn (Ask tree range.now Granted) result }
    {
        let bar = bar_for(table.plan(), big);
        self.ask_again(table, txn, tree, range, bar)
    }
}
