//! The lock table as the layers above see it.
ghost use Rattle.std.specs.Prelude.{◌≡◌, ℕ, ◌≤◌, ◌<◌, ◌+◌, ◌-◌, List, [], map, IfOk};
ghost use Rattle.std.specs.List.{AllByRecursion};
ghost use Rattle.lt_seq.specs.declared.event.Deed.TheVariants.{Ask, Free, Who, Join};
ghost use Rattle.lt_seq.specs.declared.event.Reply.TheVariants.{Granted};
ghost use Rattle.lt_seq.specs.Table.{Setting};
ghost use Rattle.lt_seq.specs.Yard.{IsPlan, Origin, origin_of, PassView, NoteView, Watches};
ghost use Rattle.lt_seq.specs.Yard.{Answers, AskAnswers, bar_for, shows, Shares, Learns};
ghost use Rattle.lt_seq.specs.Passes.{opening_passes, AreAll, front_of_first, IsRest};

use crate::event::{Held, JoinNote, Look, Receipt};
use crate::fault::Fault;
use crate::plan::YardPlan;
use lt_ranges::KeyRange;
use std::alloc::{AllocError, Global};

/// What a caller holds of a yard, and acts through: one caller at a time.
///
/// A pass keeps the receipts of its own calls, and knows the history as far as it has seen it.
pub trait Pass {
    /// The yard that it was made for.
    ghost origin: { Self → Origin };

    /// What it has seen and done.
    ghost view: { Self → PassView };

    /// Its number among the passes of its yard, from 0.
    fn number(&self) -> u32
        ensures { result ≡ (view self.now).number };

    /// How many of the yard's rights it has. A yard of n passes has n rights, and at the start pass 0 has all of
    /// them. A pass that has all the rights knows that no other pass acts, so that it has seen the whole history.
    fn rights(&self) -> u32
        ensures { result ≡ (view self.now).rights };
}

/// What a pass hands to another: rights, and what it has seen. It may travel through a lock or a channel.
pub trait Note {
    /// The yard that it was made for.
    ghost origin: { Self → Origin };

    /// What it carries.
    ghost view: { Self → NoteView };
}

/// What is left of a yard that was closed.
#[derive(Debug, Drop)]
pub struct Closed {
    /// The receipts of each pass, in the order of the passes' numbers.
    pub lists: Vec<Vec<Receipt>>,
    /// The number of events.
    pub places: u64,
    /// The rows in use after them.
    pub used: u64,
    /// The ranges still held, by tree and left end.
    pub left: Vec<Held>,
}

/// A lock table: ranges of keys in trees, each held by one transaction.
///
/// No call waits for another thread. Each call that makes an event makes it at one moment, and answers what the
/// sequential range table answers there.
pub trait Yard: Sync + Sized + Drop {
    type Pass: Pass + Send + Drop;

    type Note: Note + Send + Drop;

    /// The most passes that a table of this kind serves.
    const MOST_PASSES: u32;

    ghost MOST_PASSES: { ℕ };

    /// What tells this yard from others.
    ghost identity: { Self → List ℕ };

    /// Its plan, and the marks that no join crosses.
    ghost setting: { Self → Setting };

    /// A fresh table with its passes, numbered from 0. The first has all the rights.
    ///
    /// The only error is want of memory, and then there is no table.
    fn build(alloc: Global, plan: &YardPlan) -> Result<(Self, Vec<Self::Pass>), AllocError>
        requires plan { IsPlan plan.now }
        requires passes { plan.now.passes ≤ MOST_PASSES }
        ensures setting { IfOk result (λ r. setting r.0 ≡ record { plan = plan.now; marks = [] }) }
        ensures of { IfOk result (λ r. AllByRecursion (λ p. Self.Pass.origin p ≡ origin_of (identity r.0) (setting r.0)) r.1.items) }
        ensures passes { IfOk result (λ r. map Self.Pass.view r.1.items ≡ opening_passes plan.now.passes) };

    /// The place of the next event and the rows in use, at one moment. It makes no event, takes no memory and is
    /// never refused.
    fn look(&self, pass: &mut Self::Pass) -> Look
        requires of { Self.Pass.origin pass.old ≡ origin_of (identity self.now) (setting self.now) }
        ensures of { Self.Pass.origin pass.new ≡ origin_of (identity self.now) (setting self.now) }
        ensures seen { result ≡ shows (setting self.now) (Self.Pass.view pass.new).front }
        ensures watches { Watches (setting self.now) (Self.Pass.view pass.old) (Self.Pass.view pass.new) };

    /// Asks for a range. It is granted, buffered, or held by others, whom the reply names.
    ///
    /// The call looks first. Where the rows in use have reached the bar, it joins every tree in ascending order, each
    /// join an event of this call by this transaction that leaves a note, and looks before each join but the first and
    /// once more behind the last. Then it asks. The bar is the limit, and for a big transaction half of it, rounded up.
    ///
    /// `HistoryFull` comes exactly where a look shows a place of 2^39 or more, and `OutOfLocks` exactly where the look
    /// behind the joins of all trees shows a lower place and rows that have reached the bar. `Busy` comes only where the
    /// last look showed room, a row was then found held by another pass, and this pass has not all the rights.
    /// `OutOfMemory` may come at any moment. After a fault there is no event of this call but the joins of the first
    /// trees that it has made, which stay, with their receipts and notes; the table is as others make it.
    fn ask(
        &self,
        pass: &mut Self::Pass,
        txn: u64,
        tree: u32,
        range: &KeyRange,
        big: bool,
    ) -> Result<Receipt, Fault>
        requires of { Self.Pass.origin pass.old ≡ origin_of (identity self.now) (setting self.now) }
        requires right { 1 ≤ (Self.Pass.view pass.old).rights }
        requires txn { 1 ≤ txn }
        requires tree { tree < (setting self.now).plan.trees }
        ensures of { Self.Pass.origin pass.new ≡ origin_of (identity self.now) (setting self.now) }
        ensures answer { AskAnswers (setting self.now) (bar_for (setting self.now) big) (Self.Pass.view pass.old)
            (Self.Pass.view pass.new) txn (Ask tree range.now Granted) result };

    /// Frees the transaction's ranges that overlap the range, and counts them. `first` tells that this is the
    /// first free of a release in this tree.
    ///
    /// The faults are those of `ask`, where they come there, but for `OutOfLocks`: the limit bounds no free.
    fn free(
        &self,
        pass: &mut Self::Pass,
        txn: u64,
        tree: u32,
        range: &KeyRange,
        first: bool,
    ) -> Result<Receipt, Fault>
        requires of { Self.Pass.origin pass.old ≡ origin_of (identity self.now) (setting self.now) }
        requires right { 1 ≤ (Self.Pass.view pass.old).rights }
        requires txn { 1 ≤ txn }
        requires tree { tree < (setting self.now).plan.trees }
        ensures of { Self.Pass.origin pass.new ≡ origin_of (identity self.now) (setting self.now) }
        ensures answer { Answers (setting self.now) (Self.Pass.view pass.old) (Self.Pass.view pass.new) txn
            (Free tree range.now first 0) result };

    /// Asks whose ranges stand in the way of the named transaction, which may be the one that asks. There may be none.
    ///
    /// The faults are those of `free`.
    fn who(
        &self,
        pass: &mut Self::Pass,
        txn: u64,
        as_txn: u64,
        tree: u32,
        range: &KeyRange,
    ) -> Result<Receipt, Fault>
        requires of { Self.Pass.origin pass.old ≡ origin_of (identity self.now) (setting self.now) }
        requires right { 1 ≤ (Self.Pass.view pass.old).rights }
        requires txn { 1 ≤ txn }
        requires as_txn { 1 ≤ as_txn }
        requires tree { tree < (setting self.now).plan.trees }
        ensures of { Self.Pass.origin pass.new ≡ origin_of (identity self.now) (setting self.now) }
        ensures answer { Answers (setting self.now) (Self.Pass.view pass.old) (Self.Pass.view pass.new) txn
            (Who tree range.now as_txn []) result };

    /// Joins each run of neighbours of one owner in a tree, and leaves a note of it.
    ///
    /// The faults are those of `free`.
    fn escalate(&self, pass: &mut Self::Pass, txn: u64, tree: u32) -> Result<Receipt, Fault>
        requires of { Self.Pass.origin pass.old ≡ origin_of (identity self.now) (setting self.now) }
        requires right { 1 ≤ (Self.Pass.view pass.old).rights }
        requires txn { 1 ≤ txn }
        requires tree { tree < (setting self.now).plan.trees }
        ensures of { Self.Pass.origin pass.new ≡ origin_of (identity self.now) (setting self.now) }
        ensures answer { Answers (setting self.now) (Self.Pass.view pass.old) (Self.Pass.view pass.new) txn (Join tree 0 0) result };

    /// Hands out the notes of the pass's joins that were not handed out yet, in the order of the joins, and leaves
    /// none. It takes no memory and is never refused.
    fn take_notes(&self, pass: &mut Self::Pass) -> Vec<JoinNote>
        requires of { Self.Pass.origin pass.old ≡ origin_of (identity self.now) (setting self.now) }
        ensures of { Self.Pass.origin pass.new ≡ origin_of (identity self.now) (setting self.now) }
        ensures notes { result.items ≡ (Self.Pass.view pass.old).notes }
        ensures pass { Self.Pass.view pass.new ≡ record (Self.Pass.view pass.old) { notes = [] } };

    /// Gives rights away, none or all of them too, with what the pass has seen: all of it, but that a table of one
    /// pass may leave it out, since there is no other to tell. It takes no memory and is never refused.
    fn share(&self, pass: &mut Self::Pass, rights: u32) -> Self::Note
        requires of { Self.Pass.origin pass.old ≡ origin_of (identity self.now) (setting self.now) }
        requires enough { rights ≤ (Self.Pass.view pass.old).rights }
        ensures of { Self.Pass.origin pass.new ≡ origin_of (identity self.now) (setting self.now) }
        ensures of_note { Self.Note.origin result ≡ origin_of (identity self.now) (setting self.now) }
        ensures pass { Self.Pass.view pass.new ≡ record (Self.Pass.view pass.old) { rights = (Self.Pass.view pass.old).rights - rights } }
        ensures note { Shares (setting self.now) (Self.Pass.view pass.old) rights (Self.Note.view result) };

    /// Takes the rights of a note, and the longer of the two fronts. A pass has no more rights than there are. It takes
    /// no memory and is never refused.
    fn learn(&self, pass: &mut Self::Pass, note: Self::Note)
        requires of { Self.Pass.origin pass.old ≡ origin_of (identity self.now) (setting self.now) }
        requires of_note { Self.Note.origin note ≡ origin_of (identity self.now) (setting self.now) }
        requires fits { (Self.Pass.view pass.old).rights + (Self.Note.view note).rights ≤ (setting self.now).plan.passes }
        ensures of { Self.Pass.origin pass.new ≡ origin_of (identity self.now) (setting self.now) }
        ensures learns { Learns (setting self.now) (Self.Pass.view pass.old) (Self.Note.view note) (Self.Pass.view pass.new) };

    /// Ends the table, and tells its whole history, its rows in use and what is still held. The passes are all of
    /// the table's, in the order of their numbers, and the first has all the rights.
    ///
    /// The only error is want of memory. Then the table and its passes are gone, with their receipts.
    fn close(self, alloc: Global, passes: Vec<Self::Pass>) -> Result<Closed, AllocError>
        requires of { AllByRecursion (λ p. Self.Pass.origin p ≡ origin_of (identity self) (setting self)) passes.items }
        requires all { AreAll (setting self) (map Self.Pass.view passes.items) }
        ensures rest { IfOk result (IsRest (setting self) (front_of_first (map Self.Pass.view passes.items))
            (map Self.Pass.view passes.items)) };
}
