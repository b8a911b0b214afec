//! The lock table of trees of shared rows.
ghost use Rattle.std.specs.Prelude.{◌≡◌, ◌++◌, ◌<◌, ◌≤◌, List, [], map, IfOk};
ghost use Rattle.lt_seq.specs.declared.event.Event.{Event};
ghost use Rattle.lt_seq.specs.History.{IsFront};
ghost use Rattle.lt_seq.specs.Yard.{IsPlan};
ghost use Rattle.lt_rows.specs.Plan.{with_marks};
ghost use Rattle.lt_rows.specs.Views.{sharer, learner};
ghost use Rattle.lt_rows.specs.Rule.{IsOfOthers};
ghost use Rattle.lt_rows.specs.Passes.{view};
ghost use Rattle.lt_rows.specs.Openings.{AreItsPasses};
ghost use Rattle.lt_rows.specs.Closings.{IsLeft};
ghost use Rattle.lt_rows.specs.Handles.{IsNoteOf, Looks};

use crate::tree_pass::TreePass;
use lt_ranges::Key;
use lt_rows::{RowNote, RowPass, RowPlan, RowTable, RowsLeft};
use lt_seq::{Look, YardPlan};
use std::alloc::{AllocError, Global};

/// How often a row that another pass holds is tried again.
pub(crate) const SPINS: u32 = 64;

/// Ranges of keys in trees, each held by one transaction, over rows that threads share.
///
/// No call waits. A deed takes the rows that it needs, makes one event, and gives them all back; where it makes none, it has given
/// them back as well.
#[derive(Drop)]
pub struct Locktree {
    pub(crate) rows: RowTable,
    pub(crate) alloc: Global,
}

/// The passes of the rows, as passes that hold none.
fn idle_passes(
    alloc: Global,
    rows: Vec<RowPass>,
    _table: &RowTable,
) -> Result<Vec<TreePass>, AllocError>
    requires { AreItsPasses _table.now rows.items }
    ensures { IfOk result (λ passes. map (λ p. p.pass) passes.items ≡ rows.items) }
{
    let mut passes = Vec::new(alloc);
    for pass in rows {
        passes.push(TreePass { pass })?;
    }
    Ok(passes)
}

impl Locktree {
    ghost use Rattle.lt_locktree.specs.Calls.{sees, IsOfTable, StaysOf, FirstClosesIt, front_of_first};

    /// A fresh table without marks with its passes, in the order of their numbers. The first has all the rights.
    ///
    /// # Errors
    /// Want of memory alone.
    pub fn build(alloc: Global, plan: &YardPlan) -> Result<(Locktree, Vec<TreePass>), AllocError>
        requires plan { IsPlan plan.now }
        ensures table { IfOk result (λ r. r.0.rows.plan ≡ with_marks plan.now []) }
        ensures passes { IfOk result (λ r. AreItsPasses r.0.rows (map (λ p. p.pass) r.1.items)) }
    {
        Locktree::build_cut(alloc, plan, Vec::new(alloc))
    }

    /// As `build`, of a table whose joins stop at these marks.
    ///
    /// # Errors
    /// Want of memory alone.
    pub fn build_cut(
        alloc: Global,
        plan: &YardPlan,
        marks: Vec<Key>,
    ) -> Result<(Locktree, Vec<TreePass>), AllocError>
        requires plan { IsPlan plan.now }
        ensures table { IfOk result (λ r. r.0.rows.plan ≡ with_marks plan.now marks.items) }
        ensures passes { IfOk result (λ r. AreItsPasses r.0.rows (map (λ p. p.pass) r.1.items)) }
    {
        let (rows, passes) = RowTable::build_cut(alloc, plan, marks)?;
        let passes = idle_passes(alloc, passes, &rows)?;
        Ok((Locktree { rows, alloc }, passes))
    }

    /// The plan with which it was built.
    pub fn plan(&self) -> &RowPlan
        ensures { result.now ≡ self.now.rows.plan }
    {
        self.rows.plan()
    }

    /// The table of its rows.
    pub fn table(&self) -> &RowTable
        ensures { result.now ≡ self.now.rows }
    {
        &self.rows
    }

    /// Shows the place of the next event and the used rows. Afterwards the pass is fresh where that place is below 2^39, and
    /// licensed where the used rows are besides below the limit.
    pub fn look(&self, pass: &mut TreePass) -> Look
        requires of { IsOfTable self.now pass.old }
        ensures of { StaysOf self.now pass.old pass.new }
        ensures looks { Looks (sees pass.old) (sees pass.new) result }
    {
        self.rows.look(&mut pass.pass)
    }

    /// A note with some of the pass's rights, and all that it has seen.
    pub fn share(&self, pass: &mut TreePass, rights: u32) -> RowNote
        requires of { IsOfTable self.now pass.old }
        requires enough { rights ≤ (sees pass.old).rights }
        ensures of { IsOfTable self.now pass.new }
        ensures left { sees pass.new ≡ sharer rights (sees pass.old) }
        ensures note { IsNoteOf self.now.rows result × (result.rights ≡ rights) × ((view result.place).front ≡ (sees pass.old).front) }
        ensures note_plan { (view result.place).plan ≡ self.now.rows.plan }
    {
        self.rows.share(&mut pass.pass, rights)
    }

    /// Takes in the rights of a note, and the longer of the two fronts, which goes on as the other, by what others made. With all
    /// the rights before, the front stays.
    pub fn learn(&self, pass: &mut TreePass, note: RowNote)
        requires of { IsOfTable self.now pass.old × IsNoteOf self.now.rows note }
        ensures of { IsOfTable self.now pass.new }
        ensures learned { sees pass.new ≡ learner (sees pass.old) (view note.place) }
        ensures all { (sees pass.old).rights ≡ self.now.rows.plan.passes → (sees pass.new).front ≡ (sees pass.old).front }
        ensures told { IsFront (view note.place).front (sees pass.new).front }
        ensures more { (more : List Event) × ((sees pass.new).front ≡ (sees pass.old).front ++ more) × IsOfOthers (sees pass.old) more }
    {
        self.rows.learn(&mut pass.pass, note);
    }

    /// Ends the table. The first of its passes has all the rights, so that its front is the whole history.
    ///
    /// # Errors
    /// Want of memory alone; table and passes are gone then.
    pub fn close(self, alloc: Global, passes: Vec<TreePass>) -> Result<RowsLeft, AllocError>
        requires first { FirstClosesIt self passes.items }
        ensures left { IfOk result (IsLeft self.rows.plan (front_of_first passes.items)) }
    {
        let mut passes = passes;
        let TreePass { pass } = passes.swap_remove(0);
        let mut first = Vec::new(alloc);
        first.push(pass)?;
        self.rows.close(alloc, first)
    }
}
