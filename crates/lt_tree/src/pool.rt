//! Rows of the pool that a search holds.
ghost use Rattle.std.specs.Prelude.{◌≡◌, ◌<◌, IfOk, IfErr, None, true, [], ◌∷◌};
ghost use Rattle.lt_rows.specs.Views.{IsHeld, row_at, rows_of, words_of};
ghost use Rattle.lt_rows.specs.Teaching.{Teaches};
ghost use Rattle.lt_rows.specs.Handles.{knows, IsPassOf, IsSamePass};
ghost use Rattle.lt_tree.specs.States.{OnlyMet, OnlyRows, KeepsRows, HoldsElse, HoldsSame, Seizes, IsRefused, IsBusyAt};
ghost use Rattle.lt_tree.specs.Gathers.{IsLockedWith};
ghost use Rattle.lt_tree.specs.Pools.{pool_rows, with_anchor, HoldsNoVacant, HoldsFirst};
ghost use Rattle.lt_tree.specs.declared.pool.PoolRows.TheVariants.{Nothing, Anchor as AnchorAlone, Vacant};
ghost use Rattle.lt_rows.specs.declared.take.Take.TheVariants.{Taken};

use crate::locked::Locked;
use crate::seize::seize;
use lt_rows::{RowImage, RowPass, RowTable, Take};
use lt_seq::Fault;

/// What a search holds of the pool.
#[derive(Clone, Copy)]
pub enum PoolRows {
    Nothing,
    /// The pool's anchor, which stands behind those of the trees.
    Anchor,
    /// The pool's anchor, and the row of this number, which was the pool's first.
    Vacant(u32),
}

// Takes a row and loads it, at most 1 + spins times tried.
fn take_row(table: &RowTable, pass: &mut RowPass, row: u32, spins: u32) -> Result<RowImage, Fault>
    requires of { IsPassOf table.now pass.old }
    requires right { 0 < pass.old.rights }
    requires row { (row < rows_of table.now.plan) × (row_at (knows pass.old) row ≡ None) }
    ensures of { IsPassOf table.now pass.new × IsSamePass pass.old pass.new }
    ensures taken { IfOk result (λ _. Seizes row (knows pass.old) (knows pass.new) Taken × Teaches (knows pass.new)) }
    ensures words { IfOk result (λ image. image.words ≡ words_of (row_at (knows pass.new) row)) }
    ensures only { IfErr result (λ _. OnlyMet (knows pass.old) (knows pass.new)) }
    ensures refused { IfErr result (λ fault. IsBusyAt row fault × IsRefused (knows pass.old) (knows pass.new) fault) }
{
    match seize(table, pass, row, spins) {
        Take::Taken => Ok(table.load_row(pass, row)),
        Take::HeldBy(holder) => Err(Fault::Busy { row, holder }),
    }
}

impl<'a> Locked<'a> {
    /// The number of the pool's anchor, which stands behind those of the trees.
    pub fn pool_row(&self) -> u32
        ensures { result ≡ (knows self.now.pass).plan.trees }
    {
        self.table.plan().trees
    }

    /// Takes the pool's anchor where the state doesn't hold it yet. After a refusal the state is as before.
    ///
    /// It takes no memory.
    ///
    /// # Errors
    /// `Busy` alone, with the pool's anchor, and only where it was met held by another pass, which never comes to a pass with all the
    /// rights.
    pub fn pool(&mut self) -> Result<(), Fault>
        requires locked { IsLockedWith (knows self.old.pass) self.old.tree self.old.asked self.old.held self.old.part.rows.items
            self.old.part.hangs.items (pool_rows (knows self.old.pass).plan.trees self.old.pool) }
        ensures same { IsSamePass self.old.pass self.new.pass × OnlyRows (knows self.old.pass) (knows self.new.pass) }
        ensures kept { (self.new.table ≡ self.old.table) × (self.new.tree ≡ self.old.tree) × (self.new.asked ≡ self.old.asked)
            × (self.new.held ≡ self.old.held) × (self.new.part ≡ self.old.part) }
        ensures locked { IsLockedWith (knows self.new.pass) self.new.tree self.new.asked self.new.held self.new.part.rows.items
            self.new.part.hangs.items (pool_rows (knows self.new.pass).plan.trees self.new.pool) }
        ensures rows { KeepsRows (knows self.old.pass) (knows self.new.pass) }
        ensures others { HoldsElse (knows self.old.pass).plan.trees (knows self.old.pass) (knows self.new.pass) }
        ensures pool { IfOk result (λ _. self.new.pool ≡ with_anchor self.old.pool) }
        ensures held { IfOk result (λ _. IsHeld (knows self.new.pass) (knows self.new.pass).plan.trees) }
        ensures before { IfErr result (λ _. (self.new.pool ≡ self.old.pool)
            × HoldsSame (knows self.old.pass) (knows self.new.pass)) }
        ensures refused { IfErr result (λ fault. IsBusyAt (knows self.old.pass).plan.trees fault
            × IsRefused (knows self.old.pass) (knows self.new.pass) fault) }
    {
        let anchor = self.table.plan().trees;
        match self.pool {
            PoolRows::Nothing => {
                match take_row(self.table, &mut self.pass, anchor, self.spins) {
                    Ok(_) => {}
                    Err(fault) => return Err(fault),
                }
                self.pool = PoolRows::Anchor;
                Ok(())
            }
            PoolRows::Anchor | PoolRows::Vacant(_) => Ok(()),
        }
    }

    // Takes the first row of the pool, of which the anchor is held.
    fn take_first(&mut self) -> Result<u32, Fault>
        requires licensed { (knows self.old.pass).licensed ≡ true }
        requires anchor { self.old.pool ≡ AnchorAlone }
        requires locked { IsLockedWith (knows self.old.pass) self.old.tree self.old.asked self.old.held self.old.part.rows.items
            self.old.part.hangs.items ((knows self.old.pass).plan.trees ∷ []) }
        ensures same { IsSamePass self.old.pass self.new.pass × OnlyRows (knows self.old.pass) (knows self.new.pass) }
        ensures kept { (self.new.table ≡ self.old.table) × (self.new.tree ≡ self.old.tree) × (self.new.asked ≡ self.old.asked)
            × (self.new.held ≡ self.old.held) × (self.new.part ≡ self.old.part) }
        ensures locked { IsLockedWith (knows self.new.pass) self.new.tree self.new.asked self.new.held self.new.part.rows.items
            self.new.part.hangs.items (pool_rows (knows self.new.pass).plan.trees self.new.pool) }
        ensures rows { KeepsRows (knows self.old.pass) (knows self.new.pass) }
        ensures first { IfOk result (λ row. (self.new.pool ≡ Vacant row) × HoldsFirst (knows self.new.pass) row) }
        ensures before { IfErr result (λ _. (self.new.pool ≡ AnchorAlone) × OnlyMet (knows self.old.pass) (knows self.new.pass)) }
        ensures refused { IfErr result (λ fault. IsRefused (knows self.old.pass) (knows self.new.pass) fault) }
    {
        let anchor = self.table.plan().trees;
        let image = self.table.load_row(&mut self.pass, anchor);
        let row = (image.left() - 1) as u32;
        match take_row(self.table, &mut self.pass, row, self.spins) {
            Ok(_) => {}
            Err(fault) => return Err(fault),
        }
        self.pool = PoolRows::Vacant(row);
        Ok(row)
    }

    /// Takes the pool's anchor where the state doesn't hold it yet, and the first row of the pool. After a refusal the state is as
    /// before.
    ///
    /// It takes no memory.
    ///
    /// # Errors
    /// `Busy` alone, and only where the pool's anchor or that row was met held by another pass, which never comes to a pass with all
    /// the rights.
    pub fn vacant(&mut self) -> Result<u32, Fault>
        requires licensed { (knows self.old.pass).licensed ≡ true }
        requires none { HoldsNoVacant self.old.pool }
        requires locked { IsLockedWith (knows self.old.pass) self.old.tree self.old.asked self.old.held self.old.part.rows.items
            self.old.part.hangs.items (pool_rows (knows self.old.pass).plan.trees self.old.pool) }
        ensures same { IsSamePass self.old.pass self.new.pass × OnlyRows (knows self.old.pass) (knows self.new.pass) }
        ensures kept { (self.new.table ≡ self.old.table) × (self.new.tree ≡ self.old.tree) × (self.new.asked ≡ self.old.asked)
            × (self.new.held ≡ self.old.held) × (self.new.part ≡ self.old.part) }
        ensures locked { IsLockedWith (knows self.new.pass) self.new.tree self.new.asked self.new.held self.new.part.rows.items
            self.new.part.hangs.items (pool_rows (knows self.new.pass).plan.trees self.new.pool) }
        ensures rows { KeepsRows (knows self.old.pass) (knows self.new.pass) }
        ensures first { IfOk result (λ row. (self.new.pool ≡ Vacant row) × HoldsFirst (knows self.new.pass) row) }
        ensures before { IfErr result (λ _. (self.new.pool ≡ self.old.pool)
            × HoldsSame (knows self.old.pass) (knows self.new.pass)) }
        ensures refused { IfErr result (λ fault. IsRefused (knows self.old.pass) (knows self.new.pass) fault) }
    {
        match self.pool {
            PoolRows::Anchor | PoolRows::Vacant(_) => self.take_first(),
            PoolRows::Nothing => {
                match self.pool() {
                    Ok(()) => {}
                    Err(fault) => return Err(fault),
                }
                match self.take_first() {
                    Ok(row) => Ok(row),
                    Err(fault) => {
                        self.table.put(&mut self.pass, self.table.plan().trees);
                        self.pool = PoolRows::Nothing;
                        Err(fault)
                    }
                }
            }
        }
    }
}
