//! A search that holds a row, and below it a part.
ghost use Rattle.std.specs.Prelude.{◌≡◌, ◌+◌, ◌<◌, ◌≤◌, ◌^◌, ℕ, IfOk, IfErr, [], length, slice_index};
ghost use Rattle.std.specs.Prelude.{vec_len, vec_capacity};
ghost use Rattle.lt_ranges.specs.Interval.{IsInterval};
ghost use Rattle.lt_forest.specs.Forest.{IsTree};
ghost use Rattle.lt_rows.specs.Nodes.{mode_of};
ghost use Rattle.lt_rows.specs.Views.{IsHeld, images, row_at, words_of};
ghost use Rattle.lt_rows.specs.Handles.{knows, IsPassOf, IsSamePass};
ghost use Rattle.lt_tree.specs.States.{HoldsNone, OnlyHeld, OnlyRows, SeesOn, KeepsRows, IsRefused};
ghost use Rattle.lt_tree.specs.Descents.{Stays, ShowsAs, IsLast, free_rows};
ghost use Rattle.lt_tree.specs.Gathers.{IsLocked, IsLockedWith, IsClosed, PlacedAt};
ghost use Rattle.lt_tree.specs.Pools.{pool_rows};
ghost use Rattle.lt_tree.specs.declared.pool.PoolRows.TheVariants.{Nothing};

use crate::descent::{Stop, descend};
use crate::part::{begin, empty_part};
use crate::pool::PoolRows;
use crate::prepare::Prepared;
use crate::put::{put_held, put_part};
use crate::widen::{gather, widen_at};
use lt_forest::Part;
use lt_ranges::{Key, KeyRange};
use lt_rows::{RowImage, RowPass, RowTable};
use lt_seq::Fault;
use std::alloc::Global;

/// A search that holds a row, and below it a part.
#[derive(Drop)]
pub struct Locked<'a> {
    pub(crate) table: &'a RowTable,
    pub(crate) pass: RowPass,
    pub(crate) tree: u32,
    pub(crate) spins: u32,
    pub(crate) asked: KeyRange,
    pub(crate) held: u32,
    pub(crate) part: Part,
    pub(crate) pool: PoolRows,
    ghost of: { IsPassOf table.now pass × (0 < pass.rights) × (tree < table.now.plan.trees) },
}

/// Takes into a part that is begun all that a search for the range reaches. After a refusal no row is held.
fn gather_rest(
    table: &RowTable,
    pass: &mut RowPass,
    part: Part,
    here: u32,
    tree: u32,
    asked: &KeyRange,
    spins: u32,
) -> Result<Part, Fault>
    requires of { IsPassOf table.now pass.old }
    requires right { 0 < pass.old.rights }
    requires tree { tree < table.now.plan.trees }
    requires begun { IsLocked (knows pass.old) tree asked.now here part.rows.items part.hangs.items }
    ensures of { IsPassOf table.now pass.new × IsSamePass pass.old pass.new }
    ensures only { OnlyRows (knows pass.old) (knows pass.new) }
    ensures locked { IfOk result (λ part. IsLocked (knows pass.new) tree asked.now here part.rows.items part.hangs.items) }
    ensures kept { IfOk result (λ _. KeepsRows (knows pass.old) (knows pass.new)) }
    ensures closed { IfOk result (λ part. IsClosed asked.now part.rows.items part.hangs.items) }
    ensures none { IfErr result (λ _. HoldsNone (knows pass.new)) }
    ensures refused { IfErr result (λ fault. IsRefused (knows pass.old) (knows pass.new) fault) }
{
    let mut part = part;
    match gather(table, pass, &mut part, spins, tree, asked, here) {
        Ok(()) => Ok(part),
        Err(fault) => {
            put_part(table, pass, here, part.rows);
            Err(fault)
        }
    }
}

/// Takes below the row that stays held all that a search for the range reaches. After a refusal no row is held.
fn gather_below(
    table: &RowTable,
    pass: &mut RowPass,
    part: Part,
    stop: &Stop,
    tree: u32,
    asked: &KeyRange,
    spins: u32,
) -> Result<Part, Fault>
    requires of { IsPassOf table.now pass.old }
    requires right { 0 < pass.old.rights }
    requires tree { tree < table.now.plan.trees }
    requires empty { (part.rows.items ≡ []) × (part.hangs.items ≡ []) }
    requires room { (1 ≤ vec_capacity part.rows) × (2 ≤ vec_capacity part.hangs) }
    requires stays { Stays (knows pass.old) tree asked.now stop.now.here stop.now.child }
    ensures of { IsPassOf table.now pass.new × IsSamePass pass.old pass.new }
    ensures only { OnlyRows (knows pass.old) (knows pass.new) }
    ensures locked { IfOk result (λ part.
        IsLocked (knows pass.new) tree asked.now stop.now.here.row part.rows.items part.hangs.items) }
    ensures last { IfOk result (λ _. IsLast (knows pass.new) tree asked.now stop.now.here.row) }
    ensures kept { IfOk result (λ _. KeepsRows (knows pass.old) (knows pass.new)) }
    ensures closed { IfOk result (λ part. IsClosed asked.now part.rows.items part.hangs.items) }
    ensures none { IfErr result (λ _. HoldsNone (knows pass.new)) }
    ensures refused { IfErr result (λ fault. IsRefused (knows pass.old) (knows pass.new) fault) }
{
    let mut part = part;
    begin(&mut part, &stop.child);
    gather_rest(table, pass, part, stop.here.row, tree, asked, spins)
}

impl<'a> Prepared<'a> {
    /// Goes down to the last row of the search path whose child on the asked range's side overlaps the range or is missing, and
    /// takes below it all that a search for the range reaches.
    ///
    /// # Errors
    /// `Busy` only where a row was met that another pass holds, which never comes to a pass with all the rights; or want of
    /// memory. The pass that is handed back holds no row.
    pub fn acquire(self, alloc: Global, asked: &KeyRange) -> Result<Locked<'a>, (RowPass, Fault)>
        requires tree_mode { IsTree (mode_of self.image.words) }
        ensures same { IfOk result (λ l. IsSamePass self.entry.pass l.pass × SeesOn (knows self.entry.pass) (knows l.pass)) }
        ensures kept { IfOk result (λ l. (l.table.now ≡ self.entry.table.now) × (l.tree ≡ self.entry.tree) × (l.asked ≡ asked.now)
            × (l.pool ≡ Nothing)) }
        ensures locked { IfOk result (λ l. IsLocked (knows l.pass) l.tree l.asked l.held l.part.rows.items l.part.hangs.items) }
        ensures last { IfOk result (λ l. IsLast (knows l.pass) l.tree l.asked l.held) }
        ensures anchor { IfOk result (λ l. l.held ≡ self.entry.tree
            → ShowsAs self.entry.image.words (images (knows l.pass) l.tree)) }
        ensures closed { IfOk result (λ l. IsClosed l.asked l.part.rows.items l.part.hangs.items) }
        ensures handed { IfErr result (λ r. IsPassOf self.entry.table.now r.0 × IsSamePass self.entry.pass r.0) }
        ensures none { IfErr result (λ r. HoldsNone (knows r.0)) }
        ensures only { IfErr result (λ r. SeesOn (knows self.entry.pass) (knows r.0)) }
        ensures refused { IfErr result (λ r. IsRefused (knows self.entry.pass) (knows r.0) r.1) }
    {
        let Ok(part) = empty_part(alloc) else {
            return Err((self.cancel(), Fault::OutOfMemory));
        };
        let Prepared {
            table,
            pass,
            tree,
            spins,
            image: _,
        } = self;
        let mut pass = pass;
        let anchor = table.load_row(&mut pass, tree);
        let stop = match descend(alloc, table, &mut pass, &anchor, asked, spins) {
            Ok(stop) => stop,
            Err(fault) => return Err((pass, fault)),
        };
        match gather_below(table, &mut pass, part, &stop, tree, asked, spins) {
            Ok(part) => Ok(Locked {
                table,
                pass,
                tree,
                spins,
                asked: *asked,
                held: stop.here.row,
                part,
                pool: PoolRows::Nothing,
            }),
            Err(fault) => Err((pass, fault)),
        }
    }

    /// The same with the anchor held: below it all is taken that a search for the range reaches.
    ///
    /// # Errors
    /// As those of `acquire`.
    pub fn keep_anchor(
        self,
        alloc: Global,
        asked: &KeyRange,
    ) -> Result<Locked<'a>, (RowPass, Fault)>
        requires tree_mode { IsTree (mode_of self.image.words) }
        ensures same { IfOk result (λ l. IsSamePass self.entry.pass l.pass × OnlyRows (knows self.entry.pass) (knows l.pass)) }
        ensures kept { IfOk result (λ l. (l.table.now ≡ self.entry.table.now) × (l.tree ≡ self.entry.tree) × (l.asked ≡ asked.now)
            × (l.held ≡ self.entry.tree) × (l.pool ≡ Nothing)) }
        ensures locked { IfOk result (λ l. IsLocked (knows l.pass) l.tree l.asked l.held l.part.rows.items l.part.hangs.items) }
        ensures closed { IfOk result (λ l. IsClosed l.asked l.part.rows.items l.part.hangs.items) }
        ensures rows { IfOk result (λ l. KeepsRows (knows self.entry.pass) (knows l.pass)) }
        ensures handed { IfErr result (λ r. IsPassOf self.entry.table.now r.0 × IsSamePass self.entry.pass r.0) }
        ensures none { IfErr result (λ r. HoldsNone (knows r.0)) }
        ensures only { IfErr result (λ r. OnlyRows (knows self.entry.pass) (knows r.0)) }
        ensures refused { IfErr result (λ r. IsRefused (knows self.entry.pass) (knows r.0) r.1) }
    {
        let Ok(mut part) = empty_part(alloc) else {
            return Err((self.cancel(), Fault::OutOfMemory));
        };
        let Prepared {
            table,
            pass,
            tree,
            spins,
            image: _,
        } = self;
        let mut pass = pass;
        let anchor = table.load_row(&mut pass, tree);
        let _ = part.hangs.push(anchor.left() as u32);
        match gather_rest(table, &mut pass, part, tree, tree, asked, spins) {
            Ok(part) => Ok(Locked {
                table,
                pass,
                tree,
                spins,
                asked: *asked,
                held: tree,
                part,
                pool: PoolRows::Nothing,
            }),
            Err(fault) => Err((pass, fault)),
        }
    }
}

impl<'a> Locked<'a> {
    /// The row that stays held, from which the part hangs.
    pub fn held(&self) -> u32
        ensures { result ≡ self.now.held }
    {
        self.held
    }

    /// The rows below it, and what hangs between them.
    pub fn part(&self) -> &Part
        ensures { result.now ≡ self.now.part }
    {
        &self.part
    }

    /// Where the table's joins stop.
    pub fn marks(&self) -> &[Key]
        ensures { result.now ≡ self.now.table.now.plan.marks }
    {
        self.table.plan().marks.as_slice()
    }

    /// The words of a row that is held: the row that stays, or one of the part.
    pub fn image(&mut self, row: u32) -> RowImage
        requires held { IsHeld (knows self.old.pass) row }
        ensures same { IsSamePass self.old.pass self.new.pass × (knows self.new.pass ≡ knows self.old.pass) }
        ensures kept { (self.new.table ≡ self.old.table) × (self.new.tree ≡ self.old.tree) × (self.new.asked ≡ self.old.asked)
            × (self.new.held ≡ self.old.held) × (self.new.part ≡ self.old.part) × (self.new.pool ≡ self.old.pool) }
        ensures words { (result.row ≡ row) × (result.words ≡ words_of (row_at (knows self.old.pass) row)) }
    {
        self.table.load_row(&mut self.pass, row)
    }

    /// Takes the top row of the subtree that hangs at this index into the part, which stays closed. After a refusal the state is as
    /// before.
    ///
    /// # Errors
    /// `Busy` only where that row was met held by another pass, which never comes to a pass with all the rights; or want of memory.
    pub fn widen(&mut self, hang: usize) -> Result<(), Fault>
        requires hang { (hang < length self.old.part.hangs.items) × (0 < slice_index self.old.part.hangs.items hang) }
        requires locked { IsLocked (knows self.old.pass) self.old.tree self.old.asked self.old.held self.old.part.rows.items
            self.old.part.hangs.items }
        ensures same { IsSamePass self.old.pass self.new.pass × OnlyRows (knows self.old.pass) (knows self.new.pass) }
        ensures kept { (self.new.table ≡ self.old.table) × (self.new.tree ≡ self.old.tree) × (self.new.asked ≡ self.old.asked)
            × (self.new.held ≡ self.old.held) × (self.new.pool ≡ self.old.pool) }
        ensures locked { IsLocked (knows self.new.pass) self.new.tree self.new.asked self.new.held self.new.part.rows.items
            self.new.part.hangs.items }
        ensures closed { IsClosed self.old.asked self.old.part.rows.items self.old.part.hangs.items
            → IsClosed self.new.asked self.new.part.rows.items self.new.part.hangs.items }
        ensures rows { KeepsRows (knows self.old.pass) (knows self.new.pass) }
        ensures wider { IfOk result (λ _. free_rows (knows self.new.pass).held + 1 ≡ free_rows (knows self.old.pass).held) }
        ensures placed { IfOk result (λ _. PlacedAt hang self.old.part.rows.items self.new.part.rows.items
            self.old.part.hangs.items self.new.part.hangs.items) }
        ensures before { IfErr result (λ _. (self.new.part.rows.items ≡ self.old.part.rows.items)
            × (self.new.part.hangs.items ≡ self.old.part.hangs.items)) }
        ensures refused { IfErr result (λ fault. IsRefused (knows self.old.pass) (knows self.new.pass) fault) }
    {
        let asked = self.asked;
        widen_at(
            self.table,
            &mut self.pass,
            &mut self.part,
            hang,
            self.spins,
            self.tree,
            &asked,
            self.held,
        )
    }

    /// The pass, which holds no row. Nothing is changed.
    pub fn release(self) -> RowPass
        requires locked { IsLockedWith (knows self.pass) self.tree self.asked self.held self.part.rows.items self.part.hangs.items
            (pool_rows (knows self.pass).plan.trees self.pool) }
        ensures of { IsPassOf self.entry.table.now result × IsSamePass self.entry.pass result }
        ensures only { OnlyHeld (knows self.entry.pass) (knows result) }
        ensures none { HoldsNone (knows result) }
    {
        let Locked {
            table,
            pass,
            tree: _,
            spins: _,
            asked: _,
            held,
            part,
            pool,
        } = self;
        let mut pass = pass;
        put_held(table, &mut pass, pool, held, part.rows);
        pass
    }
}
