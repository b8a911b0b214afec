//! The rows that a pass holds to end a buffer.
ghost use Rattle.std.specs.Prelude.{◌≡◌, ◌<◌, ◌≤◌, ◌+◌, ◌∷◌, ◌++◌, true, length, slice_index, IfOk, IfErr};
ghost use Rattle.lt_rows.specs.Handles.{knows, IsPassOf, IsSamePass};
ghost use Rattle.lt_rows.specs.Teaching.{Teaches};
ghost use Rattle.lt_tree.specs.States.{HoldsNone, OnlyHeld, OnlyRows, KeepsRows, IsRefused};
ghost use Rattle.lt_tree.specs.Puttings.{Backs};
ghost use Rattle.lt_chain.specs.Chains.{ShowsChain, HoldsChain};
ghost use Rattle.lt_locktree.specs.EndedBuffers.{HoldsEnds, spare_rows};
ghost use Rattle.lt_locktree.specs.PlannedParts.{IsLoaded};

use lt_chain::put_chain;
use lt_rows::{RowImage, RowPass, RowTable, Take};
use lt_seq::Fault;
use lt_tree::try_take;

/// What is taken of the pool, as it was loaded.
#[derive(Clone, Copy)]
pub(crate) enum Spare {
    Nothing,
    /// The pool's anchor.
    Anchor(RowImage),
    /// The pool's anchor, and the row that was the pool's first.
    First(RowImage, RowImage),
}

/// What is loaded to end a buffer.
#[derive(Clone, Copy)]
pub(crate) struct EndRows {
    /// The tree's anchor.
    pub(crate) anchor: RowImage,
    pub(crate) spare: Spare,
}

// Takes the first row of the pool, whose anchor is held besides the chain. After a refusal that anchor is given back.
fn take_first(
    table: &RowTable,
    pass: &mut RowPass,
    pool: &RowImage,
    _tree: u32,
    _rows: &[u32],
    spins: u32,
) -> Result<RowImage, Fault>
    requires of { IsPassOf table.now pass.old }
    requires right { 0 < pass.old.rights }
    requires tree { _tree < table.now.plan.trees }
    requires licensed { (knows pass.old).licensed ≡ true }
    requires pool { IsLoaded (knows pass.old) table.now.plan.trees pool.now }
    requires backs { Backs (knows pass.old) (pool.now.row ∷ _tree ∷ _rows.now) }
    requires shows { ShowsChain (knows pass.old) _tree _rows.now }
    requires teaches { Teaches (knows pass.old) }
    ensures of { IsPassOf table.now pass.new × IsSamePass pass.old pass.new }
    ensures only { OnlyRows (knows pass.old) (knows pass.new) }
    ensures kept { IfOk result (λ _. KeepsRows (knows pass.old) (knows pass.new)) }
    ensures first { IfOk result (λ row. IsLoaded (knows pass.new) row.row row × (slice_index pool.now.words 17 ≡ row.row + 1)) }
    ensures held { IfOk result (λ row. Backs (knows pass.new) (row.row ∷ pool.now.row ∷ _tree ∷ _rows.now)) }
    ensures teaches { IfOk result (λ _. Teaches (knows pass.new)) }
    ensures backs { IfErr result (λ _. Backs (knows pass.new) (_tree ∷ _rows.now)) }
    ensures refused { IfErr result (IsRefused (knows pass.old) (knows pass.new)) }
{
    let first = (pool.left() - 1) as u32;
    match try_take(table, pass, first, spins) {
        Take::Taken => Ok(table.load_row(pass, first)),
        Take::HeldBy(holder) => {
            table.put(pass, pool.row);
            Err(Fault::Busy { row: first, holder })
        }
    }
}

/// Takes of the pool what the pairs need besides the chain's rows: nothing where they are as many, the pool's anchor where they are
/// fewer, and its first row besides where there is one more. It takes no memory.
///
/// # Errors
/// `Busy` alone, and only where one of these rows was met held by another pass, which never comes to a pass with all the rights.
/// Nothing is held of the pool then.
pub(crate) fn take_ends(
    table: &RowTable,
    pass: &mut RowPass,
    tree: u32,
    rows: &[u32],
    pairs: usize,
    spins: u32,
) -> Result<EndRows, Fault>
    requires of { IsPassOf table.now pass.old }
    requires right { 0 < pass.old.rights }
    requires tree { tree < table.now.plan.trees }
    requires chain { HoldsChain (knows pass.old) tree rows.now }
    requires room { pairs ≤ length rows.now + 1 }
    requires licensed { length rows.now < pairs → (knows pass.old).licensed ≡ true }
    ensures of { IsPassOf table.now pass.new × IsSamePass pass.old pass.new }
    ensures only { OnlyRows (knows pass.old) (knows pass.new) }
    ensures kept { IfOk result (λ _. KeepsRows (knows pass.old) (knows pass.new)) }
    ensures held { IfOk result (HoldsEnds (knows pass.new) tree rows.now pairs) }
    ensures backs { IfErr result (λ _. Backs (knows pass.new) (tree ∷ rows.now)) }
    ensures refused { IfErr result (IsRefused (knows pass.old) (knows pass.new)) }
{
    let anchor = table.load_row(pass, tree);
    if pairs == rows.len() {
        return Ok(EndRows {
            anchor,
            spare: Spare::Nothing,
        });
    }
    let pool_row = table.plan().trees;
    match try_take(table, pass, pool_row, spins) {
        Take::Taken => {}
        Take::HeldBy(holder) => {
            return Err(Fault::Busy {
                row: pool_row,
                holder,
            });
        }
    }
    let pool = table.load_row(pass, pool_row);
    if pairs < rows.len() {
        return Ok(EndRows {
            anchor,
            spare: Spare::Anchor(pool),
        });
    }
    match take_first(table, pass, &pool, tree, rows, spins) {
        Ok(row) => Ok(EndRows {
            anchor,
            spare: Spare::First(pool, row),
        }),
        Err(fault) => Err(fault),
    }
}

/// Gives all rows back that are held.
pub(crate) fn put_ends(
    table: &RowTable,
    pass: &mut RowPass,
    tree: u32,
    rows: Vec<u32>,
    spare: &Spare,
)
    requires of { IsPassOf table.now pass.old }
    requires backs { Backs (knows pass.old) (spare_rows spare.now ++ tree ∷ rows.items) }
    ensures of { IsPassOf table.now pass.new × IsSamePass pass.old pass.new }
    ensures only { OnlyHeld (knows pass.old) (knows pass.new) }
    ensures none { HoldsNone (knows pass.new) }
{
    match spare {
        Spare::Nothing => {}
        Spare::Anchor(pool) => table.put(pass, pool.row),
        Spare::First(pool, row) => {
            table.put(pass, row.row);
            table.put(pass, pool.row);
        }
    }
    put_chain(table, pass, tree, rows);
}
