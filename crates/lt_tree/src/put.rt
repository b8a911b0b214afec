//! Rows given back.
ghost use Rattle.std.specs.Prelude.{◌≡◌, ◌∷◌, ◌++◌};
ghost use Rattle.lt_forest.specs.Parts.{numbers};
ghost use Rattle.lt_rows.specs.Handles.{knows, IsPassOf, IsSamePass};
ghost use Rattle.lt_tree.specs.States.{OnlyHeld, HoldsNone};
ghost use Rattle.lt_tree.specs.Puttings.{Keeps, Puts, Backs};
ghost use Rattle.lt_tree.specs.Pools.{pool_rows};

use crate::pool::PoolRows;
use lt_forest::PartRow;
use lt_rows::{RowPass, RowTable};

/// Gives these rows back, of which the words are those that count.
pub fn put_all(table: &RowTable, pass: &mut RowPass, rows: Vec<u32>)
    requires of { IsPassOf table.now pass.old }
    requires keeps { Keeps (knows pass.old) rows.items }
    ensures of { IsPassOf table.now pass.new × IsSamePass pass.old pass.new }
    ensures put { Puts (knows pass.old) (knows pass.new) rows.items }
{
    let mut rows = rows;
    while let Some(row) = rows.pop() {
        table.put(pass, row);
    }
}

/// Gives all rows that are held back: this one and those of a part.
pub(crate) fn put_part(table: &RowTable, pass: &mut RowPass, held: u32, rows: Vec<PartRow>)
    requires of { IsPassOf table.now pass.old }
    requires backs { Backs (knows pass.old) (held ∷ numbers rows.items) }
    ensures of { IsPassOf table.now pass.new × IsSamePass pass.old pass.new }
    ensures only { OnlyHeld (knows pass.old) (knows pass.new) }
    ensures none { HoldsNone (knows pass.new) }
{
    let mut rows = rows;
    while let Some(row) = rows.pop() {
        table.put(pass, row.row);
    }
    table.put(pass, held);
}

// Gives back what is held of the pool.
fn put_pool(table: &RowTable, pass: &mut RowPass, pool: PoolRows)
    requires of { IsPassOf table.now pass.old }
    requires keeps { Keeps (knows pass.old) (pool_rows (knows pass.old).plan.trees pool) }
    ensures of { IsPassOf table.now pass.new × IsSamePass pass.old pass.new }
    ensures put { Puts (knows pass.old) (knows pass.new) (pool_rows (knows pass.old).plan.trees pool) }
{
    let anchor = table.plan().trees;
    match pool {
        PoolRows::Nothing => {}
        PoolRows::Anchor => table.put(pass, anchor),
        PoolRows::Vacant(row) => {
            table.put(pass, anchor);
            table.put(pass, row);
        }
    }
}

/// Gives all rows back that a search holds: those of the pool, the one that stays, and those of its part.
pub(crate) fn put_held(
    table: &RowTable,
    pass: &mut RowPass,
    pool: PoolRows,
    held: u32,
    rows: Vec<PartRow>,
)
    requires of { IsPassOf table.now pass.old }
    requires backs { Backs (knows pass.old) (pool_rows (knows pass.old).plan.trees pool ++ held ∷ numbers rows.items) }
    ensures of { IsPassOf table.now pass.new × IsSamePass pass.old pass.new }
    ensures only { OnlyHeld (knows pass.old) (knows pass.new) }
    ensures none { HoldsNone (knows pass.new) }
{
    put_pool(table, pass, pool);
    put_part(table, pass, held, rows);
}
