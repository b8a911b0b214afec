//! The pairs of a chain that is held.
ghost use Rattle.std.specs.Prelude.{◌≡◌, ℕ, ◌∷◌, [], map, IfOk};
ghost use Rattle.lt_seq.specs.Table.{held_in};
ghost use Rattle.lt_forest.specs.Forest.{folded};
ghost use Rattle.lt_rows.specs.Lawful.{shown};
ghost use Rattle.lt_rows.specs.Handles.{knows, IsPassOf, IsSamePass};
ghost use Rattle.lt_tree.specs.Puttings.{Backs};
ghost use Rattle.lt_chain.specs.Chains.{all_granted};

use lt_ranges::KeyRange;
use lt_rows::{RowPass, RowTable};
use lt_seq::{Held, Pair, add_held, grant};
use std::alloc::{AllocError, Global};

/// The ranges of a chain's rows.
fn chain_ranges(
    alloc: Global,
    table: &RowTable,
    pass: &mut RowPass,
    rows: &[u32],
) -> Result<Vec<KeyRange>, AllocError>
    requires of { IsPassOf table.now pass.old }
    requires backs { (tree : ℕ) × Backs (knows pass.old) (tree ∷ rows.now) }
    ensures of { IsPassOf table.now pass.new × IsSamePass pass.old pass.new }
    ensures same { knows pass.new ≡ knows pass.old }
    ensures ranges { IfOk result (λ ranges. ranges.items ≡ map (λ q. (shown (knows pass.old) [] q).range) rows.now) }
{
    let mut ranges = Vec::new(alloc);
    for row in rows {
        let image = table.load_row(pass, *row);
        ranges.push(image.range())?;
    }
    Ok(ranges)
}

/// What these ranges grant to the transaction, which is the same in any order. They are granted by ascending left ends, so that each
/// goes to the end of the pairs and moves none of them.
fn granted_by_left_ends(
    alloc: Global,
    txn: u64,
    mut ranges: Vec<KeyRange>,
) -> Result<Vec<Pair>, AllocError>
    ensures { IfOk result (λ pairs. pairs.items ≡ all_granted txn ranges.items) }
{
    ranges.sort_unstable_by_key(|range| range.left());
    let mut pairs = Vec::new(alloc);
    for range in &ranges {
        grant(&mut pairs, txn, range)?;
    }
    Ok(pairs)
}

/// What the rows of a chain grant to their transaction, from the last to the first.
fn chain_pairs(
    alloc: Global,
    table: &RowTable,
    pass: &mut RowPass,
    tree: u32,
    txn: u64,
    rows: &[u32],
) -> Result<Vec<Pair>, AllocError>
    requires of { IsPassOf table.now pass.old }
    requires backs { Backs (knows pass.old) (tree ∷ rows.now) }
    ensures of { IsPassOf table.now pass.new × IsSamePass pass.old pass.new }
    ensures same { knows pass.new ≡ knows pass.old }
    ensures pairs { IfOk result (λ pairs. pairs.items ≡ folded txn (shown (knows pass.old) []) rows.now) }
{
    let ranges = chain_ranges(alloc, table, pass, rows)?;
    granted_by_left_ends(alloc, txn, ranges)
}

/// The same as ranges of a tree with the buffer's transaction, which the anchor names.
pub(crate) fn read_pairs(
    alloc: Global,
    table: &RowTable,
    pass: &mut RowPass,
    tree: u32,
    rows: &[u32],
) -> Result<Vec<Held>, AllocError>
    requires of { IsPassOf table.now pass.old }
    requires backs { Backs (knows pass.old) (tree ∷ rows.now) }
    ensures of { IsPassOf table.now pass.new × IsSamePass pass.old pass.new }
    ensures same { knows pass.new ≡ knows pass.old }
    ensures pairs { IfOk result (λ held. held.items
        ≡ held_in tree (folded (shown (knows pass.old) [] tree).owner (shown (knows pass.old) []) rows.now)) }
{
    let anchor = table.load_row(pass, tree);
    let pairs = chain_pairs(alloc, table, pass, tree, anchor.owner(), rows)?;
    let mut held = Vec::new(alloc);
    add_held(&mut held, tree, &pairs)?;
    Ok(held)
}
