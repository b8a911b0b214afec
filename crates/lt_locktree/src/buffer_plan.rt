//! The plan of an event that ends a buffer.
ghost use Rattle.std.specs.Prelude.{◌≡◌, ◌≤◌, ◌<◌, ◌+◌, ◌-◌, ◌^◌, ◌++◌, [], ◌∷◌, All, length, IfOk};
ghost use Rattle.lt_locktree.specs.EndedBuffers.{HasRoom, PlansEnd, PlansGiven, rows_with, spare_rows};
ghost use Rattle.lt_locktree.specs.EndingPlans.{PlansTree};
ghost use Rattle.lt_locktree.specs.EndingRows.{stood_in};
ghost use Rattle.lt_locktree.specs.Given.{given_to};
ghost use Rattle.lt_locktree.specs.LawsOfPlans.{taken_from};

use crate::asking::Asking;
use crate::buffer_rows::{EndRows, Spare};
use crate::ending::plan_tree;
use crate::giving::chain;
use crate::standing::stand_pairs;
use lt_forest::PartRow;
use lt_ranges::KeyRange;
use lt_rows::RowImage;
use lt_seq::Pair;
use std::alloc::{AllocError, Global};

// The pool's anchor with another first row.
fn with_link(pool: &RowImage, link: u64) -> RowImage
    ensures { result ≡ given_to pool.now link }
{
    let mut image = *pool;
    image.words[17] = link;
    image
}

// Rows of a chain by their numbers.
fn rows_over(alloc: Global, rows: &[u32], range: &KeyRange) -> Result<Vec<PartRow>, AllocError>
    ensures { IfOk result (λ over. over.items ≡ rows_with range.now rows.now) }
{
    rows.iter()
        .map(|row| PartRow {
            row: *row,
            owner: 0,
            range: *range,
        })
        .collect(alloc)
}

// Puts behind the other images those of the pairs, one in each row, and of the anchor.
fn plan_pairs(
    alloc: Global,
    anchor: &RowImage,
    asking: &Asking,
    score: u64,
    rows: &[u32],
    pairs: &[Pair],
    images: Vec<RowImage>,
) -> Result<Vec<RowImage>, AllocError>
    requires enough { length pairs.now ≤ length rows.now }
    requires small { All (λ r. r < 2 ^ 32 - 1) rows.now }
    ensures { IfOk result (λ plan. PlansTree asking.now.tree asking.now.range anchor.now score images.items plan.items
        (stood_in rows.now pairs.now)) }
{
    let stood = stand_pairs(alloc, rows, pairs)?;
    let mut plan = images;
    plan_tree(
        alloc,
        anchor,
        score,
        asking.tree,
        &asking.range,
        &stood,
        &mut plan,
    )?;
    Ok(plan)
}

// The pairs are fewer than the rows: those that are over go to the front of the pool.
fn plan_given(
    alloc: Global,
    anchor: &RowImage,
    pool: &RowImage,
    asking: &Asking,
    score: u64,
    rows: &[u32],
    pairs: &[Pair],
) -> Result<Vec<RowImage>, AllocError>
    requires enough { length pairs.now ≤ length rows.now }
    requires small { All (λ r. r < 2 ^ 32 - 1) rows.now }
    ensures { IfOk result (λ plan. PlansGiven asking.now.tree asking.now.range anchor.now pool.now score rows.now pairs.now plan.items) }
{
    let over = rows_over(alloc, &rows[pairs.len()..], &asking.range)?;
    let mut given = Vec::new(alloc);
    let link = chain(&over, pool.words[17], &mut given)?;
    let mut images = Vec::new(alloc);
    images.push(with_link(pool, link))?;
    images.extend_from_slice(&given)?;
    plan_pairs(alloc, anchor, asking, score, rows, pairs, images)
}

// There is one pair more than rows: the first one stands in the pool's first row.
fn plan_taken(
    alloc: Global,
    anchor: &RowImage,
    pool: &RowImage,
    first: &RowImage,
    asking: &Asking,
    score: u64,
    rows: &[u32],
    pairs: &[Pair],
) -> Result<Vec<RowImage>, AllocError>
    requires enough { length pairs.now ≤ length rows.now + 1 }
    requires small { All (λ r. r < 2 ^ 32 - 1) (first.now.row ∷ rows.now) }
    ensures { IfOk result (λ plan. PlansTree asking.now.tree asking.now.range anchor.now score (taken_from pool.now first.now ∷ [])
        plan.items (stood_in (first.now.row ∷ rows.now) pairs.now)) }
{
    let mut images = Vec::new(alloc);
    images.push(with_link(pool, first.words[17]))?;
    let mut all = Vec::new(alloc);
    all.push(first.row)?;
    all.extend_from_slice(rows)?;
    plan_pairs(alloc, anchor, asking, score, &all, pairs, images)
}

/// The plan that lays the pairs out as a tree with this score, in the chain's rows and what is held of the pool. The one error is want
/// of memory.
pub(crate) fn plan_end(
    alloc: Global,
    ends: &EndRows,
    asking: &Asking,
    score: u64,
    rows: &[u32],
    pairs: &[Pair],
) -> Result<Vec<RowImage>, AllocError>
    requires room { HasRoom (length rows.now) (length pairs.now) ends.now.spare }
    requires small { All (λ r. r < 2 ^ 32 - 1) (spare_rows ends.now.spare ++ rows.now) }
    ensures { IfOk result (λ plan. PlansEnd asking.now.tree asking.now.range score rows.now pairs.now ends.now.anchor ends.now.spare
        plan.items) }
{
    let anchor = &ends.anchor;
    match &ends.spare {
        Spare::Nothing => plan_pairs(alloc, anchor, asking, score, rows, pairs, Vec::new(alloc)),
        Spare::Anchor(pool) => plan_given(alloc, anchor, pool, asking, score, rows, pairs),
        Spare::First(pool, first) => plan_taken(
            alloc, anchor, pool, first, asking, score, rows, pairs,
        ),
    }
}
