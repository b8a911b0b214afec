//! A free by which rows of a part go.
ghost use Rattle.std.specs.Prelude.{◌≡◌, ◌⊎◌, ◌+◌, ◌-◌, ◌^◌, ◌<◌, pos, ◌+ℤ◌, ℕ, List, [], All, IfOk, IfErr, true, false, length, map};
ghost use Rattle.lt_seq.specs.declared.event.Deed.TheVariants.{Free};
ghost use Rattle.lt_seq.specs.Pairs.{count_freed};
ghost use Rattle.lt_forest.specs.declared.part.PartRow.{PartRow};
ghost use Rattle.lt_forest.specs.Parts.{row_pair};
ghost use Rattle.lt_rows.specs.declared.image.RowImage.{RowImage as Image};
ghost use Rattle.lt_rows.specs.declared.view.View.{View};
ghost use Rattle.lt_rows.specs.Handles.{knows, IsPassOf, IsSamePass};
ghost use Rattle.lt_tree.specs.States.{HoldsNone, OnlyRows, IsRefused};
ghost use Rattle.lt_tree.specs.Gathers.{IsLocked, IsLockedWith, IsClosed};
ghost use Rattle.lt_tree.specs.Pools.{pool_rows};
ghost use Rattle.lt_tree.specs.declared.pool.PoolRows.TheVariants.{Nothing};
ghost use Rattle.lt_locktree.specs.LawsOfFrees.{freed_rows};
ghost use Rattle.lt_locktree.specs.Makes.{IsOf, Makes};
ghost use Rattle.lt_locktree.specs.Leavings.{IsLeftOut, PlansFreed, scored};

use crate::asking::Asking;
use crate::giving::chain;
use crate::leaving::{LeftOut, leave_widened};
use crate::planning::plan_rows;
use lt_rows::{RowImage, RowPass};
use lt_seq::{Deed, Event, Fault, Receipt};
use lt_tree::Locked;
use std::alloc::{AllocError, Global};

/// The plan in which the rows that go are put to the front of the pool, and the others laid out anew. The one error is want of memory.
pub fn plan_freed(
    alloc: Global,
    stays: &RowImage,
    pool: &RowImage,
    asking: &Asking,
    left: &LeftOut,
) -> Result<Vec<RowImage>, AllocError>
    requires hangs_between { length left.now.part.hangs.items ≡ length left.now.part.rows.items + 1 }
    requires small { All (λ (r : PartRow). r.row < 2 ^ 32 - 1) left.now.part.rows.items }
    ensures { IfOk result (λ plan. PlansFreed asking.now.tree asking.now.range stays.now pool.now left.now plan.items) }
{
    let mut images = Vec::new(alloc);
    let link = chain(&left.gone, pool.words[17], &mut images)?;
    let mut anchor = *pool;
    anchor.words[17] = link;
    images.push(anchor)?;
    plan_rows(
        stays,
        asking.tree,
        &asking.range,
        &left.part.rows,
        &left.part.hangs,
        &mut images,
    )?;
    Ok(images)
}

// The row that stays, as an anchor with the score that a free leaves.
fn with_score(stays: &RowImage, first: bool) -> RowImage
    ensures { result ≡ scored first stays.now }
{
    let mut image = *stays;
    let score = image.words[19];
    image.words[19] = if first && score < 100 {
        score + 1
    } else {
        score
    };
    image
}

/// The change of the used rows that makes them fewer by so many.
pub(crate) fn fewer(rows: usize) -> i64
    requires { rows < 9223372036854775808 }
    ensures { result +ℤ pos rows ≡ pos 0 }
{
    -(rows as i64)
}

/// Frees the range for the transaction, by an event that ends the search: the rows that go are given to the pool. By a release's first
/// free, whose search holds the anchor, the tree's score rises by one, up to 100.
///
/// # Errors
/// `Busy` with the pool's anchor, only where it was met held by another pass, which never comes to a pass with all the rights; or want
/// of memory. There is no event then, and no row is held.
pub fn free_rows<'a>(
    alloc: Global,
    locked: Locked<'a>,
    asking: &Asking,
    left: &LeftOut,
    first: bool,
) -> Result<(RowPass, Receipt), (RowPass, Fault)>
    requires fresh { (knows locked.pass).fresh ≡ true }
    requires locked { IsLockedWith (knows locked.pass) locked.tree locked.asked locked.held locked.part.rows.items
        locked.part.hangs.items (pool_rows (knows locked.pass).plan.trees locked.pool) }
    requires closed { IsClosed locked.asked locked.part.rows.items locked.part.hangs.items }
    requires asking { IsOf locked.pass locked.tree locked.asked asking.now }
    requires anchor { (first ≡ false) ⊎ (locked.held ≡ locked.tree) }
    requires left { IsLeftOut asking.now.txn asking.now.range locked.part.rows.items locked.part.hangs.items left.now }
    ensures of { IfOk result (λ r. IsPassOf locked.entry.table.now r.0 × IsSamePass locked.entry.pass r.0 × HoldsNone (knows r.0)) }
    ensures made { IfOk result (λ r. (u : View) × (plan : List Image) × OnlyRows (knows locked.entry.pass) u
        × Makes u (knows r.0) plan r.1.event r.1.place) }
    ensures event { IfOk result (λ r. r.1.event ≡ record {
      pass = asking.now.pass;
      txn = asking.now.txn;
      deed = Free asking.now.tree asking.now.range first
          (count_freed asking.now.txn asking.now.range (map row_pair locked.entry.part.rows.items));
    }) }
    ensures handed { IfErr result (λ r. IsPassOf locked.entry.table.now r.0 × IsSamePass locked.entry.pass r.0 × HoldsNone (knows r.0)
        × OnlyRows (knows locked.entry.pass) (knows r.0)) }
    ensures refused { IfErr result (λ r. IsRefused (knows locked.entry.pass) (knows r.0) r.1) }
{
    let mut locked = locked;
    if let Err(fault) = locked.pool() {
        return Err((locked.release(), fault));
    }
    let here = locked.held();
    let stays = locked.image(here);
    let raised = with_score(&stays, first);
    let anchor = locked.pool_row();
    let pool = locked.image(anchor);
    let Ok(plan) = plan_freed(alloc, &raised, &pool, asking, left) else {
        return Err((locked.release(), Fault::OutOfMemory));
    };
    let count = left.gone.len();
    let event = Event {
        pass: asking.pass,
        txn: asking.txn,
        deed: Deed::Free {
            tree: asking.tree,
            range: asking.range,
            first,
            count: count as u64,
        },
    };
    let (pass, place) = locked.finish(&plan, &event, fewer(count));
    Ok((pass, Receipt { place, event }))
}

// Makes a free by which no row goes, by an event that ends the search.
fn free_none<'a>(locked: Locked<'a>, asking: &Asking) -> (RowPass, Receipt)
    requires fresh { (knows locked.pass).fresh ≡ true }
    requires locked { IsLockedWith (knows locked.pass) locked.tree locked.asked locked.held locked.part.rows.items
        locked.part.hangs.items (pool_rows (knows locked.pass).plan.trees locked.pool) }
    requires closed { IsClosed locked.asked locked.part.rows.items locked.part.hangs.items }
    requires asking { IsOf locked.pass locked.tree locked.asked asking.now }
    requires none { freed_rows asking.now.txn asking.now.range locked.part.rows.items ≡ [] }
    ensures of { IsPassOf locked.entry.table.now result.0 × IsSamePass locked.entry.pass result.0 × HoldsNone (knows result.0) }
    ensures made { Makes (knows locked.entry.pass) (knows result.0) [] result.1.event result.1.place }
    ensures event { result.1.event ≡ record {
      pass = asking.now.pass;
      txn = asking.now.txn;
      deed = Free asking.now.tree asking.now.range false 0;
    } }
{
    let event = Event {
        pass: asking.pass,
        txn: asking.txn,
        deed: Deed::Free {
            tree: asking.tree,
            range: asking.range,
            first: false,
            count: 0,
        },
    };
    let (pass, place) = locked.finish(&[], &event, 0);
    (pass, Receipt { place, event })
}

/// Frees the range for the transaction, by an event that ends the search. Where two links would come to hang side by side, the part is
/// widened before. By a release's first free, whose search holds the anchor, the tree's score rises by one, up to 100.
///
/// # Errors
/// `Busy` only where a row was met held by another pass, which never comes to a pass with all the rights; or want of memory. There is
/// no event then, and no row is held.
pub fn free_in_tree<'a>(
    alloc: Global,
    locked: Locked<'a>,
    asking: &Asking,
    first: bool,
) -> Result<(RowPass, Receipt), (RowPass, Fault)>
    requires fresh { (knows locked.pass).fresh ≡ true }
    requires locked { IsLocked (knows locked.pass) locked.tree locked.asked locked.held locked.part.rows.items locked.part.hangs.items }
    requires pool { locked.pool ≡ Nothing }
    requires closed { IsClosed locked.asked locked.part.rows.items locked.part.hangs.items }
    requires asking { IsOf locked.pass locked.tree locked.asked asking.now }
    requires anchor { (first ≡ false) ⊎ (locked.held ≡ locked.tree) }
    ensures of { IfOk result (λ r. IsPassOf locked.entry.table.now r.0 × IsSamePass locked.entry.pass r.0 × HoldsNone (knows r.0)) }
    ensures made { IfOk result (λ r. (u : View) × (plan : List Image) × OnlyRows (knows locked.entry.pass) u
        × Makes u (knows r.0) plan r.1.event r.1.place) }
    ensures event { IfOk result (λ r. (count : ℕ) × (r.1.event ≡ record {
      pass = asking.now.pass;
      txn = asking.now.txn;
      deed = Free asking.now.tree asking.now.range first count;
    })) }
    ensures handed { IfErr result (λ r. IsPassOf locked.entry.table.now r.0 × IsSamePass locked.entry.pass r.0 × HoldsNone (knows r.0)
        × OnlyRows (knows locked.entry.pass) (knows r.0)) }
    ensures refused { IfErr result (λ r. IsRefused (knows locked.entry.pass) (knows r.0) r.1) }
{
    let mut locked = locked;
    match leave_widened(alloc, &mut locked, asking) {
        Ok(left) if left.gone.is_empty() && !first => Ok(free_none(locked, asking)),
        Ok(left) => free_rows(alloc, locked, asking, &left, first),
        Err(fault) => Err((locked.release(), fault)),
    }
}
