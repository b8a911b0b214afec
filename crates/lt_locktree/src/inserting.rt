//! An ask that no row overlaps, for which a row of the pool is put in.
ghost use Rattle.std.specs.Prelude.{◌≡◌, ◌+◌, ◌-◌, ◌^◌, ◌<◌, ◌≤◌, ◌++◌, ◌∷◌, List, [], All, IfOk, IfErr, length, take, drop, true};
ghost use Rattle.lt_seq.specs.declared.event.Deed.TheVariants.{Ask};
ghost use Rattle.lt_seq.specs.declared.event.Reply.TheVariants.{Granted};
ghost use Rattle.lt_forest.specs.declared.part.PartRow.{PartRow};
ghost use Rattle.lt_rows.specs.declared.image.RowImage.{RowImage as Image};
ghost use Rattle.lt_rows.specs.declared.view.View.{View};
ghost use Rattle.lt_rows.specs.Handles.{knows, IsPassOf, IsSamePass};
ghost use Rattle.lt_tree.specs.States.{HoldsNone, OnlyRows, IsRefused};
ghost use Rattle.lt_tree.specs.Gathers.{IsLockedWith, IsClosed};
ghost use Rattle.lt_tree.specs.Pools.{pool_rows, HoldsNoVacant};
ghost use Rattle.lt_locktree.specs.LawsOfGrants.{StandsBetween, NoBufferBegins, new_row};
ghost use Rattle.lt_locktree.specs.LawsOfPlans.{taken_from};
ghost use Rattle.lt_locktree.specs.Makes.{IsOf, Makes};
ghost use Rattle.lt_locktree.specs.PlannedParts.{PlansRows};

use crate::asking::Asking;
use crate::planning::plan_rows;
use lt_forest::{Part, PartRow};
use lt_rows::{RowImage, RowPass};
use lt_seq::{Deed, Event, Fault, Receipt, Reply};
use lt_tree::Locked;
use std::alloc::{AllocError, Global};

/// The rows and the hangs of the part with a new row at this place, beside which nothing hangs.
fn with_row(
    alloc: Global,
    asking: &Asking,
    part: &Part,
    at: usize,
    vacant: u32,
) -> Result<Part, AllocError>
    requires hangs_between { length part.now.hangs.items ≡ length part.now.rows.items + 1 }
    requires at { at ≤ length part.now.rows.items }
    ensures rows { IfOk result (λ new. new.rows.items ≡ take at part.now.rows.items
        ++ new_row asking.now.txn asking.now.range vacant ∷ drop at part.now.rows.items) }
    ensures hangs { IfOk result (λ new. new.hangs.items ≡ take at part.now.hangs.items ++ 0 ∷ 0 ∷ drop (at + 1) part.now.hangs.items) }
{
    let mut rows = Vec::new(alloc);
    rows.extend_from_slice(&part.rows[..at])?;
    rows.push(PartRow {
        row: vacant,
        owner: asking.txn,
        range: asking.range,
    })?;
    rows.extend_from_slice(&part.rows[at..])?;
    let mut hangs = Vec::new(alloc);
    hangs.extend_from_slice(&part.hangs[..at])?;
    hangs.push(0)?;
    hangs.push(0)?;
    hangs.extend_from_slice(&part.hangs[at + 1..])?;
    Ok(Part { rows, hangs })
}

/// The plan in which the first row of the pool is put in at this place with the range. The one error is want of memory.
pub fn plan_put_in(
    alloc: Global,
    stays: &RowImage,
    pool: &RowImage,
    vacant: &RowImage,
    asking: &Asking,
    part: &Part,
    at: usize,
) -> Result<Vec<RowImage>, AllocError>
    requires hangs_between { length part.now.hangs.items ≡ length part.now.rows.items + 1 }
    requires small { All (λ (r : PartRow). r.row < 2 ^ 32 - 1) part.now.rows.items }
    requires vacant { vacant.now.row < 2 ^ 32 - 1 }
    requires at { at ≤ length part.now.rows.items }
    ensures { IfOk result (λ plan. PlansRows asking.now.tree asking.now.range stays.now (taken_from pool.now vacant.now ∷ []) plan.items
        (take at part.now.rows.items ++ new_row asking.now.txn asking.now.range vacant.now.row ∷ drop at part.now.rows.items)
        (take at part.now.hangs.items ++ 0 ∷ 0 ∷ drop (at + 1) part.now.hangs.items)) }
{
    let new = with_row(alloc, asking, part, at, vacant.row)?;
    let mut first = *pool;
    first.words[17] = vacant.words[17];
    let mut images = Vec::new(alloc);
    images.push(first)?;
    plan_rows(
        stays,
        asking.tree,
        &asking.range,
        &new.rows,
        &new.hangs,
        &mut images,
    )?;
    Ok(images)
}

/// Grants an ask that no row of the part overlaps, which has its place at this index: the first row of the pool is put in there, by an
/// event that ends the search.
///
/// # Errors
/// `Busy` with the pool's anchor or its first row, only where that was met held by another pass, which never comes to a pass with all
/// the rights; or want of memory. There is no event then, and no row is held.
pub fn put_in_row<'a>(
    alloc: Global,
    locked: Locked<'a>,
    asking: &Asking,
    at: usize,
) -> Result<(RowPass, Receipt), (RowPass, Fault)>
    requires fresh { (knows locked.pass).fresh ≡ true }
    requires licensed { (knows locked.pass).licensed ≡ true }
    requires none { HoldsNoVacant locked.pool }
    requires locked { IsLockedWith (knows locked.pass) locked.tree locked.asked locked.held locked.part.rows.items
        locked.part.hangs.items (pool_rows (knows locked.pass).plan.trees locked.pool) }
    requires closed { IsClosed locked.asked locked.part.rows.items locked.part.hangs.items }
    requires asking { IsOf locked.pass locked.tree locked.asked asking.now }
    requires at { at ≤ length locked.part.rows.items }
    requires between { StandsBetween asking.now.range (take at locked.part.rows.items) (drop at locked.part.rows.items) }
    requires unbuffered { NoBufferBegins (knows locked.pass) locked.tree locked.held asking.now.txn locked.part.rows.items }
    ensures of { IfOk result (λ r. IsPassOf locked.entry.table.now r.0 × IsSamePass locked.entry.pass r.0 × HoldsNone (knows r.0)) }
    ensures made { IfOk result (λ r. (u : View) × (plan : List Image) × OnlyRows (knows locked.entry.pass) u
        × Makes u (knows r.0) plan r.1.event r.1.place) }
    ensures event { IfOk result (λ r. r.1.event ≡ record {
      pass = asking.now.pass;
      txn = asking.now.txn;
      deed = Ask asking.now.tree asking.now.range Granted;
    }) }
    ensures handed { IfErr result (λ r. IsPassOf locked.entry.table.now r.0 × IsSamePass locked.entry.pass r.0 × HoldsNone (knows r.0)
        × OnlyRows (knows locked.entry.pass) (knows r.0)) }
    ensures refused { IfErr result (λ r. IsRefused (knows locked.entry.pass) (knows r.0) r.1) }
{
    let mut locked = locked;
    let row = match locked.vacant() {
        Ok(row) => row,
        Err(fault) => return Err((locked.release(), fault)),
    };
    let here = locked.held();
    let stays = locked.image(here);
    let anchor = locked.pool_row();
    let pool = locked.image(anchor);
    let vacant = locked.image(row);
    let Ok(plan) = plan_put_in(alloc, &stays, &pool, &vacant, asking, locked.part(), at) else {
        return Err((locked.release(), Fault::OutOfMemory));
    };
    let event = Event {
        pass: asking.pass,
        txn: asking.txn,
        deed: Deed::Ask {
            tree: asking.tree,
            range: asking.range,
            reply: Reply::Granted,
        },
    };
    let (pass, place) = locked.finish(&plan, &event, 1);
    Ok((pass, Receipt { place, event }))
}
