//! An ask of a transaction of which one range overlaps, which grows.
ghost use Rattle.std.specs.Prelude.{◌≡◌, ◌+◌, ◌-◌, ◌^◌, ◌<◌, ◌++◌, ◌∷◌, List, [], All, IfOk, IfErr, length, take, drop, true};
ghost use Rattle.lt_seq.specs.Pairs.{is_own};
ghost use Rattle.lt_forest.specs.declared.part.PartRow.{PartRow};
ghost use Rattle.lt_forest.specs.Parts.{row_pair};
ghost use Rattle.lt_seq.specs.declared.event.Deed.TheVariants.{Ask};
ghost use Rattle.lt_seq.specs.declared.event.Reply.TheVariants.{Granted};
ghost use Rattle.lt_rows.specs.declared.image.RowImage.{RowImage as Image};
ghost use Rattle.lt_rows.specs.Handles.{knows, IsPassOf, IsSamePass};
ghost use Rattle.lt_tree.specs.States.{HoldsNone, OnlyHeld};
ghost use Rattle.lt_tree.specs.Gathers.{IsLockedWith, IsClosed};
ghost use Rattle.lt_tree.specs.Pools.{pool_rows};
ghost use Rattle.lt_locktree.specs.LawsOfGrants.{StandsBetween, merged_row};
ghost use Rattle.lt_locktree.specs.Makes.{IsOf, Makes};
ghost use Rattle.lt_locktree.specs.PlannedParts.{IsAt, PlansRows};

use crate::asking::Asking;
use crate::planning::plan_rows;
use lt_forest::{Part, PartRow};
use lt_rows::{RowImage, RowPass};
use lt_seq::{Deed, Event, Receipt, Reply};
use lt_tree::Locked;
use std::alloc::{AllocError, Global};

/// The plan in which the row at this place, which is the transaction's and overlaps, grows to the hull. The one error is want of
/// memory.
pub fn plan_grown(
    alloc: Global,
    stays: &RowImage,
    asking: &Asking,
    part: &Part,
    at: usize,
) -> Result<Vec<RowImage>, AllocError>
    requires hangs_between { length part.now.hangs.items ≡ length part.now.rows.items + 1 }
    requires small { All (λ (r : PartRow). r.row < 2 ^ 32 - 1) part.now.rows.items }
    requires at { at < length part.now.rows.items }
    requires own { (r : PartRow) → IsAt part.now.rows.items at r → is_own asking.now.txn asking.now.range (row_pair r) ≡ true }
    ensures { IfOk result (λ plan. (r : PartRow) × IsAt part.now.rows.items at r
        × PlansRows asking.now.tree asking.now.range stays.now [] plan.items
        (take at part.now.rows.items ++ merged_row asking.now.txn asking.now.range r [] ∷ drop (at + 1) part.now.rows.items)
        part.now.hangs.items) }
{
    let row = part.rows[at];
    let mut rows = Vec::with_capacity(alloc, part.rows.len())?;
    rows.extend_from_slice(&part.rows)?;
    rows[at] = PartRow {
        row: row.row,
        owner: asking.txn,
        range: asking.range.hull(&row.range),
    };
    let mut images = Vec::new(alloc);
    plan_rows(
        stays,
        asking.tree,
        &asking.range,
        &rows,
        &part.hangs,
        &mut images,
    )?;
    Ok(images)
}

/// Grants an ask of which one row of the part overlaps, the transaction's, at this place: the row grows to the hull. The error is want
/// of memory; there is no event then.
pub fn grow_row<'a>(
    alloc: Global,
    locked: Locked<'a>,
    asking: &Asking,
    at: usize,
) -> Result<(RowPass, Receipt), RowPass>
    requires fresh { (knows locked.pass).fresh ≡ true }
    requires locked { IsLockedWith (knows locked.pass) locked.tree locked.asked locked.held locked.part.rows.items
        locked.part.hangs.items (pool_rows (knows locked.pass).plan.trees locked.pool) }
    requires closed { IsClosed locked.asked locked.part.rows.items locked.part.hangs.items }
    requires asking { IsOf locked.pass locked.tree locked.asked asking.now }
    requires at { at < length locked.part.rows.items }
    requires own { (r : PartRow) → IsAt locked.part.rows.items at r → is_own asking.now.txn asking.now.range (row_pair r) ≡ true }
    requires between { StandsBetween asking.now.range (take at locked.part.rows.items) (drop (at + 1) locked.part.rows.items) }
    ensures of { IfOk result (λ r. IsPassOf locked.entry.table.now r.0 × IsSamePass locked.entry.pass r.0 × HoldsNone (knows r.0)) }
    ensures made { IfOk result (λ r. (plan : List Image) × Makes (knows locked.entry.pass) (knows r.0) plan r.1.event r.1.place) }
    ensures event { IfOk result (λ r. r.1.event ≡ record {
      pass = asking.now.pass;
      txn = asking.now.txn;
      deed = Ask asking.now.tree asking.now.range Granted;
    }) }
    ensures handed { IfErr result (λ pass. IsPassOf locked.entry.table.now pass × IsSamePass locked.entry.pass pass × HoldsNone (knows pass)
        × OnlyHeld (knows locked.entry.pass) (knows pass)) }
{
    let mut locked = locked;
    let held = locked.held();
    let stays = locked.image(held);
    let Ok(plan) = plan_grown(alloc, &stays, asking, locked.part(), at) else {
        return Err(locked.release());
    };
    let deed = Deed::Ask {
        tree: asking.tree,
        range: asking.range,
        reply: Reply::Granted,
    };
    let event = Event {
        pass: asking.pass,
        txn: asking.txn,
        deed,
    };
    let (pass, place) = locked.finish(&plan, &event, 0);
    Ok((pass, Receipt { place, event }))
}
