//! An ask of a transaction of which several ranges overlap, which become one.
ghost use Rattle.std.specs.Prelude.{◌≡◌, ◌+◌, ◌-◌, ◌^◌, ◌<◌, ◌≤◌, List, All, IfOk, IfErr, fold, length, take, drop, true};
ghost use Rattle.std.specs.List.{AllWithin};
ghost use Rattle.lt_ranges.specs.Interval.{hull};
ghost use Rattle.lt_seq.specs.Pairs.{is_own};
ghost use Rattle.lt_forest.specs.declared.part.PartRow.{PartRow};
ghost use Rattle.lt_forest.specs.Parts.{row_pair};
ghost use Rattle.lt_seq.specs.declared.event.Deed.TheVariants.{Ask};
ghost use Rattle.lt_seq.specs.declared.event.Reply.TheVariants.{Granted};
ghost use Rattle.lt_rows.specs.declared.image.RowImage.{RowImage as Image};
ghost use Rattle.lt_rows.specs.declared.view.View.{View};
ghost use Rattle.lt_rows.specs.Handles.{knows, IsPassOf, IsSamePass};
ghost use Rattle.lt_tree.specs.States.{HoldsNone, OnlyRows, IsRefused};
ghost use Rattle.lt_tree.specs.Gathers.{IsLockedWith, IsClosed};
ghost use Rattle.lt_tree.specs.Pools.{pool_rows};
ghost use Rattle.lt_locktree.specs.LawsOfGrants.{StandsBetween};
ghost use Rattle.lt_locktree.specs.Makes.{IsOf, Makes};
ghost use Rattle.lt_locktree.specs.Mergings.{IsMerged, PlansMerged};

use crate::asking::Asking;
use crate::freeing::fewer;
use crate::giving::chain;
use crate::planning::plan_rows;
use lt_forest::{Part, PartRow};
use lt_ranges::KeyRange;
use lt_rows::{RowImage, RowPass};
use lt_seq::{Deed, Event, Fault, Receipt, Reply};
use lt_tree::Locked;
use std::alloc::{AllocError, Global};
use std::ops::Range;

// The least range that covers the range and those of the rows.
fn span_of(met: &[PartRow], range: &KeyRange) -> KeyRange
    ensures { result ≡ fold (λ i r. hull i r.range) range.now met.now }
{
    met.iter().fold(*range, |span, row| span.hull(&row.range))
}

// The rows and the hangs of the part where its rows at these places, which are the transaction's, become one. Nothing hangs between
// them.
fn with_merged(
    alloc: Global,
    asking: &Asking,
    part: &Part,
    met: Range<usize>,
) -> Result<Part, AllocError>
    requires hangs_between { length part.now.hangs.items ≡ length part.now.rows.items + 1 }
    requires some { met.start < met.end }
    requires within { met.end ≤ length part.now.rows.items }
    requires own { AllWithin (λ r. is_own asking.now.txn asking.now.range (row_pair r) ≡ true) part.now.rows.items met.start met.end }
    ensures { IfOk result (IsMerged asking.now part.now met.start met.end) }
{
    let Range { start, end } = met;
    let mut rows = Vec::new(alloc);
    rows.extend_from_slice(&part.rows[..start])?;
    rows.push(PartRow {
        row: part.rows[start].row,
        owner: asking.txn,
        range: span_of(&part.rows[start..end], &asking.range),
    })?;
    rows.extend_from_slice(&part.rows[end..])?;
    let mut hangs = Vec::new(alloc);
    hangs.extend_from_slice(&part.hangs[..start + 1])?;
    hangs.extend_from_slice(&part.hangs[end..])?;
    Ok(Part { rows, hangs })
}

/// The plan in which the transaction's rows at these places become one, the others of them are put to the front of the pool, and the
/// part is laid out anew. The one error is want of memory.
pub fn plan_merged(
    alloc: Global,
    stays: &RowImage,
    pool: &RowImage,
    asking: &Asking,
    part: &Part,
    met: Range<usize>,
) -> Result<Vec<RowImage>, AllocError>
    requires hangs_between { length part.now.hangs.items ≡ length part.now.rows.items + 1 }
    requires small { All (λ (r : PartRow). r.row < 2 ^ 32 - 1) part.now.rows.items }
    requires some { met.start < met.end }
    requires within { met.end ≤ length part.now.rows.items }
    requires own { AllWithin (λ r. is_own asking.now.txn asking.now.range (row_pair r) ≡ true) part.now.rows.items met.start met.end }
    ensures { IfOk result (λ plan. PlansMerged asking.now stays.now pool.now part.now met.start met.end plan.items) }
{
    let Range { start, end } = met;
    let new = with_merged(alloc, asking, part, start..end)?;
    let mut images = Vec::new(alloc);
    let link = chain(&part.rows[start + 1..end], pool.words[17], &mut images)?;
    let mut anchor = *pool;
    anchor.words[17] = link;
    images.push(anchor)?;
    plan_rows(
        stays,
        asking.tree,
        &asking.range,
        &new.rows,
        &new.hangs,
        &mut images,
    )?;
    Ok(images)
}

/// Grants an ask of which the rows at these places, the transaction's, are all that overlap: the first of them gets the span of the
/// range and theirs, and the others go to the pool, by an event that ends the search.
///
/// # Errors
/// `Busy` with the pool's anchor, only where it was met held by another pass, which never comes to a pass with all the rights; or want
/// of memory. There is no event then, and no row is held.
pub fn merge_rows<'a>(
    alloc: Global,
    locked: Locked<'a>,
    asking: &Asking,
    met: Range<usize>,
) -> Result<(RowPass, Receipt), (RowPass, Fault)>
    requires fresh { (knows locked.pass).fresh ≡ true }
    requires locked { IsLockedWith (knows locked.pass) locked.tree locked.asked locked.held locked.part.rows.items
        locked.part.hangs.items (pool_rows (knows locked.pass).plan.trees locked.pool) }
    requires closed { IsClosed locked.asked locked.part.rows.items locked.part.hangs.items }
    requires asking { IsOf locked.pass locked.tree locked.asked asking.now }
    requires some { met.start < met.end }
    requires within { met.end ≤ length locked.part.rows.items }
    requires between { StandsBetween asking.now.range (take met.start locked.part.rows.items) (drop met.end locked.part.rows.items) }
    requires own { AllWithin (λ r. is_own asking.now.txn asking.now.range (row_pair r) ≡ true) locked.part.rows.items met.start met.end }
    ensures of { IfOk result (λ r. IsPassOf locked.entry.table.now r.0 × IsSamePass locked.entry.pass r.0 × HoldsNone (knows r.0)) }
    ensures made { IfOk result (λ r. (u : View) × (plan : List Image) × OnlyRows (knows locked.entry.pass) u
        × Makes u (knows r.0) plan r.1.event r.1.place) }
    ensures event { IfOk result (λ r. r.1.event ≡ record {
      pass = asking.now.pass;
      txn = asking.now.txn;
      deed = Ask asking.now.tree asking.now.range Granted;
    }) }
    ensures handed { IfErr result (λ r. IsPassOf locked.entry.table.now r.0 × IsSamePass locked.entry.pass r.0 × HoldsNone (knows r.0)
        × OnlyRows (knows locked.entry.pass) (knows r.0)) }
    ensures refused { IfErr result (λ r. IsRefused (knows locked.entry.pass) (knows r.0) r.1) }
{
    let mut locked = locked;
    if let Err(fault) = locked.pool() {
        return Err((locked.release(), fault));
    }
    let here = locked.held();
    let stays = locked.image(here);
    let anchor = locked.pool_row();
    let pool = locked.image(anchor);
    let given = met.end - met.start - 1;
    let Ok(plan) = plan_merged(alloc, &stays, &pool, asking, locked.part(), met) else {
        return Err((locked.release(), Fault::OutOfMemory));
    };
    let event = Event {
        pass: asking.pass,
        txn: asking.txn,
        deed: Deed::Ask {
            tree: asking.tree,
            range: asking.range,
            reply: Reply::Granted,
        },
    };
    let (pass, place) = locked.finish(&plan, &event, fewer(given));
    Ok((pass, Receipt { place, event }))
}
