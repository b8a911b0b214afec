//! Rows of a whole tree, of which neighbours of one owner become one.
ghost use Rattle.std.specs.Prelude.{◌≡◌, ◌+◌, [], length, map, replicate, true, IfOk, IfErr};
ghost use Rattle.lt_ranges.specs.Interval.{whole};
ghost use Rattle.lt_seq.specs.declared.fault.Fault.TheVariants.{OutOfMemory};
ghost use Rattle.lt_seq.specs.Pairs.{IsLawful, joined};
ghost use Rattle.lt_forest.specs.Parts.{row_pair};
ghost use Rattle.lt_rows.specs.Handles.{knows, IsPassOf, IsSamePass};
ghost use Rattle.lt_tree.specs.States.{HoldsNone, OnlyRows, IsRefused};
ghost use Rattle.lt_tree.specs.Gathers.{IsLocked, IsLockedWith, IsClosed};
ghost use Rattle.lt_tree.specs.declared.pool.PoolRows.TheVariants.{Nothing};
ghost use Rattle.lt_tree.specs.Pools.{pool_rows};
ghost use Rattle.lt_locktree.specs.Deeds.{MakesJoin};
ghost use Rattle.lt_locktree.specs.Makes.{IsOf};
ghost use Rattle.lt_locktree.specs.Rejoined.{IsRejoined, IsRejoinedPart};

use crate::asking::Asking;
use crate::freeing::{fewer, plan_freed};
use crate::joining::widen_whole;
use crate::leaving::LeftOut;
use crate::noting::{held_rows, join_event};
use lt_forest::{Part, PartRow};
use lt_ranges::Key;
use lt_rows::RowPass;
use lt_seq::{Fault, JoinNote, Pair, are_joined};
use lt_tree::Locked;
use std::alloc::{AllocError, Global};

/// A tree's rows after a join.
#[derive(Drop)]
pub struct Rejoined {
    /// The rows that stay, each with the range of its run, by ascending ranges.
    pub rows: Vec<PartRow>,
    /// The rows that go, by ascending ranges.
    pub gone: Vec<PartRow>,
}

/// A row's range with its owner.
fn pair_of(row: &PartRow) -> Pair
    ensures { result ≡ row_pair row.now }
{
    Pair {
        owner: row.owner,
        range: row.range,
    }
}

/// Joins each longest run of neighbours of one owner into the run's first row, from the run's first left end to its last right end. A
/// mark between two neighbours ends a run. The others of the run go. The one error is want of memory.
pub fn rejoin(alloc: Global, rows: &[PartRow], marks: &[Key]) -> Result<Rejoined, AllocError>
    requires { IsLawful (map row_pair rows.now) }
    ensures { IfOk result (IsRejoined marks.now rows.now) }
{
    let mut kept = Vec::new(alloc);
    let mut gone = Vec::new(alloc);
    if rows.is_empty() {
        return Ok(Rejoined { rows: kept, gone });
    }
    let mut last = rows[0];
    for i in 1..rows.len() {
        let row = rows[i];
        if are_joined(marks, &pair_of(&last), &pair_of(&row)) {
            last.range = last.range.hull(&row.range);
            gone.push(row)?;
        } else {
            kept.push(last)?;
            last = row;
        }
    }
    kept.push(last)?;
    Ok(Rejoined { rows: kept, gone })
}

/// The part that a join leaves, below whose rows nothing hangs. The one error is want of memory.
pub fn part_rejoined(alloc: Global, after: Rejoined) -> Result<LeftOut, AllocError>
    ensures { IfOk result (λ left. (left.part.rows ≡ after.rows) × (left.gone ≡ after.gone)
        × (left.part.hangs.items ≡ replicate (length after.rows.items + 1) 0)) }
{
    let hangs = vec![in alloc; 0; after.rows.len() + 1]?;
    let part = Part {
        rows: after.rows,
        hangs,
    };
    Ok(LeftOut {
        part,
        gone: after.gone,
    })
}

/// Joins a whole tree, below whose rows nothing hangs, by an event that ends the search: the rows that go are given to the pool.
///
/// # Errors
/// `Busy` with the pool's anchor, only where it was met held by another pass, which never comes to a pass with all the rights; or want
/// of memory. There is no event then, and no row is held.
pub fn join_rows<'a>(
    alloc: Global,
    locked: Locked<'a>,
    asking: &Asking,
    left: &LeftOut,
) -> Result<(RowPass, JoinNote), (RowPass, Fault)>
    requires fresh { (knows locked.pass).fresh ≡ true }
    requires locked { IsLockedWith (knows locked.pass) locked.tree locked.asked locked.held locked.part.rows.items
        locked.part.hangs.items (pool_rows (knows locked.pass).plan.trees locked.pool) }
    requires closed { IsClosed locked.asked locked.part.rows.items locked.part.hangs.items }
    requires asking { IsOf locked.pass locked.tree locked.asked asking.now }
    requires anchor { (locked.held ≡ locked.tree) × (locked.asked ≡ whole) }
    requires bare { locked.part.hangs.items ≡ replicate (length locked.part.rows.items + 1) 0 }
    requires left { IsRejoinedPart (knows locked.pass).plan.marks locked.part.rows.items left.now }
    ensures of { IfOk result (λ r. IsPassOf locked.entry.table.now r.0 × IsSamePass locked.entry.pass r.0 × HoldsNone (knows r.0)) }
    ensures made { IfOk result (λ r. MakesJoin (knows locked.entry.pass) (knows r.0) asking.now r.1) }
    ensures handed { IfErr result (λ r. IsPassOf locked.entry.table.now r.0 × IsSamePass locked.entry.pass r.0 × HoldsNone (knows r.0)
        × OnlyRows (knows locked.entry.pass) (knows r.0)) }
    ensures refused { IfErr result (λ r. IsRefused (knows locked.entry.pass) (knows r.0) r.1) }
{
    let mut locked = locked;
    let Ok(pairs) = held_rows(alloc, asking.tree, &left.part.rows) else {
        return Err((locked.release(), Fault::OutOfMemory));
    };
    if let Err(fault) = locked.pool() {
        return Err((locked.release(), fault));
    }
    let here = locked.held();
    let stays = locked.image(here);
    let anchor = locked.pool_row();
    let pool = locked.image(anchor);
    let Ok(plan) = plan_freed(alloc, &stays, &pool, asking, left) else {
        return Err((locked.release(), Fault::OutOfMemory));
    };
    let count = left.gone.len();
    let kept = left.part.rows.len();
    let before = (kept + count) as u64;
    let after = kept as u64;
    let event = join_event(asking, before, after);
    let (pass, place) = locked.finish(&plan, &event, fewer(count));
    let note = JoinNote {
        place,
        tree: asking.tree,
        before,
        after,
        pairs,
    };
    Ok((pass, note))
}

/// Joins a whole tree of which no two neighbours are joined, by an event that ends the search and changes no row.
///
/// # Errors
/// Want of memory alone. There is no event then, and no row is held.
pub fn join_none<'a>(
    alloc: Global,
    locked: Locked<'a>,
    asking: &Asking,
) -> Result<(RowPass, JoinNote), (RowPass, Fault)>
    requires fresh { (knows locked.pass).fresh ≡ true }
    requires locked { IsLockedWith (knows locked.pass) locked.tree locked.asked locked.held locked.part.rows.items
        locked.part.hangs.items (pool_rows (knows locked.pass).plan.trees locked.pool) }
    requires closed { IsClosed locked.asked locked.part.rows.items locked.part.hangs.items }
    requires asking { IsOf locked.pass locked.tree locked.asked asking.now }
    requires anchor { (locked.held ≡ locked.tree) × (locked.asked ≡ whole) }
    requires bare { locked.part.hangs.items ≡ replicate (length locked.part.rows.items + 1) 0 }
    requires none { joined (knows locked.pass).plan.marks (map row_pair locked.part.rows.items) ≡ map row_pair locked.part.rows.items }
    ensures of { IfOk result (λ r. IsPassOf locked.entry.table.now r.0 × IsSamePass locked.entry.pass r.0 × HoldsNone (knows r.0)) }
    ensures made { IfOk result (λ r. MakesJoin (knows locked.entry.pass) (knows r.0) asking.now r.1) }
    ensures handed { IfErr result (λ r. IsPassOf locked.entry.table.now r.0 × IsSamePass locked.entry.pass r.0 × HoldsNone (knows r.0)
        × OnlyRows (knows locked.entry.pass) (knows r.0)) }
    ensures refused { IfErr result (λ r. r.1 ≡ OutOfMemory) }
{
    let Ok(pairs) = held_rows(alloc, asking.tree, &locked.part().rows) else {
        return Err((locked.release(), Fault::OutOfMemory));
    };
    let count = locked.part().rows.len() as u64;
    let event = join_event(asking, count, count);
    let (pass, place) = locked.finish(&[], &event, 0);
    let note = JoinNote {
        place,
        tree: asking.tree,
        before: count,
        after: count,
        pairs,
    };
    Ok((pass, note))
}

/// Joins a whole tree, whose anchor a search keeps, by an event that ends the search: each longest run of neighbours of one owner, between
/// which no mark lies, becomes one row, and the others of the run are given to the pool. Where there are none, the pool's anchor isn't
/// taken.
///
/// # Errors
/// `Busy` only where a row was met held by another pass, which never comes to a pass with all the rights; or want of memory. There is
/// no event then, and no row is held.
pub fn join_tree<'a>(
    alloc: Global,
    locked: Locked<'a>,
    asking: &Asking,
) -> Result<(RowPass, JoinNote), (RowPass, Fault)>
    requires fresh { (knows locked.pass).fresh ≡ true }
    requires locked { IsLocked (knows locked.pass) locked.tree locked.asked locked.held locked.part.rows.items locked.part.hangs.items }
    requires pool { locked.pool ≡ Nothing }
    requires closed { IsClosed locked.asked locked.part.rows.items locked.part.hangs.items }
    requires asking { IsOf locked.pass locked.tree locked.asked asking.now }
    requires anchor { (locked.held ≡ locked.tree) × (locked.asked ≡ whole) }
    ensures of { IfOk result (λ r. IsPassOf locked.entry.table.now r.0 × IsSamePass locked.entry.pass r.0 × HoldsNone (knows r.0)) }
    ensures made { IfOk result (λ r. MakesJoin (knows locked.entry.pass) (knows r.0) asking.now r.1) }
    ensures handed { IfErr result (λ r. IsPassOf locked.entry.table.now r.0 × IsSamePass locked.entry.pass r.0 × HoldsNone (knows r.0)
        × OnlyRows (knows locked.entry.pass) (knows r.0)) }
    ensures refused { IfErr result (λ r. IsRefused (knows locked.entry.pass) (knows r.0) r.1) }
{
    let mut locked = locked;
    if let Err(fault) = widen_whole(&mut locked) {
        return Err((locked.release(), fault));
    }
    let Ok(after) = rejoin(alloc, &locked.part().rows, locked.marks()) else {
        return Err((locked.release(), Fault::OutOfMemory));
    };
    if after.gone.is_empty() {
        return join_none(alloc, locked, asking);
    }
    let Ok(left) = part_rejoined(alloc, after) else {
        return Err((locked.release(), Fault::OutOfMemory));
    };
    join_rows(alloc, locked, asking, &left)
}
