//! A new table, and its handles.
ghost use Rattle.std.specs.Prelude.{◌≡◌, ◌≤◌, [], IfOk, length, map, Box};
ghost use Rattle.std.specs.Global.{Global};
ghost use Rattle.std.specs.List.{All};
ghost use Rattle.std.specs.Vec.{vec_capacity};
ghost use Rattle.std.specs.Arc.{arc_value};
ghost use Rattle.lt_seq.specs.Yard.{IsPlan};
ghost use Rattle.lt_rows.specs.Openings.{AreItsPasses};
ghost use Rattle.lt_c.specs.Handles.{IsOn};
ghost use Rattle.lt_c.specs.Opened.{IsOpenOn, AreOnOneTable};
ghost use Rattle.lt_c.specs.Sharing.{MayCall};

use crate::c_handle::{LtHandle, opened};
use crate::counts::LtCounts;
use crate::handle::Handle;
use lt_locktree::{Locktree, TreePass};
use lt_seq::YardPlan;
use std::alloc::{AllocError, Global};
use std::sync::Arc;

/// Gives each of a new table's passes a right of the first one.
fn spread(
    alloc: Global,
    table: &Locktree,
    passes: Vec<TreePass>,
) -> Result<Vec<TreePass>, AllocError>
    requires plan { 1 ≤ table.now.rows.plan.passes }
    requires of { AreItsPasses table.now.rows (map (λ p. p.pass) passes.items) }
    ensures may { IfOk result (λ made. All (MayCall table.now) made.items) }
    ensures count { IfOk result (λ made. length made.items ≡ table.now.rows.plan.passes) }
{
    let mut passes = passes.into_iter();
    let Some(mut first) = passes.next() else {
        unreachable!();
    };
    let mut made = Vec::new(alloc);
    for pass in passes {
        let mut pass = pass;
        let note = table.share(&mut first, 1);
        table.learn(&mut pass, note);
        made.push(pass)?;
    }
    made.insert(0, first)?;
    Ok(made)
}

/// A handle for each of these passes, in a box.
fn boxed(
    alloc: Global,
    table: &Arc<Locktree, Global>,
    passes: Vec<TreePass>,
) -> Result<Vec<Box<Handle, Global>>, AllocError>
    requires may { All (MayCall (arc_value table.now)) passes.items }
    ensures on { IfOk result (λ made. All (λ (b : Box Handle Global). IsOn (arc_value table.now) b.value) made.items) }
    ensures count { IfOk result (λ made. length made.items ≡ length passes.items) }
{
    let mut made = Vec::new(alloc);
    for pass in passes {
        let handle = Handle {
            table: Arc::try_clone(table)?,
            pass,
            counts: LtCounts::none(),
        };
        made.push(Box::new(alloc, handle)?)?;
    }
    Ok(made)
}

/// The handles for C to keep. It takes no memory, so that no box is lost.
fn kept(room: Vec<LtHandle>, handles: Vec<Box<Handle, Global>>, _table: &Locktree) -> Vec<LtHandle>
    requires room { (room.items ≡ []) × (length handles.items ≤ vec_capacity room) }
    requires on { All (λ (b : Box Handle Global). IsOn _table.now b.value) handles.items }
    ensures on { All (IsOpenOn _table.now) result.items }
    ensures count { length result.items ≡ length handles.items }
{
    let mut kept = room;
    for handle in handles {
        kept.push_reserved(opened(handle));
    }
    kept
}

/// A new table with a handle for each of its passes, each with one right.
///
/// # Errors
/// Want of memory alone; nothing is left of the table then.
pub(crate) fn open(alloc: Global, plan: &YardPlan) -> Result<Vec<LtHandle>, AllocError>
    requires plan { IsPlan plan.now }
    ensures opened { IfOk result (λ made. AreOnOneTable plan.now made.items) }
{
    let room = Vec::with_capacity(alloc, plan.passes as usize)?;
    let (table, passes) = Locktree::build(alloc, plan)?;
    let passes = spread(alloc, &table, passes)?;
    let table = Arc::new(alloc, table)?;
    let handles = boxed(alloc, &table, passes)?;
    Ok(kept(room, handles, &table))
}
