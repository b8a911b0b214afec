//! An ask in a tree of shared rows, whole.
ghost use Rattle.std.specs.Prelude.{◌≡◌, ◌<◌, [], true, IfOk, IfErr, List, map};
ghost use Rattle.lt_seq.specs.declared.event.Deed.TheVariants.{Ask};
ghost use Rattle.lt_seq.specs.declared.event.Reply.TheVariants.{Granted};
ghost use Rattle.lt_seq.specs.Pairs.{others};
ghost use Rattle.lt_forest.specs.Parts.{row_pair};
ghost use Rattle.lt_rows.specs.declared.image.RowImage.{RowImage as Image};
ghost use Rattle.lt_rows.specs.declared.view.View.{View};
ghost use Rattle.lt_rows.specs.Handles.{knows, IsPassOf, IsSamePass};
ghost use Rattle.lt_tree.specs.States.{HoldsNone, OnlyRows, IsRefused};
ghost use Rattle.lt_tree.specs.Gathers.{IsLockedWith, IsClosed};
ghost use Rattle.lt_tree.specs.Pools.{pool_rows, HoldsNoVacant};
ghost use Rattle.lt_locktree.specs.Deeds.{MakesDeed};
ghost use Rattle.lt_locktree.specs.LawsOfGrants.{NoBufferBegins};
ghost use Rattle.lt_locktree.specs.Makes.{IsOf, Makes, IsReplyTo};

use crate::answers::Asked;
use crate::asking::Asking;
use crate::growing::grow_row;
use crate::inserting::put_in_row;
use crate::merging::merge_rows;
use crate::owners::owners_of;
use crate::questions::refuse_ask;
use crate::splitting::overlapping;
use lt_rows::RowPass;
use lt_seq::{Fault, Receipt, Reply};
use lt_tree::Locked;
use std::alloc::Global;

/// Grants an ask that nobody else stands against, by an event that ends the search: a row is put in where none overlaps, one that does
/// grows, and several become one.
///
/// # Errors
/// `Busy` with the pool's anchor or its first row, only where that was met held by another pass, which never comes to a pass with all
/// the rights; or want of memory. There is no event then, and no row is held.
pub fn grant_ask<'a>(
    alloc: Global,
    locked: Locked<'a>,
    asking: &Asking,
) -> Result<(RowPass, Receipt), (RowPass, Fault)>
    requires fresh { (knows locked.pass).fresh ≡ true }
    requires licensed { (knows locked.pass).licensed ≡ true }
    requires none { HoldsNoVacant locked.pool }
    requires locked { IsLockedWith (knows locked.pass) locked.tree locked.asked locked.held locked.part.rows.items
        locked.part.hangs.items (pool_rows (knows locked.pass).plan.trees locked.pool) }
    requires closed { IsClosed locked.asked locked.part.rows.items locked.part.hangs.items }
    requires asking { IsOf locked.pass locked.tree locked.asked asking.now }
    requires alone { others asking.now.txn asking.now.range (map row_pair locked.part.rows.items) ≡ [] }
    requires unbuffered { NoBufferBegins (knows locked.pass) locked.tree locked.held asking.now.txn locked.part.rows.items }
    ensures of { IfOk result (λ r. IsPassOf locked.entry.table.now r.0 × IsSamePass locked.entry.pass r.0 × HoldsNone (knows r.0)) }
    ensures made { IfOk result (λ r. (u : View) × (plan : List Image) × OnlyRows (knows locked.entry.pass) u
        × Makes u (knows r.0) plan r.1.event r.1.place) }
    ensures event { IfOk result (λ r. r.1.event ≡ record {
      pass = asking.now.pass;
      txn = asking.now.txn;
      deed = Ask asking.now.tree asking.now.range Granted;
    }) }
    ensures handed { IfErr result (λ r. IsPassOf locked.entry.table.now r.0 × IsSamePass locked.entry.pass r.0 × HoldsNone (knows r.0)
        × OnlyRows (knows locked.entry.pass) (knows r.0)) }
    ensures refused { IfErr result (λ r. IsRefused (knows locked.entry.pass) (knows r.0) r.1) }
{
    let met = overlapping(&locked.part().rows, &asking.range);
    match met.end - met.start {
        0 => put_in_row(alloc, locked, asking, met.start),
        1 => match grow_row(alloc, locked, asking, met.start) {
            Ok(made) => Ok(made),
            Err(pass) => Err((pass, Fault::OutOfMemory)),
        },
        _ => merge_rows(alloc, locked, asking, met),
    }
}

/// Asks for the range in the tree for the transaction, by an event that ends the search: it is granted where nobody else's range
/// overlaps, and refused else, with those others named.
///
/// # Errors
/// `Busy` with the pool's anchor or its first row, only where that was met held by another pass, which never comes to a pass with all
/// the rights; or want of memory. There is no event then, and no row is held.
pub fn ask_in_tree<'a>(
    alloc: Global,
    locked: Locked<'a>,
    asking: &Asking,
) -> Result<(RowPass, Asked), (RowPass, Fault)>
    requires fresh { (knows locked.pass).fresh ≡ true }
    requires licensed { (knows locked.pass).licensed ≡ true }
    requires none { HoldsNoVacant locked.pool }
    requires locked { IsLockedWith (knows locked.pass) locked.tree locked.asked locked.held locked.part.rows.items
        locked.part.hangs.items (pool_rows (knows locked.pass).plan.trees locked.pool) }
    requires closed { IsClosed locked.asked locked.part.rows.items locked.part.hangs.items }
    requires asking { IsOf locked.pass locked.tree locked.asked asking.now }
    requires unbuffered { NoBufferBegins (knows locked.pass) locked.tree locked.held asking.now.txn locked.part.rows.items }
    ensures of { IfOk result (λ r. IsPassOf locked.entry.table.now r.0 × IsSamePass locked.entry.pass r.0 × HoldsNone (knows r.0)) }
    ensures made { IfOk result (λ r. MakesDeed (knows locked.entry.pass) (knows r.0) asking.now
        (Ask asking.now.tree asking.now.range r.1.reply) r.1.place × (r.1.copy ≡ r.1.reply)) }
    ensures answer { IfOk result (λ r. IsReplyTo (others asking.now.txn asking.now.range
        (map row_pair locked.entry.part.rows.items)) r.1.reply) }
    ensures handed { IfErr result (λ r. IsPassOf locked.entry.table.now r.0 × IsSamePass locked.entry.pass r.0 × HoldsNone (knows r.0)
        × OnlyRows (knows locked.entry.pass) (knows r.0)) }
    ensures refused { IfErr result (λ r. IsRefused (knows locked.entry.pass) (knows r.0) r.1) }
{
    let Ok(owners) = owners_of(alloc, &locked.part().rows, asking.txn, &asking.range) else {
        return Err((locked.release(), Fault::OutOfMemory));
    };
    if owners.as_slice().is_empty() {
        let (pass, receipt) = grant_ask(alloc, locked, asking)?;
        let asked = Asked {
            place: receipt.place,
            reply: Reply::Granted,
            copy: Reply::Granted,
        };
        return Ok((pass, asked));
    }
    let Ok(copy) = owners.again() else {
        return Err((locked.release(), Fault::OutOfMemory));
    };
    Ok(refuse_ask(locked, asking, owners, copy))
}
