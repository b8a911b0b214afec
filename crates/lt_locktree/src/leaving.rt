//! A part from which a transaction's rows are left out.
ghost use Rattle.std.specs.Prelude.{◌≡◌, ◌+◌, length, IfOk, IfErr};
ghost use Rattle.lt_locktree.specs.LawsOfFrees.{goes};
ghost use Rattle.lt_locktree.specs.Leavings.{IsLeaving, IsLeftOut};
ghost use Rattle.lt_rows.specs.Handles.{knows, IsSamePass};
ghost use Rattle.lt_tree.specs.Gathers.{IsLocked, IsClosed};
ghost use Rattle.lt_tree.specs.States.{OnlyRows, IsRefused};

use crate::asking::Asking;
use lt_forest::{Part, PartRow};
use lt_ranges::KeyRange;
use lt_seq::Fault;
use lt_tree::Locked;
use std::alloc::{AllocError, Global};

/// A part without the rows that go.
#[derive(Drop)]
pub struct LeftOut {
    /// The rows that stay, and what hangs between them.
    pub part: Part,
    /// The rows that go, by ascending ranges.
    pub gone: Vec<PartRow>,
}

/// What comes of leaving rows out of a part.
#[derive(Drop)]
pub enum Leaving {
    Left(LeftOut),
    /// Two links would hang side by side, of which this is the index of the second one.
    Meets(usize),
}

// Whether the row is the transaction's and overlaps.
fn goes(row: &PartRow, txn: u64, range: &KeyRange) -> bool
    ensures { result ≡ goes txn range.now row.now }
{
    row.owner == txn && row.range.overlaps(range)
}

/// Leaves out of a part the transaction's rows that overlap the range. The one error is want of memory.
pub fn leave_out(
    alloc: Global,
    part: &Part,
    txn: u64,
    range: &KeyRange,
) -> Result<Leaving, AllocError>
    requires hangs_between { length part.now.hangs.items ≡ length part.now.rows.items + 1 }
    ensures { IfOk result (IsLeaving txn range.now part.now.rows.items part.now.hangs.items) }
{
    let mut rows = Vec::new(alloc);
    let mut hangs = Vec::new(alloc);
    let mut gone = Vec::new(alloc);
    let mut ahead = part.hangs[0];
    for i in 0..part.rows.len() {
        let row = part.rows[i];
        let behind = part.hangs[i + 1];
        if goes(&row, txn, range) {
            if ahead != 0 && behind != 0 {
                return Ok(Leaving::Meets(i + 1));
            }
            gone.push(row)?;
            ahead += behind;
        } else {
            rows.push(row)?;
            hangs.push(ahead)?;
            ahead = behind;
        }
    }
    hangs.push(ahead)?;
    let part = Part { rows, hangs };
    Ok(Leaving::Left(LeftOut { part, gone }))
}

/// Takes rows into the part of a search, which stays closed, until the transaction's rows that overlap can be left out of it.
///
/// # Errors
/// `Busy` only where a row was met held by another pass, which never comes to a pass with all the rights; or want of memory. The search
/// goes on with the part that it has then.
pub fn leave_widened<'a>(
    alloc: Global,
    locked: &mut Locked<'a>,
    asking: &Asking,
) -> Result<LeftOut, Fault>
    requires locked { IsLocked (knows locked.old.pass) locked.old.tree locked.old.asked locked.old.held locked.old.part.rows.items
        locked.old.part.hangs.items }
    requires closed { IsClosed locked.old.asked locked.old.part.rows.items locked.old.part.hangs.items }
    ensures same { IsSamePass locked.old.pass locked.new.pass × OnlyRows (knows locked.old.pass) (knows locked.new.pass) }
    ensures kept { (locked.new.table ≡ locked.old.table) × (locked.new.tree ≡ locked.old.tree) × (locked.new.asked ≡ locked.old.asked)
        × (locked.new.held ≡ locked.old.held) × (locked.new.pool ≡ locked.old.pool) }
    ensures locked { IsLocked (knows locked.new.pass) locked.new.tree locked.new.asked locked.new.held locked.new.part.rows.items
        locked.new.part.hangs.items }
    ensures closed { IsClosed locked.new.asked locked.new.part.rows.items locked.new.part.hangs.items }
    ensures left { IfOk result (IsLeftOut asking.now.txn asking.now.range locked.new.part.rows.items locked.new.part.hangs.items) }
    ensures refused { IfErr result (IsRefused (knows locked.old.pass) (knows locked.new.pass)) }
{
    loop {
        match leave_out(alloc, locked.part(), asking.txn, &asking.range) {
            Ok(Leaving::Left(left)) => return Ok(left),
            Ok(Leaving::Meets(at)) => match locked.widen(at) {
                Ok(()) => {}
                Err(fault) => return Err(fault),
            },
            Err(_) => return Err(Fault::OutOfMemory),
        }
    }
}
