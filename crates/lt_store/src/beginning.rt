//! Where a transaction is among the live ones.
ghost use Rattle.std.specs.Prelude.{IfOk};
ghost use Rattle.lt_store.specs.Book.{Ascends};
ghost use Rattle.lt_store.specs.Acting.{HasBegun};

use crate::open::Open;
use std::alloc::{AllocError, Global};

/// The place of the transaction with this number, where it begins if it is not there.
pub(crate) fn begin(live: &mut Vec<Open>, alloc: Global, txn: u64) -> Result<usize, AllocError>
    requires { Ascends live.old.items }
    ensures { IfOk result (HasBegun live.old.items live.new.items txn) }
{
    let place = live.partition_point(|open| open.txn() < txn);
    if place < live.len() && live[place].txn() == txn {
        return Ok(place);
    }
    live.insert(place, Open::new(alloc, txn))?;
    Ok(place)
}
