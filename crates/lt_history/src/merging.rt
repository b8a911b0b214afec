//! The receipts of all passes as one list.
ghost use Rattle.std.specs.Prelude.{IfOk};
ghost use Rattle.std.specs.List.{flat_map};
ghost use Rattle.std.specs.List.Sorted.{IsPermutation, IsNonDecreasingBy};

use lt_seq::Receipt;
use std::alloc::{AllocError, Global};

/// All receipts of these lists, by ascending place. Where each list has the calls of one pass of a yard, this is the
/// history of that yard.
///
/// # Errors
/// Want of memory alone.
pub fn merge(alloc: Global, lists: Vec<Vec<Receipt>>) -> Result<Vec<Receipt>, AllocError>
    ensures all { IfOk result (λ merged. IsPermutation (flat_map (λ list. list.items) lists.items) merged.items) }
    ensures order { IfOk result (λ merged. IsNonDecreasingBy (λ receipt. receipt.place) merged.items) }
{
    let mut merged = Vec::new(alloc);
    for mut list in lists {
        merged.append(&mut list)?;
    }
    merged.sort_by_key(|receipt| receipt.place)?;
    Ok(merged)
}
