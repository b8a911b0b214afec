//! Ranges of a tree as the pairs that they are there.
ghost use Rattle.std.specs.Prelude.{◌≡◌, IfOk, map};
ghost use Rattle.lt_locktree.specs.EndingRows.{held_pair};

use lt_seq::{Held, Pair};
use std::alloc::{AllocError, Global};

/// The ranges with their owners, in this order. The only error is want of memory.
pub(crate) fn pairs_of(alloc: Global, held: &[Held]) -> Result<Vec<Pair>, AllocError>
    ensures { IfOk result (λ pairs. pairs.items ≡ map held_pair held.now) }
{
    held.iter()
        .map(|held| Pair {
            owner: held.owner,
            range: held.range,
        })
        .collect(alloc)
}
