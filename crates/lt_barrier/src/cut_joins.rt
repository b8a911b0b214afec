//! Joins that stop at a barrier.
ghost use Rattle.std.specs.Prelude.{◌≡◌, IfOk, if◌then◌else◌};
ghost use Rattle.lt_seq.specs.Pairs.{IsLawful, are_joined, joined};
ghost use Rattle.lt_seq.specs.Table.{held_in};
ghost use Rattle.lt_barrier.specs.HeldRanges.{pair_of, pairs_of, tree_of, AreOfOneTree, with_next};

use crate::barrier::Barrier;
use lt_seq::Held;
use std::alloc::{AllocError, Global};

/// Takes the next range into the last one where the two are joined, and says whether they are.
fn take_in(barrier: &dyn Barrier, last: &mut Held, next: &Held) -> bool
    ensures joined { result ≡ are_joined (marks barrier.now) (pair_of last.old) (pair_of next.now) }
    ensures last { last.new ≡ (if result then with_next last.old next.now else last.old) }
{
    let joined = last.owner == next.owner && !barrier.cuts(&last.range.right(), &next.range.left());
    if joined {
        last.range = last.range.hull(&next.range);
    }
    joined
}

/// The ranges of one tree as a join leaves them: each longest run of neighbours of one owner is one range, from the run's
/// first left end to its last right end. A mark of the barrier between two neighbours ends a run: one that is greater
/// than the first one's right end and at most the second one's left end.
///
/// The ranges stand in the order of their left ends, and no two overlap. The only error is want of memory.
pub fn join_cut(
    alloc: Global,
    pairs: &[Held],
    barrier: &dyn Barrier,
) -> Result<Vec<Held>, AllocError>
    requires tree { AreOfOneTree pairs.now }
    requires lawful { IsLawful (pairs_of pairs.now) }
    ensures { IfOk result (λ left. left.items ≡ held_in (tree_of pairs.now) (joined (marks barrier.now) (pairs_of pairs.now))) }
{
    let mut left = Vec::from_slice(alloc, pairs)?;
    left.dedup_by(
        |next: &mut Held, last: &mut Held| -> bool
            ensures joined { result ≡ are_joined (marks barrier.entry.now) (pair_of last.old) (pair_of next.old) }
            ensures last { last.new ≡ (if result then with_next last.old next.old else last.old) }
            ensures next { next.new ≡ next.old }
        { take_in(barrier, last, next) },
    );
    Ok(left)
}
