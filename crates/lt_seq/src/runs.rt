//! What a join makes of one tree's pairs.
ghost use Rattle.std.specs.Prelude.{◌≡◌, length, if◌then◌else◌};
ghost use Rattle.lt_ranges.specs.Interval.{hull};
ghost use Rattle.lt_seq.specs.Pairs.{IsLawful, is_cut, are_joined, joined};

use crate::event::Pair;
use lt_ranges::Key;

/// How many pairs a tree had before a join, and has after it.
#[derive(Clone, Copy, Debug, PartialEq, Eq, Hash)]
pub struct JoinCounts {
    pub before: u64,
    pub after: u64,
}

/// Whether a mark keeps two neighbours apart.
fn is_cut(marks: &[Key], first: &Pair, second: &Pair) -> bool
    ensures { result ≡ is_cut marks.now first.now second.now }
{
    marks.iter().any(|mark| {
        !mark.is_at_most(&first.range.right()) && mark.is_at_most(&second.range.left())
    })
}

/// Whether a join makes one range of two neighbours: they have one owner, and no mark keeps them apart. A mark does so
/// that is greater than the first one's right end and at most the second one's left end.
pub fn are_joined(marks: &[Key], first: &Pair, second: &Pair) -> bool
    ensures { result ≡ are_joined marks.now first.now second.now }
{
    first.owner == second.owner && !is_cut(marks, first, second)
}

/// Takes the next pair into the last one where the two are joined, and says whether they are.
fn take_in(marks: &[Key], last: &mut Pair, next: &Pair) -> bool
    ensures joined { result ≡ are_joined marks.now last.old next.now }
    ensures owner { last.new.owner ≡ last.old.owner }
    ensures range { last.new.range ≡ (if result then hull last.old.range next.now.range else last.old.range) }
{
    let joined = are_joined(marks, last, next);
    if joined {
        last.range = last.range.hull(&next.range);
    }
    joined
}

/// Joins each longest run of neighbours of one owner into one pair, from the run's first left end to its last right
/// end, and counts the pairs before and after. A mark between two neighbours ends a run: one that is greater than the
/// first one's right end and at most the second one's left end. It takes no memory.
pub fn join_pairs(pairs: &mut Vec<Pair>, marks: &[Key]) -> JoinCounts
    requires { IsLawful pairs.old.items }
    ensures pairs { pairs.new.items ≡ joined marks.now pairs.old.items }
    ensures before { result.before ≡ length pairs.old.items }
    ensures after { result.after ≡ length (joined marks.now pairs.old.items) }
{
    let before = pairs.len() as u64;
    pairs.dedup_by(|next, last| take_in(marks, last, next));
    JoinCounts {
        before,
        after: pairs.len() as u64,
    }
}

#[cfg(test)]
mod tests;
