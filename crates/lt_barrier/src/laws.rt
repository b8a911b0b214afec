//! What a join does that stops at marks. Each function's contract is a law over the definitions; the bodies are empty.
ghost use Rattle.lt_seq.specs.Laws.{JoinedJoins, JoinedGivesNoneOfAnother};
ghost use Rattle.lt_barrier.specs.Crossings.{JoinedCrossesNoMark};

/// What a join that stops at marks does to the lawful pairs of a tree. No owner loses a key, and a key that it gains lies
/// between two of its ranges that are neighbours and that no mark keeps apart. No two neighbours of one owner are left
/// without a mark between them. None is given a key that another holds. An owner with a range on both sides of a mark
/// had such a range before.
pub fn cut_joins_keep()
    ensures joins { JoinedJoins }
    ensures others { JoinedGivesNoneOfAnother }
    ensures crosses { JoinedCrossesNoMark }
{}
