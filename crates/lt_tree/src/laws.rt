//! Laws of searches. Each function's contract is a law over the definitions; the bodies are empty.
ghost use Rattle.lt_tree.specs.LawsOfParts.{LockedIsPart, LockedIsClosed, LockedAnchorIsTop};

/// What a search holds is a part of its tree as a commit asks for it; and where all that hangs is aside of the range, it is closed
/// for the range, so that it has every row of the tree that overlaps. Where the row that stays is the anchor, the part hangs from it.
pub fn parts_that_are_held()
    ensures part { LockedIsPart }
    ensures closed { LockedIsClosed }
    ensures anchor { LockedAnchorIsTop }
{}
