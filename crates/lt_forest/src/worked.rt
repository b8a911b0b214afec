//! Worked plans, carried through the laws: they show that the laws' premises can be met.
ghost use Rattle.lt_forest.specs.WorkedTrees.{WorkedStart, WorkedInsertion, WorkedMerge, WorkedRemoval, WorkedJoin};
ghost use Rattle.lt_forest.specs.WorkedTrees.{WorkedQuestion, WorkedRotation, WorkedReplacement, WorkedFirstFree};
ghost use Rattle.lt_forest.specs.WorkedBuffer.{WorkedBuffer};

/// A table of one tree with four rows, to which a history leads, and what plans make of it: a range is inserted below a held
/// row, three ranges of one transaction become one, a row goes below which two links hang, the tree is joined, a question
/// changes nothing, two rows are turned, a row gets another range, and a range is freed below a held row while the anchor's
/// score rises.
pub fn worked_trees()
    ensures start { WorkedStart }
    ensures insertion { WorkedInsertion }
    ensures merge { WorkedMerge }
    ensures removal { WorkedRemoval }
    ensures join { WorkedJoin }
    ensures question { WorkedQuestion }
    ensures rotation { WorkedRotation }
    ensures replacement { WorkedReplacement }
    ensures first_free { WorkedFirstFree }
{}

/// A buffer that begins, gets a row, and then is dropped whole or ends as a tree.
pub fn worked_buffer()
    ensures { WorkedBuffer }
{}
