//! Laws of what is asked of a tree. Each function's contract is a law over the definitions; the bodies are empty.
ghost use Rattle.lt_locktree.specs.LawsOfCalls.{DeedIsMade, DeedIsRefused, JoinIsMade, MakesNext, MakesOneCall};
ghost use Rattle.lt_locktree.specs.LawsOfDeeds.{WhoCommits, HeldAskCommits};
ghost use Rattle.lt_locktree.specs.Endings.{ChainHoldsBuffer, FreeEndsBuffer, GrantedAskEndsBuffer, HeldAskEndsBuffer};
ghost use Rattle.lt_locktree.specs.Endings.{JoinEndsBuffer, LaidBufferCommits, OwnWhoKeepsBuffer, WhoEndsBuffer};
ghost use Rattle.lt_locktree.specs.EndingPlans.{GivenPlanLaysOut, KeptPlanLaysOut, TakenPlanLaysOut};
ghost use Rattle.lt_locktree.specs.EndingRows.{AllPairsStand, ChainIsEnough, FirstRowsTakeOver, HeldPairsAreRead, VacantRowTakesOver};
ghost use Rattle.lt_locktree.specs.LawsOfFrees.{FreeCommits, NoneFreedCommits};
ghost use Rattle.lt_locktree.specs.LawsOfFreePlans.{FreePlanCommits};
ghost use Rattle.lt_locktree.specs.LawsOfGrants.{MergedAskCommits, PutInAskCommits};
ghost use Rattle.lt_locktree.specs.LawsOfJoins.{JoinCommits, NoneJoinedCommits, WholeTreeHasRows};
ghost use Rattle.lt_locktree.specs.LawsOfJoinPlans.{JoinPlanCommits};
ghost use Rattle.lt_locktree.specs.LawsOfPlans.{GrownPlanCommits, MergedPlanCommits, PutInPlanCommits};

/// What a search holds for a range answers who holds it, and an ask that others hold, by a commit that changes no row.
pub fn questions_are_answered()
    ensures who { WhoCommits }
    ensures held { HeldAskCommits }
{}

/// An ask that nobody else stands against is granted by a commit of a plan that lays the part anew: all the transaction's rows that
/// overlap become one, or a row of the pool is put in.
pub fn asks_are_granted()
    ensures merged { MergedAskCommits }
    ensures put_in { PutInAskCommits }
{}

/// The plans of such asks, as they are made: where one row of the transaction overlaps, where several do, and where
/// none does.
pub fn plans_of_granted_asks()
    ensures grown { GrownPlanCommits }
    ensures merged { MergedPlanCommits }
    ensures put_in { PutInPlanCommits }
{}

/// A free is a commit of a plan that leaves the transaction's rows that overlap out of the part, and gives them to the pool.
pub fn frees_are_made()
    ensures freed { FreeCommits }
    ensures none { NoneFreedCommits }
{}

/// The plan of a free, as it is made.
pub fn plans_of_frees()
    ensures { FreePlanCommits }
{}

/// A join is a commit of a plan in which each longest run of neighbours of one owner, between which no mark lies, becomes one row, or of
/// none where there is no such run of two. The rows that it holds have the tree's pairs.
pub fn joins_are_made()
    ensures joined { JoinCommits }
    ensures none { NoneJoinedCommits }
    ensures noted { WholeTreeHasRows }
{}

/// The plan of a join, as it is made.
pub fn plans_of_joins()
    ensures { JoinPlanCommits }
{}

/// A deed's event is one call more of its pass, and its replies are the sequential table's, behind what was new to the pass.
pub fn deeds_are_calls()
    ensures call { MakesOneCall }
    ensures next { MakesNext }
{}

/// What a pass has made below is its call's event, and a refusal below is its call's.
pub fn deeds_are_answers()
    ensures made { DeedIsMade }
    ensures refused { DeedIsRefused }
{}

/// Who holds, asked for a buffer's own transaction, is a commit that changes nothing, by a pass that holds the anchor alone.
pub fn buffers_are_kept()
    ensures { OwnWhoKeepsBuffer }
{}

/// A join with its note, told in the same words.
pub fn joins_are_answers()
    ensures { JoinIsMade }
{}

/// An event that ends a buffer is a commit of a plan that lays the pairs after it out as a tree.
pub fn buffers_are_laid_out()
    ensures chain { ChainHoldsBuffer }
    ensures laid { LaidBufferCommits }
    ensures who { WhoEndsBuffer }
    ensures held { HeldAskEndsBuffer }
    ensures granted { GrantedAskEndsBuffer }
    ensures freed { FreeEndsBuffer }
    ensures joined { JoinEndsBuffer }
{}

/// The plans of such events, as they are made: where the chain's rows are as many as the pairs, where some are over, and where
/// one more is taken.
pub fn plans_of_laid_out_buffers()
    ensures kept { KeptPlanLaysOut }
    ensures given { GivenPlanLaysOut }
    ensures taken { TakenPlanLaysOut }
{}

/// The rows that such a plan has: the pairs stand in the chain's rows, and one more stands in a row of the pool.
pub fn rows_of_laid_out_buffers()
    ensures pairs { AllPairsStand }
    ensures read { HeldPairsAreRead }
    ensures enough { ChainIsEnough }
    ensures first { FirstRowsTakeOver }
    ensures vacant { VacantRowTakesOver }
{}
