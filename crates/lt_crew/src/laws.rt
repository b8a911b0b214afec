//! Laws of crews.
ghost use Rattle.lt_crew.specs.Caller.{CallerAsks, CallerPlaysOn};
ghost use Rattle.lt_crew.specs.Rounds.{CallerMovesOne, CallersTurn, DealtAreMoved, RoundsAreARun, RoundsStand};
ghost use Rattle.lt_crew.specs.RoundsCrew.{CrewsComeNearer, RoundsStayCrew};

/// Behind rounds each transaction of the trace has come as far as its own events of the one legal history tell, and no
/// other has an event.
#[tactic(auto, using(crate::proofs::CrewRunLaws::rounds_stand))]
pub fn rounds_stand()
    ensures { RoundsStand }
{}

/// Where all are over behind rounds, what was done is the run of a crew: one legal history with each transaction's play
/// once and in its order, no event of another, and each search among those that waited.
#[tactic(auto, using(crate::proofs::CrewRunLaws::rounds_are_a_run))]
pub fn rounds_are_a_run()
    ensures { RoundsAreARun }
{}

/// A turn of the caller, whose pass has all the rights, is a round in which it alone plays one transaction.
pub fn callers_turn()
    ensures { CallersTurn }
{}

/// Such a turn leaves the other transactions as they are.
pub fn caller_moves_one()
    ensures { CallerMovesOne }
{}

/// Behind a round the transactions are where they were dealt, in whatever order they are told.
pub fn dealt_are_moved()
    ensures { DealtAreMoved }
{}

/// A play by the caller of one that is not registered leaves a crew's transactions as they may be between two moves.
#[tactic(auto, using(crate::proofs::CallerLaws::caller_plays_on))]
pub fn caller_plays_on()
    ensures { CallerPlaysOn }
{}

/// So does the answer of a start or a retry by the caller, where one that is out of locks is forgotten.
#[tactic(auto, using(crate::proofs::CallerLaws::caller_asks))]
pub fn caller_asks()
    ensures { CallerAsks }
{}

/// So does a round whose passes played what they were dealt as far as workers can, with the same registry.
#[tactic(auto, using(crate::proofs::RoundsCrewLaws::rounds_stay_crew))]
pub fn rounds_stay_crew()
    ensures { RoundsStayCrew }
{}

/// A round and the caller's turn behind it take no step back. Where a transaction that was dealt does not wait and has a step
/// left, fewer are left to all.
pub fn crews_come_nearer()
    ensures { CrewsComeNearer }
{}
