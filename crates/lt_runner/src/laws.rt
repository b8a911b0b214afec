//! Laws of runs.
ghost use Rattle.lt_runner.specs.Nothing.{ReleasesLeaveNothing, RunsLeaveNothing};
ghost use Rattle.lt_runner.specs.Standing.{SeatsStand, WaitersHaveLines, SeatsOwnDue, WaitingOwnAll};
ghost use Rattle.lt_runner.specs.StartsAlone.{StartsAreMoves};
ghost use Rattle.std.specs.Prelude.{ℕ, false};
ghost use Rattle.lt_trace.specs.Grammar.{IsTrace};
ghost use Rattle.lt_trace.specs.Trace.{TraceView};
ghost use Rattle.lt_runner.specs.LeftOut.{LeavesOneOut};
ghost use Rattle.lt_runner.specs.RandomJoins.{RandomJoins};
ghost use Rattle.lt_runner.specs.RandomTraces.{RandomTraces};
ghost use Rattle.lt_runner.specs.Rows.{Rows};
ghost use Rattle.lt_runner.specs.Run.{IsRunText};
ghost use Rattle.lt_runner.specs.Serial.{ran_text, serial, setting_of};
ghost use Rattle.lt_runner.specs.CrewCost.{CrewsMakeFew};
ghost use Rattle.lt_runner.specs.Listed.{SeatsAsk, RegistriesStay, SeatsStayFit};
ghost use Rattle.lt_runner.specs.Retries.{RetriesAreHeld, RetriesSettleOne, RetriesGoOn, ListedAreWaiters, HeldSeatsStay};
ghost use Rattle.lt_runner.specs.Settles.{SweepsSettleOne};
ghost use Rattle.lt_runner.specs.StartsCost.{StartsAreSteps};
ghost use Rattle.lt_runner.specs.StartsOn.{StartsPlayOn};

/// The plain scheduler writes the worked examples' texts.
pub fn worked_rows()
    ensures { Rows }
{}

/// What the plain scheduler writes is the text of a run: one legal history in which each transaction of the trace is
/// played to its end and no other has an event, with a lawful table at every point and refusals that name exactly the
/// other owners.
pub fn serial_is_a_run()
    ensures { (trace : TraceView) (first : ℕ) → IsTrace trace
        → IsRunText false (setting_of trace 1 first) trace.lines (ran_text (serial trace first)) }
{}

/// Where a transaction waits and every pair is owned by one that waits, a sweep grants or ends at least one: in it all that
/// wait ask again once, ascending.
pub fn sweeps_settle_one()
    ensures { SweepsSettleOne }
{}

/// One that was held at its line is registered while its search goes on: a history in which another's search leaves it
/// out is no run, though all else in it is as it must be.
pub fn registered_while_searching()
    ensures { LeavesOneOut }
{}

/// The plain scheduler writes what an independent reading of the rules says of random traces: deadlocks, some of them at
/// a retry, several wishes, buffers, and other first places than 0.
pub fn random_traces()
    ensures { RandomTraces }
{}

/// It does so of random traces with joins where there is no room, escalate lines and big transactions.
pub fn random_joins()
    ensures { RandomJoins }
{}

/// A start or a retry by a pass that has all the rights, where there are places, is the plain scheduler's move at a `lock`
/// line: the ask with its joins and its search, and the turn behind it. It is never busy, and the history is not full.
#[tactic(auto, using(crate::proofs::StartedLaws::started_at_once))]
pub fn starts_are_moves()
    ensures { StartsAreMoves }
{}

/// Where each pair overlaps what its owner recorded, or what is left of its release, a transaction that has ended has no pair
/// in any tree once its release is over.
#[tactic(auto, using(crate::proofs::NothingLaws::releases_leave_nothing))]
pub fn releases_leave_nothing()
    ensures { ReleasesLeaveNothing }
{}

/// At the end of a run of the plain scheduler nothing is held.
#[tactic(auto, using(crate::proofs::NothingLaws::runs_leave_nothing))]
pub fn runs_leave_nothing()
    ensures { RunsLeaveNothing }
{}

/// A start or a retry by a pass that has all the rights, where there are places, plays a transaction of a crew on that waits,
/// whether it was registered before or not: its ask with its joins, and where it was held one search, among the wishes that
/// were registered then with its own.
#[tactic(auto, using(crate::proofs::StartsOnLaws::starts_play_on))]
pub fn starts_play_on()
    ensures { StartsPlayOn }
{}

/// Where the registry has the wishes of exactly the registered ones, one that waits asks among them and its own, whether it
/// starts or asks again, and each other transaction is listed rightly there.
pub fn seats_ask()
    ensures { SeatsAsk }
{}

/// Behind the answer of a start or a retry, and once one that was out of locks is forgotten, the registry has the wishes of
/// exactly the registered ones again.
pub fn registries_stay()
    ensures { RegistriesStay }
{}

/// Behind the answer of a start or a retry the transaction may be played on.
pub fn seats_stay_fit()
    ensures { SeatsStayFit }
{}

/// A start or a retry of one that waits makes, besides what is paid for, no more events than the joins of all trees, an ask
/// and a question for each that is registered; and where the transaction does not wait on it is a step on.
pub fn starts_are_steps()
    ensures { StartsAreSteps }
{}

/// A retry of a crew's caller that was held again is the plain scheduler's, where exactly those that wait are registered.
pub fn retries_are_held()
    ensures { RetriesAreHeld }
{}

/// Where a transaction waits and every pair is owned by one that waits, a pass of retries grants or ends at least one.
pub fn retries_settle_one()
    ensures { RetriesSettleOne }
{}

/// A transaction of a crew that stands half played has a steady turn, and until it has ended the line that ends it is left.
///
/// One that waits does so at a lock line, for which it has a wish.
pub fn seats_stand()
    ensures stand { SeatsStand }
    ensures wait { WaitersHaveLines }
{}

/// Each pair of such a transaction overlaps a range that it is to give back, whatever others did between.
pub fn seats_own_due()
    ensures { SeatsOwnDue }
{}

/// Where each transaction of a crew waits, or has ended and given back all, every pair is owned by one that waits.
pub fn waiting_own_all()
    ensures { WaitingOwnAll }
{}

/// With one pass of retries for each step, and the events that are paid for, a crew's run makes no more events than its bound.
pub fn crews_make_few()
    ensures { CrewsMakeFew }
{}

/// Such retries go on one by one: the registry is the plain scheduler's where each that waits is registered, a retry that was
/// held again leaves its seat, and one that does not wait is passed over.
pub fn retries_go_on()
    ensures on { RetriesGoOn }
    ensures registry { ListedAreWaiters }
    ensures seat { HeldSeatsStay }
{}
