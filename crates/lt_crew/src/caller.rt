//! Moves of a crew's caller, one transaction at a time, by its pass, which has all the rights.
ghost use Rattle.std.specs.Prelude.{◌≡◌, ◌≤◌, ◌<◌, ◌+◌, Some, length, slice_index_or, true, [], OnOk};
ghost use Rattle.lt_seq.specs.Yard.{origin_of, bar_for, place_after, places_end};
ghost use Rattle.lt_runner.specs.TurnView.{Seat};
ghost use Rattle.lt_requests.specs.declared.wish.Wish.{Wish as WishOf};
ghost use Rattle.lt_requests.specs.Registered.{MayAsk, may_ask, is_registered, wish_of};
ghost use Rattle.lt_requests.specs.Started.{IsStarted, HasAnswer, Keeps};
ghost use Rattle.lt_runner.specs.Plays.{next_wish};
ghost use Rattle.lt_runner.specs.PlaysOn.{IsFit, PlaysOn};
ghost use Rattle.lt_runner.specs.Work.{Spends};
ghost use Rattle.lt_runner.specs.Listed.{wishes_for, others_for};
ghost use Rattle.lt_runner.specs.StartsOn.{IsAmongWishes};
ghost use Rattle.lt_crew.specs.Caller.{IsAlone, IsNearer, IsSomeCrew, MayPlay, MayAskNow, HasAsked, IsTaken, StaysCrew, IsCrewOf, AsksStay};
ghost use Rattle.lt_crew.specs.Caller.{PlaysAt, AsksAt, is_refused};
ghost use Rattle.lt_crew.specs.CallersTurn.{ArePaid, HasPlaces, IsPlayedOn, IsAnsweredNow, IsTurned};
ghost use Rattle.lt_crew.specs.Workers.{EachPair};
ghost use Rattle.lt_runner.specs.CrewCost.{pass_cost};
ghost use Rattle.lt_runner.specs.Notes.{KeepsNotes};
ghost use Rattle.lt_crew.specs.Settled.{SettlesOne};

use lt_history::Outcome;
use lt_requests::{Registry, Started, Wish};
use lt_runner::Turn;
use lt_seq::{Fault, Pass, Yard};
use std::alloc::{AllocError, Global};

/// Plays one on. No other pass acts, so that no call is refused: the only error is want of memory.
pub(crate) fn play_alone<Y: Yard>(
    yard: &Y,
    pass: &mut Y::Pass,
    turn: &mut Turn,
) -> Result<(), AllocError>
    requires of { Y.Pass.origin pass.old ≡ origin_of (Y.identity yard.now) (Y.setting yard.now) }
    requires alone { IsAlone (Y.setting yard.now) (Y.Pass.view pass.old) }
    requires may { MayPlay (Y.setting yard.now) (Y.Pass.view pass.old) turn.old }
    ensures of { Y.Pass.origin pass.new ≡ origin_of (Y.identity yard.now) (Y.setting yard.now) }
    ensures alone { IsAlone (Y.setting yard.now) (Y.Pass.view pass.new) }
    ensures noted { KeepsNotes (Y.setting yard.now) (Y.Pass.view pass.old) (Y.Pass.view pass.new) }
    ensures fit { OnOk result (IsFit (Y.setting yard.now) turn.new) }
    ensures plays { OnOk result (PlaysOn (Y.setting yard.now) [] (Y.Pass.view pass.old) (Y.Pass.view pass.new) turn.old turn.new) }
    ensures spends { OnOk result (Spends (Y.setting yard.now) (Y.Pass.view pass.old) (Y.Pass.view pass.new) turn.old turn.new) }
    ensures nearer { OnOk result (IsNearer turn.old turn.new) }
{
    match turn.play(yard, pass) {
        Ok(_) => Ok(()),
        Err(Fault::OutOfMemory) => Err(AllocError),
        Err(Fault::Busy { .. }) => unreachable!(),
        Err(Fault::HistoryFull { .. }) => unreachable!(),
        Err(Fault::OutOfLocks { .. }) => unreachable!(),
    }
}

/// Asks for a wish, once more where it is registered.
fn start_or_retry<Y: Yard>(
    alloc: Global,
    registry: &mut Registry,
    yard: &Y,
    pass: &mut Y::Pass,
    wish: &Wish,
    big: bool,
) -> Result<Started, Fault>
    requires of { Y.Pass.origin pass.old ≡ origin_of (Y.identity yard.now) (Y.setting yard.now) }
    requires right { 1 ≤ (Y.Pass.view pass.old).rights }
    requires wish { may_ask (Y.setting yard.now).plan.trees wish.now ≡ true }
    requires may { MayAsk (Y.setting yard.now).plan.trees registry.old }
    requires own { wish_of wish.now.txn (wishes_for (is_registered wish.now.txn registry.old) wish.now registry.old) ≡ Some wish.now }
    ensures of { Y.Pass.origin pass.new ≡ origin_of (Y.identity yard.now) (Y.setting yard.now) }
    ensures keeps { Keeps (Y.setting yard.now) (Y.Pass.view pass.old) (Y.Pass.view pass.new) }
    ensures answer { IsStarted (Y.setting yard.now) (bar_for (Y.setting yard.now) big) wish.now
        (others_for (is_registered wish.now.txn registry.old) wish.now registry.old)
        (wishes_for (is_registered wish.now.txn registry.old) wish.now registry.old) registry.old
        (Y.Pass.view pass.old) (Y.Pass.view pass.new) registry.new result }
{
    if registry.is_waiting(wish.txn) {
        lt_requests::retry(alloc, registry, yard, pass, wish.txn, big)
    } else {
        lt_requests::start(alloc, registry, yard, pass, wish, big)
    }
}

/// The ask of one that waits came to this.
fn take_answer(
    registry: &mut Registry,
    turn: &mut Turn,
    started: Result<Started, Fault>,
) -> Result<(), AllocError>
    requires lock { (w : WishOf) × (next_wish turn.old.turn.txn turn.old.turn.lines ≡ Some w) × (w.tree < length turn.old.turn.recorded) }
    requires few { length turn.old.turn.recorded ≤ 16 }
    requires has { HasAnswer started }
    ensures { OnOk result (IsTaken registry.old registry.new turn.old turn.new started) }
{
    match started {
        Ok(Started::Granted { buffered, .. }) => turn.granted(buffered),
        Ok(Started::Waits { .. }) => {
            turn.held(true);
            Ok(())
        }
        Ok(Started::Deadlock(walk)) => turn.end_as(Outcome::Deadlock(walk)),
        Err(Fault::OutOfLocks { place, used }) => {
            registry.forget(turn.number());
            turn.end_as(Outcome::OutOfLocks { place, used })
        }
        Err(Fault::OutOfMemory) => Err(AllocError),
        Err(Fault::Busy { .. }) => unreachable!(),
        Err(Fault::HistoryFull { .. }) => unreachable!(),
    }
}

/// One that waits asks, once more where it is registered, and is what the answer makes of it. No other pass acts, so that the
/// ask is not refused: the only error is want of memory.
pub(crate) fn ask_alone<Y: Yard>(
    alloc: Global,
    registry: &mut Registry,
    yard: &Y,
    pass: &mut Y::Pass,
    turn: &mut Turn,
) -> Result<(), AllocError>
    requires of { Y.Pass.origin pass.old ≡ origin_of (Y.identity yard.now) (Y.setting yard.now) }
    requires alone { IsAlone (Y.setting yard.now) (Y.Pass.view pass.old) }
    requires may { MayAskNow (Y.setting yard.now) (Y.Pass.view pass.old) registry.old turn.old }
    ensures of { Y.Pass.origin pass.new ≡ origin_of (Y.identity yard.now) (Y.setting yard.now) }
    ensures alone { IsAlone (Y.setting yard.now) (Y.Pass.view pass.new) }
    ensures noted { KeepsNotes (Y.setting yard.now) (Y.Pass.view pass.old) (Y.Pass.view pass.new) }
    ensures asked { OnOk result (HasAsked (Y.setting yard.now) (Y.Pass.view pass.old) (Y.Pass.view pass.new)
        registry.old registry.new turn.old turn.new) }
{
    let Some(wish) = turn.wish() else {
        unreachable!();
    };
    let big = turn.is_big();
    let started = start_or_retry(alloc, registry, yard, pass, &wish, big);
    take_answer(registry, turn, started)
}

/// Plays the transaction at a place on where its last call was refused, and leaves it where none was. The only error is want
/// of memory.
pub(crate) fn play_busy<Y: Yard>(
    yard: &Y,
    pass: &mut Y::Pass,
    turns: &mut [Turn],
    place: usize,
) -> Result<(), AllocError>
    requires of { Y.Pass.origin pass.old ≡ origin_of (Y.identity yard.now) (Y.setting yard.now) }
    requires alone { IsAlone (Y.setting yard.now) (Y.Pass.view pass.old) }
    requires inside { place < length turns.old }
    requires crew { IsSomeCrew (Y.setting yard.now) (Y.Pass.view pass.old).front turns.old }
    requires places { (d : Seat) → place_after (Y.setting yard.now) (Y.Pass.view pass.old).front + (Y.setting yard.now).plan.trees
        + length (slice_index_or turns.old place d).turn.releases < places_end }
    ensures of { Y.Pass.origin pass.new ≡ origin_of (Y.identity yard.now) (Y.setting yard.now) }
    ensures alone { IsAlone (Y.setting yard.now) (Y.Pass.view pass.new) }
    ensures noted { KeepsNotes (Y.setting yard.now) (Y.Pass.view pass.old) (Y.Pass.view pass.new) }
    ensures crew { OnOk result (StaysCrew (Y.setting yard.now) (Y.Pass.view pass.old).front (Y.Pass.view pass.new).front
        turns.old turns.new) }
    ensures played { OnOk result ((d : Seat) → PlaysAt (is_refused (slice_index_or turns.old place d)) (Y.setting yard.now)
        (Y.Pass.view pass.old) (Y.Pass.view pass.new) place turns.old turns.new) }
{
    let turn = &mut turns[place];
    if !turn.is_busy() || turn.is_waiting() {
        return Ok(());
    }
    play_alone(yard, pass, turn)
}

/// The transaction at a place asks where it waits, once more where it is registered, and is left where it does not wait. The
/// only error is want of memory.
pub(crate) fn ask_waiting<Y: Yard>(
    alloc: Global,
    registry: &mut Registry,
    yard: &Y,
    pass: &mut Y::Pass,
    turns: &mut [Turn],
    place: usize,
) -> Result<(), AllocError>
    requires of { Y.Pass.origin pass.old ≡ origin_of (Y.identity yard.now) (Y.setting yard.now) }
    requires alone { IsAlone (Y.setting yard.now) (Y.Pass.view pass.old) }
    requires inside { place < length turns.old }
    requires crew { IsCrewOf (Y.setting yard.now) (Y.Pass.view pass.old).front registry.old turns.old }
    requires places { place_after (Y.setting yard.now) (Y.Pass.view pass.old).front + (Y.setting yard.now).plan.trees + 1
        + length turns.old ≤ places_end }
    ensures of { Y.Pass.origin pass.new ≡ origin_of (Y.identity yard.now) (Y.setting yard.now) }
    ensures alone { IsAlone (Y.setting yard.now) (Y.Pass.view pass.new) }
    ensures noted { KeepsNotes (Y.setting yard.now) (Y.Pass.view pass.old) (Y.Pass.view pass.new) }
    ensures crew { OnOk result (AsksStay (Y.setting yard.now) (Y.Pass.view pass.old).front (Y.Pass.view pass.new).front
        registry.old registry.new turns.old turns.new) }
    ensures asked { OnOk result ((d : Seat) → AsksAt (slice_index_or turns.old place d).turn.waits (Y.setting yard.now)
        (Y.Pass.view pass.old) (Y.Pass.view pass.new) registry.old registry.new place turns.old turns.new) }
{
    let turn = &mut turns[place];
    if !turn.is_waiting() {
        return Ok(());
    }
    ask_alone(alloc, registry, yard, pass, turn)
}

/// Plays each on whose last call was refused, in their order. The only error is want of memory.
fn play_refused<Y: Yard>(yard: &Y, pass: &mut Y::Pass, turns: &mut [Turn]) -> Result<(), AllocError>
    requires of { Y.Pass.origin pass.old ≡ origin_of (Y.identity yard.now) (Y.setting yard.now) }
    requires alone { IsAlone (Y.setting yard.now) (Y.Pass.view pass.old) }
    requires crew { IsSomeCrew (Y.setting yard.now) (Y.Pass.view pass.old).front turns.old }
    requires places { HasPlaces (Y.setting yard.now) (Y.Pass.view pass.old) turns.old 0 }
    ensures of { Y.Pass.origin pass.new ≡ origin_of (Y.identity yard.now) (Y.setting yard.now) }
    ensures alone { IsAlone (Y.setting yard.now) (Y.Pass.view pass.new) }
    ensures noted { OnOk result (KeepsNotes (Y.setting yard.now) (Y.Pass.view pass.old) (Y.Pass.view pass.new)) }
    ensures crew { OnOk result (StaysCrew (Y.setting yard.now) (Y.Pass.view pass.old).front (Y.Pass.view pass.new).front
        turns.old turns.new) }
    ensures played { OnOk result (EachPair IsPlayedOn turns.old turns.new) }
    ensures paid { OnOk result (ArePaid (Y.setting yard.now) (Y.Pass.view pass.old) (Y.Pass.view pass.new) turns.old turns.new 0) }
{
    for place in 0..turns.len() {
        play_busy(yard, pass, turns, place)?;
    }
    Ok(())
}

/// Each that waits asks, in their order, once more where it is registered. The only error is want of memory.
fn ask_for_waiting<Y: Yard>(
    alloc: Global,
    registry: &mut Registry,
    yard: &Y,
    pass: &mut Y::Pass,
    turns: &mut [Turn],
) -> Result<(), AllocError>
    requires of { Y.Pass.origin pass.old ≡ origin_of (Y.identity yard.now) (Y.setting yard.now) }
    requires alone { IsAlone (Y.setting yard.now) (Y.Pass.view pass.old) }
    requires crew { IsCrewOf (Y.setting yard.now) (Y.Pass.view pass.old).front registry.old turns.old }
    requires places { HasPlaces (Y.setting yard.now) (Y.Pass.view pass.old) turns.old
        (pass_cost (Y.setting yard.now).plan.trees (length turns.old)) }
    ensures of { Y.Pass.origin pass.new ≡ origin_of (Y.identity yard.now) (Y.setting yard.now) }
    ensures alone { IsAlone (Y.setting yard.now) (Y.Pass.view pass.new) }
    ensures noted { OnOk result (KeepsNotes (Y.setting yard.now) (Y.Pass.view pass.old) (Y.Pass.view pass.new)) }
    ensures crew { OnOk result (AsksStay (Y.setting yard.now) (Y.Pass.view pass.old).front (Y.Pass.view pass.new).front
        registry.old registry.new turns.old turns.new) }
    ensures asked { OnOk result (EachPair IsAnsweredNow turns.old turns.new) }
    ensures settles { OnOk result (SettlesOne turns.old turns.new) }
    ensures paid { OnOk result (ArePaid (Y.setting yard.now) (Y.Pass.view pass.old) (Y.Pass.view pass.new) turns.old turns.new
        (pass_cost (Y.setting yard.now).plan.trees (length turns.old))) }
{
    for place in 0..turns.len() {
        ask_waiting(alloc, registry, yard, pass, turns, place)?;
    }
    Ok(())
}

/// The caller's turn between two rounds: first each transaction whose last call was refused is played on, then each that
/// waits asks, both in the order of their numbers. Where nobody is left but those that wait and are registered, one of them is
/// granted or ends.
///
/// The only error is want of memory. Then the events that were made stand, and no transaction is played any more.
pub fn callers_turn<Y: Yard>(
    alloc: Global,
    registry: &mut Registry,
    yard: &Y,
    pass: &mut Y::Pass,
    turns: &mut [Turn],
) -> Result<(), AllocError>
    requires of { Y.Pass.origin pass.old ≡ origin_of (Y.identity yard.now) (Y.setting yard.now) }
    requires alone { IsAlone (Y.setting yard.now) (Y.Pass.view pass.old) }
    requires crew { IsCrewOf (Y.setting yard.now) (Y.Pass.view pass.old).front registry.old turns.old }
    requires places { HasPlaces (Y.setting yard.now) (Y.Pass.view pass.old) turns.old
        (pass_cost (Y.setting yard.now).plan.trees (length turns.old)) }
    ensures of { Y.Pass.origin pass.new ≡ origin_of (Y.identity yard.now) (Y.setting yard.now) }
    ensures alone { IsAlone (Y.setting yard.now) (Y.Pass.view pass.new) }
    ensures noted { OnOk result (KeepsNotes (Y.setting yard.now) (Y.Pass.view pass.old) (Y.Pass.view pass.new)) }
    ensures crew { OnOk result (AsksStay (Y.setting yard.now) (Y.Pass.view pass.old).front (Y.Pass.view pass.new).front
        registry.old registry.new turns.old turns.new) }
    ensures turned { OnOk result (EachPair IsTurned turns.old turns.new) }
    ensures settles { OnOk result (SettlesOne turns.old turns.new) }
    ensures paid { OnOk result (ArePaid (Y.setting yard.now) (Y.Pass.view pass.old) (Y.Pass.view pass.new) turns.old turns.new
        (pass_cost (Y.setting yard.now).plan.trees (length turns.old))) }
{
    play_refused(yard, pass, turns)?;
    ask_for_waiting(alloc, registry, yard, pass, turns)
}
