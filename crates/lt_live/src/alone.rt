//! What a worker does under the lock, with all the rights: no other pass acts then.
ghost use Rattle.std.specs.Prelude.{◌≡◌, ℕ, ◌<◌, ◌≤◌, Some, length, false, IsTrue, IfOk, OnOk};
ghost use Rattle.lt_seq.specs.Yard.{origin_of, HasAll};
ghost use Rattle.lt_requests.specs.declared.wish.Wish.{Wish as WishOf};
ghost use Rattle.lt_requests.specs.Registered.{MayAsk};
ghost use Rattle.lt_requests.specs.Started.{HasAnswer};
ghost use Rattle.lt_runner.specs.Board.{IsAnswered, seat_so};
ghost use Rattle.lt_runner.specs.Plays.{next_wish};
ghost use Rattle.lt_runner.specs.PlaysOn.{IsNext};
ghost use Rattle.lt_live.specs.Going.{HasRoomFor, IsUnheld, MayAskAlone, MayGoOn};
ghost use Rattle.lt_live.specs.House.{IsPassFit, Hears};
ghost use Rattle.lt_live.specs.Live.{PlaysHere};

use crate::house::{House, Named, Shared, gather, give_way, leave, sleep};
use lt_history::Outcome;
use lt_requests::{Registry, Started, Wish};
use lt_runner::{Moved, Turn};
use lt_seq::{Fault, PLACES_END, Pass, Yard};
use std::alloc::{AllocError, Global};
use std::sync::Wait;

/// Most trees of a table, an ask, and the question for its own wish.
const MOST_BESIDES: u64 = 18;

/// Whether there are places for all that one start may do where so many others wait.
#[tactic(auto, using(crate::proofs::HouseLaws::watches_fit))]
fn has_room<Y: Yard>(yard: &Y, pass: &mut Y::Pass, waiting: usize) -> bool
    requires of { Y.Pass.origin pass.old ≡ origin_of (Y.identity yard.now) (Y.setting yard.now) }
    requires fit { IsPassFit (Y.setting yard.now) (Y.Pass.view pass.old) }
    ensures of { Y.Pass.origin pass.new ≡ origin_of (Y.identity yard.now) (Y.setting yard.now) }
    ensures fit { IsPassFit (Y.setting yard.now) (Y.Pass.view pass.new) }
    ensures hears { Hears (Y.Pass.view pass.old) (Y.Pass.view pass.new) }
    ensures rights { (Y.Pass.view pass.new).rights ≡ (Y.Pass.view pass.old).rights }
    ensures room { IsTrue result → HasRoomFor (Y.setting yard.now) (Y.Pass.view pass.new) waiting }
{
    let place = yard.look(pass).place;
    let waiting = waiting as u64;
    place <= PLACES_END && waiting <= PLACES_END && place + waiting + MOST_BESIDES <= PLACES_END
}

/// Plays it once, and tells whether it went on: where it did not it was held, or its call was refused. The only error is want
/// of memory.
pub(crate) fn play_once<Y: Yard>(
    yard: &Y,
    pass: &mut Y::Pass,
    turn: &mut Turn,
) -> Result<bool, AllocError>
    requires of { Y.Pass.origin pass.old ≡ origin_of (Y.identity yard.now) (Y.setting yard.now) }
    requires fit { IsPassFit (Y.setting yard.now) (Y.Pass.view pass.old) }
    requires right { 1 ≤ (Y.Pass.view pass.old).rights }
    requires may { MayGoOn (Y.setting yard.now) turn.old }
    requires next { IsNext (Y.setting yard.now) (Y.Pass.view pass.old) turn.old }
    ensures of { Y.Pass.origin pass.new ≡ origin_of (Y.identity yard.now) (Y.setting yard.now) }
    ensures fit { IsPassFit (Y.setting yard.now) (Y.Pass.view pass.new) }
    ensures rights { (Y.Pass.view pass.new).rights ≡ (Y.Pass.view pass.old).rights }
    ensures may { OnOk result (MayGoOn (Y.setting yard.now) turn.new) }
    ensures plays { OnOk result (PlaysHere (Y.setting yard.now) (Y.Pass.view pass.old) (Y.Pass.view pass.new) turn.old turn.new) }
    ensures went { IfOk result (λ went. IsTrue went → IsUnheld turn.new) }
{
    match turn.play(yard, pass) {
        Ok(Moved::Played) => Ok(true),
        Ok(Moved::Ended) => Ok(true),
        Ok(Moved::Held) => Ok(false),
        Err(Fault::OutOfMemory) => Err(AllocError),
        Err(Fault::Busy { .. }) => Ok(false),
        Err(Fault::HistoryFull { .. }) => Ok(false),
        Err(Fault::OutOfLocks { .. }) => unreachable!(),
    }
}

/// The start of one that is held came to this.
#[tactic(auto, using(lt_requests::proofs::StartLaws::may_without))]
fn take_answer(
    registry: &mut Registry,
    turn: &mut Turn,
    started: Result<Started, Fault>,
) -> Result<(), AllocError>
    requires lock { (w : WishOf) × (next_wish turn.old.turn.txn turn.old.turn.lines ≡ Some w) × (w.tree < length turn.old.turn.recorded) }
    requires few { length turn.old.turn.recorded ≤ 16 }
    requires has { HasAnswer started }
    ensures taken { OnOk result (IsAnswered started × (turn.new ≡ seat_so turn.old.turn started)) }
    ensures may { (trees : ℕ) → MayAsk trees registry.old → MayAsk trees registry.new }
{
    match started {
        Ok(Started::Granted { buffered, .. }) => turn.granted(buffered),
        Ok(Started::Waits { .. }) => {
            turn.held(true);
            Ok(())
        }
        Ok(Started::Deadlock(walk)) => turn.end_as(Outcome::Deadlock(walk)),
        Err(Fault::OutOfLocks { place, used }) => {
            registry.forget(turn.number());
            turn.end_as(Outcome::OutOfLocks { place, used })
        }
        Err(Fault::OutOfMemory) => Err(AllocError),
        Err(Fault::Busy { .. }) => unreachable!(),
        Err(Fault::HistoryFull { .. }) => unreachable!(),
    }
}

/// Asks for the range of its next line, a `lock` line, with a search where it is held: then it is registered, or ends in a
/// deadlock. The only error is want of memory.
fn ask_alone<Y: Yard>(
    alloc: Global,
    registry: &mut Registry,
    yard: &Y,
    pass: &mut Y::Pass,
    turn: &mut Turn,
    wish: &Wish,
) -> Result<(), AllocError>
    requires of { Y.Pass.origin pass.old ≡ origin_of (Y.identity yard.now) (Y.setting yard.now) }
    requires asks { MayAskAlone (Y.setting yard.now) (Y.Pass.view pass.old) registry.old turn.old wish.now }
    requires may { MayAsk (Y.setting yard.now).plan.trees registry.old }
    ensures of { Y.Pass.origin pass.new ≡ origin_of (Y.identity yard.now) (Y.setting yard.now) }
    ensures fit { IsPassFit (Y.setting yard.now) (Y.Pass.view pass.new) }
    ensures rights { (Y.Pass.view pass.new).rights ≡ (Y.Pass.view pass.old).rights }
    ensures registered { MayAsk (Y.setting yard.now).plan.trees registry.new }
    ensures may { OnOk result (MayGoOn (Y.setting yard.now) turn.new) }
    ensures plays { OnOk result (PlaysHere (Y.setting yard.now) (Y.Pass.view pass.old) (Y.Pass.view pass.new) turn.old turn.new) }
    ensures free { OnOk result (turn.new.busy ≡ false) }
{
    let big = turn.is_big();
    let started = lt_requests::start(alloc, registry, yard, pass, wish, big);
    take_answer(registry, turn, started)
}

/// Asks where there is room, and tells whether it went on. Where it did not it waits, registered with its wish. The only
/// error is want of memory.
fn ask_in_house<Y: Yard, J: Named>(
    alloc: Global,
    yard: &Y,
    house: &mut House<Y::Note, J>,
    pass: &mut Y::Pass,
    turn: &mut Turn,
    wish: &Wish,
) -> Result<bool, AllocError>
    requires of { Y.Pass.origin pass.old ≡ origin_of (Y.identity yard.now) (Y.setting yard.now) }
    requires name { origin_of (Y.identity yard.now) (Y.setting yard.now) ≡ J.yard }
    requires fit { IsPassFit (Y.setting yard.now) (Y.Pass.view pass.old) }
    requires all { HasAll (Y.setting yard.now) (Y.Pass.view pass.old) }
    requires may { MayGoOn (Y.setting yard.now) turn.old }
    requires wish { next_wish turn.old.turn.txn turn.old.turn.lines ≡ Some wish.now }
    ensures of { Y.Pass.origin pass.new ≡ origin_of (Y.identity yard.now) (Y.setting yard.now) }
    ensures fit { IsPassFit (Y.setting yard.now) (Y.Pass.view pass.new) }
    ensures rights { (Y.Pass.view pass.new).rights ≡ (Y.Pass.view pass.old).rights }
    ensures may { OnOk result (MayGoOn (Y.setting yard.now) turn.new) }
    ensures plays { OnOk result (PlaysHere (Y.setting yard.now) (Y.Pass.view pass.old) (Y.Pass.view pass.new) turn.old turn.new) }
    ensures went { IfOk result (λ went. IsTrue went → IsUnheld turn.new) }
{
    let waiting = house.forget(wish.txn);
    if !has_room(yard, pass, waiting) {
        return Ok(false);
    }
    ask_alone(alloc, &mut house.registry, yard, pass, turn, wish)?;
    Ok(!turn.is_waiting())
}

/// Plays it on where there is room, and tells whether it went on. The only error is want of memory.
fn play_in_house<Y: Yard>(yard: &Y, pass: &mut Y::Pass, turn: &mut Turn) -> Result<bool, AllocError>
    requires of { Y.Pass.origin pass.old ≡ origin_of (Y.identity yard.now) (Y.setting yard.now) }
    requires fit { IsPassFit (Y.setting yard.now) (Y.Pass.view pass.old) }
    requires all { HasAll (Y.setting yard.now) (Y.Pass.view pass.old) }
    requires may { MayGoOn (Y.setting yard.now) turn.old }
    requires goes { turn.old.turn.waits ≡ false }
    ensures of { Y.Pass.origin pass.new ≡ origin_of (Y.identity yard.now) (Y.setting yard.now) }
    ensures fit { IsPassFit (Y.setting yard.now) (Y.Pass.view pass.new) }
    ensures rights { (Y.Pass.view pass.new).rights ≡ (Y.Pass.view pass.old).rights }
    ensures may { OnOk result (MayGoOn (Y.setting yard.now) turn.new) }
    ensures plays { OnOk result (PlaysHere (Y.setting yard.now) (Y.Pass.view pass.old) (Y.Pass.view pass.new) turn.old turn.new) }
    ensures went { IfOk result (λ went. IsTrue went → IsUnheld turn.new) }
{
    if !has_room(yard, pass, 0) {
        return Ok(false);
    }
    play_once(yard, pass, turn)
}

/// One attempt: it asks where a `lock` line is next, and is played on otherwise. Tells whether it went on. The only error is
/// want of memory.
fn try_alone<Y: Yard, J: Named>(
    alloc: Global,
    yard: &Y,
    house: &mut House<Y::Note, J>,
    pass: &mut Y::Pass,
    turn: &mut Turn,
) -> Result<bool, AllocError>
    requires of { Y.Pass.origin pass.old ≡ origin_of (Y.identity yard.now) (Y.setting yard.now) }
    requires name { origin_of (Y.identity yard.now) (Y.setting yard.now) ≡ J.yard }
    requires fit { IsPassFit (Y.setting yard.now) (Y.Pass.view pass.old) }
    requires all { HasAll (Y.setting yard.now) (Y.Pass.view pass.old) }
    requires may { MayGoOn (Y.setting yard.now) turn.old }
    ensures of { Y.Pass.origin pass.new ≡ origin_of (Y.identity yard.now) (Y.setting yard.now) }
    ensures fit { IsPassFit (Y.setting yard.now) (Y.Pass.view pass.new) }
    ensures rights { (Y.Pass.view pass.new).rights ≡ (Y.Pass.view pass.old).rights }
    ensures may { OnOk result (MayGoOn (Y.setting yard.now) turn.new) }
    ensures plays { OnOk result (PlaysHere (Y.setting yard.now) (Y.Pass.view pass.old) (Y.Pass.view pass.new) turn.old turn.new) }
    ensures went { IfOk result (λ went. IsTrue went → IsUnheld turn.new) }
{
    match turn.wish() {
        Some(wish) => ask_in_house(alloc, yard, house, pass, turn, &wish),
        None => play_in_house(yard, pass, turn),
    }
}

/// Plays a transaction on that was held, or whose last call was refused: with all the rights, and again whenever another has
/// ended or it is called, until it goes on. False where memory ran out.
pub(crate) fn play_alone<R: Wait, Y: Yard, J: Named>(
    rt: &R,
    alloc: Global,
    yard: &Y,
    shared: &Shared<Y::Note, J>,
    pass: &mut Y::Pass,
    turn: &mut Turn,
) -> bool
    requires of { Y.Pass.origin pass.old ≡ origin_of (Y.identity yard.now) (Y.setting yard.now) }
    requires name { origin_of (Y.identity yard.now) (Y.setting yard.now) ≡ J.yard }
    requires fit { IsPassFit (Y.setting yard.now) (Y.Pass.view pass.old) }
    requires right { 1 ≤ (Y.Pass.view pass.old).rights }
    requires may { MayGoOn (Y.setting yard.now) turn.old }
    ensures of { Y.Pass.origin pass.new ≡ origin_of (Y.identity yard.now) (Y.setting yard.now) }
    ensures fit { IsPassFit (Y.setting yard.now) (Y.Pass.view pass.new) }
    ensures right { IsTrue result → 1 ≤ (Y.Pass.view pass.new).rights }
    ensures may { IsTrue result → MayGoOn (Y.setting yard.now) turn.new }
    ensures plays { IsTrue result → PlaysHere (Y.setting yard.now) (Y.Pass.view pass.old) (Y.Pass.view pass.new) turn.old turn.new }
    ensures unheld { IsTrue result → IsUnheld turn.new }
{
    let moved = &shared.moved;
    let house = shared.house.lock(rt);
    let house = give_way(rt, yard, moved, house, pass);
    let mut house = gather(rt, yard, moved, house, pass);
    for _ in rt.forever() {
        let Ok(went) = try_alone(alloc, yard, &mut house, pass, turn) else {
            house.stopped = true;
            leave(yard, moved, &mut house, pass);
            return false;
        };
        leave(yard, moved, &mut house, pass);
        if went {
            return true;
        }
        house = sleep(rt, yard, moved, house, pass, turn.number());
        if house.stopped {
            return false;
        }
        house = gather(rt, yard, moved, house, pass);
    }
    unreachable!()
}
