//! A transaction from its first line to its end, by a worker's pass.
ghost use Rattle.std.specs.Prelude.{◌≡◌, ◌≤◌, IsTrue, IfOk, OnOk};
ghost use Rattle.lt_seq.specs.Yard.{origin_of};
ghost use Rattle.lt_runner.specs.Played.{IsOver};
ghost use Rattle.lt_crew.specs.Crew.{MayGo};
ghost use Rattle.lt_live.specs.Going.{IsUnheld, MayGoOn};
ghost use Rattle.lt_live.specs.House.{IsPassFit, Hears};
ghost use Rattle.lt_live.specs.Live.{PlaysHere};

use crate::alone::{play_alone, play_once};
use crate::house::{Named, Shared, give_way};
use lt_crew::Gate;
use lt_runner::Turn;
use lt_seq::{Pass, Yard};
use std::alloc::{AllocError, Global};
use std::sync::Wait;

/// Gives way before a line, where another wants to be alone. False where memory ran out.
fn may_play<R: Wait, Y: Yard, J: Named>(
    rt: &R,
    yard: &Y,
    shared: &Shared<Y::Note, J>,
    pass: &mut Y::Pass,
) -> bool
    requires of { Y.Pass.origin pass.old ≡ origin_of (Y.identity yard.now) (Y.setting yard.now) }
    requires name { origin_of (Y.identity yard.now) (Y.setting yard.now) ≡ J.yard }
    requires fit { IsPassFit (Y.setting yard.now) (Y.Pass.view pass.old) }
    requires right { 1 ≤ (Y.Pass.view pass.old).rights }
    ensures of { Y.Pass.origin pass.new ≡ origin_of (Y.identity yard.now) (Y.setting yard.now) }
    ensures fit { IsPassFit (Y.setting yard.now) (Y.Pass.view pass.new) }
    ensures hears { Hears (Y.Pass.view pass.old) (Y.Pass.view pass.new) }
    ensures right { 1 ≤ (Y.Pass.view pass.new).rights }
{
    let house = shared.house.lock(rt);
    let house = give_way(rt, yard, &shared.moved, house, pass);
    !house.stopped
}

/// One attempt at its next line, with the gate called before and behind it, or the rest of its release. Tells whether it went
/// on. The only error is want of memory.
fn play_gated<Y: Yard, G: Gate>(
    yard: &Y,
    gate: &G,
    pass: &mut Y::Pass,
    turn: &mut Turn,
) -> Result<bool, AllocError>
    requires of { Y.Pass.origin pass.old ≡ origin_of (Y.identity yard.now) (Y.setting yard.now) }
    requires fit { IsPassFit (Y.setting yard.now) (Y.Pass.view pass.old) }
    requires right { 1 ≤ (Y.Pass.view pass.old).rights }
    requires may { MayGoOn (Y.setting yard.now) turn.old }
    requires goes { MayGo turn.old }
    ensures of { Y.Pass.origin pass.new ≡ origin_of (Y.identity yard.now) (Y.setting yard.now) }
    ensures fit { IsPassFit (Y.setting yard.now) (Y.Pass.view pass.new) }
    ensures rights { (Y.Pass.view pass.new).rights ≡ (Y.Pass.view pass.old).rights }
    ensures may { OnOk result (MayGoOn (Y.setting yard.now) turn.new) }
    ensures plays { OnOk result (PlaysHere (Y.setting yard.now) (Y.Pass.view pass.old) (Y.Pass.view pass.new) turn.old turn.new) }
    ensures went { IfOk result (λ went. IsTrue went → IsUnheld turn.new) }
{
    let Some(number) = turn.next_number() else {
        return play_once(yard, pass, turn);
    };
    gate.before(turn.number(), number);
    let went = play_once(yard, pass, turn);
    gate.after(turn.number(), number);
    went
}

/// One line, or the release: where it is held or its call is refused, alone. False where memory ran out.
fn play_line<R: Wait, Y: Yard, J: Named, G: Gate>(
    rt: &R,
    alloc: Global,
    yard: &Y,
    shared: &Shared<Y::Note, J>,
    gate: &G,
    pass: &mut Y::Pass,
    turn: &mut Turn,
) -> bool
    requires of { Y.Pass.origin pass.old ≡ origin_of (Y.identity yard.now) (Y.setting yard.now) }
    requires name { origin_of (Y.identity yard.now) (Y.setting yard.now) ≡ J.yard }
    requires fit { IsPassFit (Y.setting yard.now) (Y.Pass.view pass.old) }
    requires right { 1 ≤ (Y.Pass.view pass.old).rights }
    requires may { MayGoOn (Y.setting yard.now) turn.old }
    requires goes { MayGo turn.old }
    ensures of { Y.Pass.origin pass.new ≡ origin_of (Y.identity yard.now) (Y.setting yard.now) }
    ensures fit { IsPassFit (Y.setting yard.now) (Y.Pass.view pass.new) }
    ensures right { IsTrue result → 1 ≤ (Y.Pass.view pass.new).rights }
    ensures may { IsTrue result → MayGoOn (Y.setting yard.now) turn.new }
    ensures plays { IsTrue result → PlaysHere (Y.setting yard.now) (Y.Pass.view pass.old) (Y.Pass.view pass.new) turn.old turn.new }
    ensures unheld { IsTrue result → IsUnheld turn.new }
{
    match play_gated(yard, gate, pass, turn) {
        Ok(true) => true,
        Ok(false) => play_alone(rt, alloc, yard, shared, pass, turn),
        Err(AllocError) => {
            shared.stop(rt);
            false
        }
    }
}

/// Plays a transaction to its end, line by line. Before each line it gives way to one that wants to be alone. False where
/// memory ran out.
pub(crate) fn play_out<R: Wait, Y: Yard, J: Named, G: Gate>(
    rt: &R,
    alloc: Global,
    yard: &Y,
    shared: &Shared<Y::Note, J>,
    gate: &G,
    pass: &mut Y::Pass,
    turn: &mut Turn,
) -> bool
    requires of { Y.Pass.origin pass.old ≡ origin_of (Y.identity yard.now) (Y.setting yard.now) }
    requires name { origin_of (Y.identity yard.now) (Y.setting yard.now) ≡ J.yard }
    requires fit { IsPassFit (Y.setting yard.now) (Y.Pass.view pass.old) }
    requires right { 1 ≤ (Y.Pass.view pass.old).rights }
    requires may { MayGoOn (Y.setting yard.now) turn.old }
    requires unheld { IsUnheld turn.old }
    ensures of { Y.Pass.origin pass.new ≡ origin_of (Y.identity yard.now) (Y.setting yard.now) }
    ensures fit { IsPassFit (Y.setting yard.now) (Y.Pass.view pass.new) }
    ensures right { IsTrue result → 1 ≤ (Y.Pass.view pass.new).rights }
    ensures plays { IsTrue result → PlaysHere (Y.setting yard.now) (Y.Pass.view pass.old) (Y.Pass.view pass.new) turn.old turn.new }
    ensures over { IsTrue result → IsOver turn.new }
{
    for _ in rt.forever() {
        if turn.is_over() {
            return true;
        }
        if !may_play(rt, yard, shared, pass) {
            return false;
        }
        if !play_line(rt, alloc, yard, shared, gate, pass, turn) {
            return false;
        }
    }
    unreachable!()
}
