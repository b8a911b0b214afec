//! One transaction's lines, by a worker's pass.
ghost use Rattle.std.specs.Prelude.{◌≡◌, ◌≢◌, ◌⊎◌, ◌≤◌, length, [], OnOk, false, true, is_some, IsTrue, None};
ghost use Rattle.lt_seq.specs.Yard.{origin_of};
ghost use Rattle.lt_runner.specs.PlaysOn.{IsFit, IsReady, PlaysOn};
ghost use Rattle.lt_runner.specs.Work.{Spends};
ghost use Rattle.lt_runner.specs.Notes.{KeepsNotes};
ghost use Rattle.lt_crew.specs.Crew.{MayGo, IsStuck, IsOn, IsPlayedOut};

use crate::gate::Gate;
use lt_runner::Turn;
use lt_seq::{Fault, Pass, Yard};
use std::alloc::AllocError;

/// Whether a worker may play it on: it does not wait, and its last call was not refused.
fn may_go(turn: &Turn) -> bool
    ensures goes { IsTrue result → MayGo turn.now }
    ensures stuck { result ≡ false → IsStuck turn.now }
{
    !turn.is_waiting() && !turn.is_busy()
}

/// Plays it once: one attempt at its next line, or its release. The only error is want of memory.
fn play_once<Y: Yard>(yard: &Y, pass: &mut Y::Pass, turn: &mut Turn) -> Result<(), AllocError>
    requires of { Y.Pass.origin pass.old ≡ origin_of (Y.identity yard.now) (Y.setting yard.now) }
    requires ready { IsReady (Y.setting yard.now) (Y.Pass.view pass.old) }
    requires fit { IsFit (Y.setting yard.now) turn.old }
    requires goes { MayGo turn.old }
    requires left { turn.old.turn.outcome ≡ None → turn.old.turn.lines ≢ [] }
    ensures of { Y.Pass.origin pass.new ≡ origin_of (Y.identity yard.now) (Y.setting yard.now) }
    ensures noted { KeepsNotes (Y.setting yard.now) (Y.Pass.view pass.old) (Y.Pass.view pass.new) }
    ensures fit { OnOk result (IsFit (Y.setting yard.now) turn.new) }
    ensures plays { OnOk result (PlaysOn (Y.setting yard.now) [] (Y.Pass.view pass.old) (Y.Pass.view pass.new) turn.old turn.new) }
    ensures spends { OnOk result (Spends (Y.setting yard.now) (Y.Pass.view pass.old) (Y.Pass.view pass.new) turn.old turn.new) }
    ensures on { OnOk result (IsOn turn.old turn.new) }
{
    let Err(fault) = turn.play(yard, pass) else {
        return Ok(());
    };
    match fault {
        Fault::OutOfMemory => Err(AllocError),
        Fault::Busy { .. } | Fault::HistoryFull { .. } | Fault::OutOfLocks { .. } => Ok(()),
    }
}

/// Plays lines, until none is left, one is held, or a call is refused. The only error is want of memory.
fn play_lines<Y: Yard, G: Gate>(
    yard: &Y,
    pass: &mut Y::Pass,
    turn: &mut Turn,
    gate: &G,
) -> Result<(), AllocError>
    requires of { Y.Pass.origin pass.old ≡ origin_of (Y.identity yard.now) (Y.setting yard.now) }
    requires ready { IsReady (Y.setting yard.now) (Y.Pass.view pass.old) }
    requires fit { IsFit (Y.setting yard.now) turn.old }
    ensures of { Y.Pass.origin pass.new ≡ origin_of (Y.identity yard.now) (Y.setting yard.now) }
    ensures noted { OnOk result (KeepsNotes (Y.setting yard.now) (Y.Pass.view pass.old) (Y.Pass.view pass.new)) }
    ensures fit { OnOk result (IsFit (Y.setting yard.now) turn.new) }
    ensures plays { OnOk result (PlaysOn (Y.setting yard.now) [] (Y.Pass.view pass.old) (Y.Pass.view pass.new) turn.old turn.new) }
    ensures spends { OnOk result (Spends (Y.setting yard.now) (Y.Pass.view pass.old) (Y.Pass.view pass.new) turn.old turn.new) }
    ensures lines { OnOk result (length turn.new.turn.lines ≤ length turn.old.turn.lines) }
    ensures stuck { OnOk result (IsStuck turn.old → turn.new ≡ turn.old) }
    ensures played { OnOk result (IsStuck turn.new ⊎ (turn.new.turn.lines ≡ [])) }
{
    for _line in 0..turn.lines_left() {
        if !may_go(turn) {
            return Ok(());
        }
        let Some(number) = turn.next_number() else {
            return Ok(());
        };
        gate.before(turn.number(), number);
        play_once(yard, pass, turn)?;
        gate.after(turn.number(), number);
    }
    Ok(())
}

/// Plays a transaction, until it has given back all, waits at a held line, or a call is refused. The only error is want
/// of memory.
pub(crate) fn play_turn<Y: Yard, G: Gate>(
    yard: &Y,
    pass: &mut Y::Pass,
    turn: &mut Turn,
    gate: &G,
) -> Result<(), AllocError>
    requires of { Y.Pass.origin pass.old ≡ origin_of (Y.identity yard.now) (Y.setting yard.now) }
    requires ready { IsReady (Y.setting yard.now) (Y.Pass.view pass.old) }
    requires fit { IsFit (Y.setting yard.now) turn.old }
    ensures of { Y.Pass.origin pass.new ≡ origin_of (Y.identity yard.now) (Y.setting yard.now) }
    ensures noted { OnOk result (KeepsNotes (Y.setting yard.now) (Y.Pass.view pass.old) (Y.Pass.view pass.new)) }
    ensures fit { OnOk result (IsFit (Y.setting yard.now) turn.new) }
    ensures plays { OnOk result (PlaysOn (Y.setting yard.now) [] (Y.Pass.view pass.old) (Y.Pass.view pass.new) turn.old turn.new) }
    ensures spends { OnOk result (Spends (Y.setting yard.now) (Y.Pass.view pass.old) (Y.Pass.view pass.new) turn.old turn.new) }
    ensures out { OnOk result (IsPlayedOut turn.old turn.new) }
{
    play_lines(yard, pass, turn, gate)?;
    if turn.has_ended() && may_go(turn) {
        return play_once(yard, pass, turn);
    }
    Ok(())
}
