//! What is written for the bytes that were read.
ghost use Rattle.std.specs.Prelude.{IfOk, OnErr};
ghost use Rattle.lt_program.specs.Answers.{IsAnswer, IsRefusalFor, IsToldOrNot};
ghost use Rattle.lt_program.specs.Playings.{MayPlay, playing_of};

use crate::player::{Player, played_text};
use crate::refusal::refusal_line;
use lt_barrier::Barrier;
use lt_crew::Gate;
use lt_trace::{TraceFault, read};
use lt_watch::Tells;
use std::alloc::{AllocError, Global};
use std::sync::Wait;
use std::thread::Threads;

/// What is to be written.
#[derive(Debug, Drop)]
pub(crate) enum Answer {
    /// The text of a run.
    Text(Vec<u8>),
    /// The line that refuses the bytes.
    Refusal(Vec<u8>),
}

/// The refusal of bytes for this fault. Want of memory is no fault of theirs.
pub(crate) fn refused(alloc: Global, fault: &TraceFault) -> Result<Answer, AllocError>
    ensures { IfOk result (IsRefusalFor fault.now) }
{
    match fault {
        TraceFault::OutOfMemory => Err(AllocError),
        fault => Ok(Answer::Refusal(refusal_line(alloc, fault)?)),
    }
}

/// The answer to the bytes that were read. Where they are a trace, this player plays it, and each watch is told the joins of
/// the run.
pub(crate) fn answer_to<R: Threads + Wait + Sync, T: Tells, G: Gate>(
    rt: &R,
    alloc: Global,
    player: Player,
    barrier: Box<dyn Barrier>,
    bytes: &[u8],
    watch: &mut T,
    gate: &G,
) -> Result<Answer, AllocError>
    requires { MayPlay player }
    ensures answer { IfOk result (λ answer. IsAnswer (playing_of player (marks barrier)) bytes.now answer (T.logs watch.old) (T.logs watch.new)) }
    ensures short { OnErr result (IsToldOrNot (playing_of player (marks barrier)) bytes.now (T.logs watch.old) (T.logs watch.new)) }
{
    match read(alloc, bytes) {
        Ok(trace) => {
            let text = played_text(rt, alloc, player, barrier, &trace, watch, gate)?;
            Ok(Answer::Text(text))
        }
        Err(fault) => refused(alloc, &fault),
    }
}
