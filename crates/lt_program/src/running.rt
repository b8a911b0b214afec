//! The top call.
ghost use Rattle.std.specs.Prelude.{◌≡◌, ◌≢◌, ◌⊎◌, ◌↔◌, ◌∷◌, [], Contains, IfOk, IsOk, map, string_bytes};
ghost use Rattle.std.specs.Io.KnownBytes.{Appends};
ghost use Rattle.lt_edge.specs.Bytes.{AppendsPart};
ghost use Rattle.lt_edge.specs.Causes.{Rose};
ghost use Rattle.lt_words.specs.Words.{IsCommand, IsNoCommand};
ghost use Rattle.lt_words.specs.declared.command.Command.{Command};
ghost use Rattle.lt_program.specs.Words.{ArePlayers, AreStorers, AreMakers};
ghost use Rattle.lt_program.specs.Statuses.{Works, RefusesAsAsked, Breaks, TellsAsAsked, IsComplete};

use crate::making::{made_text, sum_text};
use crate::player::Player;
use crate::playing::{play, play_cut};
use crate::status;
use crate::storing::store;
use lt_barrier::Barrier;
use lt_crew::Gate;
use lt_edge::{Sink, Source, put_all};
use lt_watch::Tells;
use lt_words::{Command, command_of};
use std::alloc::{AllocError, Global};
use std::sync::Wait;
use std::thread::Threads;

/// Does what the words ask for, and gives the status with which the program ends (see [`status`]).
///
/// `serial`, `crew`, `live` and `cut` read the source to its end, write the text of a run of the trace or a refusal to the sink, and tell
/// each watch the joins of that run, once and by place. `cut` plays as `crew` does, over a table whose joins stop at the marks of the
/// barrier, to which its key is added; every other form drops the barrier. `store` reads a script, plays it on a map of its own and
/// writes what comes of it. The words come first, then all is read, then it is read as a trace, then
/// the trace is played, and at last all is written: nothing is written before all was read and played. A crew and threads that wait call the
/// gate round each line that one of them plays. `live` may wait for ever, so that this call does not promise to return;
/// the others do not wait. `make` and `sum` write what they make, read nothing, and tell nobody.
pub fn run<R: Threads + Wait + Sync, S: Source, K: Sink, T: Tells, G: Gate>(
    rt: &R,
    alloc: Global,
    words: &[String],
    source: &mut S,
    sink: &mut K,
    watch: &mut T,
    gate: &G,
    barrier: Box<dyn Barrier>,
) -> u8
    ensures usage { (result ≡ 2) ↔ IsNoCommand (map string_bytes words.now) }
    ensures command { result ≢ 2 → (command : Command) × IsCommand (map string_bytes words.now) command }
    ensures done { result ≡ 0 → Works (map string_bytes words.now) (marks barrier)
        (S.left source.old) (S.left source.new) (K.taken sink.old) (K.taken sink.new) (T.logs watch.old) (T.logs watch.new) }
    ensures refused { result ≡ 3 → RefusesAsAsked (map string_bytes words.now)
        (S.left source.old) (S.left source.new) (K.taken sink.old) (K.taken sink.new) }
    ensures unread { result ≡ 4 → (ArePlayers (map string_bytes words.now) ⊎ AreStorers (map string_bytes words.now))
        × Rose (S.faults source.old) (S.faults source.new) }
    ensures unwritten { result ≡ 5 → Rose (K.faults sink.old) (K.faults sink.new) }
    ensures part { result ≡ 5 → Breaks (map string_bytes words.now) (marks barrier)
        (S.left source.old) (S.left source.new) (K.taken sink.old) (K.taken sink.new) (T.logs watch.old) (T.logs watch.new) }

    // Nothing else is a status, and no fault is passed over.
    ensures only { Contains (0 ∷ 2 ∷ 3 ∷ 4 ∷ 5 ∷ 6 ∷ []) result }
    ensures read { result ≢ 4 → S.faults source.new ≡ S.faults source.old }
    ensures written { result ≢ 5 → K.faults sink.new ≡ K.faults sink.old }

    // What stays as it was, and what the watches are told where the run was cut short.
    ensures unasked { (result ≡ 2) ⊎ AreMakers (map string_bytes words.now) → source.new ≡ source.old }
    ensures silent { (result ≡ 2) ⊎ (result ≡ 4) ⊎ (result ≡ 6) → sink.new ≡ sink.old }
    ensures unwatched { (result ≡ 2) ⊎ AreStorers (map string_bytes words.now) ⊎ AreMakers (map string_bytes words.now) →
        watch.new ≡ watch.old }
    ensures untold { (result ≡ 3) ⊎ (result ≡ 4) → T.logs watch.new ≡ T.logs watch.old }
    ensures told_or_not { (result ≡ 5) ⊎ (result ≡ 6) → TellsAsAsked (map string_bytes words.now) (marks barrier)
        (S.left source.old) (T.logs watch.old) (T.logs watch.new) }

    ensures complete { ¬ Rose (S.faults source.old) (S.faults source.new) → ¬ Rose (K.faults sink.old) (K.faults sink.new) →
        IsComplete (map string_bytes words.now) (S.left source.old) result }
{
    let Ok(found) = command_of(alloc, words) else {
        return status::NO_MEMORY;
    };
    let Some(command) = found else {
        return status::USAGE;
    };
    match command {
        Command::Serial => play(
            rt,
            alloc,
            Player::Serial,
            barrier,
            source,
            sink,
            watch,
            gate,
        ),
        Command::Crew(workers) => {
            let player = Player::Crew(workers);
            play(rt, alloc, player, barrier, source, sink, watch, gate)
        }
        Command::Live(threads) => {
            let player = Player::Live(threads);
            play(rt, alloc, player, barrier, source, sink, watch, gate)
        }
        Command::Cut { workers, mark } => {
            play_cut(
                rt, alloc, workers, &mark, barrier, source, sink, watch, gate,
            )
        }
        Command::Store => store(alloc, source, sink),
        Command::Make(recipe) => give(sink, made_text(alloc, &recipe)),
        Command::Sum(recipe) => give(sink, sum_text(alloc, &recipe)),
    }
}

/// Writes a text, where there was memory for it, and gives the status.
fn give<K: Sink>(sink: &mut K, text: Result<Vec<u8>, AllocError>) -> u8
    ensures only { Contains (0 ∷ 5 ∷ 6 ∷ []) result }
    ensures all { result ≡ 0 → IfOk text (λ text. Appends (K.taken sink.old) (K.taken sink.new) text.items) }
    ensures some { result ≡ 5 → IfOk text (λ text. AppendsPart (K.taken sink.old) (K.taken sink.new) text.items) }
    ensures there { result ≢ 6 → IsOk text }
    ensures failed { result ≡ 5 → Rose (K.faults sink.old) (K.faults sink.new) }
    ensures calm { result ≢ 5 → K.faults sink.new ≡ K.faults sink.old }
    ensures silent { result ≡ 6 → sink.new ≡ sink.old }
{
    let Ok(text) = text else {
        return status::NO_MEMORY;
    };
    match put_all(sink, &text) {
        Ok(()) => status::DONE,
        Err(_) => status::UNWRITTEN,
    }
}
