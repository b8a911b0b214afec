//! Playing the trace that a source has.
ghost use Rattle.std.specs.Prelude.{◌≡◌, ◌≢◌, ◌≤◌, ◌⊎◌, ◌∷◌, ◌++◌, [], Contains};
ghost use Rattle.std.specs.Io.KnownBytes.{Appends};
ghost use Rattle.lt_edge.specs.Bytes.{AppendsPart};
ghost use Rattle.lt_edge.specs.Causes.{Rose};
ghost use Rattle.lt_program.specs.Answers.{status_of, bytes_of};
ghost use Rattle.lt_program.specs.Playings.{MayPlay, playing_of, cut};
ghost use Rattle.lt_program.specs.Languages.{traces};
ghost use Rattle.lt_program.specs.Statuses.{Plays, Refuses, BreaksOff, TellsOrNot, PlaysOrRefuses};

use crate::answer::{Answer, answer_to};
use crate::player::Player;
use crate::status;
use lt_barrier::Barrier;
use lt_crew::Gate;
use lt_edge::{ReadFault, Sink, Source, put_all, read_all};
use lt_ranges::Key;
use lt_trace::DECIDING_BYTES;
use lt_watch::Tells;
use std::alloc::Global;
use std::sync::Wait;
use std::thread::Threads;

/// Reads the source to its end, has this player play what it has as a trace, tells the watches the joins, and writes the text
/// or a refusal to the sink.
pub(crate) fn play<R: Threads + Wait + Sync, S: Source, K: Sink, T: Tells, G: Gate>(
    rt: &R,
    alloc: Global,
    player: Player,
    barrier: Box<dyn Barrier>,
    source: &mut S,
    sink: &mut K,
    watch: &mut T,
    gate: &G,
) -> u8
    requires { MayPlay player }
    ensures done { result ≡ 0 → Plays (playing_of player (marks barrier)) (S.left source.old) (S.left source.new) (K.taken sink.old) (K.taken sink.new)
        (T.logs watch.old) (T.logs watch.new) }
    ensures refused { result ≡ 3 → Refuses traces (S.left source.old) (S.left source.new) (K.taken sink.old) (K.taken sink.new) }
    ensures unread { result ≡ 4 → Rose (S.faults source.old) (S.faults source.new) }
    ensures unwritten { result ≡ 5 → Rose (K.faults sink.old) (K.faults sink.new) }
    ensures part { result ≡ 5 → BreaksOff (playing_of player (marks barrier)) (S.left source.old) (S.left source.new) (K.taken sink.old) (K.taken sink.new)
        (T.logs watch.old) (T.logs watch.new) }
    ensures only { Contains (0 ∷ 3 ∷ 4 ∷ 5 ∷ 6 ∷ []) result }
    ensures read { result ≢ 4 → S.faults source.new ≡ S.faults source.old }
    ensures written { result ≢ 5 → K.faults sink.new ≡ K.faults sink.old }
    ensures silent { (result ≡ 4) ⊎ (result ≡ 6) → sink.new ≡ sink.old }
    ensures untold { (result ≡ 3) ⊎ (result ≡ 4) → T.logs watch.new ≡ T.logs watch.old }
    ensures told_or_not { (result ≡ 5) ⊎ (result ≡ 6) → TellsOrNot (playing_of player (marks barrier)) (S.left source.old) (T.logs watch.old) (T.logs watch.new) }
    ensures complete { ¬ Rose (S.faults source.old) (S.faults source.new) → ¬ Rose (K.faults sink.old) (K.faults sink.new) →
        PlaysOrRefuses traces (S.left source.old) result }
{
    let bytes = match read_all(alloc, source, DECIDING_BYTES) {
        Ok(bytes) => bytes,
        Err(ReadFault::Failed) => return status::UNREAD,
        Err(ReadFault::OutOfMemory) => return status::NO_MEMORY,
    };
    match answer_to(rt, alloc, player, barrier, &bytes, watch, gate) {
        Ok(answer) => deliver(sink, &answer),
        Err(_) => status::NO_MEMORY,
    }
}

/// Adds the mark to the barrier, and plays so by a crew of so many workers, over a table whose joins stop at the barrier's marks.
pub(crate) fn play_cut<R: Threads + Wait + Sync, S: Source, K: Sink, T: Tells, G: Gate>(
    rt: &R,
    alloc: Global,
    workers: u32,
    mark: &Key,
    barrier: Box<dyn Barrier>,
    source: &mut S,
    sink: &mut K,
    watch: &mut T,
    gate: &G,
) -> u8
    requires { (1 ≤ workers) × (workers ≤ 16) }
    ensures done { result ≡ 0 → Plays (cut workers (marks barrier ++ mark.now ∷ [])) (S.left source.old) (S.left source.new) (K.taken sink.old) (K.taken sink.new)
        (T.logs watch.old) (T.logs watch.new) }
    ensures refused { result ≡ 3 → Refuses traces (S.left source.old) (S.left source.new) (K.taken sink.old) (K.taken sink.new) }
    ensures unread { result ≡ 4 → Rose (S.faults source.old) (S.faults source.new) }
    ensures unwritten { result ≡ 5 → Rose (K.faults sink.old) (K.faults sink.new) }
    ensures part { result ≡ 5 → BreaksOff (cut workers (marks barrier ++ mark.now ∷ [])) (S.left source.old) (S.left source.new) (K.taken sink.old) (K.taken sink.new)
        (T.logs watch.old) (T.logs watch.new) }
    ensures only { Contains (0 ∷ 3 ∷ 4 ∷ 5 ∷ 6 ∷ []) result }
    ensures read { result ≢ 4 → S.faults source.new ≡ S.faults source.old }
    ensures written { result ≢ 5 → K.faults sink.new ≡ K.faults sink.old }
    ensures silent { (result ≡ 4) ⊎ (result ≡ 6) → sink.new ≡ sink.old }
    ensures untold { (result ≡ 3) ⊎ (result ≡ 4) → T.logs watch.new ≡ T.logs watch.old }
    ensures told_or_not { (result ≡ 5) ⊎ (result ≡ 6) → TellsOrNot (cut workers (marks barrier ++ mark.now ∷ [])) (S.left source.old) (T.logs watch.old) (T.logs watch.new) }
    ensures complete { ¬ Rose (S.faults source.old) (S.faults source.new) → ¬ Rose (K.faults sink.old) (K.faults sink.new) →
        PlaysOrRefuses traces (S.left source.old) result }
{
    let mut barrier = barrier;
    let Ok(()) = barrier.add(mark) else {
        return status::NO_MEMORY;
    };
    let player = Player::Cut(workers);
    play(rt, alloc, player, barrier, source, sink, watch, gate)
}

/// Writes the answer, and gives its status, or that of a sink that failed.
pub(crate) fn deliver<K: Sink>(sink: &mut K, answer: &Answer) -> u8
    ensures status { (result ≡ status_of answer.now) ⊎ (result ≡ 5) }
    ensures all { result ≢ 5 → Appends (K.taken sink.old) (K.taken sink.new) (bytes_of answer.now) }
    ensures part { result ≡ 5 → AppendsPart (K.taken sink.old) (K.taken sink.new) (bytes_of answer.now) }
    ensures failed { result ≡ 5 → Rose (K.faults sink.old) (K.faults sink.new) }
    ensures calm { result ≢ 5 → K.faults sink.new ≡ K.faults sink.old }
{
    let (status, bytes) = match answer {
        Answer::Text(text) => (status::DONE, text),
        Answer::Refusal(line) => (status::REFUSED, line),
    };
    match put_all(sink, bytes) {
        Ok(()) => status,
        Err(_) => status::UNWRITTEN,
    }
}
