//! Playing the script that a source has.
ghost use Rattle.std.specs.Prelude.{◌≡◌, ◌≢◌, ◌⊎◌, ◌∷◌, [], Contains, IfOk};
ghost use Rattle.lt_edge.specs.Causes.{Rose};
ghost use Rattle.lt_program.specs.Answers.{IsAnswerToScript};
ghost use Rattle.lt_program.specs.Languages.{scripts};
ghost use Rattle.lt_program.specs.Statuses.{Stores, Refuses, BreaksOffScript, PlaysOrRefuses};

use crate::answer::{Answer, refused};
use crate::playing::deliver;
use crate::status;
use lt_edge::{ReadFault, Sink, Source, read_all};
use lt_manager::Manager;
use lt_script::{DECIDING_BYTES, read, run_script};
use std::alloc::{AllocError, Global};

/// The answer to the bytes that were read. Where they are a script, it is played on a map of its own.
fn answer_to_script(alloc: Global, bytes: &[u8]) -> Result<Answer, AllocError>
    ensures { IfOk result (IsAnswerToScript bytes.now) }
{
    match read(alloc, bytes) {
        Ok(script) => Ok(Answer::Text(run_script::<Manager>(alloc, &script)?)),
        Err(fault) => refused(alloc, &fault),
    }
}

/// Reads the source to its end, plays what it has as a script, and writes the text or a refusal to the sink.
pub(crate) fn store<S: Source, K: Sink>(alloc: Global, source: &mut S, sink: &mut K) -> u8
    ensures done { result ≡ 0 → Stores (S.left source.old) (S.left source.new) (K.taken sink.old) (K.taken sink.new) }
    ensures refused { result ≡ 3 → Refuses scripts (S.left source.old) (S.left source.new) (K.taken sink.old) (K.taken sink.new) }
    ensures unread { result ≡ 4 → Rose (S.faults source.old) (S.faults source.new) }
    ensures unwritten { result ≡ 5 → Rose (K.faults sink.old) (K.faults sink.new) }
    ensures part { result ≡ 5 → BreaksOffScript (S.left source.old) (S.left source.new) (K.taken sink.old) (K.taken sink.new) }
    ensures only { Contains (0 ∷ 3 ∷ 4 ∷ 5 ∷ 6 ∷ []) result }
    ensures read { result ≢ 4 → S.faults source.new ≡ S.faults source.old }
    ensures written { result ≢ 5 → K.faults sink.new ≡ K.faults sink.old }
    ensures silent { (result ≡ 4) ⊎ (result ≡ 6) → sink.new ≡ sink.old }
    ensures complete { ¬ Rose (S.faults source.old) (S.faults source.new) → ¬ Rose (K.faults sink.old) (K.faults sink.new) →
        PlaysOrRefuses scripts (S.left source.old) result }
{
    let bytes = match read_all(alloc, source, DECIDING_BYTES) {
        Ok(bytes) => bytes,
        Err(ReadFault::Failed) => return status::UNREAD,
        Err(ReadFault::OutOfMemory) => return status::NO_MEMORY,
    };
    match answer_to_script(alloc, &bytes) {
        Ok(answer) => deliver(sink, &answer),
        Err(_) => status::NO_MEMORY,
    }
}
