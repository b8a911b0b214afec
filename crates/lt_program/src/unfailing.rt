//! Runs between ends that never fail.
ghost use Rattle.std.specs.Prelude.{◌≡◌, ◌⊎◌, ◌↔◌, Some, None, map, string_bytes};
ghost use Rattle.lt_trace.specs.Trace.{TraceView};
ghost use Rattle.lt_trace.specs.Grammar.{Spells};
ghost use Rattle.lt_program.specs.Statuses.{Works};
ghost use Rattle.lt_words.specs.Words.{IsNoCommand};
ghost use Rattle.lt_program.specs.Words.{ArePlayers, AreStorers, AreMakers};
ghost use Rattle.lt_script.specs.Script.{ScriptView};
ghost use Rattle.lt_script.specs.Grammar.{Spells as SpellsScript};

use crate::running::run;
use lt_barrier::Barrier;
use lt_crew::Gate;
use lt_edge::{NoFailSink, NoFailSource};
use lt_watch::Tells;
use std::alloc::Global;
use std::sync::Wait;
use std::thread::Threads;

/// Does what the words ask for, as [`run`] does, from a source and to a sink that never fail. Where the words are a command,
/// and what the source has is a trace or a script where one is wanted, the status is 0, or 6 for want of memory.
pub fn run_unfailing<R: Threads + Wait + Sync, T: Tells, G: Gate>(
    rt: &R,
    alloc: Global,
    words: &[String],
    source: &mut NoFailSource,
    sink: &mut NoFailSink,
    watch: &mut T,
    gate: &G,
    barrier: Box<dyn Barrier>,
) -> u8
    ensures usage { (result ≡ 2) ↔ IsNoCommand (map string_bytes words.now) }
    ensures done { result ≡ 0 → Works (map string_bytes words.now) (marks barrier) (Some source.old) (Some source.new) None None
        (T.logs watch.old) (T.logs watch.new) }
    ensures plays { (trace : TraceView) → ArePlayers (map string_bytes words.now) → Spells source.old trace
        → (result ≡ 0) ⊎ (result ≡ 6) }
    ensures stores { (script : ScriptView) → AreStorers (map string_bytes words.now) → SpellsScript source.old script
        → (result ≡ 0) ⊎ (result ≡ 6) }
    ensures makes { AreMakers (map string_bytes words.now) → (result ≡ 0) ⊎ (result ≡ 6) }
{
    run(rt, alloc, words, source, sink, watch, gate, barrier)
}
