//! Reading scripts.
ghost use Rattle.std.specs.Prelude.{◌≡◌, ◌<◌, ◌≤◌, ◌∷◌, [], length, ◌⊎◌, IfOk, IfErr, OnOk, MatchResult};
ghost use Rattle.lt_trace.specs.declared.fault.TraceFault.{TraceFault};
ghost use Rattle.lt_trace.specs.declared.fault.TraceFault.TheVariants as TraceFault;
ghost use Rattle.lt_trace.specs.Grammar.{AreInForm, OrNoMemory};
ghost use Rattle.lt_script.specs.Script.{ScriptView};
ghost use Rattle.lt_script.specs.Grammar.{header_forms, IsFront, IsBodyFault, IsFirstFault, Spells, Refuses};
ghost use Rattle.lt_script.specs.Reading.{front_of, body_text, IsOneMore, IsFirstBodyFault};

use crate::body::Body;
use crate::body_line::add_move;
use crate::header::read_header;
use crate::script::Script;
use crate::text_line::next_line;
use lt_store::Move;
use lt_trace::TraceFault;
use std::alloc::Global;

/// Reads one line more into the body, and answers what stands behind that line.
fn read_more<'a>(body: &mut Body, bytes: &'a [u8]) -> Result<&'a [u8], TraceFault>
    requires more { 0 < length bytes.now }
    requires room { length body.old ≤ 65536 }
    ensures line { IfOk result (λ rest. IsOneMore body.old body.new bytes.now rest.now) }
    ensures room { OnOk result (length body.new ≤ 65536) }
    ensures fault { IfErr result (OrNoMemory (IsBodyFault body.old bytes.now)) }
{
    let number = 3 + body.len() as u32;
    let (text, rest) = next_line(bytes, number)?;
    add_move(body, number, text)?;
    Ok(rest)
}

/// The moves behind a header with this limit.
fn read_body(alloc: Global, limit: u64, bytes: &[u8]) -> Result<Vec<Move>, TraceFault>
    requires { AreInForm header_forms (1 ∷ limit ∷ []) }
    ensures found { IfOk result (λ moves. IsFront (front_of limit moves.items) × (bytes.now ≡ body_text moves.items)) }
    ensures fault { IfErr result (OrNoMemory (IsFirstBodyFault limit bytes.now)) }
{
    let mut body = Body::new(alloc);
    let mut rest = bytes;
    while !rest.is_empty() {
        rest = read_more(&mut body, rest)?;
    }
    Ok(body.into_moves())
}

/// The script of a header and the moves behind it.
fn read_script(alloc: Global, bytes: &[u8]) -> Result<Script, TraceFault>
    ensures read { IfOk result (Spells bytes.now) }
    ensures refused { IfErr result (Refuses bytes.now) }
{
    let (limit, rest) = read_header(bytes)?;
    let moves = read_body(alloc, limit, rest)?;
    Ok(Script::new(limit, moves))
}

/// Reads a script. A refusal names the first faulty line and the first fault that it has.
///
/// The bytes are gone through once, and memory is taken for the moves and for each transaction.
pub fn read(alloc: Global, bytes: &[u8]) -> Result<Script, TraceFault>
    // What is read is spelled so, and what is refused is refused for its first fault.
    ensures read { IfOk result (Spells bytes.now) }
    ensures refused { IfErr result (Refuses bytes.now) }
    // What spells a script is read as that script, and what has a first fault is refused for it, unless memory runs out.
    ensures of_a_script { (script : ScriptView) → Spells bytes.now script →
        MatchResult result (λ read. read ≡ script) (λ fault. fault ≡ TraceFault.OutOfMemory) }
    ensures of_a_fault { (first : TraceFault) → IsFirstFault bytes.now first →
        MatchResult result (λ read. ⊥) (λ fault. (fault ≡ first) ⊎ (fault ≡ TraceFault.OutOfMemory)) }
{
    read_script(alloc, bytes)
}
