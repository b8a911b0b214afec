//! Reading traces.
ghost use Rattle.std.specs.Prelude.{◌≡◌, ◌<◌, ◌≤◌, length, ◌⊎◌, IfOk, IfErr, OnOk, MatchResult};
ghost use Rattle.lt_trace.specs.declared.fault.TraceFault.{TraceFault};
ghost use Rattle.lt_trace.specs.declared.fault.TraceFault.TheVariants as TraceFault;
ghost use Rattle.lt_trace.specs.Trace.{TraceView};
ghost use Rattle.lt_trace.specs.Grammar.{header_forms, AreInForm, IsFront, IsBodyFault, IsFirstFault, Spells, OrNoMemory, Refuses};
ghost use Rattle.lt_trace.specs.Reading.{numbers, front_of, body_text, IsOneMore, IsFirstBodyFault};

use crate::body::Body;
use crate::body_line::add_line;
use crate::fault::TraceFault;
use crate::header::{Header, read_header};
use crate::line::Line;
use crate::text_line::take_line;
use crate::trace::Trace;
use std::alloc::Global;

/// Reads one line more into the body, and answers what stands behind that line.
fn read_more<'a>(header: &Header, body: &mut Body, bytes: &'a [u8]) -> Result<&'a [u8], TraceFault>
    requires more { 0 < length bytes.now }
    requires room { length body.old ≤ 65536 }
    ensures line { IfOk result (λ rest. IsOneMore header.now body.old body.new bytes.now rest.now) }
    ensures room { OnOk result (length body.new ≤ 65536) }
    ensures fault { IfErr result (OrNoMemory (IsBodyFault (numbers header.now) body.old bytes.now)) }
{
    let number = 5 + body.len() as u32;
    let (text, rest) = take_line(bytes, number)?;
    add_line(header, body, number, text)?;
    Ok(rest)
}

/// The lines behind a header.
fn read_body(alloc: Global, header: &Header, bytes: &[u8]) -> Result<Vec<Line>, TraceFault>
    requires { AreInForm header_forms (numbers header.now) }
    ensures found { IfOk result (λ lines. IsFront (front_of header.now lines.items) × (bytes.now ≡ body_text lines.items)) }
    ensures fault { IfErr result (OrNoMemory (IsFirstBodyFault header.now bytes.now)) }
{
    let mut body = Body::new(alloc);
    let mut rest = bytes;
    while !rest.is_empty() {
        rest = read_more(header, &mut body, rest)?;
    }
    Ok(body.into_lines())
}

/// The trace of a header and the lines behind it.
fn read_trace(alloc: Global, bytes: &[u8]) -> Result<Trace, TraceFault>
    ensures read { IfOk result (Spells bytes.now) }
    ensures refused { IfErr result (Refuses bytes.now) }
{
    let (header, rest) = read_header(bytes)?;
    let lines = read_body(alloc, &header, rest)?;
    Ok(Trace::new(header, lines))
}

/// Reads a trace. A refusal names the first faulty line and the first fault that it has.
///
/// The bytes are gone through once, and memory is taken for the lines and for each transaction.
pub fn read(alloc: Global, bytes: &[u8]) -> Result<Trace, TraceFault>
    // What is read is spelled so, and what is refused is refused for its first fault.
    ensures read { IfOk result (Spells bytes.now) }
    ensures refused { IfErr result (Refuses bytes.now) }
    // What spells a trace is read as that trace, and what has a first fault is refused for it, unless memory runs out.
    ensures of_a_trace { (trace : TraceView) → Spells bytes.now trace →
        MatchResult result (λ read. read ≡ trace) (λ fault. fault ≡ TraceFault.OutOfMemory) }
    ensures of_a_fault { (first : TraceFault) → IsFirstFault bytes.now first →
        MatchResult result (λ read. ⊥) (λ fault. (fault ≡ first) ⊎ (fault ≡ TraceFault.OutOfMemory)) }
{
    read_trace(alloc, bytes)
}
