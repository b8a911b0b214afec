//! Writing traces.
ghost use Rattle.std.specs.Prelude.{◌≡◌, ℕ, List, ◌++◌, IfOk, OnOk, codes};
ghost use Rattle.lt_ranges.specs.KeyText.{spaced};
ghost use Rattle.lt_trace.specs.Grammar.{deed_text, line_text, front_text, whole, Spells};
ghost use Rattle.lt_trace.specs.Reading.{body_text};

use crate::header_form::{BUFFER, LIMIT, TREES, VERSION};
use crate::line::{Line, LineDeed};
use crate::trace::Trace;
use itoa::Buffer;
use lt_ranges::{push_range, push_spaced};
use std::alloc::{AllocError, Global};

fn push_word_and_number(out: &mut Vec<u8>, word: &[u8], n: u64) -> Result<(), AllocError>
    ensures { OnOk result (out.new.items ≡ out.old.items ++ (word.now ++ spaced n)) }
{
    out.extend_from_slice(word)?;
    push_spaced(out, n)
}

fn push_deed(out: &mut Vec<u8>, deed: &LineDeed) -> Result<(), AllocError>
    ensures { OnOk result (out.new.items ≡ out.old.items ++ deed_text deed.now) }
{
    match deed {
        LineDeed::Try { tree, range } => {
            push_word_and_number(out, b" try", u64::from(*tree))?;
            push_range(out, range)
        }
        LineDeed::Lock { tree, range } => {
            push_word_and_number(out, b" lock", u64::from(*tree))?;
            push_range(out, range)
        }
        LineDeed::End => out.extend_from_slice(b" end"),
        LineDeed::Abort => out.extend_from_slice(b" abort"),
        LineDeed::Escalate { tree } => push_word_and_number(out, b" escalate", u64::from(*tree)),
        LineDeed::Big => out.extend_from_slice(b" big"),
    }
}

fn push_line(out: &mut Vec<u8>, line: &Line) -> Result<(), AllocError>
    ensures { OnOk result (out.new.items ≡ out.old.items ++ (line_text line.now ++ codes "\n")) }
{
    let mut buffer = Buffer::new();
    out.extend_from_slice(buffer.format(line.txn).as_bytes())?;
    push_deed(out, &line.deed)?;
    out.extend_from_slice(b"\n")
}

fn push_lines(out: &mut Vec<u8>, lines: &[Line]) -> Result<(), AllocError>
    ensures { OnOk result (out.new.items ≡ out.old.items ++ body_text lines.now) }
{
    for line in lines {
        push_line(out, line)?;
    }
    Ok(())
}

fn push_header_line(out: &mut Vec<u8>, word: &[u8], n: u64) -> Result<(), AllocError>
    ensures { OnOk result (out.new.items ≡ out.old.items ++ (word.now ++ spaced n ++ codes "\n")) }
{
    push_word_and_number(out, word, n)?;
    out.extend_from_slice(b"\n")
}

/// Writes a trace, in the one way that it is spelled.
pub fn write(alloc: Global, trace: &Trace) -> Result<Vec<u8>, AllocError>
    ensures text { IfOk result (λ written. written.items ≡ front_text (whole trace.now)) }
    ensures spelled { IfOk result (λ written. Spells written.items trace.now) }
    ensures again { (bytes : List ℕ) → Spells bytes trace.now → IfOk result (λ written. written.items ≡ bytes) }
{
    let mut out = Vec::new(alloc);
    push_header_line(&mut out, VERSION.word, u64::from(trace.version()))?;
    push_header_line(&mut out, TREES.word, u64::from(trace.trees()))?;
    push_header_line(&mut out, LIMIT.word, trace.limit())?;
    push_header_line(&mut out, BUFFER.word, trace.buffer())?;
    push_lines(&mut out, trace.lines())?;
    Ok(out)
}
