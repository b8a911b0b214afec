//! The lines of a text.
ghost use Rattle.std.specs.Prelude.{◌≡◌, ◌++◌, ◌∷◌, IfSome, IfOk, IfErr, Some, None, is_some, true};
ghost use Rattle.lt_trace.specs.Grammar.{first_line, fault_of_text, TextLine};

use crate::cut::cut;
use crate::fault::TraceFault;

/// The most lines that a trace has, its header's four among them.
pub const MOST_LINES: u32 = 65_540;

/// The most bytes of a line, without its newline.
pub const MOST_LINE_BYTES: usize = 600;

/// As many first bytes decide what an input is: one more than the longest trace may have.
pub const DECIDING_BYTES: usize = MOST_LINES as usize * (MOST_LINE_BYTES + 1) + 1;

/// The first line, and the bytes behind its newline, if it has one.
fn next_line(bytes: &[u8]) -> (&[u8], Option<&[u8]>)
    ensures line { first_line bytes.now ≡ record { bytes = result.0.now; ended = is_some result.1 } }
    ensures rest { IfSome result.1 (λ rest. bytes.now ≡ result.0.now ++ 10 ∷ rest.now) }
{
    match cut(bytes, b'\n') {
        Some((line, rest)) => (line, Some(rest)),
        None => (bytes, None),
    }
}

/// The first line and the bytes behind it, unless its number, its length or its end is a fault.
pub fn take_line(bytes: &[u8], number: u32) -> Result<(&[u8], &[u8]), TraceFault>
    ensures line { IfOk result (λ parts. first_line bytes.now ≡ record { bytes = parts.0.now; ended = true }) }
    ensures rest { IfOk result (λ parts. bytes.now ≡ parts.0.now ++ 10 ∷ parts.1.now) }
    ensures good { IfOk result (λ parts. fault_of_text number (first_line bytes.now) ≡ None) }
    ensures fault { IfErr result (λ f. fault_of_text number (first_line bytes.now) ≡ Some f) }
{
    if number > MOST_LINES {
        return Err(TraceFault::TooManyLines { line: number });
    }
    let (line, rest) = next_line(bytes);
    if line.len() > MOST_LINE_BYTES {
        return Err(TraceFault::LineTooLong { line: number });
    }
    let Some(rest) = rest else {
        return Err(TraceFault::NoFinalNewline { line: number });
    };
    Ok((line, rest))
}
