//! The lines of a script's text.
ghost use Rattle.std.specs.Prelude.{◌≡◌, ◌++◌, ◌∷◌, IfOk, IfErr, Some, None, true};
ghost use Rattle.lt_trace.specs.Grammar.{first_line};
ghost use Rattle.lt_script.specs.Grammar.{fault_of_text};

use lt_trace::{MOST_LINE_BYTES, TraceFault, take_line};

/// The most lines that a script has, its header's two among them.
pub const MOST_LINES: u32 = 65_538;

/// As many first bytes decide what an input is: one more than the longest script may have.
pub const DECIDING_BYTES: usize = MOST_LINES as usize * (MOST_LINE_BYTES + 1) + 1;

/// The first line and the bytes behind it, unless its number, its length or its end is a fault.
pub(crate) fn next_line(bytes: &[u8], number: u32) -> Result<(&[u8], &[u8]), TraceFault>
    ensures line { IfOk result (λ parts. first_line bytes.now ≡ record { bytes = parts.0.now; ended = true }) }
    ensures rest { IfOk result (λ parts. bytes.now ≡ parts.0.now ++ 10 ∷ parts.1.now) }
    ensures good { IfOk result (λ parts. fault_of_text number (first_line bytes.now) ≡ None) }
    ensures fault { IfErr result (λ f. fault_of_text number (first_line bytes.now) ≡ Some f) }
{
    if number > MOST_LINES {
        return Err(TraceFault::TooManyLines { line: number });
    }
    take_line(bytes, number)
}
