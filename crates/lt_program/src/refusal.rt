//! The line that refuses bytes which are no trace.
ghost use Rattle.std.specs.Prelude.{◌≡◌, ◌≢◌, IfOk};
ghost use Rattle.lt_program.specs.Refusal.{refusal_text, fault_text};

use lt_trace::TraceFault;
use std::alloc::{AllocError, Global};

/// The line of a fault: the number of the faulty line, and the fault's code and name.
pub(crate) fn refusal_line(alloc: Global, fault: &TraceFault) -> Result<Vec<u8>, AllocError>
    requires { fault.now ≢ TraceFault.OutOfMemory }
    ensures { IfOk result (λ out. out.items ≡ fault_text fault.now) }
{
    let (line, code, name) = parts(fault);
    let text = format!(in alloc; "refused {line} {code} {name}\n")?;
    Ok(text.into_bytes())
}

/// The number of the faulty line, and the fault's code and name.
fn parts(fault: &TraceFault) -> (u32, u32, &'static str)
    requires { fault.now ≢ TraceFault.OutOfMemory }
    ensures { fault_text fault.now ≡ refusal_text result.0 result.1 result.2.now }
{
    match fault {
        TraceFault::BadHeader { line } => (*line, 1, "bad header"),
        TraceFault::BadLine { line } => (*line, 2, "bad line"),
        TraceFault::LineTooLong { line } => (*line, 3, "line too long"),
        TraceFault::TooManyLines { line } => (*line, 4, "too many lines"),
        TraceFault::TreeOutOfRange { line } => (*line, 5, "tree out of range"),
        TraceFault::KeyTooLong { line } => (*line, 6, "key too long"),
        TraceFault::Backwards { line } => (*line, 7, "backwards"),
        TraceFault::AfterEnd { line } => (*line, 8, "after end"),
        TraceFault::TooManyTxns { line } => (*line, 9, "too many txns"),
        TraceFault::NoFinalNewline { line } => (*line, 10, "no final newline"),
        TraceFault::OutOfMemory => unreachable!(),
    }
}
