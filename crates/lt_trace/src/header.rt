//! The header of a trace.
ghost use Rattle.std.specs.Prelude.{◌≡◌, ℕ, ◌+◌, ◌≤◌, ◌++◌, ◌∷◌, IfOk, IfErr, IfSome, IsNone, length, Some, codes};
ghost use Rattle.lt_trace.specs.Grammar.{header_line, IsNoHeader, IsHeaderFault, header_forms, header_text, AreInForm, IsFirstFault};
ghost use Rattle.lt_trace.specs.Reading.{form_of, numbers};

use crate::cut::strip;
use crate::fault::TraceFault;
use crate::header_form::{BUFFER, HeaderForm, LIMIT, TREES, VERSION};
use crate::numbers::number;
use crate::text_line::take_line;

/// The number of a header line: None exactly where the text is no such line.
fn header_number(text: &[u8], form: HeaderForm) -> Option<u64>
    ensures found { IfSome result (λ n. (form.least ≤ n) × (n ≤ form.most) × (text.now ≡ header_line (form_of form) n)) }
    ensures none { IsNone result → IsNoHeader (form_of form) text.now }
{
    let rest = strip(text, form.word)?;
    let digits = strip(rest, b" ")?;
    number(digits, form.least, form.most)
}

/// The number of the header line that comes first, and the bytes behind that line.
pub fn header_line<'a>(
    bytes: &'a [u8],
    line: u32,
    form: HeaderForm,
) -> Result<(u64, &'a [u8]), TraceFault>
    ensures found { IfOk result (λ r. (form.least ≤ r.0) × (r.0 ≤ form.most)
        × (bytes.now ≡ header_line (form_of form) r.0 ++ codes "\n" ++ r.1.now)) }
    ensures fault { IfErr result (λ f. IsHeaderFault (form_of form) line bytes.now f) }
{
    if bytes.is_empty() {
        return Err(TraceFault::BadHeader { line });
    }
    let (text, rest) = take_line(bytes, line)?;
    let Some(n) = header_number(text, form) else {
        return Err(TraceFault::BadHeader { line });
    };
    Ok((n, rest))
}

/// The numbers of a header.
#[derive(Clone, Copy, Debug, PartialEq, Eq, Hash)]
pub(crate) struct Header {
    pub version: u32,
    pub trees: u32,
    pub limit: u64,
    pub buffer: u64,
}

/// The header at the front, and the bytes behind it.
pub(crate) fn read_header(bytes: &[u8]) -> Result<(Header, &[u8]), TraceFault>
    ensures found { IfOk result (λ r. AreInForm header_forms (numbers r.0)
        × (bytes.now ≡ header_text header_forms (numbers r.0) ++ r.1.now)) }
    ensures fault { IfErr result (λ f. IsFirstFault bytes.now f) }
{
    let (version, rest) = header_line(bytes, 1, VERSION)?;
    let (trees, rest) = header_line(rest, 2, TREES)?;
    let (limit, rest) = header_line(rest, 3, LIMIT)?;
    let (buffer, rest) = header_line(rest, 4, BUFFER)?;
    let header = Header {
        version: version as u32,
        trees: trees as u32,
        limit,
        buffer,
    };
    Ok((header, rest))
}
