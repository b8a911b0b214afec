//! The header of a script.
ghost use Rattle.std.specs.Prelude.{◌≡◌, ◌++◌, ◌∷◌, [], IfOk, IfErr};
ghost use Rattle.lt_trace.specs.Grammar.{header_text, AreInForm};
ghost use Rattle.lt_script.specs.Grammar.{header_forms, IsFirstFault};

use lt_trace::{HeaderForm, LIMIT, TraceFault, header_line};

/// The version of the text.
const VERSION: HeaderForm = HeaderForm {
    word: b"rangestore",
    least: 1,
    most: 1,
};

/// The limit that the header names, and the bytes behind the header.
pub(crate) fn read_header(bytes: &[u8]) -> Result<(u64, &[u8]), TraceFault>
    ensures found { IfOk result (λ r. AreInForm header_forms (1 ∷ r.0 ∷ [])
        × (bytes.now ≡ header_text header_forms (1 ∷ r.0 ∷ []) ++ r.1.now)) }
    ensures fault { IfErr result (λ f. IsFirstFault bytes.now f) }
{
    let (_, rest) = header_line(bytes, 1, VERSION)?;
    header_line(rest, 2, LIMIT)
}
