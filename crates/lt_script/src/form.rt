//! The forms of body lines.
ghost use Rattle.std.specs.Prelude.{None, MatchOption};
ghost use Rattle.lt_script.specs.Grammar.{Forms};
ghost use Rattle.lt_script.specs.Reading.{IsNoQuoted, IsQuotedOf, IsNoPut, IsPutOf, IsNoWord, IsNoOp, IsOpOf, IsFormOf};

use lt_trace::cut::{cut, strip};
use lt_trace::{Ends, KeyWord, MOST_NUMBER, cut_key, number, read_ends, read_key};

/// The version of a trace's text that has the keys of scripts: no prefix endpoints.
const KEYS: u32 = 1;

/// What a body line asks for, before it is known to be faultless.
#[derive(Clone, Copy)]
pub(crate) enum Said {
    Get { key: KeyWord },
    Put { key: KeyWord, value: u64 },
    Scan { ends: Ends },
    Commit,
    Abort,
}

/// The key that the text spells between quotation marks: None where it spells none.
fn read_quoted(text: &[u8]) -> Option<KeyWord>
    ensures { MatchOption result (IsNoQuoted text.now) (IsQuotedOf text.now) }
{
    strip(text, b"\"")?;
    read_key(KEYS, text)
}

/// The key of a put and its value: None where the text spells none.
fn read_put(text: &[u8]) -> Option<(KeyWord, u64)>
    ensures { MatchOption result (IsNoPut text.now) (λ read. IsPutOf text.now read.0 read.1) }
{
    let (quoted, digits) = cut_key(text)?;
    let key = read_quoted(quoted)?;
    let value = number(digits, 0, MOST_NUMBER)?;
    Some((key, value))
}

/// A form that is one word: None where the text is none of them.
fn read_word(text: &[u8]) -> Option<Said>
    ensures { MatchOption result (IsNoWord text.now) (IsOpOf text.now) }
{
    if text == b"commit".as_slice() {
        Some(Said::Commit)
    } else if text == b"abort".as_slice() {
        Some(Said::Abort)
    } else {
        None
    }
}

/// What stands behind a line's transaction and a space: None where it is none of the forms.
fn read_op(text: &[u8]) -> Option<Said>
    ensures { MatchOption result (IsNoOp text.now) (IsOpOf text.now) }
{
    if let Some(quoted) = strip(text, b"get ") {
        let key = read_quoted(quoted)?;
        return Some(Said::Get { key });
    }
    if let Some(put) = strip(text, b"put ") {
        let (key, value) = read_put(put)?;
        return Some(Said::Put { key, value });
    }
    if let Some(keys) = strip(text, b"scan ") {
        let ends = read_ends(KEYS, keys)?;
        return Some(Said::Scan { ends });
    }
    read_word(text)
}

/// The transaction of a body line and what it asks for: None where the line has none of the forms.
pub(crate) fn read_form(text: &[u8]) -> Option<(u64, Said)>
    ensures { MatchOption result (Forms text.now None) (λ read. IsFormOf text.now read.0 read.1) }
{
    let (digits, rest) = cut(text, b' ')?;
    let txn = number(digits, 1, MOST_NUMBER)?;
    let said = read_op(rest)?;
    Some((txn, said))
}
