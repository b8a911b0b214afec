//! The forms of body lines.
ghost use Rattle.std.specs.Prelude.{None, MatchOption};
ghost use Rattle.lt_trace.specs.Grammar.{Forms};
ghost use Rattle.lt_trace.specs.Reading.{IsNoRange, IsRangeOf, IsNoWord, IsNoDeed, IsDeedOf, IsFormOf};

use crate::cut::{cut, strip};
use crate::key_words::{Ends, read_ends};
use crate::numbers::number;

/// The greatest number of a transaction, and the greatest number that stands for a tree.
pub const MOST_NUMBER: u64 = 999_999_999;

/// The first version of the text that has big transactions.
const BIG_VERSION: u32 = 2;

/// What a body line asks for, before it is known to be faultless.
#[derive(Clone, Copy)]
pub(crate) enum Said {
    Try { tree: u32, ends: Ends },
    Lock { tree: u32, ends: Ends },
    End,
    Abort,
    Escalate { tree: u32 },
    Big,
}

/// The tree and the keys of a range: None where the text spells none.
fn read_range(version: u32, text: &[u8]) -> Option<(u32, Ends)>
    ensures { MatchOption result (IsNoRange version text.now) (λ read. IsRangeOf version text.now read.0 read.1) }
{
    let (digits, keys) = cut(text, b' ')?;
    let tree = number(digits, 0, MOST_NUMBER)?;
    let ends = read_ends(version, keys)?;
    Some((tree as u32, ends))
}

/// A form that is one word: None where the text is none of them.
fn read_word(version: u32, text: &[u8]) -> Option<Said>
    ensures { MatchOption result (IsNoWord version text.now) (IsDeedOf version text.now) }
{
    if text == b"end".as_slice() {
        Some(Said::End)
    } else if text == b"abort".as_slice() {
        Some(Said::Abort)
    } else if version >= BIG_VERSION && text == b"big".as_slice() {
        Some(Said::Big)
    } else {
        None
    }
}

/// What stands behind a line's transaction and a space: None where it is none of the forms.
fn read_deed(version: u32, text: &[u8]) -> Option<Said>
    ensures { MatchOption result (IsNoDeed version text.now) (IsDeedOf version text.now) }
{
    if let Some(range) = strip(text, b"try ") {
        let (tree, ends) = read_range(version, range)?;
        return Some(Said::Try { tree, ends });
    }
    if let Some(range) = strip(text, b"lock ") {
        let (tree, ends) = read_range(version, range)?;
        return Some(Said::Lock { tree, ends });
    }
    if let Some(digits) = strip(text, b"escalate ") {
        let tree = number(digits, 0, MOST_NUMBER)?;
        return Some(Said::Escalate { tree: tree as u32 });
    }
    read_word(version, text)
}

/// The transaction of a body line and what it asks for: None where the line has none of the forms.
pub(crate) fn read_form(version: u32, text: &[u8]) -> Option<(u64, Said)>
    ensures { MatchOption result (Forms version text.now None) (λ read. IsFormOf version text.now read.0 read.1) }
{
    let (digits, rest) = cut(text, b' ')?;
    let txn = number(digits, 1, MOST_NUMBER)?;
    let said = read_deed(version, rest)?;
    Some((txn, said))
}
