//! The keys of a line.
ghost use Rattle.std.specs.Prelude.{◌≡◌, ◌≢◌, ℕ, ◌≤◌, List, ◌∷◌, ◌++◌, length, Some, IfSome, IsSomeAnd, [], MatchBool, MatchOption};
ghost use Rattle.lt_ranges.specs.declared.key.Key.{Key};
ghost use Rattle.lt_ranges.specs.Interval.{Interval};
ghost use Rattle.lt_ranges.specs.KeyText.{IsOfBytes, key_text};
ghost use Rattle.lt_trace.specs.Reading.{IsKeyWord, AreEnds, IsNoKey, IsKeyOf, AreNoKeys, AreKeysOf};

use crate::cut::{cut, strip};
use lt_ranges::{Key, TextFault};

/// The first version of the text that has prefix endpoints.
const ENDPOINT_VERSION: u32 = 2;

/// A key, or that the text spells one of more than 63 bytes.
#[derive(Clone, Copy)]
pub enum KeyWord {
    Fits(Key),
    Long,
}

/// The two keys of a range in the order of the text, or that one of them has more than 63 bytes.
#[derive(Clone, Copy)]
pub enum Ends {
    Fit { left: Key, right: Key },
    Long,
}

/// Whether the last byte is a star, as in the text of a prefix endpoint alone.
fn has_star(text: &[u8]) -> bool
    ensures { MatchBool result ((front : List ℕ) × (text.now ≡ front ++ 42 ∷ [])) ((front : List ℕ) → text.now ≢ front ++ 42 ∷ []) }
{
    text.ends_with(b"*")
}

/// The key that the text spells, in this version of the text: None where it spells none.
pub fn read_key(version: u32, text: &[u8]) -> Option<KeyWord>
    ensures { MatchOption result (IsNoKey version text.now) (IsKeyOf version text.now) }
{
    if version < ENDPOINT_VERSION && has_star(text) {
        return None;
    }
    match Key::read(text) {
        Ok(key) => Some(KeyWord::Fits(key)),
        Err(TextFault::TooLong) => Some(KeyWord::Long),
        Err(TextFault::NotText) => None,
    }
}

/// How many bytes the key's text has that comes first, before a space.
fn key_len(text: &[u8]) -> Option<usize>
    ensures within { IfSome result (λ len. len ≤ length text.now) }
    ensures exact { (key : Key) (rest : List ℕ) → IsOfBytes key → text.now ≡ key_text key ++ 32 ∷ rest →
        result ≡ Some (length (key_text key)) }
{
    if text.is_empty() {
        return None;
    }
    let Some(quoted) = strip(text, b"\"") else {
        return Some(1);
    };
    let (inside, behind) = cut(quoted, b'"')?;
    let closed = inside.len() + 2;
    match strip(behind, b"*") {
        Some(_) => Some(closed + 1),
        None => Some(closed),
    }
}

/// The key's text that comes first, and what stands behind the space after it.
pub fn cut_key(text: &[u8]) -> Option<(&[u8], &[u8])>
    ensures found { IfSome result (λ parts. text.now ≡ parts.0.now ++ 32 ∷ parts.1.now) }
    ensures only { (key : Key) (rest : List ℕ) → IsOfBytes key → text.now ≡ key_text key ++ 32 ∷ rest →
        IsSomeAnd result (λ parts. (parts.0.now ≡ key_text key) × (parts.1.now ≡ rest)) }
{
    let len = key_len(text)?;
    let behind = strip(&text[len..], b" ")?;
    Some((&text[..len], behind))
}

/// The two keys, if both fit.
fn ends_of(left: KeyWord, right: KeyWord) -> Ends
    ensures { (range : Interval) → IsKeyWord left range.left → IsKeyWord right range.right → AreEnds result range }
{
    match (left, right) {
        (KeyWord::Fits(left), KeyWord::Fits(right)) => Ends::Fit { left, right },
        _ => Ends::Long,
    }
}

/// The two keys of a range: None where the text spells none.
pub fn read_ends(version: u32, text: &[u8]) -> Option<Ends>
    ensures { MatchOption result (AreNoKeys version text.now) (AreKeysOf version text.now) }
{
    let (left, right) = cut_key(text)?;
    let left = read_key(version, left)?;
    let right = read_key(version, right)?;
    Some(ends_of(left, right))
}
