//! The text of one byte, written and read.
ghost use Rattle.std.specs.Prelude.{◌≡◌, ◌≢◌, ℕ, ◌+◌, ◌-◌, ◌*◌, ◌<◌, ◌≤◌, List, [], ◌∷◌, ◌++◌, false, IfSome, IfNone};
ghost use Rattle.std.specs.Fmt.{digit_glyph};
ghost use Rattle.lt_ranges.specs.KeyText.{is_plain, hexadecimal, byte_text};

/// Whether a byte stands for itself in a key's text.
pub(crate) fn stands_for_itself(byte: u8) -> bool
    ensures { result ≡ is_plain byte }
{
    matches!(byte, b' '..=b'~') && byte != b'"' && byte != b'\\'
}

/// The hexadecimal digit of a number below sixteen.
pub(crate) fn digit(number: u8) -> u8
    requires { number < 16 }
    ensures { result ≡ digit_glyph false number }
{
    if number < 10 {
        b'0' + number
    } else {
        b'a' + (number - 10)
    }
}

/// The number of a hexadecimal digit in lower case.
fn digit_number(digit: u8) -> Option<u8>
    ensures value { IfSome result (λ number. (number < 16) × (digit ≡ digit_glyph false number)) }
    ensures none { IfNone result ((number : ℕ) → number < 16 → digit ≢ digit_glyph false number) }
{
    match digit {
        b'0'..=b'9' => Some(digit - b'0'),
        b'a'..=b'f' => Some(digit - b'a' + 10),
        _ => None,
    }
}

/// The byte that two hexadecimal digits name.
fn named_byte(high: u8, low: u8) -> Option<u8>
    ensures value { IfSome result (λ byte. (byte < 256) × ((high ∷ low ∷ []) ≡ hexadecimal byte)) }
    ensures none { IfNone result ((byte : ℕ) → byte < 256 → (high ∷ low ∷ []) ≢ hexadecimal byte) }
{
    Some(digit_number(high)? * 16 + digit_number(low)?)
}

/// The first byte that a text spells, and the text behind its spelling.
pub(crate) fn first_byte(text: &[u8]) -> Option<(u8, &[u8])>
    ensures value { IfSome result (λ read. (read.0 < 256) × (text.now ≡ byte_text read.0 ++ read.1.now)) }
    ensures none { IfNone result ((byte : ℕ) (behind : List ℕ) → byte < 256 → text.now ≢ byte_text byte ++ behind) }
{
    match text {
        [b'\\', b'x', high, low, behind @ ..] => {
            let byte = named_byte(*high, *low)?;
            if stands_for_itself(byte) {
                None
            } else {
                Some((byte, behind))
            }
        }
        [byte, behind @ ..] if stands_for_itself(*byte) => Some((*byte, behind)),
        _ => None,
    }
}
