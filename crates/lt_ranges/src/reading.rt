//! The bytes that a key's text spells.
ghost use Rattle.std.specs.Prelude.{◌≡◌, ◌≤◌, length, IfOk, IfErr};
ghost use Rattle.lt_ranges.specs.KeyText.{spelled, quoted};
ghost use Rattle.lt_ranges.specs.TextFault.{IsFaultOf};
ghost use Rattle.lt_ranges.specs.Numbers.{AreBytes};

use crate::byte_store::ByteStore;
use crate::byte_text::first_byte;
use crate::key_bytes::KeyBytes;
use crate::text_fault::TextFault;

/// The bytes that stand between two quotation marks.
pub(crate) fn read_quoted(text: &[u8]) -> Result<KeyBytes, TextFault>
    ensures value { IfOk result (λ bytes. text.now ≡ quoted bytes) }
    ensures bound { IfOk result (λ bytes. length bytes ≤ 63) }
    ensures of_bytes { IfOk result AreBytes }
    ensures fault { IfErr result (IsFaultOf quoted text.now) }
{
    match text {
        [b'"', inside @ .., b'"'] => read_spelled(inside),
        _ => Err(TextFault::NotText),
    }
}

/// The bytes of a text without quotation marks.
fn read_spelled(text: &[u8]) -> Result<KeyBytes, TextFault>
    ensures value { IfOk result (λ bytes. text.now ≡ spelled bytes) }
    ensures bound { IfOk result (λ bytes. length bytes ≤ 63) }
    ensures of_bytes { IfOk result AreBytes }
    ensures fault { IfErr result (IsFaultOf spelled text.now) }
{
    let mut stored = ByteStore::empty();
    let mut is_long = false;
    let mut rest = text;
    while !rest.is_empty() {
        let Some((byte, behind)) = first_byte(rest) else {
            return Err(TextFault::NotText);
        };
        if stored.is_full() {
            is_long = true;
        } else {
            stored.push(byte);
        }
        rest = behind;
    }
    if is_long {
        Err(TextFault::TooLong)
    } else {
        Ok(KeyBytes::of(stored))
    }
}
