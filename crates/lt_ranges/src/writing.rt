//! Writing numbers and ranges behind other text.
ghost use Rattle.std.specs.Prelude.{◌≡◌, ◌++◌, OnOk, codes};
ghost use Rattle.lt_ranges.specs.KeyText.{key_text, spaced, range_text};

use crate::key::Key;
use crate::range::KeyRange;
use itoa::Buffer;
use std::alloc::AllocError;

/// Writes a space and a number in decimal. The only error is want of memory; what was written until
/// then stays.
pub fn push_spaced(out: &mut Vec<u8>, n: u64) -> Result<(), AllocError>
    ensures { OnOk result (out.new.items ≡ out.old.items ++ spaced n) }
{
    let mut buffer = Buffer::new();
    out.extend_from_slice(b" ")?;
    out.extend_from_slice(buffer.format(n).as_bytes())
}

/// Writes a space and a key.
fn push_key(out: &mut Vec<u8>, key: &Key) -> Result<(), AllocError>
    ensures { OnOk result (out.new.items ≡ out.old.items ++ (codes " " ++ key_text key.now)) }
{
    let text = key.text();
    out.extend_from_slice(b" ")?;
    out.extend_from_slice(text.as_slice())
}

/// Writes both ends of a range, each behind a space. The only error is want of memory; what was
/// written until then stays.
pub fn push_range(out: &mut Vec<u8>, range: &KeyRange) -> Result<(), AllocError>
    ensures { OnOk result (out.new.items ≡ out.old.items ++ range_text range.now) }
{
    push_key(out, &range.left())?;
    push_key(out, &range.right())
}
