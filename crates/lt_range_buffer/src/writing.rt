//! Keys and ranges as records.
ghost use Rattle.std.specs.Prelude.{◌≡◌, ◌++◌, ◌∷◌, OnOk};
ghost use Rattle.std.specs.Ordering.{eq_by_cmp};
ghost use Rattle.lt_ranges.specs.Key.{key_cmp};
ghost use Rattle.lt_range_buffer.specs.Records.{Begins, key_record, range_record, IsKey, IsRange};

use lt_ranges::{Key, KeyRange};
use std::alloc::AllocError;

/// Adds a code and the bytes of a key.
fn put_coded(bytes: &mut Vec<u8>, code: u8, own: &[u8]) -> Result<(), AllocError>
    ensures put { OnOk result (bytes.new.items ≡ bytes.old.items ++ code ∷ own.now) }
    ensures front { Begins bytes.old.items bytes.new.items }
{
    bytes.push(code)?;
    bytes.extend_from_slice(own)
}

/// Adds a key's record. Want of memory may leave a part of it.
fn put_key(bytes: &mut Vec<u8>, key: &Key) -> Result<(), AllocError>
    ensures put { OnOk result (bytes.new.items ≡ bytes.old.items ++ key_record key.now) }
    ensures front { Begins bytes.old.items bytes.new.items }
    ensures key { IsKey key.now }
{
    match key {
        Key::Below => put_coded(bytes, 0, &[]),
        Key::Bytes(own) => {
            let own = own.as_slice();
            put_coded(bytes, own.len() as u8 + 1, own)
        }
        Key::After(own) => {
            let own = own.as_slice();
            put_coded(bytes, 254 - own.len() as u8, own)
        }
        Key::Above => put_coded(bytes, 255, &[]),
    }
}

/// Adds a range's record. Want of memory may leave a part of it.
pub fn put_range(bytes: &mut Vec<u8>, range: &KeyRange) -> Result<(), AllocError>
    ensures put { OnOk result (bytes.new.items ≡ bytes.old.items ++ range_record range.now) }
    ensures front { Begins bytes.old.items bytes.new.items }
    ensures range { OnOk result (IsRange range.now) }
{
    if is_point(range) {
        bytes.push(1)?;
        return put_key(bytes, &range.left());
    }
    bytes.push(2)?;
    put_key(bytes, &range.left())?;
    put_key(bytes, &range.right())
}

/// Whether both ends are one key.
#[tactic(auto, using(lt_ranges::specs::KeyOrder::key_ties))]
fn is_point(range: &KeyRange) -> bool
    ensures { result ≡ eq_by_cmp key_cmp range.now.left range.now.right }
{
    range.left() == range.right()
}
