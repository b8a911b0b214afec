//! Records back as keys and ranges.
ghost use Rattle.std.specs.Prelude.{◌≡◌, ◌≤◌, length};
ghost use Rattle.lt_ranges.specs.Interval.{IsInterval};
ghost use Rattle.lt_range_buffer.specs.Records.{own_len, key_of, first_key, behind_key, first_range, behind_range, HasKey, HasRange};

use lt_ranges::{Key, KeyRange};

/// Of how many bytes the key of this code is.
fn own_len(code: u8) -> usize
    ensures { result ≡ own_len code }
{
    match code {
        0 | 255 => 0,
        1..=64 => code as usize - 1,
        65.. => 254 - code as usize,
    }
}

/// The key of this code and these bytes.
fn key_of(code: u8, own: &[u8]) -> Key
    requires { length own.now ≤ 63 }
    ensures { result ≡ key_of code own.now }
{
    let made = match code {
        0 => return Key::Below,
        255 => return Key::Above,
        1..=64 => Key::new(own),
        65.. => Key::after(own),
    };
    match made {
        Ok(key) => key,
        Err(_) => unreachable!(),
    }
}

/// The key whose record begins the bytes, and what is behind it.
fn read_key(bytes: &[u8]) -> (Key, &[u8])
    requires { HasKey bytes.now }
    ensures key { result.0 ≡ first_key bytes.now }
    ensures rest { result.1.now ≡ behind_key bytes.now }
{
    let code = bytes[0];
    let (_, behind) = bytes.split_at(1);
    let (own, rest) = behind.split_at(own_len(code));
    (key_of(code, own), rest)
}

/// The range whose record begins the bytes, and what is behind it.
pub fn read_range(bytes: &[u8]) -> (KeyRange, &[u8])
    requires { HasRange bytes.now }
    ensures range { result.0 ≡ first_range bytes.now }
    ensures rest { result.1.now ≡ behind_range bytes.now }
{
    let (_, behind) = bytes.split_at(1);
    if bytes[0] == 1 {
        read_point(behind)
    } else {
        read_both(behind)
    }
}

/// The point of the key whose record begins the bytes, and what is behind it.
fn read_point(bytes: &[u8]) -> (KeyRange, &[u8])
    requires key { HasKey bytes.now }
    requires ordered { IsInterval (record { left = first_key bytes.now; right = first_key bytes.now }) }
    ensures range { result.0 ≡ record { left = first_key bytes.now; right = first_key bytes.now } }
    ensures rest { result.1.now ≡ behind_key bytes.now }
{
    let (key, rest) = read_key(bytes);
    (range_of(&key, &key), rest)
}

/// The range between the keys whose records begin the bytes, and what is behind them.
fn read_both(bytes: &[u8]) -> (KeyRange, &[u8])
    requires left { HasKey bytes.now }
    requires right { HasKey (behind_key bytes.now) }
    requires ordered { IsInterval (record { left = first_key bytes.now; right = first_key (behind_key bytes.now) }) }
    ensures range { result.0 ≡ record { left = first_key bytes.now; right = first_key (behind_key bytes.now) } }
    ensures rest { result.1.now ≡ behind_key (behind_key bytes.now) }
{
    let (left, behind) = read_key(bytes);
    let (right, rest) = read_key(behind);
    (range_of(&left, &right), rest)
}

/// The range between two keys that are in order.
fn range_of(left: &Key, right: &Key) -> KeyRange
    requires { IsInterval (record { left = left.now; right = right.now }) }
    ensures { result ≡ record { left = left.now; right = right.now } }
{
    match KeyRange::new(*left, *right) {
        Ok(range) => range,
        Err(_) => unreachable!(),
    }
}
