//! Packed keys: eight words that stand to each other as the keys do.
ghost use Rattle.std.specs.Prelude.{◌≡◌, ◌≤◌, length, map, slice_index};
ghost use Rattle.std.specs.Int.{w64, to_be_bytes};
ghost use Rattle.lt_ranges.specs.Packing.{IsValid, filled, packed_bytes, words_of, coded, only_key};

use crate::key::Key;

/// The words of a packed key.
pub const KEY_WORDS: usize = 8;

/// The bytes of a packed key: room for the key's own, and the code.
const PACKED_BYTES: usize = 64;

/// Some bytes, a filling behind them, and the code as the last.
fn fill(bytes: &[u8], filling: u8, code: u8) -> [u8; PACKED_BYTES]
    requires { length bytes.now ≤ 63 }
    ensures { result ≡ filled bytes.now filling code }
{
    let mut all = [filling; PACKED_BYTES];
    for i in 0..bytes.len() {
        all[i] = bytes[i];
    }
    all[PACKED_BYTES - 1] = code;
    all
}

/// The bytes of a packed key.
pub(crate) fn bytes_of_key(key: &Key) -> [u8; PACKED_BYTES]
    ensures value { result ≡ packed_bytes key.now }
    ensures valid { IsValid key.now }
{
    match key {
        Key::Below => [0; PACKED_BYTES],
        Key::Bytes(bytes) => {
            let bytes = bytes.as_slice();
            fill(bytes, 0, bytes.len() as u8 + 1)
        }
        Key::After(bytes) => {
            let bytes = bytes.as_slice();
            fill(bytes, 255, 254 - bytes.len() as u8)
        }
        Key::Above => [255; PACKED_BYTES],
    }
}

/// Bytes as words, the first byte of each the highest.
pub(crate) fn words_of_bytes(bytes: &[u8; PACKED_BYTES]) -> [u64; KEY_WORDS]
    ensures { result ≡ words_of bytes.now }
{
    let (chunks, _) = bytes.as_chunks::<8>();
    let mut words = [0; KEY_WORDS];
    for (i, chunk) in chunks.iter().enumerate() {
        words[i] = u64::from_be_bytes(*chunk);
    }
    words
}

/// The bytes of each word, the highest first.
fn bytes_of_words(words: &[u64; KEY_WORDS]) -> [[u8; 8]; KEY_WORDS]
    ensures { result ≡ map (to_be_bytes w64) words.now }
{
    let mut chunks = [[0; 8]; KEY_WORDS];
    for (i, word) in words.iter().enumerate() {
        chunks[i] = word.to_be_bytes();
    }
    chunks
}

/// The key that the bytes may be, by the code that is the last of them. No key has a code from 65 to
/// 190.
fn key_by_code(bytes: &[u8]) -> Option<Key>
    requires { length bytes.now ≡ 64 }
    ensures { result ≡ coded bytes.now (slice_index bytes.now 63) }
{
    let code = bytes[PACKED_BYTES - 1];
    match code {
        0 => Some(Key::Below),
        1..=64 => Key::new(&bytes[..code as usize - 1]).ok(),
        191..=254 => Key::after(&bytes[..254 - code as usize]).ok(),
        255 => Some(Key::Above),
        _ => None,
    }
}

/// The only key that may pack to these words. Where another key's code stands in them, or none's, no
/// key does.
#[tactic(auto, using(crate::proofs::PackingLaws::flattened), unfolding(crate::specs::Packing::only_key))]
pub(crate) fn only_key(words: &[u64; KEY_WORDS]) -> Option<Key>
    ensures { result ≡ only_key words.now }
{
    let bytes = bytes_of_words(words);
    key_by_code(bytes.as_flattened())
}
