//! Words that pack keys: a quick test for them, and the key that they are read as.
ghost use Rattle.std.specs.Prelude.{◌≡◌, ◌≤◌, IsTrue, length, map, slice_index};
ghost use Rattle.std.specs.Int.{w64, to_be_bytes};
ghost use Rattle.lt_ranges.specs.Packing.{coded};
ghost use Rattle.lt_rows.specs.Nodes.{key_of};
ghost use Rattle.lt_rows.specs.Packing.{AreBare, EndsIn, IsFilled, PacksKey, PacksShort};

use lt_ranges::{KEY_WORDS, Key};

/// The bytes of each word, the highest first.
fn bytes_of_words(words: &[u64]) -> [[u8; 8]; KEY_WORDS]
    requires { length words.now ≡ 8 }
    ensures { result ≡ map (to_be_bytes w64) words.now }
{
    let mut chunks = [[0; 8]; KEY_WORDS];
    for i in 0..KEY_WORDS {
        chunks[i] = words[i].to_be_bytes();
    }
    chunks
}

/// The key that 64 bytes may be, by the code that is the last of them.
fn key_by_code(bytes: &[u8]) -> Option<Key>
    requires { length bytes.now ≡ 64 }
    ensures { result ≡ coded bytes.now (slice_index bytes.now 63) }
{
    let code = bytes[63];
    match code {
        0 => Some(Key::Below),
        1..=64 => Key::new(&bytes[..code as usize - 1]).ok(),
        191..=254 => Key::after(&bytes[..254 - code as usize]).ok(),
        255 => Some(Key::Above),
        _ => None,
    }
}

/// The key that eight words pack.
fn packed_key(words: &[u64]) -> Key
    requires long { length words.now ≡ 8 }
    requires packs { PacksKey words.now }
    ensures { result ≡ key_of words.now }
{
    let bytes = bytes_of_words(words);
    key_by_code(bytes.as_flattened()).unwrap_or(Key::Below)
}

/// The key that eight words pack, if they pack one, by packing it anew.
#[tactic(auto, unfolding(crate::specs::Nodes::key_of))]
fn unpacked_key(words: &[u64]) -> Key
    requires { length words.now ≡ 8 }
    ensures { result ≡ key_of words.now }
{
    let mut copied = [0; KEY_WORDS];
    for i in 0..KEY_WORDS {
        copied[i] = words[i];
    }
    Key::unpack(copied).unwrap_or(Key::Below)
}

/// The key that eight words are read as: the one that they pack, or the least where they pack none.
pub(crate) fn read_key(words: &[u64]) -> Key
    requires { length words.now ≡ 8 }
    ensures { result ≡ key_of words.now }
{
    if packs_short(words) {
        short_key(words)
    } else if packs_by_code(words) {
        packed_key(words)
    } else {
        unpacked_key(words)
    }
}

/// Whether the bytes of a word are those of another from a place on.
fn ends_in(word: u64, from: usize, end: u64) -> bool
    ensures { IsTrue result → EndsIn word from end }
{
    from >= 8 || word << (8 * from) == end << (8 * from)
}

/// Whether behind so many bytes the words are those of a filling, and the last one is that of another word.
fn is_filled(words: &[u64], count: usize, filling: u64, last: u64) -> bool
    requires { length words.now ≡ 8 }
    ensures { IsTrue result → IsFilled words.now count filling last }
{
    for i in 0..KEY_WORDS - 1 {
        if !ends_in(words[i], count.saturating_sub(8 * i), filling) {
            return false;
        }
    }
    ends_in(words[KEY_WORDS - 1], count.saturating_sub(56), last)
}

/// Whether eight words pack a key, by its code, which is the last byte: behind the bytes of a key all is 0, and behind those of an
/// end all is 255.
fn packs_by_code(words: &[u64]) -> bool
    requires { length words.now ≡ 8 }
    ensures { IsTrue result → PacksKey words.now }
{
    let code = words[KEY_WORDS - 1] % 256;
    match code {
        0..=64 => is_filled(words, (code as usize).saturating_sub(1), 0, code),
        191..=255 => is_filled(
            words,
            254_u64.saturating_sub(code) as usize,
            u64::MAX,
            u64::MAX - (255 - code),
        ),
        _ => false,
    }
}

/// Whether eight words are eight others.
pub(crate) fn are_same(words: &[u64], others: &[u64]) -> bool
    requires words { length words.now ≡ 8 }
    requires others { length others.now ≡ 8 }
    ensures { IsTrue result → words.now ≡ others.now }
{
    for i in 0..KEY_WORDS {
        if words[i] != others[i] {
            return false;
        }
    }
    true
}

/// Whether the six words between the first and the last are 0.
fn are_bare(words: &[u64]) -> bool
    requires { length words.now ≡ 8 }
    ensures { IsTrue result → AreBare words.now }
{
    words[1] | words[2] | words[3] | words[4] | words[5] | words[6] == 0
}

/// Whether eight words pack the least key, or one of up to eight bytes. Its bytes stand in the first word, and the last is its code.
fn packs_short(words: &[u64]) -> bool
    requires { length words.now ≡ 8 }
    ensures { IsTrue result → PacksShort words.now }
{
    let code = words[KEY_WORDS - 1];
    code <= 9 && are_bare(words) && ends_in(words[0], (code as usize).saturating_sub(1), 0)
}

/// The key that eight words pack, which has up to eight bytes or is the least.
fn short_key(words: &[u64]) -> Key
    requires long { length words.now ≡ 8 }
    requires packs { PacksShort words.now }
    ensures { result ≡ key_of words.now }
{
    let code = words[KEY_WORDS - 1] as usize;
    if code == 0 {
        return Key::Below;
    }
    let bytes = words[0].to_be_bytes();
    Key::new(&bytes[..code - 1]).unwrap_or(Key::Below)
}

/// Whether eight words pack a key. Those of a short one are told by a few tests, and no key is unpacked.
pub(crate) fn packs_key(words: &[u64]) -> bool
    requires { length words.now ≡ 8 }
    ensures { IsTrue result → PacksKey words.now }
{
    packs_short(words) || packs_by_code(words)
}
