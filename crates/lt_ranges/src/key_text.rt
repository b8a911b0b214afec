//! The text of a key, in a store of fixed size.
ghost use Rattle.std.specs.Prelude.{◌≡◌, ◌+◌, ◌<◌, ◌≤◌, [], ◌∷◌, ◌++◌, length, nat_eq};
ghost use Rattle.std.specs.Cmp.{partial_equiv_from_equiv};
ghost use Rattle.std.specs.Cmp.Lexicographic.{pointwise, nat_list_eq_equiv};
ghost use Rattle.std.specs.Cmp.Rules.{hashing};
ghost use Rattle.std.specs.Hash as fed;
ghost use Rattle.std.proofs.Common.{rules};
ghost use Rattle.lt_ranges.specs.KeyText.{byte_text, quoted};
ghost use Rattle.lt_ranges.specs.Numbers.{AreBytes};

use crate::byte_store::ByteStore;
use crate::byte_text;
use crate::key_bytes::KeyBytes;
use std::fmt;
use std::hash::{Hash, Hasher};
use std::marker::Model;

/// The most bytes of a key's text: 63 bytes of four characters each, two quotation marks and a star.
pub const MOST_TEXT_BYTES: usize = 255;

/// The text of a key, up to 255 bytes, which lie in the value itself.
#[derive(Clone, Copy)]
pub struct KeyText {
    store: ByteStore<MOST_TEXT_BYTES>,
}

impl Model for KeyText {
    ghost use Rattle.std.specs.Prelude.{List, ℕ};

    ghost Value = { List ℕ };

    ghost view = { λ t. t.store };

    ghost inverse = { λ xs. record { store = xs } };
}

impl KeyText {
    /// The text of one character.
    pub(crate) fn of(character: u8) -> KeyText
        ensures { result ≡ character ∷ [] }
    {
        let mut store = ByteStore::empty();
        store.push(character);
        KeyText { store }
    }

    /// Some bytes between two quotation marks.
    pub(crate) fn quoted(bytes: &KeyBytes) -> KeyText
        ensures value { result ≡ quoted bytes.now }
        ensures room { length result < 255 }
        ensures bound { length bytes.now ≤ 63 }
        ensures of_bytes { AreBytes bytes.now }
    {
        let mut text = KeyText::of(b'"');
        for byte in bytes.as_slice() {
            text.spell(*byte);
        }
        text.push(b'"');
        text
    }

    /// Puts a character behind the others.
    pub(crate) fn push(&mut self, character: u8)
        requires { length self.old < 255 }
        ensures { self.new ≡ self.old ++ character ∷ [] }
    {
        self.store.push(character);
    }

    /// Puts the text of a byte behind the others.
    fn spell(&mut self, byte: u8)
        requires { length self.old + 4 ≤ 255 }
        ensures value { self.new ≡ self.old ++ byte_text byte }
        ensures room { length self.new ≤ length self.old + 4 }
    {
        if byte_text::stands_for_itself(byte) {
            self.push(byte);
        } else {
            self.push(b'\\');
            self.push(b'x');
            self.push(byte_text::digit(byte / 16));
            self.push(byte_text::digit(byte % 16));
        }
    }

    /// The bytes of the text.
    pub fn as_slice(&self) -> &[u8]
        ensures value { result.now ≡ self.now }
        ensures bound { length self.now ≤ 255 }
    {
        self.store.as_slice()
    }
}

impl PartialEq for KeyText {
    ghost eq = { pointwise nat_eq };

    ghost laws = { partial_equiv_from_equiv nat_list_eq_equiv };

    fn eq(&self, other: &Self) -> bool {
        self.as_slice() == other.as_slice()
    }
}

impl Eq for KeyText {
    ghost laws = { nat_list_eq_equiv };
}

impl Hash for KeyText {
    ghost hash_input = { λ t. fed.slice fed.u8 t };

    ghost respects_eq = { Prim.search (hashing, rules) };

    fn hash<H: Hasher>(&self, state: &mut H) {
        self.as_slice().hash(state);
    }
}

/// The text, character by character. Each of its bytes is one.
impl fmt::Display for KeyText {
    fn fmt<W: fmt::Write>(&self, f: &mut fmt::Formatter<W>) -> fmt::Result {
        for character in self.as_slice() {
            f.write_char(char::from(*character))?;
        }
        Ok(())
    }
}

impl fmt::Debug for KeyText {
    fn fmt<W: fmt::Write>(&self, f: &mut fmt::Formatter<W>) -> fmt::Result {
        fmt::Debug::fmt(&self.as_slice(), f)
    }
}
