//! The bytes of a key, in a store of fixed size.
ghost use Rattle.std.specs.Prelude.{◌≡◌, ◌<◌, ◌≤◌, ◌↔◌, length, IsErr, IfOk, Some, nat_eq, refl};
ghost use Rattle.std.specs.Ordering.{nat_cmp};
ghost use Rattle.std.specs.Cmp.{partial_equiv_from_equiv};
ghost use Rattle.std.specs.Cmp.Rules.{hashing};
ghost use Rattle.std.specs.Hash as fed;
ghost use Rattle.std.proofs.Common.{rules};
ghost use Rattle.std.specs.Cmp.Lexicographic.{pointwise, slice_cmp, nat_list_eq_equiv, nat_list_cmp_total, texts_po, texts_ties};
ghost use Rattle.lt_ranges.specs.Numbers.{AreBytes};

use crate::byte_store::ByteStore;
use std::cmp::Ordering;
use std::fmt;
use std::hash::{Hash, Hasher};
use std::marker::Model;
use thiserror::Error;

/// The most bytes of a key.
pub const MOST_KEY_BYTES: usize = 63;

/// A key was longer than 63 bytes.
#[derive(Clone, Copy, Debug, PartialEq, Eq, Hash, Error)]
#[error("a key has at most 63 bytes")]
pub struct KeyTooLong;

/// Up to 63 bytes, which lie in the value itself.
#[derive(Clone, Copy)]
pub struct KeyBytes {
    store: ByteStore<MOST_KEY_BYTES>,
}

impl Model for KeyBytes {
    ghost use Rattle.std.specs.Prelude.{List, ℕ};

    ghost Value = { List ℕ };

    ghost view = { λ k. k.store };

    ghost inverse = { λ xs. record { store = xs } };
}

impl KeyBytes {
    /// These bytes in a store, refused where they are more than 63.
    pub(crate) fn new(bytes: &[u8]) -> Result<KeyBytes, KeyTooLong>
        ensures refused { IsErr result ↔ (63 < length bytes.now) }
        ensures value { IfOk result (λ stored. stored ≡ bytes.now) }
    {
        if bytes.len() > MOST_KEY_BYTES {
            return Err(KeyTooLong);
        }
        let mut store = ByteStore::empty();
        for byte in bytes {
            store.push(*byte);
        }
        Ok(KeyBytes { store })
    }

    /// The bytes of a store.
    pub(crate) fn of(store: ByteStore<MOST_KEY_BYTES>) -> KeyBytes
        ensures { result ≡ store }
    {
        KeyBytes { store }
    }

    /// The bytes.
    pub fn as_slice(&self) -> &[u8]
        ensures value { result.now ≡ self.now }
        ensures bound { length self.now ≤ 63 }
        ensures of_bytes { AreBytes self.now }
    {
        self.store.as_slice()
    }
}

impl PartialEq for KeyBytes {
    ghost eq = { pointwise nat_eq };

    ghost laws = { partial_equiv_from_equiv nat_list_eq_equiv };

    fn eq(&self, other: &Self) -> bool {
        self.as_slice() == other.as_slice()
    }
}

impl Eq for KeyBytes {
    ghost laws = { nat_list_eq_equiv };
}

impl PartialOrd for KeyBytes {
    ghost partial_cmp = { λ s t. Some (slice_cmp nat_cmp s t) };

    ghost laws = { texts_po };

    fn partial_cmp(&self, other: &Self) -> Option<Ordering> {
        Some(self.cmp(other))
    }
}

impl Ord for KeyBytes {
    ghost cmp = { slice_cmp nat_cmp };

    ghost total = { nat_list_cmp_total };

    ghost matches_partial_cmp = { λ s t. refl };

    ghost matches_eq = { texts_ties };

    fn cmp(&self, other: &Self) -> Ordering {
        self.as_slice().cmp(other.as_slice())
    }
}

impl Hash for KeyBytes {
    ghost hash_input = { λ s. fed.slice fed.u8 s };

    ghost respects_eq = { Prim.search (hashing, rules) };

    fn hash<H: Hasher>(&self, state: &mut H) {
        self.as_slice().hash(state);
    }
}

impl fmt::Debug for KeyBytes {
    fn fmt<W: fmt::Write>(&self, f: &mut fmt::Formatter<W>) -> fmt::Result {
        fmt::Debug::fmt(&self.as_slice(), f)
    }
}
