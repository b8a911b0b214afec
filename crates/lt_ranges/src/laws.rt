//! Laws of keys and of their texts, each as the contract of a function that does nothing.
ghost use Rattle.std.specs.Prelude.{◌≡◌, ◌≢◌, ℕ, List, Some, None, false, IsTrue};
ghost use Rattle.std.specs.Ordering.{nat_cmp};
ghost use Rattle.std.specs.Cmp.{IsTotalOrder};
ghost use Rattle.std.specs.Cmp.Lexicographic.{slice_cmp};
ghost use Rattle.lt_ranges.specs.declared.key.Key.{Key};
ghost use Rattle.lt_ranges.specs.Key.{key_cmp, key_le, begins_with};
ghost use Rattle.lt_ranges.specs.Interval.{Interval, IsInterval, OverlapsByKeys, CoversByKeys, IsLeastOver, has, hull, prefix_range};
ghost use Rattle.lt_ranges.specs.KeyText.{key_text, IsOfBytes};
ghost use Rattle.lt_ranges.specs.Packing.{IsValid, packed, unpacked};

/// Keys stand in one total order, and keys that tie are the same key.
#[tactic(auto, using(crate::specs::KeyOrder::key_total, crate::proofs::KeyLaws::le_both))]
pub fn keys_are_in_order()
    ensures total { IsTotalOrder key_cmp }
    ensures ties { (x y : Key) → IsTrue (key_le x y) → IsTrue (key_le y x) → x ≡ y }
{}

/// The end of the keys that begin with some bytes lies above each of them, and below every other
/// key that is greater than these bytes. So the range from these bytes to that end has the keys that
/// begin with them, and no others.
#[tactic(auto, using(crate::proofs::PrefixLaws::prefix_above, crate::proofs::PrefixLaws::prefix_below, crate::proofs::PrefixLaws::prefix_keys))]
pub fn prefix_endpoints_come_last()
    ensures above { (front : List ℕ) (key : Key) → IsTrue (begins_with front key) → IsTrue (key_le key (Key.After front)) }
    ensures below { (front : List ℕ) (key : Key) → begins_with front key ≡ false → IsTrue (key_le (Key.Bytes front) key)
        → key_le key (Key.After front) ≡ false }
    ensures range { (front : List ℕ) (key : Key) → has (prefix_range front) key ≡ begins_with front key }
{}

/// Ranges by the keys that they have. Two that are not backwards overlap exactly where they share a
/// key, a range covers one that is not backwards exactly where it has every key of it, and the hull is
/// the least over both.
#[tactic(auto, using(crate::proofs::IntervalLaws::overlap_by_keys, crate::proofs::IntervalLaws::covers_by_keys))]
pub fn ranges_by_their_keys()
    ensures overlap { (a b : Interval) → IsInterval a → IsInterval b → OverlapsByKeys a b }
    ensures covers { (a b : Interval) → IsInterval b → CoversByKeys a b }
    ensures hull { (a b : Interval) → IsLeastOver a b (hull a b) }
{}

/// No two keys have the same text.
#[tactic(auto, using(crate::proofs::KeyTextLaws::text_once))]
pub fn texts_are_unique()
    ensures { (x y : Key) → IsOfBytes x → IsOfBytes y → key_text x ≡ key_text y → x ≡ y }
{}

/// Packed keys, compared word by word from the front, stand to each other as the keys do. Each is
/// unpacked to the key that was packed, and words that are unpacked to none are those of no key.
#[tactic(auto, using(crate::proofs::PackingLaws::packed_order, crate::proofs::PackingLaws::unpacked_again, crate::proofs::PackingLaws::none_packs))]
pub fn packed_keys()
    ensures order { (x y : Key) → IsValid x → IsValid y → slice_cmp nat_cmp (packed x) (packed y) ≡ key_cmp x y }
    ensures back { (key : Key) → IsValid key → unpacked (packed key) ≡ Some key }
    ensures none { (words : List ℕ) → unpacked words ≡ None → (key : Key) → IsValid key → packed key ≢ words }
{}
