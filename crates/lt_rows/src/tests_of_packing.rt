//! Words that pack keys, and rows that are compared by them.
use crate::image::RowImage;
use crate::packed_range::PackedRange;
use crate::packing::packs_key;
use crate::range_side::RangeSide;
use lt_ranges::{KEY_WORDS, Key, KeyRange, RangeOrder};
use std::test::Fail;

/// Bytes of keys, among them such as fillings have.
const BYTES: [u8; 63] =
    *b"\x00a\xffdefgh\x00\xffklmnopqrstuvwxyzABCDEFGHIJKLMNOPQRSTUVWXYZ0123456789\xff";

/// The counts of bytes about the ends of words.
const COUNTS: [usize; 9] = [0, 1, 7, 8, 9, 55, 56, 62, 63];

fn bytes(count: usize) -> Key {
    Key::new(&BYTES[..count.min(63)]).unwrap_or(Key::Below)
}

fn after(count: usize) -> Key {
    Key::after(&BYTES[..count.min(63)]).unwrap_or(Key::Below)
}

/// Whether words that differ from a key's in one byte behind its own bytes pack a key.
fn any_packs_but(key: &Key, count: usize) -> bool {
    for at in count..63 {
        let mut words = key.pack();
        words[at / 8] ^= 1 << (8 * (7 - at % 8));
        if packs_key(&words) {
            return true;
        }
    }
    false
}

#[test]
fn the_words_of_each_key_pack_one(rt: HostRuntime) {
    assert!(rt; packs_key(&Key::Below.pack()) && packs_key(&Key::Above.pack()));
    for count in COUNTS {
        assert!(rt; packs_key(&bytes(count).pack()), "{count} bytes");
        assert!(rt; packs_key(&after(count).pack()), "behind {count} bytes");
    }
}

#[test]
fn a_wrong_byte_behind_a_keys_bytes_packs_none(rt: HostRuntime) {
    for count in COUNTS {
        assert!(rt; !any_packs_but(&bytes(count), count), "{count} bytes");
        assert!(rt;
            !any_packs_but(&after(count), count),
            "behind {count} bytes"
        );
    }
    assert!(rt; !packs_key(&[0, 0, 0, 0, 0, 0, 0, 65]));
    assert!(rt; !packs_key(&[u64::MAX, 0, 0, 0, 0, 0, 0, 190]));
}

/// A row with these words as its keys.
fn row(left: &[u64; KEY_WORDS], right: &[u64; KEY_WORDS]) -> RowImage {
    let mut words = [0; 21];
    words[1..9].copy_from_slice(left);
    words[9..17].copy_from_slice(right);
    RowImage { row: 0, words }
}

/// Keys in their order, and words that pack none.
fn ends() -> [[u64; KEY_WORDS]; 10] {
    [
        Key::Below.pack(),
        bytes(0).pack(),
        bytes(1).pack(),
        bytes(9).pack(),
        bytes(63).pack(),
        after(9).pack(),
        after(1).pack(),
        Key::Above.pack(),
        [7; KEY_WORDS],
        [0, 1, 0, 0, 0, 0, 0, 2],
    ]
}

/// The side as the unpacked range tells it.
fn slow_side(row: &RowImage, asked: &KeyRange) -> RangeSide {
    match row.range().compare(asked) {
        RangeOrder::Less => RangeSide::Before,
        RangeOrder::Greater => RangeSide::Behind,
        RangeOrder::Equal | RangeOrder::Overlaps => RangeSide::Meets,
    }
}

/// How many of the rows of two such ends are told another side than their ranges have.
fn differ(asked: &KeyRange) -> usize {
    let packed = PackedRange::of(asked);
    let mut count: usize = 0;
    for left in ends() {
        for right in ends() {
            let row = row(&left, &right);
            if row.compare(&packed) != slow_side(&row, asked) {
                count = count.saturating_add(1);
            }
        }
    }
    count
}

#[test]
fn a_row_lies_on_the_side_of_its_range(rt: HostRuntime) -> Result<(), Fail> {
    let asked = [
        KeyRange::whole(),
        KeyRange::new(bytes(1), bytes(1))?,
        KeyRange::new(bytes(9), after(9))?,
        KeyRange::new(after(9), after(9))?,
        KeyRange::new(Key::Below, Key::Below)?,
        KeyRange::new(after(1), Key::Above)?,
    ];
    for range in asked {
        assert_eq!(rt; differ(&range), 0, "{range}");
    }
    let left = bytes(9).pack();
    let far = PackedRange::of(&KeyRange::new(bytes(63), bytes(63))?);
    assert_eq!(rt; row(&left, &left).compare(&far), RangeSide::Before);
    assert_eq!(rt;
        row(&Key::Above.pack(), &left).compare(&far),
        RangeSide::Behind
    );
    assert_eq!(rt;
        row(&left, &Key::Above.pack()).compare(&far),
        RangeSide::Meets
    );
    Ok(())
}

#[test]
fn a_row_of_one_key_has_the_range_of_it(rt: HostRuntime) -> Result<(), Fail> {
    for count in COUNTS {
        for key in [bytes(count), after(count)] {
            let row = row(&key.pack(), &key.pack());
            assert_eq!(rt; row.left_key(), key);
            assert_eq!(rt; row.range(), KeyRange::new(key, key)?);
        }
    }
    let least = row(&Key::Below.pack(), &Key::Below.pack());
    assert_eq!(rt; least.left_key(), Key::Below);
    assert_eq!(rt; least.range(), KeyRange::new(Key::Below, Key::Below)?);
    Ok(())
}

#[test]
fn a_row_of_two_keys_has_the_range_to_the_greater(rt: HostRuntime) -> Result<(), Fail> {
    for left in COUNTS {
        for right in COUNTS {
            let row = row(&bytes(left).pack(), &bytes(right).pack());
            let greater = bytes(left.max(right));
            assert_eq!(rt; row.left_key(), bytes(left));
            assert_eq!(rt; row.range(), KeyRange::new(bytes(left), greater)?);
        }
    }
    Ok(())
}

#[test]
fn words_that_pack_none_are_read_as_the_least_key(rt: HostRuntime) -> Result<(), Fail> {
    let none = [
        [0x6100_0001_0000_0000, 0, 0, 0, 0, 0, 0, 2],
        [0x6100_0000_0000_0000, 0, 0, 0, 0, 0, 0, 1],
        [0x6100_0000_0000_0000, 0, 0, 0, 0, 0, 0, 0],
        [0x6162_6364_6566_6768, 0, 0, 0, 0, 0, 0, 8],
        [0x6162_6364_6566_6768, 0, 0, 0, 0, 0, 1, 9],
        [0, 0, 0, 0, 0, 0, 0, 256],
    ];
    for words in none {
        assert!(rt; !packs_key(&words));
        let row = row(&words, &bytes(8).pack());
        assert_eq!(rt; row.left_key(), Key::Below);
        assert_eq!(rt; row.range(), KeyRange::new(Key::Below, bytes(8))?);
    }
    Ok(())
}
