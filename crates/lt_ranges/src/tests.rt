//! Worked examples of keys, their texts and ranges.
use crate::{Key, KeyRange, KeyTooLong, RangeOrder, TextFault};

/// 64 letters between two quotation marks.
const LONG_TEXT: [u8; 66] =
    *b"\"aaaaaaaaaaaaaaaaaaaaaaaaaaaaaaaaaaaaaaaaaaaaaaaaaaaaaaaaaaaaaaaa\"";

#[test]
fn a_key_has_at_most_63_bytes(rt: HostRuntime) {
    assert!(rt; Key::new(&LONG_TEXT[1..64]).is_ok());
    assert_eq!(rt; Key::new(&LONG_TEXT[1..65]), Err(KeyTooLong));
    assert_eq!(rt; Key::after(&LONG_TEXT[1..65]), Err(KeyTooLong));
    let longest = Key::after(&[0xff; 63]).map(|key| key.text().as_slice().len());
    assert_eq!(rt; longest, Ok(255));
}

#[test]
fn keys_in_order_and_their_texts(rt: HostRuntime) {
    let texts = [
        b"-".as_slice(),
        b"\"\"",
        b"\"\\x00\\xff\"",
        b"\"\\x1f\"",
        b"\" \"",
        b"\"a\\x22\\x5c\"",
        b"\"abc\"",
        b"\"abcz\"",
        b"\"abc\"*",
        b"\"abd\"",
        b"\"zzz\"",
        b"\"~\"",
        b"\"\\x7f\"",
        b"\"\"*",
        b"+",
    ];
    let mut last = None;
    for text in texts {
        let key = Key::read(text).ok();
        assert!(rt; last < key, "{text:?}");
        let again = key.map(|key| key.text());
        assert_eq!(rt; again.as_ref().map(|text| text.as_slice()), Some(text));
        last = key;
    }
    assert_eq!(rt; Key::read(b"-"), Ok(Key::Below));
    assert_eq!(rt;
        Key::read(b"\"\\x00\\xff\"").ok(),
        Key::new(b"\x00\xff").ok()
    );
}

#[test]
fn texts_of_no_key_are_refused(rt: HostRuntime) {
    let refused = [
        (b"\"\\x61\"".as_slice(), TextFault::NotText),
        (b"\"\\x7e\"", TextFault::NotText),
        (b"\"\x7f\"", TextFault::NotText),
        (b"\"\\xFF\"", TextFault::NotText),
        (b"\"a\"b\"", TextFault::NotText),
        (b"\"", TextFault::NotText),
        (b"", TextFault::NotText),
        (b"-*", TextFault::NotText),
        (&LONG_TEXT[..65], TextFault::NotText),
        (&LONG_TEXT, TextFault::TooLong),
        (
            b"\"aaaaaaaaaaaaaaaaaaaaaaaaaaaaaaaaaaaaaaaaaaaaaaaaaaaaaaaaaaaaaaaa\\x61\"",
            TextFault::NotText,
        ),
    ];
    for (text, fault) in refused {
        assert_eq!(rt; Key::read(text), Err(fault), "{text:?}");
    }
}

fn range(left: &[u8], right: &[u8]) -> Option<KeyRange> {
    KeyRange::new(Key::new(left).ok()?, Key::new(right).ok()?).ok()
}

#[test]
fn ranges_stand_to_each_other(rt: HostRuntime) {
    let rows = [
        (b"a", b"c", b"c", b"e", RangeOrder::Overlaps),
        (b"a", b"b", b"c", b"d", RangeOrder::Less),
        (b"c", b"d", b"a", b"b", RangeOrder::Greater),
        (b"a", b"b", b"a", b"b", RangeOrder::Equal),
    ];
    for (left, right, other_left, other_right, order) in rows {
        let (Some(one), Some(other)) = (range(left, right), range(other_left, other_right)) else {
            assert!(rt; false, "a range was refused");
            return;
        };
        assert!(rt; one.compare(&other) == order);
    }
    assert!(rt; range(b"c", b"a").is_none());
}

#[test]
fn packed_keys_in_order(rt: HostRuntime) {
    let abc = 0x6162_6300_0000_0000;
    let ends = 0x6162_63ff_ffff_ffff;
    let full = u64::MAX;
    let rows = [
        (b"-".as_slice(), [0; 8]),
        (b"\"\"", [0, 0, 0, 0, 0, 0, 0, 1]),
        (b"\"abc\"", [abc, 0, 0, 0, 0, 0, 0, 4]),
        (
            b"\"abc\"*",
            [
                ends,
                full,
                full,
                full,
                full,
                full,
                full,
                0xffff_ffff_ffff_fffb,
            ],
        ),
        (
            b"\"\"*",
            [
                full,
                full,
                full,
                full,
                full,
                full,
                full,
                0xffff_ffff_ffff_fffe,
            ],
        ),
        (b"+", [full; 8]),
    ];
    let mut last = None;
    for (text, words) in rows {
        let key = Key::read(text).ok();
        assert_eq!(rt; key.map(|key| key.pack()), Some(words), "{text:?}");
        assert_eq!(rt; Key::unpack(words), key, "{text:?}");
        assert!(rt; last < Some(words), "{text:?}");
        last = Some(words);
    }
}

#[test]
fn words_of_no_key_are_refused(rt: HostRuntime) {
    let full = u64::MAX;
    let refused = [
        // no key has the codes from 65 to 190
        [0, 0, 0, 0, 0, 0, 0, 65],
        [0, 0, 0, 0, 0, 0, 0, 190],
        [
            full,
            full,
            full,
            full,
            full,
            full,
            full,
            0xffff_ffff_ffff_ffbe,
        ],
        // other bytes than those of the code
        [1, 0, 0, 0, 0, 0, 0, 0],
        [0, 0, 0, 0, 0, 0, 0x0100, 1],
        [0, 0, 0, 0, 0, 0, 0, 254],
        [0, 0, 0, 0, 0, 0, 0, 255],
    ];
    for words in refused {
        assert_eq!(rt; Key::unpack(words), None, "{words:?}");
    }
}

#[test]
fn keys_and_ranges_are_shown_as_their_texts(rt: HostRuntime) {
    let range = Key::read(b"\"a\\x00\"")
        .ok()
        .zip(Key::read(b"\"a\"*").ok())
        .and_then(|(left, right)| KeyRange::new(left, right).ok());
    let shown = range.map(|range| format!(in rt.alloc(); "{range}"));
    let text = shown
        .as_ref()
        .and_then(|shown| shown.as_ref().ok())
        .map(|shown| shown.as_str());
    assert_eq!(rt; text, Some("\"a\\x00\" \"a\"*"));
}
