//! Records in their bytes, and back.
use super::*;
use lt_ranges::{Key, KeyRange};
use std::test::Fail;

#[test]
fn a_range_and_a_point(rt: HostRuntime) -> Result<(), Fail> {
    let wide = KeyRange::new(Key::new(b"a")?, Key::new(b"c")?)?;
    let point = KeyRange::new(Key::new(b"abc")?, Key::new(b"abc")?)?;
    let mut buffer = RangeBuffer::new(rt.alloc());
    buffer.append(&wide)?;
    buffer.append(&point)?;
    assert_eq!(rt; buffer.len(), 2);
    assert_eq!(rt;
        buffer.bytes(),
        [2, 2, 97, 2, 99, 1, 4, 97, 98, 99].as_slice()
    );
    let mut ranges = buffer.iter();
    assert!(rt; ranges.next().ok_or("the first")? == wide);
    assert!(rt; ranges.next().ok_or("the second")? == point);
    assert!(rt; ranges.next().is_none());
    buffer.clear();
    assert!(rt; buffer.is_empty());
    assert_eq!(rt; buffer.bytes().len(), 0);
    Ok(())
}

#[test]
fn ends_on_either_side_and_of_prefixes(rt: HostRuntime) -> Result<(), Fail> {
    let empty = KeyRange::new(Key::new(b"")?, Key::new(b"")?)?;
    let prefix = KeyRange::new(Key::after(b"abc")?, Key::after(b"abc")?)?;
    let mut buffer = RangeBuffer::new(rt.alloc());
    buffer.append(&KeyRange::whole())?;
    buffer.append(&empty)?;
    buffer.append(&prefix)?;
    assert_eq!(rt;
        buffer.bytes(),
        [2, 0, 255, 1, 1, 1, 251, 97, 98, 99].as_slice()
    );
    let mut ranges = buffer.iter();
    assert!(rt; ranges.next().ok_or("all")? == KeyRange::whole());
    assert!(rt; ranges.next().ok_or("the empty key")? == empty);
    assert!(rt; ranges.next().ok_or("the prefix")? == prefix);
    Ok(())
}
