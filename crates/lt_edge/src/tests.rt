//! What no clause says: that the calls succeed where memory is ample, how much each put is lent, and what std's
//! readers and writers do behind the two adapters.
use crate::{
    Failed, MemSink, MemSource, NoFailSink, NoFailSource, ReadFault, ReadSource, Sink, Source,
    WriteSink, put_all, read_all,
};
use std::test::Fail;

#[test]
fn a_sink_takes_what_has_room(rt: HostRuntime) -> Result<(), Fail> {
    let alloc = rt.alloc();
    let mut sink = MemSink::new(alloc, 4, 8, Vec::new(alloc))?;
    assert_eq!(rt; sink.put(b"abc"), Ok(3));
    assert_eq!(rt; sink.put(b"def"), Ok(1));
    assert_eq!(rt; sink.put(b"gh"), Err(Failed));
    assert_eq!(rt; sink.bytes(), b"abcd".as_slice());
    Ok(())
}

#[test]
fn reading_goes_on_after_a_fault(rt: HostRuntime) -> Result<(), Fail> {
    let alloc = rt.alloc();
    let text = b"the first sixteen bytes, and some more of them after it";
    let mut source = MemSource::new(text.to_vec(alloc)?, 16, vec![in alloc; 2u64]?);
    let first = read_all(alloc, &mut source, 1000);
    assert_eq!(rt; first.err(), Some(ReadFault::Failed));
    let rest = read_all(alloc, &mut source, 1000)?;
    assert_eq!(rt; rest.as_slice(), b"e more of them after it".as_slice());
    Ok(())
}

#[test]
fn putting_stops_at_a_fault(rt: HostRuntime) -> Result<(), Fail> {
    let alloc = rt.alloc();
    let mut sink = MemSink::new(alloc, 100, 8, vec![in alloc; 2u64]?)?;
    assert_eq!(rt;
        put_all(&mut sink, b"two pieces of eight, and more"),
        Err(Failed)
    );
    assert_eq!(rt; sink.bytes(), b"two pieces of ei".as_slice());
    Ok(())
}

// The sink takes all of the text in as many calls as come before the one that fails, if each is lent all that is left.
#[test]
fn each_put_is_lent_all_that_is_left(rt: HostRuntime) -> Result<(), Fail> {
    let alloc = rt.alloc();
    let text = b"two pieces of eight, and more";
    for (piece, failing) in [(29, 1u64), (15, 2)] {
        let mut sink = MemSink::new(alloc, 100, piece, vec![in alloc; failing]?)?;
        assert_eq!(rt; put_all(&mut sink, text), Ok(()));
        assert_eq!(rt; sink.bytes(), text.as_slice());
    }
    Ok(())
}

#[test]
fn std_readers_and_writers_serve(rt: HostRuntime) -> Result<(), Fail> {
    let alloc = rt.alloc();
    let mut source = ReadSource::new(b"range locks".as_slice());
    let first = read_all(alloc, &mut source, 5)?;
    let rest = read_all(alloc, &mut source, 100)?;
    assert_eq!(rt; first.as_slice(), b"range".as_slice());
    assert_eq!(rt; rest.as_slice(), b" locks".as_slice());

    // One call moves all that has room.
    let mut piece = [0u8; 5];
    let mut source = ReadSource::new(b"range locks".as_slice());
    assert_eq!(rt; source.next(&mut piece), Ok(5));
    assert_eq!(rt;
        WriteSink::new([0u8; 7].as_mut_slice()).put(b"range"),
        Ok(5)
    );

    let mut room = [0u8; 7];
    let mut sink = WriteSink::new(room.as_mut_slice());
    assert_eq!(rt; put_all(&mut sink, &first), Ok(()));
    assert_eq!(rt; put_all(&mut sink, &rest), Err(Failed));
    assert_eq!(rt; room.as_slice(), b"range l".as_slice());
    Ok(())
}

#[test]
fn ends_that_never_fail_give_and_take_all(rt: HostRuntime) -> Result<(), Fail> {
    let alloc = rt.alloc();
    let mut source = NoFailSource::new(b"range locks".to_vec(alloc)?);
    let mut sink = NoFailSink::new();
    assert_eq!(rt; sink.put(b"abcd"), Ok(4));
    assert_eq!(rt; sink.taken(), 4);
    let text = read_all(alloc, &mut source, 100)?;
    assert_eq!(rt; text.as_slice(), b"range locks".as_slice());
    assert_eq!(rt; source.next(&mut [0u8; 2]), Ok(0));
    assert_eq!(rt; put_all(&mut sink, &text), Ok(()));
    assert_eq!(rt; sink.taken(), 15);
    Ok(())
}
