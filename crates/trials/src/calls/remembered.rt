// A shelf and a sink in memory, which fail where they are told and take what fits; and one that never fails.
use edge_io::{MemShelf, MemSink, NeverFails, put_whole, read_whole, write_whole};
use std::test::Fail;

#[test]
fn a_shelf_in_memory_fails_where_it_is_told(rt: HostRuntime) -> Result<(), Fail> {
    let mut shelf = MemShelf::new(rt.alloc());
    shelf.place("in", b"abcde")?;
    shelf.make_room("out", 4)?;
    shelf.fail_call(0)?;
    assert!(rt; write_whole(&mut shelf, "out", b"xyz").is_err());
    assert!(rt; shelf.written_of("out").is_none());
    assert!(rt; write_whole(&mut shelf, "out", b"uvwxyz").is_err());
    assert!(rt; shelf.written_of("out") == Some(b"uvwx"));
    let read = read_whole(rt.alloc(), &mut shelf, "in", 5)?;
    assert!(rt; read.as_bytes() == b"abcde".as_slice());
    Ok(())
}

#[test]
fn a_sink_in_memory_takes_what_fits(rt: HostRuntime) -> Result<(), Fail> {
    let mut sink = MemSink::new(rt.alloc());
    sink.make_room(5)?;
    sink.fail_call(0)?;
    assert!(rt; put_whole(&mut sink, b"x").is_err());
    assert!(rt; put_whole(&mut sink, b"abcdef").is_err());
    assert!(rt; sink.given() == b"abcde".as_slice());
    Ok(())
}

#[test]
fn nothing_fails_over_what_never_fails(rt: HostRuntime) -> Result<(), Fail> {
    let mut shelf = NeverFails::new(rt.alloc());
    shelf.place("in", b"abc")?;
    let read = read_whole(rt.alloc(), &mut shelf, "in", 3)?;
    assert!(rt; read.as_bytes() == b"abc".as_slice());
    assert!(rt; write_whole(&mut shelf, "in", b"xyz").is_ok());
    assert!(rt; put_whole(&mut shelf, b"xyz").is_ok());
    Ok(())
}
