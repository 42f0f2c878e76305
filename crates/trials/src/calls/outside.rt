// Real files and standard output.
use edge_io::{FileShelf, OutSink, Shelf, put_whole, read_whole, write_whole};
use std::alloc::Global;
use std::fs;
use std::test::Fail;
use texts::{OutOfMemory, Text};

fn long_text(alloc: Global, pieces: u32) -> Result<Text, OutOfMemory> {
    let mut text = Text::new(alloc);
    for _ in 0..pieces {
        text.append(b"0123456789")?;
    }
    Ok(text)
}

#[test]
fn files_are_written_and_read(rt: HostRuntime) -> Result<(), Fail> {
    let path = "trials.txt";
    let text = long_text(rt.alloc(), 20_000)?;
    let mut shelf = FileShelf::new(&rt, rt.alloc());
    assert!(rt; shelf.append(path, b"x").is_err());
    assert!(rt; write_whole(&mut shelf, path, b"old").is_ok());
    assert!(rt; write_whole(&mut shelf, path, text.as_bytes()).is_ok());
    assert!(rt; shelf.append("other", b"x").is_err());
    let read = read_whole(rt.alloc(), &mut shelf, path, 200_000)?;
    assert!(rt; read.as_bytes() == text.as_bytes());
    assert!(rt; shelf.append(path, b"xy").ok() == Some(2));
    let mut last = [0u8; 3];
    assert!(rt; shelf.read_at(path, 199_999, &mut last).ok() == Some(3));
    assert!(rt; last == [b'9', b'x', b'y']);
    fs::remove_file(&rt, path)?;
    assert!(rt; shelf.read_at("missing", 0, &mut last).is_err());
    assert!(rt; shelf.start("missing/file").is_err());
    Ok(())
}

#[test]
fn standard_output_takes_a_text(rt: HostRuntime) -> Result<(), Fail> {
    assert!(rt; put_whole(&mut OutSink::new(&rt), b"given to standard output\n").is_ok());
    Ok(())
}
