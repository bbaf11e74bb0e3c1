//! Forms of the outside in memory as no row uses them, and the adapters over the system.

use outside::{
    Clock, DialFault, Failures, FileFault, Files, FirmSink, FirmSource, MemFile, MemFiles, Sink,
    Source, StdFiles, StdSink, StdSource, SystemClock, TcpWire, Wire, WriteFault, write_whole,
};
use std::alloc::Global;
use std::fs;
use std::net::TcpListener;
use std::test::Fail;

// A name, a limit, the bytes that are read, and the faults so far. The fifth call is to fail.
const READS: &[(&str, usize, &str, u64)] = &[
    ("schema.graphql", 10, "type Query", 0),
    ("schema.graphql", 9, "type Query", 0),
    ("schema.graphql", 3, "type", 0),
    ("other", 10, "a fault", 1),
    ("schema.graphql", 10, "a fault", 2),
    ("schema.graphql", 10, "type Query", 2),
];

// A limit, and how many bytes are read of 13,000.
const LIMITS: &[(usize, usize)] = &[
    (13_001, 13_000),
    (13_000, 13_000),
    (12_999, 13_000),
    (12_998, 12_999),
    (0, 1),
];

fn schema_file(alloc: Global) -> Result<MemFiles, Fail> {
    let mut files = Vec::new(alloc);
    files.push(MemFile {
        name: String::from_str(alloc, "schema.graphql")?,
        content: Vec::from_slice(alloc, b"type Query")?,
    })?;
    let failing = Vec::from_slice(alloc, &[4])?;
    Ok(MemFiles::new(files, Failures::of(failing)))
}

#[test]
fn files_in_memory_fail_in_turn(rt: HostRuntime) -> Result<(), Fail> {
    let alloc = rt.alloc();
    let mut files = schema_file(alloc)?;
    for (name, limit, content, faults) in READS {
        let is_read = match files.read(alloc, name, *limit) {
            Ok(read) => read.as_slice() == content.as_bytes(),
            Err(fault) => fault == FileFault::Failed && *content == "a fault",
        };
        assert!(rt; is_read && files.faults == *faults);
    }
    Ok(())
}

#[test]
fn firm_streams_are_read_and_written(rt: HostRuntime) -> Result<(), Fail> {
    let mut into = [0u8; 8];
    let mut source = FirmSource::new(Vec::from_slice(rt.alloc(), b"POST")?);
    assert!(rt; source.read(&mut into) == Ok(4) && !source.ended);
    assert!(rt; source.read(&mut into) == Ok(0) && source.ended);
    assert!(rt; write_whole(&mut FirmSink, b"anything").is_ok());
    Ok(())
}

// A text that several calls of the system give, whose bytes change from place to place.
fn long_text(alloc: Global) -> Result<Vec<u8>, Fail> {
    let mut text = Vec::new(alloc);
    for place in 0..13_000u32 {
        text.push((place % 251) as u8)?;
    }
    Ok(text)
}

#[test]
fn files_of_the_system_are_read_to_the_limit(rt: HostRuntime) -> Result<(), Fail> {
    let alloc = rt.alloc();
    let text = long_text(alloc)?;
    fs::write(&rt, "long", &text)?;
    let mut files = StdFiles::new(rt.clone()?);
    for (limit, length) in LIMITS {
        let read = files.read(alloc, "long", *limit)?;
        assert!(rt; read.len() == *length && text.as_slice().starts_with(&read));
    }
    fs::remove_file(&rt, "long")?;
    assert!(rt; files.read(alloc, "long", 9).err() == Some(FileFault::Failed));
    Ok(())
}

#[test]
fn streams_of_the_system_are_read_and_take_nothing(rt: HostRuntime) -> Result<(), Fail> {
    let mut into = [0u8; 8];
    fs::write(&rt, "short", b"a file")?;
    let mut source = StdSource::new(fs::open(&rt, "short")?);
    assert!(rt; source.read(&mut into) == Ok(6));
    assert!(rt; source.read(&mut into) == Ok(0));
    let mut sink = StdSink::new(fs::open(&rt, "short")?);
    assert!(rt; sink.write(b"2.000") == Err(WriteFault));
    fs::remove_file(&rt, "short")?;
    Ok(())
}

#[test]
fn a_writer_without_room_is_a_fault(rt: HostRuntime) {
    let mut room = [b' '; 3];
    let mut narrow = StdSink::new(room.as_mut_slice());
    assert!(rt; write_whole(&mut narrow, b"2.000") == Err(WriteFault));
    assert!(rt; &room == b"2.0");
}

#[test]
fn the_clock_runs_and_nobody_answers(rt: HostRuntime) -> Result<(), Fail> {
    assert!(rt; 1_700_000_000 < SystemClock::new(rt.clone()?).seconds());
    let listener = TcpListener::bind(&rt, "127.0.0.1:0")?;
    let address = format!(in rt.alloc(); "{}", listener.local_addr()?)?;
    drop(listener);
    let mut wire = TcpWire::new(rt.clone()?, address);
    assert!(rt; wire.dial() == Err(DialFault));
    Ok(())
}
