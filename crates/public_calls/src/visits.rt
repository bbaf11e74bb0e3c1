//! Two exchanges side by side, doors in memory as they are kept, and a reply over loopback.
use doors::{Door, Doors, GateSink, GateWire, MemDoor, MemDoors, TcpDoors};
use outside::{
    Failures, FirmSink, FirmSource, FirmWire, ListClock, Sink, Source, Wire, write_whole,
};
use std::io::{Read, Write};
use std::net::{Shutdown, TcpListener, TcpStream};
use std::sync::Arc;
use std::sync::atomic::AtomicU64;
use std::test::Fail;
use std::thread::for_each_mut;

type FirmDoor = MemDoor<FirmSource, FirmSink, FirmWire, ListClock>;

#[derive(Drop)]
struct Side {
    wire: GateWire,
    sink: GateSink,
    is_answered: bool,
}

fn serve(side: &mut Side) {
    let mut piece = [0u8; 8];
    if side.wire.dial().is_err() {
        return;
    }
    if let Ok(count) = side.wire.read(&mut piece) {
        side.is_answered = side.sink.write(&piece[..count]).is_ok();
    }
}

fn sides(rt: &HostRuntime, turns: u64) -> Result<[Side; 2], Fail> {
    let alloc = rt.alloc();
    let word = Arc::new(alloc, AtomicU64::new(0))?;
    let first = Side {
        wire: GateWire::new(
            Vec::from_slice(alloc, b"reply")?,
            Arc::try_clone(&word)?,
            true,
            turns,
        ),
        sink: GateSink::new(alloc, Arc::try_clone(&word)?, false, 5),
        is_answered: false,
    };
    let second = Side {
        wire: GateWire::new(
            Vec::from_slice(alloc, b"reply")?,
            Arc::try_clone(&word)?,
            false,
            turns,
        ),
        sink: GateSink::new(alloc, word, true, 5),
        is_answered: false,
    };
    Ok([first, second])
}

#[test]
fn exchanges_are_answered_side_by_side_alone(rt: HostRuntime) -> Result<(), Fail> {
    let mut beside = sides(&rt, 1_000_000_000)?;
    for_each_mut(
        &rt,
        &mut beside,
        2,
        &|_: usize, side: &mut Side| serve(side),
    );
    assert!(rt; beside[0].is_answered && beside[1].is_answered);
    let mut after = sides(&rt, 1_000)?;
    serve(&mut after[0]);
    serve(&mut after[1]);
    assert!(rt; !after[0].is_answered && after[0].wire.faults == 1);
    Ok(())
}

#[test]
fn doors_in_memory_are_kept(rt: HostRuntime) -> Result<(), Fail> {
    let alloc = rt.alloc();
    let door: FirmDoor = MemDoor::new(alloc, Vec::new(alloc), Failures::none(alloc))?;
    let mut doors = MemDoors::new(alloc, 0, Failures::none(alloc));
    let added = doors.add(door);
    assert!(rt; added.is_ok());
    if let Ok(all) = doors.start(alloc, "127.0.0.1:80", "127.0.0.1:81", 1, 0) {
        doors.stop(all);
    }
    assert!(rt; doors.stopped().len() == 1);
    Ok(())
}

// An address at which nobody listens.
fn free_address(rt: &HostRuntime) -> Result<String, Fail> {
    let listener = TcpListener::bind(rt, "127.0.0.1:0")?;
    Ok(format!(in rt.alloc(); "{}", listener.local_addr()?)?)
}

#[test]
fn a_reply_over_tcp_is_not_lost(rt: HostRuntime) -> Result<(), Fail> {
    let alloc = rt.alloc();
    let mut into = [0u8; 8];
    let address = free_address(&rt)?;
    let mut doors = TcpDoors::new(rt.clone()?, alloc);
    let Ok(mut all) = doors.start(alloc, address.as_str(), "127.0.0.1:1", 1, 1) else {
        return Err(Fail::new("no door was started"));
    };
    let mut client = TcpStream::connect(&rt, address.as_str())?;
    client.write_all(&[b'x'; 5000])?;
    client.shutdown(Shutdown::Write)?;
    if let Ok(Some(mut conn)) = all[0].accept() {
        assert!(rt; conn.source.read(&mut into) == Ok(8));
        assert!(rt; write_whole(&mut conn.sink, b"reply").is_ok());
        all[0].hand_back(conn, 1);
    }
    assert!(rt; client.read(&mut into)? == 5);
    assert!(rt; client.read(&mut into)? == 0);
    doors.stop(all);
    Ok(())
}
