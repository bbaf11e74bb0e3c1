//! The doors that rows have: two or four, in memory.

ghost use Rattle.std.specs.Prelude.{◌≡◌, IfOk, string_bytes};
ghost use Rattle.worked_rows.specs.Fresh.{fresh_told};

use doors::{Conn, MemDoor, MemDoors, Tells, Twins};
use outside::{Failures, ListClock, MemSink, MemSource, MemWire};
use std::alloc::{AllocError, Global};

type RowConn = Conn<MemSource, MemSink, MemWire, ListClock>;

type RowDoors = MemDoors<MemSource, MemSink, MemWire, ListClock>;

/// What a client sends on a connection, and what the upstream replies.
#[derive(Drop)]
pub(crate) struct Exchange {
    pub(crate) request: String,
    pub(crate) reply: String,
}

// A connection on which the client sends its request and then ends. The request is read 420 seconds after 1970 began.
fn conn_of(alloc: Global, exchange: &Exchange) -> Result<RowConn, AllocError>
    ensures { IfOk result (λ conn. ⟦<Conn<MemSource, MemSink, MemWire, ListClock> as Tells>⟧.told conn ≡ fresh_told (string_bytes exchange.now.request) 420) }
{
    let sent = Vec::from_slice(alloc, exchange.request.as_bytes())?;
    let mut replies = Vec::new(alloc);
    replies.push(Vec::from_slice(alloc, exchange.reply.as_bytes())?)?;
    Ok(Conn {
        source: MemSource::new(sent, Failures::none(alloc)),
        sink: MemSink::new(alloc, Failures::none(alloc)),
        wire: MemWire::new(alloc, replies, Failures::none(alloc), Failures::none(alloc)),
        clock: ListClock {
            readings: Vec::from_slice(alloc, &[420])?,
        },
    })
}

// Adds a door with one such connection, and with these failures.
fn add_door(
    alloc: Global,
    exchange: &Exchange,
    doors: &mut RowDoors,
    failures: Failures,
) -> Result<(), AllocError>
    ensures { doors.new.running ≡ doors.old.running }
{
    let give = conn_of(alloc, exchange)?;
    let keep = conn_of(alloc, exchange)?;
    let mut planned = Vec::new(alloc);
    planned.push(Twins::new(give, keep))?;
    let door = MemDoor::new(alloc, planned, failures)?;
    doors.add(door).map_err(|_| AllocError)
}

// What starts one door for a connection, and nothing else.
fn one_door(alloc: Global, exchange: &Exchange) -> Result<RowDoors, AllocError>
    ensures { IfOk result (λ doors. doors.running ≡ 0) }
{
    let mut doors = MemDoors::new(alloc, 1, Failures::none(alloc));
    add_door(alloc, exchange, &mut doors, Failures::none(alloc))?;
    Ok(doors)
}

// What starts two doors for a connection each, and nothing else. The second one fails, or none does.
fn two_doors(alloc: Global, exchange: &Exchange, fails: bool) -> Result<RowDoors, AllocError>
    ensures { IfOk result (λ doors. doors.running ≡ 0) }
{
    let failures = if fails {
        Failures::of(Vec::from_slice(alloc, &[0])?)
    } else {
        Failures::none(alloc)
    };
    let mut doors = MemDoors::new(alloc, 1, Failures::none(alloc));
    add_door(alloc, exchange, &mut doors, Failures::none(alloc))?;
    add_door(alloc, exchange, &mut doors, failures)?;
    Ok(doors)
}

/// What starts the doors of a row with this mark, for a connection each, and nothing else: one where it begins with `j`, four where it
/// is `*`, and else two, of which the second fails where it is `!`.
pub(crate) fn doors_for(
    alloc: Global,
    exchange: &Exchange,
    mark: &str,
) -> Result<RowDoors, AllocError>
    ensures { IfOk result (λ doors. doors.running ≡ 0) }
{
    if mark.starts_with('j') {
        return one_door(alloc, exchange);
    }
    let mut doors = two_doors(alloc, exchange, mark == "!")?;
    if mark == "*" {
        add_door(alloc, exchange, &mut doors, Failures::none(alloc))?;
        add_door(alloc, exchange, &mut doors, Failures::none(alloc))?;
    }
    Ok(doors)
}

// Adds the lines of a head, with a mark before each.
fn push_head(into: &mut Vec<u8>, mark: &[u8], message: &[u8]) -> Result<(), AllocError> {
    for line in message.split(|byte| *byte == b'\n') {
        let line = line.trim_ascii_end();
        if line.is_empty() {
            return Ok(());
        }
        into.extend_from_slice(mark)?;
        into.extend_from_slice(line)?;
        into.push(b'\n')?;
    }
    Ok(())
}

/// Adds the heads of what each worker sent to the upstream, and of what it replied.
pub(crate) fn push_heads(into: &mut Vec<u8>, doors: &RowDoors) -> Result<(), AllocError> {
    for stopped in doors.stopped() {
        for visit in stopped.door.visits() {
            if let Some(dial) = &visit.back.wire.latest {
                push_head(into, b"^ ", &dial.sent)?;
            }
            push_head(into, b"< ", &visit.back.sink.written)?;
        }
    }
    Ok(())
}
