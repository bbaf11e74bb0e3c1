//! Two exchanges that wait for each other, so that neither is answered where one is served after the other.

ghost use Rattle.std.specs.Prelude.{◌≡◌, ◌∷◌, [], All, false, IfOk};
ghost use Rattle.served_rows.specs.Fresh.{fresh_untold};

use crate::accounts::{push_closed, unserved};
use crate::case::Planned;
use crate::fault::RowFault;
use crate::gates::{Rules, gate_of};
use crate::marked::push_marked;
use crate::workers::{push_done, serve_doors};
use doors::{Conn, Door, GateSink, GateWire, MemDoor, Tells, Twins};
use gateway_workers::WorkDone;
use outside::{Failures, ListClock, MemSource};
use std::alloc::Global;
use std::sync::atomic::AtomicU64;
use std::sync::{Arc, Wait};
use std::thread::Threads;

type GateConn = Conn<MemSource, GateSink, GateWire, ListClock>;

type GateDoor = MemDoor<MemSource, GateSink, GateWire, ListClock>;

type Word = Arc<AtomicU64, Global>;

/// How often a wire looks for the other exchange.
const TURNS: u64 = 1_000_000_000;

/// An exchange that waits for another.
#[derive(Clone, Copy)]
struct Side<'a> {
    sent: &'a str,
    reply: &'a str,
    /// How many bytes the reply has that the other waits for.
    bytes: usize,
    /// Whether it waits until the other is answered, and not until the other stands at its reply.
    is_first: bool,
}

fn conn_of(alloc: Global, side: Side<'_>, word: &Word) -> Result<GateConn, RowFault>
    ensures { IfOk result (λ conn. ⟦<Conn<MemSource, GateSink, GateWire, ListClock> as Tells>⟧.told conn ≡ fresh_untold side.entry.sent.now (0 ∷ [])) }
{
    let sent = Vec::from_slice(alloc, side.sent.as_bytes())?;
    let reply = Vec::from_slice(alloc, side.reply.as_bytes())?;
    let readings = Vec::from_slice(alloc, &[0])?;
    let wire_word = Arc::try_clone(word)?;
    let sink_word = Arc::try_clone(word)?;
    Ok(Conn {
        source: MemSource::new(sent, Failures::none(alloc)),
        sink: GateSink::new(alloc, sink_word, !side.is_first, side.bytes),
        wire: GateWire::new(reply, wire_word, side.is_first, TURNS),
        clock: ListClock { readings },
    })
}

// A door with this one connection.
fn door_of(alloc: Global, side: Side<'_>, word: &Word) -> Result<GateDoor, RowFault>
    ensures { IfOk result (λ door. ⟦<MemDoor<MemSource, GateSink, GateWire, ListClock> as Door>⟧.out door ≡ false) }
{
    let give = conn_of(alloc, side, word)?;
    let keep = conn_of(alloc, side, word)?;
    let mut planned = Vec::new(alloc);
    planned.push(Twins::new(give, keep))?;
    Ok(MemDoor::new(alloc, planned, Failures::none(alloc))?)
}

fn doors_of(alloc: Global, first: Side<'_>) -> Result<Vec<GateDoor>, RowFault>
    ensures { IfOk result (λ doors. All (λ door. ⟦<MemDoor<MemSource, GateSink, GateWire, ListClock> as Door>⟧.out door ≡ false) doors.items) }
{
    let word = Arc::new(alloc, AtomicU64::new(0))?;
    let second = Side {
        is_first: false,
        ..first
    };
    let mut doors = Vec::new(alloc);
    doors.push(door_of(alloc, first, &word)?)?;
    doors.push(door_of(alloc, second, &word)?)?;
    Ok(doors)
}

fn push_door(into: &mut String, door: &GateDoor) -> Result<(), RowFault> {
    let faults = door.faults;
    write!(into, "door faults {faults}\n")?;
    for visit in door.visits() {
        let end = visit.end;
        write!(into, "end {end}\n")?;
        push_marked(into, "< ", &visit.back.sink.sink.written)?;
    }
    Ok(())
}

// Writes what workers did, and then the visits of each door.
fn push_served(into: &mut String, done: WorkDone, doors: &[GateDoor]) -> Result<(), RowFault> {
    push_done(into, done)?;
    for door in doors {
        push_door(into, door)?;
    }
    Ok(())
}

/// Serves a connection at each of two doors, the reply of which has so many bytes.
pub(crate) fn run_beside<R: Threads + Wait + Sync>(
    alloc: Global,
    rt: &R,
    rules: Rules<'_>,
    plan: &Planned<'_>,
    bytes: usize,
) -> Result<String, RowFault> {
    let side = Side {
        sent: plan.sent,
        reply: plan.replies.first().copied().unwrap_or(""),
        bytes,
        is_first: true,
    };
    let doors = doors_of(alloc, side)?;
    let (gate, mut passes) = gate_of(alloc, rules)?;
    match serve_doors(&gate, alloc, rt, &mut passes, doors) {
        Ok((done, doors)) => {
            let mut text = String::new(alloc);
            let told = push_served(&mut text, done, &doors);
            push_closed(alloc, rt, &mut text, gate, passes)?;
            told?;
            Ok(text)
        }
        Err(fault) => unserved(gate, passes, fault),
    }
}
