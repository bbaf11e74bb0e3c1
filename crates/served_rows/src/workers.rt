//! Doors that are served by workers.

ghost use Rattle.std.specs.Prelude.{◌≡◌, [], All, false, IfOk, OnOk};
ghost use Rattle.account_shared.specs.Views.{Belongs, IsIdle, first_label};

use crate::accounts::{push_closed, unserved};
use crate::case::{Planned, PlannedDoor};
use crate::fault::RowFault;
use crate::gates::{Rules, gate_of};
use crate::memory::{conn_of, failing, push_conn, sent_of};
use account_shared::Passes;
use doors::{Door, MemDoor, Twins};
use gateway_core::Gate;
use gateway_workers::{WorkDone, serve_workers};
use outside::{ListClock, MemSink, MemSource, MemWire};
use std::alloc::{AllocError, Global};
use std::sync::Wait;
use std::thread::Threads;

type MemTwins = Twins<MemSource, MemSink, MemWire, ListClock>;

type RowDoor = MemDoor<MemSource, MemSink, MemWire, ListClock>;

/// How many doors a row has at most.
const DOORS: usize = 16;

/// How many connections of each door are served at most.
const CONNECTIONS: u32 = 1000;

/// Serves doors by workers.
pub(crate) fn serve_doors<D: Door + Send, R: Threads + Wait + Sync>(
    gate: &Gate,
    alloc: Global,
    rt: &R,
    passes: &mut Passes,
    doors: Vec<D>,
) -> Result<(WorkDone, Vec<D>), RowFault>
    requires belong { Belongs passes.old gate.now.accounts }
    requires idle { IsIdle passes.old }
    requires first { passes.old.label ≡ first_label }
    requires free { All (λ d. D.out d ≡ false) doors.items }
    ensures belong { Belongs passes.new gate.now.accounts }
    ensures idle { OnOk result (IsIdle passes.new) }
    ensures first { OnOk result ((passes.new.label.name ≡ 0) × (passes.new.label.out ≡ [])) }
{
    if doors.is_empty() || doors.len() > DOORS {
        return Err(RowFault::Wrong("a row has 1 to 16 doors"));
    }
    match serve_workers(gate, alloc, rt, passes, doors, CONNECTIONS) {
        Ok(served) => Ok(served),
        Err((_, AllocError)) => Err(RowFault::Memory),
    }
}

// A connection of a door, twice.
fn twins_of(alloc: Global, plan: &Planned<'_>) -> Result<MemTwins, RowFault> {
    let sent = sent_of(plan, 0);
    let give = conn_of(alloc, sent, plan, 0)?;
    let keep = conn_of(alloc, sent, plan, 0)?;
    Ok(Twins::new(give, keep))
}

fn door_of(alloc: Global, plan: &PlannedDoor<'_>) -> Result<RowDoor, RowFault>
    ensures { IfOk result (λ door. ⟦<MemDoor<MemSource, MemSink, MemWire, ListClock> as Door>⟧.out door ≡ false) }
{
    let mut planned = Vec::new(alloc);
    for connection in &plan.connections {
        planned.push(twins_of(alloc, connection)?)?;
    }
    Ok(MemDoor::new(alloc, planned, failing(alloc, plan.fails)?)?)
}

fn doors_of(alloc: Global, plans: &[PlannedDoor<'_>]) -> Result<Vec<RowDoor>, RowFault>
    ensures { IfOk result (λ doors. All (λ door. ⟦<MemDoor<MemSource, MemSink, MemWire, ListClock> as Door>⟧.out door ≡ false) doors.items) }
{
    let mut doors = Vec::new(alloc);
    'plans: for plan in plans {
        doors.push(door_of(alloc, plan)?)?;
    }
    Ok(doors)
}

/// Writes the counts of what workers did.
pub(crate) fn push_done(into: &mut String, done: WorkDone) -> Result<(), AllocError> {
    let connections = done.connections;
    let exchanges = done.exchanges;
    let faults = done.faults;
    write!(
        into,
        "connections {connections} exchanges {exchanges} faults {faults}\n"
    )
}

fn push_door(into: &mut String, door: &RowDoor) -> Result<(), RowFault> {
    let faults = door.faults;
    write!(into, "door faults {faults}\n")?;
    for visit in door.visits() {
        let end = visit.end;
        write!(into, "end {end}\n")?;
        push_conn(into, &visit.back)?;
    }
    Ok(())
}

// Writes what workers did, and then the visits of each door.
fn push_served(into: &mut String, done: WorkDone, doors: &[RowDoor]) -> Result<(), RowFault> {
    push_done(into, done)?;
    for door in doors {
        push_door(into, door)?;
    }
    Ok(())
}

/// Serves the doors of a row by workers.
pub(crate) fn run_by_workers<R: Threads + Wait + Sync>(
    alloc: Global,
    rt: &R,
    rules: Rules<'_>,
    plans: &[PlannedDoor<'_>],
) -> Result<String, RowFault> {
    let doors = doors_of(alloc, plans)?;
    let (gate, mut passes) = gate_of(alloc, rules)?;
    match serve_doors(&gate, alloc, rt, &mut passes, doors) {
        Ok((done, doors)) => {
            let mut text = String::new(alloc);
            let told = push_served(&mut text, done, &doors);
            push_closed(alloc, rt, &mut text, gate, passes)?;
            told?;
            Ok(text)
        }
        Err(fault) => unserved(gate, passes, fault),
    }
}
