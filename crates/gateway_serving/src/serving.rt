//! Serving: doors are started, served by workers and stopped, and the accounts are closed.

ghost use Rattle.std.specs.Prelude.{◌≡◌, ◌≤◌, All, Some, IfOk, OnErr, length};
ghost use Rattle.account_shared.specs.Views.{Belongs};
ghost use Rattle.doors.specs.Starts.{IsNew};
ghost use Rattle.gateway_workers.specs.Tours.{door_members};
ghost use Rattle.gateway_workers.specs.Decisions.{rules_of, AreFresh, service_of};
ghost use Rattle.gateway_workers.specs.declared.serving.TheConstants.{WORKER_LIMIT};
ghost use Rattle.gateway_workers.specs.declared.working.TheConstants.{CONNECTION_LIMIT};
ghost use Rattle.gateway_serving.specs.Telling.{doors_told, asked_of};
ghost use Rattle.gateway_serving.specs.Ends.{WasServed, WasUnserved, ComesTo};

use crate::asked::Serving;
use crate::ending::{ServeEnd, ServeFault};
use account_shared::Passes;
use doors::{Doors, StartFault};
use gateway_workers::{Gate, close, serve_workers};
use std::alloc::{AllocError, Global};
use std::sync::Wait;
use std::thread::Threads;

// Serves doors that were just started, stops them, and closes the accounts.
fn serve_started<D: Doors, R: Threads + Wait + Sync>(
    alloc: Global,
    rt: &R,
    gate: Gate,
    mut passes: Passes,
    doors: &mut D,
    started: Vec<D::D>,
    serving: &Serving<'_>,
) -> Result<ServeEnd, AllocError>
    requires belong { Belongs passes gate.accounts }
    requires fresh { AreFresh (rules_of gate) passes }
    requires count { length started.items ≡ serving.now.workers }
    requires running { D.running doors.old ≡ serving.now.workers }
    requires new { All (IsNew (door_members D.D.Door) serving.now.connections) started.items }
    requires asked { D.asked doors.old ≡ Some (asked_of serving.now) }
    requires workers { (1 ≤ serving.now.workers) × (serving.now.workers ≤ WORKER_LIMIT) }
    requires connections { serving.now.connections ≤ CONNECTION_LIMIT }
    ensures idle { D.running doors.new ≡ 0 }
    ensures served { IfOk result (WasServed (service_of gate) serving.now (doors_told D.Doors doors.old) (doors_told D.Doors doors.new)) }
    ensures memory { OnErr result (WasUnserved serving.now (doors_told D.Doors doors.old) (doors_told D.Doors doors.new)) }
{
    match serve_workers(&gate, alloc, rt, &mut passes, started, serving.connections) {
        Ok((done, back)) => {
            doors.stop(back);
            let totals = close(gate, rt, passes);
            Ok(ServeEnd { done, totals })
        }
        Err((back, AllocError)) => {
            doors.stop(back);
            Err(AllocError)
        }
    }
}

/// Serves the clients of a gate whose accounts are fresh: starts a door for each worker, serves each until it has given its
/// connections or has failed, stops all of them, and closes the accounts. Doors that were started are stopped whatever it comes
/// to.
///
/// It may wait for the steps of other workers. Where no thread can be had, the doors are served one after the other.
///
/// # Errors
///
/// `NotStarted` where the doors could not be started, and `Memory` where there was not enough memory, all of which is taken
/// before the first connection. Then nobody was served.
pub fn serve<D: Doors, R: Threads + Wait + Sync>(
    alloc: Global,
    rt: &R,
    gate: Gate,
    passes: Passes,
    doors: &mut D,
    serving: &Serving<'_>,
) -> Result<ServeEnd, ServeFault>
    requires belong { Belongs passes gate.accounts }
    requires fresh { AreFresh (rules_of gate) passes }
    requires idle { D.running doors.old ≡ 0 }
    requires workers { (1 ≤ serving.now.workers) × (serving.now.workers ≤ WORKER_LIMIT) }
    requires connections { serving.now.connections ≤ CONNECTION_LIMIT }
    ensures idle { D.running doors.new ≡ 0 }
    ensures came_to { ComesTo (service_of gate) serving.now (doors_told D.Doors doors.old) (doors_told D.Doors doors.new) result }
{
    let started = match doors.start(
        alloc,
        serving.listen,
        serving.upstream,
        serving.workers,
        serving.connections,
    ) {
        Ok(started) => started,
        Err(StartFault::Failed) => return Err(ServeFault::NotStarted),
        Err(StartFault::Memory) => return Err(ServeFault::Memory),
    };
    match serve_started(alloc, rt, gate, passes, doors, started, serving) {
        Ok(end) => Ok(end),
        Err(AllocError) => Err(ServeFault::Memory),
    }
}
