//! Serving doors, by a worker for each.

ghost use Rattle.std.specs.Prelude.{◌≡◌, ◌≤◌, ◌<◌, All, false, length, IfOk, IfErr};
ghost use Rattle.account_shared.specs.Views.{Belongs};
ghost use Rattle.gateway_connections.specs.Exchanges.{service_of};
ghost use Rattle.gateway_workers.specs.Tours.{door_members};
ghost use Rattle.gateway_workers.specs.Joins.{GivesBack};
ghost use Rattle.gateway_workers.specs.Workers.{Waits, Worked, AllWorked, Serves};

use crate::joining::{join_all, split_all};
use crate::pairing::{added_up, pair, part};
use crate::work_done::WorkDone;
use crate::worker::Worker;
use crate::working::{CONNECTION_LIMIT, work};
use account_shared::Passes;
use doors::Door;
use gateway_connections::Gate;
use std::alloc::{AllocError, Global};
use std::sync::Wait;
use std::thread::{Threads, for_each_mut};

/// How many doors are served side by side at most.
pub const WORKER_LIMIT: usize = 16;

// All workers side by side. Where no thread can be had, one does the work of several.
fn run_slice<D: Door + Send, R: Threads + Wait + Sync>(
    gate: &Gate,
    alloc: Global,
    rt: &R,
    workers: &mut [Worker<D>],
    most: u32,
)
    requires most { most ≤ CONNECTION_LIMIT }
    requires waits { All (Waits (door_members D.Door) gate.now.accounts) workers.old }
    ensures { AllWorked (door_members D.Door) (service_of gate.now) gate.now.accounts most workers.old workers.new }
{
    let one = |_place: usize, worker: &mut Worker<D>|
        requires { (most ≤ CONNECTION_LIMIT) × Waits (door_members D.Door) gate.now.accounts worker.now }
        ensures { Worked (door_members D.Door) (service_of gate.entry.now) gate.entry.now.accounts most worker.entry.now worker.exit.now }
    { work(gate, alloc, rt, worker, most) };
    for_each_mut(rt, workers, WORKER_LIMIT, &one);
}

// The same of a vector, whose length stays.
fn run_all<D: Door + Send, R: Threads + Wait + Sync>(
    gate: &Gate,
    alloc: Global,
    rt: &R,
    workers: &mut Vec<Worker<D>>,
    most: u32,
)
    requires most { most ≤ CONNECTION_LIMIT }
    requires waits { All (Waits (door_members D.Door) gate.now.accounts) workers.old.items }
    ensures count { length workers.new.items ≡ length workers.old.items }
    ensures worked { AllWorked (door_members D.Door) (service_of gate.now) gate.now.accounts most workers.old.items workers.new.items }
{
    run_slice(gate, alloc, rt, workers.as_mut_slice(), most);
}

/// Serves doors side by side, each by a worker of its own, through passes that are split off the first ones and joined again at
/// the end. Each worker takes the connections of its door one after the other, and hands each back with the number of its end,
/// until the door gives none, fails, or has given so many.
///
/// It may wait for the steps of other workers. Where no thread can be had, the doors are served one after the other.
///
/// # Errors
///
/// The doors come back unserved where there was not enough memory, which is taken before the first connection.
pub fn serve_workers<D: Door + Send, R: Threads + Wait + Sync>(
    gate: &Gate,
    alloc: Global,
    rt: &R,
    passes: &mut Passes,
    mut doors: Vec<D>,
    connections: u32,
) -> Result<(WorkDone, Vec<D>), (Vec<D>, AllocError)>
    requires belong { Belongs passes.old gate.now.accounts }
    requires first { passes.old.label.name ≡ 0 }
    requires some { 0 < length doors.items }
    requires few { length doors.items ≤ WORKER_LIMIT }
    requires free { All (λ d. D.out d ≡ false) doors.items }
    requires most { connections ≤ CONNECTION_LIMIT }
    ensures belong { Belongs passes.new gate.now.accounts }
    ensures served { IfOk result (λ r. Serves (door_members D.Door) (service_of gate.now) connections passes.old doors.items passes.new r.0 r.1.items) }
    ensures memory { IfErr result (λ r. GivesBack doors.items r.0.items passes.old passes.new) }
{
    let count = doors.len();
    let mut workers = match Vec::with_capacity(alloc, count) {
        Ok(workers) => workers,
        Err(_) => return Err((doors, AllocError)),
    };
    let mut split = match Vec::with_capacity(alloc, count) {
        Ok(split) => split,
        Err(_) => return Err((doors, AllocError)),
    };
    if split_all(gate, alloc, passes, &mut split, count).is_err() {
        join_all(gate, rt, passes, &mut split);
        return Err((doors, AllocError));
    }
    pair(&mut doors, &mut split, &mut workers);
    run_all(gate, alloc, rt, &mut workers, connections);
    let done = added_up(workers.as_slice());
    part(&mut doors, &mut split, &mut workers);
    join_all(gate, rt, passes, &mut split);
    Ok((done, doors))
}
