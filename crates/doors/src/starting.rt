//! What starts the doors of a program, and stops them.

ghost use Rattle.std.specs.Prelude.{◌≡◌, ◌≢◌, ◌≤◌, ◌+◌, ◌++◌, [], ℕ, IsTrue, vec_len, vec_capacity, List, Option, Some, Err, All, IfOk, OnOk, OnErr, length, map, option_map};
ghost use Rattle.outside.specs.Faults.{Rose};
ghost use Rattle.doors.specs.Starts.{Asked, IsNew, Stopped, members, connections_of, stopped_by};
ghost use Rattle.doors.specs.Kept.{asked_by, stopped_door};

use crate::door::Door;
use std::alloc::{AllocError, Global};
use std::mem;
use thiserror::Error;

/// Why no doors were started.
#[derive(Clone, Copy, Debug, Drop, PartialEq, Eq, Error)]
pub enum StartFault {
    /// They could not be started. The count of faults rose.
    #[error("the doors were not started")]
    Failed,
    /// Memory was wanting.
    #[error("memory was wanting")]
    Memory,
}

/// What starts doors, one a worker, and stops them.
pub trait Doors {
    /// A door of one worker.
    type D: Door + Send;

    /// The count of starts that failed, which never falls.
    ghost faults: { Self → ℕ };
    /// What the doors were started with last, if they were.
    ghost asked: { Self → Option Asked };
    /// How many doors are started and not stopped.
    ghost running: { Self → ℕ };
    /// The doors that were stopped, in order.
    ghost stopped: { Self → List Stopped };

    /// Starts a door for each of `workers`, each for `connections` connections of clients that call at `listen`.
    /// Each has a wire to `upstream`. Both are addresses, `HOST:PORT`. The room that `stop` will want is taken.
    fn start(
        &mut self,
        alloc: Global,
        listen: &str,
        upstream: &str,
        workers: u32,
        connections: u32,
    ) -> Result<Vec<Self::D>, StartFault>
        requires idle { running self.old ≡ 0 }
        ensures started { IfOk result (λ doors. (length doors.items ≡ workers) × (running self.new ≡ workers)) }
        ensures new { IfOk result (λ doors. All (IsNew (members Self.D.out Self.D.to_come Self.D.faults Self.D.visits) connections) doors.items) }
        ensures asked { OnOk result (asked self.new ≡ Some (record {
          listen = listen.now;
          upstream = upstream.now;
          workers = workers;
          connections = connections;
        })) }
        ensures refused { OnErr result ((asked self.new ≡ asked self.old) × (running self.new ≡ 0)) }
        ensures stopped { stopped self.new ≡ stopped self.old }
        ensures count { faults self.old ≤ faults self.new }
        ensures cause { result ≡ Err StartFault.Failed → Rose (faults self.old) (faults self.new) }
        ensures still { result ≢ Err StartFault.Failed → faults self.new ≡ faults self.old };

    /// Stops the doors that run. It takes no memory.
    fn stop(&mut self, doors: Vec<Self::D>)
        requires running { running self.old ≡ length doors.items }
        ensures idle { running self.new ≡ 0 }
        ensures stopped { stopped self.new ≡ stopped self.old
            ++ map (stopped_by (members Self.D.out Self.D.to_come Self.D.faults Self.D.visits) (connections_of (asked self.old))) doors.items }
        ensures asked { asked self.new ≡ asked self.old }
        ensures count { faults self.new ≡ faults self.old };
}

/// What doors were started with.
#[derive(Drop)]
pub struct StartWords {
    pub listen: String,
    pub upstream: String,
    pub workers: u32,
    pub connections: u32,
}

impl StartWords {
    pub(crate) fn copy(
        alloc: Global,
        listen: &str,
        upstream: &str,
        workers: u32,
        connections: u32,
    ) -> Result<StartWords, AllocError>
        ensures { IfOk result (λ words. asked_by words ≡ record {
          listen = listen.now;
          upstream = upstream.now;
          workers = workers;
          connections = connections;
        }) }
    {
        Ok(StartWords {
            listen: String::from_str(alloc, listen)?,
            upstream: String::from_str(alloc, upstream)?,
            workers,
            connections,
        })
    }
}

// How many connections each door was to give.
fn asked_connections(words: &Option<StartWords>) -> u32
    ensures { result ≡ connections_of (option_map asked_by words.now) }
{
    match words {
        Some(words) => words.connections,
        None => 0,
    }
}

/// What is kept of a door that was stopped.
#[derive(Drop)]
pub struct StoppedDoor<D: Drop> {
    /// The door, or what stays of it.
    pub door: D,
    /// How many connections it was to give.
    pub connections: u32,
}

// Makes room for so many doors more that are stopped.
pub(crate) fn makes_room<D: Drop>(stopped: &mut Vec<StoppedDoor<D>>, count: usize) -> bool
    ensures room { IsTrue result → vec_len stopped.new + count ≤ vec_capacity stopped.new }
    ensures items { stopped.new.items ≡ stopped.old.items }
    ensures len { vec_len stopped.new ≡ vec_len stopped.old }
    ensures capacity { vec_capacity stopped.old ≤ vec_capacity stopped.new }
{
    stopped.reserve(count).is_ok()
}

// Keeps these doors, in order. The room for them is there.
fn keep_each<D: Drop>(stopped: &mut Vec<StoppedDoor<D>>, mut doors: Vec<D>, connections: u32)
    requires room { vec_len stopped.old + length doors.items ≤ vec_capacity stopped.old }
    ensures kept { stopped.new.items ≡ stopped.old.items ++ map (stopped_door connections) doors.items }
    ensures room { vec_capacity stopped.new ≡ vec_capacity stopped.old }
    ensures count { vec_len stopped.new ≡ vec_len stopped.old + length doors.items }
{
    'doors: while !doors.is_empty() {
        let door = doors.remove(0);
        stopped.push_reserved(StoppedDoor { door, connections });
    }
}

// Keeps these doors, in order, with how many connections each was to give. The room for them is there.
pub(crate) fn keep_stopped<D: Drop>(
    stopped: &mut Vec<StoppedDoor<D>>,
    doors: Vec<D>,
    asked: &Option<StartWords>,
)
    requires room { vec_len stopped.old + length doors.items ≤ vec_capacity stopped.old }
    ensures kept { stopped.new.items ≡ stopped.old.items
        ++ map (stopped_door (connections_of (option_map asked_by asked.now))) doors.items }
    ensures room { vec_capacity stopped.new ≡ vec_capacity stopped.old }
    ensures count { vec_len stopped.new ≡ vec_len stopped.old + length doors.items }
{
    let connections = asked_connections(asked);
    keep_each(stopped, doors, connections);
}

// Gives all doors, and leaves none.
pub(crate) fn take_all<D: Drop>(doors: &mut Vec<D>, alloc: Global) -> Vec<D>
    ensures all { result ≡ doors.old }
    ensures items { result.items ≡ doors.old.items }
    ensures none { doors.new.items ≡ [] }
{
    mem::replace(doors, Vec::new(alloc))
}
