//! Doors in memory, started and stopped together.

ghost use Rattle.std.specs.Prelude.{◌≡◌, ◌+◌, ◌-◌, ◌≤◌, ◌++◌, ◌∷◌, [], Some, None, All, OnOk, OnErr, false, is_some, length, map, vec_len, vec_capacity, option_map};
ghost use Rattle.doors.specs.Starts.{members, connections_of, stopped_by};
ghost use Rattle.doors.specs.Kept.{asked_by, told_stopped};

use crate::door::Door;
use crate::mem_door::MemDoor;
use crate::starting::{
    Doors, StartFault, StartWords, StoppedDoor, keep_stopped, makes_room, take_all,
};
use outside::{Clock, Failures, Sink, Source, Wire};
use std::alloc::Global;

/// Doors in memory. They are started once, for the numbers that they were made with.
#[derive(Drop)]
pub struct MemDoors<S: Source + Drop, K: Sink + Drop, W: Wire + Drop, C: Clock + Drop> {
    /// How many connections each door gives.
    connections: u32,
    /// The doors to start, none of which was used.
    doors: Vec<MemDoor<S, K, W, C>>,
    asked: Option<StartWords>,
    running: usize,
    stopped: Vec<StoppedDoor<MemDoor<S, K, W, C>>>,
    /// The calls of `start` so far, and those that are to fail.
    pub starts: Failures,
    /// The count of faults: of starts that were to fail, and of those that asked for other numbers.
    pub faults: u64,
    ghost unused: { All (λ door. (is_some door.kept ≡ false) × (length door.planned.items ≡ connections)
        × (door.faults ≡ 0) × (length door.past.items ≡ 0)) doors.items },
    ghost room: { vec_len stopped + running ≤ vec_capacity stopped },
}

impl<S: Source + Drop, K: Sink + Drop, W: Wire + Drop, C: Clock + Drop> MemDoors<S, K, W, C> {
    /// No door so far, each to come is for so many connections, and these failures of `start`.
    pub fn new(alloc: Global, connections: u32, starts: Failures) -> MemDoors<S, K, W, C>
        ensures connections { result.connections ≡ connections }
        ensures doors { result.doors.items ≡ [] }
        ensures asked { result.asked ≡ None }
        ensures running { result.running ≡ 0 }
        ensures stopped { result.stopped.items ≡ [] }
        ensures starts { result.starts ≡ starts }
        ensures faults { result.faults ≡ 0 }
    {
        MemDoors {
            connections,
            doors: Vec::new(alloc),
            asked: None,
            running: 0,
            stopped: Vec::new(alloc),
            starts,
            faults: 0,
        }
    }

    /// Adds a door. One that was used, or is for another number of connections, is given back, and so is one for
    /// which memory is wanting.
    pub fn add(&mut self, door: MemDoor<S, K, W, C>) -> Result<(), MemDoor<S, K, W, C>>
        ensures added { OnOk result (self.new.doors.items ≡ self.old.doors.items ++ door ∷ []) }
        ensures unused { OnOk result ((is_some door.kept ≡ false) × (length door.planned.items ≡ self.old.connections)
            × (door.faults ≡ 0) × (length door.past.items ≡ 0)) }
        ensures same { OnErr result (self.new.doors.items ≡ self.old.doors.items) }
        ensures started { (self.new.running ≡ self.old.running) × (self.new.asked ≡ self.old.asked)
            × (self.new.stopped ≡ self.old.stopped) }
        ensures others { (self.new.connections ≡ self.old.connections) × (self.new.starts ≡ self.old.starts)
            × (self.new.faults ≡ self.old.faults) }
    {
        if !door.is_new(self.connections) {
            return Err(door);
        }
        match self.doors.push(door) {
            Ok(()) => Ok(()),
            Err(failed) => Err(failed.value),
        }
    }

    /// The doors that were stopped, in order.
    pub fn stopped(&self) -> &[StoppedDoor<MemDoor<S, K, W, C>>]
        ensures { result.now ≡ self.now.stopped.items }
    {
        self.stopped.as_slice()
    }
}

impl<
    S: Source + Drop + Send,
    K: Sink + Drop + Send,
    W: Wire + Drop + Send,
    C: Clock + Drop + Send,
> Doors for MemDoors<S, K, W, C> {
    type D = MemDoor<S, K, W, C>;

    ghost faults = { λ doors. doors.faults };

    ghost asked = { λ doors. option_map asked_by doors.asked };

    ghost running = { λ doors. doors.running };

    ghost stopped = { λ doors. map (told_stopped (members ⟦<MemDoor<S, K, W, C> as Door>⟧.out ⟦<MemDoor<S, K, W, C> as Door>⟧.to_come
        ⟦<MemDoor<S, K, W, C> as Door>⟧.faults ⟦<MemDoor<S, K, W, C> as Door>⟧.visits)) doors.stopped.items };

    fn start(
        &mut self,
        alloc: Global,
        listen: &str,
        upstream: &str,
        workers: u32,
        connections: u32,
    ) -> Result<Vec<MemDoor<S, K, W, C>>, StartFault> {
        let fails = self.starts.next_fails();
        let count = self.doors.len();
        if fails || count != workers as usize || self.connections != connections {
            self.faults = self.faults.saturating_add(1);
            return Err(StartFault::Failed);
        }
        let Ok(words) = StartWords::copy(alloc, listen, upstream, workers, connections) else {
            return Err(StartFault::Memory);
        };
        if !makes_room(&mut self.stopped, count) {
            return Err(StartFault::Memory);
        }
        self.asked = Some(words);
        self.running = count;
        Ok(take_all(&mut self.doors, alloc))
    }

    fn stop(&mut self, doors: Vec<MemDoor<S, K, W, C>>)
        requires running { self.old.running ≡ length doors.items }
        ensures idle { self.new.running ≡ 0 }
        ensures stopped { ⟦<MemDoors<S, K, W, C> as Doors>⟧.stopped self.new ≡ ⟦<MemDoors<S, K, W, C> as Doors>⟧.stopped self.old
            ++ map (stopped_by (members ⟦<MemDoor<S, K, W, C> as Door>⟧.out ⟦<MemDoor<S, K, W, C> as Door>⟧.to_come ⟦<MemDoor<S, K, W, C> as Door>⟧.faults ⟦<MemDoor<S, K, W, C> as Door>⟧.visits)
            (connections_of (option_map asked_by self.old.asked))) doors.items }
        ensures asked { self.new.asked ≡ self.old.asked }
        ensures count { self.new.faults ≡ self.old.faults }
    {
        keep_stopped(&mut self.stopped, doors, &self.asked);
        self.running = 0;
    }
}
