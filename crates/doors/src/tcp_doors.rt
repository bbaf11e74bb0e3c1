//! Doors over TCP, started and stopped together.

ghost use Rattle.std.specs.Prelude.{◌≡◌, ◌+◌, ◌*◌, ◌<◌, ◌≤◌, ◌++◌, [], All, IfOk, None, Some, length, map, option_map, vec_len, vec_capacity};
ghost use Rattle.doors.specs.Starts.{members, connections_of, stopped_by};
ghost use Rattle.doors.specs.Kept.{asked_by, told_stopped, IsMadeBy};
ghost use Rattle.std.specs.Duration.{as_nanos};

use crate::client::CLIENT_SECONDS;
use crate::door::Door;
use crate::ending::Ending;
use crate::entrance::{Entrance, Watch};
use crate::hall::Hall;
use crate::room::places;
use crate::starting::{Doors, StartFault, StartWords, StoppedDoor, keep_stopped, makes_room};
use crate::tcp_door::TcpDoor;
use std::alloc::Global;
use std::io::ErrorKind;
use std::net::{Net, TcpListener, TcpStream};
use std::sync::Arc;
use std::time::Duration;
use std::{io, rt};

/// Doors over TCP, which share one listener. They tell no visits. Doors that were stopped are kept, and with them the
/// listener, until this is let go.
#[derive(Drop)]
pub struct TcpDoors<
    R: Net<Listener = TcpListener, Stream = TcpStream> + rt::Clock + rt::Files + Clone + Drop,
> {
    rt: R,
    asked: Option<StartWords>,
    running: usize,
    stopped: Vec<StoppedDoor<TcpDoor<R>>>,
    faults: u64,
    /// How many clients may wait for their next turn, where they take turns.
    waiting: Option<u32>,
    /// The file whose being there asks for the end.
    stop_file: Option<String>,
    /// How long one read of what a client sends, or one write to it, may wait.
    patience: Duration,
    ghost room: { vec_len stopped + running ≤ vec_capacity stopped },
}

impl<
    R: Net<Listener = TcpListener, Stream = TcpStream> + rt::Clock + rt::Files + Clone + Drop,
> TcpDoors<R> {
    /// Doors over the network that `rt` reaches. None is started so far.
    pub fn new(rt: R, alloc: Global) -> TcpDoors<R>
        ensures rt { result.rt ≡ rt }
        ensures asked { result.asked ≡ None }
        ensures running { result.running ≡ 0 }
        ensures stopped { result.stopped.items ≡ [] }
        ensures faults { result.faults ≡ 0 }
        ensures plain { (result.waiting ≡ None) × (result.stop_file ≡ None) }
        ensures patience { as_nanos result.patience ≡ CLIENT_SECONDS * 1_000_000_000 }
    {
        TcpDoors {
            rt,
            asked: None,
            running: 0,
            stopped: Vec::new(alloc),
            faults: 0,
            waiting: None,
            stop_file: None,
            patience: Duration::from_secs(CLIENT_SECONDS),
        }
    }

    /// From the next start on clients take turns, and so many may wait between them. A connection of a door is then a
    /// turn: it ends where a reply was written and no further request has come.
    pub fn let_wait(&mut self, clients: u32)
        ensures waiting { self.new.waiting ≡ Some clients }
        ensures others { (self.new.stop_file ≡ self.old.stop_file) × (self.new.patience ≡ self.old.patience) }
        ensures rest { (self.new.rt ≡ self.old.rt) × (self.new.asked ≡ self.old.asked) × (self.new.running ≡ self.old.running)
            × (self.new.stopped ≡ self.old.stopped) × (self.new.faults ≡ self.old.faults) }
    {
        self.waiting = Some(clients);
    }

    /// From the next start on a file of this name asks for the end, once it is there: then each door fails, and gives no
    /// further connection.
    pub fn stop_at(&mut self, file: String)
        ensures stop_file { self.new.stop_file ≡ Some file }
        ensures others { (self.new.waiting ≡ self.old.waiting) × (self.new.patience ≡ self.old.patience) }
        ensures rest { (self.new.rt ≡ self.old.rt) × (self.new.asked ≡ self.old.asked) × (self.new.running ≡ self.old.running)
            × (self.new.stopped ≡ self.old.stopped) × (self.new.faults ≡ self.old.faults) }
    {
        self.stop_file = Some(file);
    }

    /// From the next start on one read of what a client sends, or one write to it, waits no longer than that, in place of
    /// `CLIENT_SECONDS`. A time of no length changes nothing.
    pub fn wait_at_most(&mut self, patience: Duration)
        ensures given { 0 < as_nanos patience → self.new.patience ≡ patience }
        ensures none { as_nanos patience ≡ 0 → self.new.patience ≡ self.old.patience }
        ensures others { (self.new.waiting ≡ self.old.waiting) × (self.new.stop_file ≡ self.old.stop_file) }
        ensures rest { (self.new.rt ≡ self.old.rt) × (self.new.asked ≡ self.old.asked) × (self.new.running ≡ self.old.running)
            × (self.new.stopped ≡ self.old.stopped) × (self.new.faults ≡ self.old.faults) }
    {
        if !patience.is_zero() {
            self.patience = patience;
        }
    }

    /// The doors that were stopped, in order.
    pub fn stopped(&self) -> &[StoppedDoor<TcpDoor<R>>]
        ensures { result.now ≡ self.now.stopped.items }
    {
        self.stopped.as_slice()
    }

    // As many doors as workers, which share a listener.
    fn open(&self, alloc: Global, words: &StartWords) -> Result<Vec<TcpDoor<R>>, StartFault>
        ensures count { IfOk result (λ doors. length doors.items ≡ words.now.workers) }
        ensures new { IfOk result (λ doors. All (IsMadeBy words.now) doors.items) }
    {
        let file = self.stop_file.as_ref().map(|file| file.as_str());
        let Ok(ending) = Ending::new(alloc, file) else {
            return Err(StartFault::Memory);
        };
        match entrances(&self.rt, alloc, words, self.waiting, self.patience, ending) {
            Ok(entrances) => doors_at(&self.rt, alloc, entrances, self.patience, words),
            Err(error) => Err(start_fault(error)),
        }
    }
}

// A fault of the system, as one of a start.
fn start_fault(error: io::Error) -> StartFault {
    if error.kind() == ErrorKind::OutOfMemory {
        StartFault::Memory
    } else {
        StartFault::Failed
    }
}

// One more entrance at the listener.
fn entrance_at<R: Net>(
    rt: &R,
    alloc: Global,
    listener: &TcpListener,
    ending: &Arc<Ending, Global>,
) -> io::Result<Entrance> {
    let listener = listener.try_clone()?;
    if ending.may_come() {
        let ending = Arc::try_clone(ending)?;
        Ok(Entrance::Watched(Watch::new(rt, alloc, listener, ending)?))
    } else {
        Ok(Entrance::Listener(listener))
    }
}

// The entrances of as many doors as workers, where clients take turns or where they don't.
fn entrances<R: Net<Listener = TcpListener, Stream = TcpStream>>(
    rt: &R,
    alloc: Global,
    words: &StartWords,
    waiting: Option<u32>,
    patience: Duration,
    ending: Arc<Ending, Global>,
) -> io::Result<Vec<Entrance>> {
    let listener = TcpListener::bind(rt, words.listen.as_str())?;
    let mut entrances = Vec::new(alloc);
    match waiting {
        Some(most) => {
            let spare = words.workers.saturating_mul(2);
            let hall = Hall::new(alloc, most, spare)?;
            let places = places(rt, alloc, listener, ending, hall, patience, words.workers)?;
            for place in places {
                entrances.push(Entrance::Room(place))?;
            }
        }
        None => {
            for _ in 0..words.workers {
                entrances.push(entrance_at(rt, alloc, &listener, &ending)?)?;
            }
        }
    }
    Ok(entrances)
}

// One more door at this entrance.
fn door_at<
    R: Net<Listener = TcpListener, Stream = TcpStream> + rt::Clock + rt::Files + Clone + Drop,
>(
    rt: &R,
    alloc: Global,
    entrance: Entrance,
    patience: Duration,
    words: &StartWords,
) -> Result<TcpDoor<R>, StartFault>
    ensures { IfOk result (IsMadeBy words.now) }
{
    let Ok(rt) = rt.clone() else {
        return Err(StartFault::Memory);
    };
    match words.upstream.clone() {
        Ok(upstream) => Ok(TcpDoor::new(
            rt,
            alloc,
            entrance,
            upstream,
            patience,
            words.connections,
        )),
        Err(_) => Err(StartFault::Memory),
    }
}

// As many doors as workers, at these entrances.
fn doors_at<
    R: Net<Listener = TcpListener, Stream = TcpStream> + rt::Clock + rt::Files + Clone + Drop,
>(
    rt: &R,
    alloc: Global,
    mut entrances: Vec<Entrance>,
    patience: Duration,
    words: &StartWords,
) -> Result<Vec<TcpDoor<R>>, StartFault>
    ensures count { IfOk result (λ doors. length doors.items ≡ words.now.workers) }
    ensures new { IfOk result (λ doors. All (IsMadeBy words.now) doors.items) }
{
    let Ok(mut doors) = Vec::with_capacity(alloc, words.workers as usize) else {
        return Err(StartFault::Memory);
    };
    'doors: for _ in 0..words.workers {
        let Some(entrance) = entrances.pop() else {
            return Err(StartFault::Failed);
        };
        let door = match door_at(rt, alloc, entrance, patience, words) {
            Ok(door) => door,
            Err(fault) => return Err(fault),
        };
        doors.push_reserved(door);
    }
    Ok(doors)
}

impl<
    R: Net<Listener = TcpListener, Stream = TcpStream>
        + rt::Clock
        + rt::Files
        + Clone
        + Drop
        + Send,
> Doors for TcpDoors<R> {
    type D = TcpDoor<R>;

    ghost faults = { λ doors. doors.faults };

    ghost asked = { λ doors. option_map asked_by doors.asked };

    ghost running = { λ doors. doors.running };

    ghost stopped = { λ doors. map (told_stopped (members ⟦<TcpDoor<R> as Door>⟧.out ⟦<TcpDoor<R> as Door>⟧.to_come
        ⟦<TcpDoor<R> as Door>⟧.faults ⟦<TcpDoor<R> as Door>⟧.visits)) doors.stopped.items };

    fn start(
        &mut self,
        alloc: Global,
        listen: &str,
        upstream: &str,
        workers: u32,
        connections: u32,
    ) -> Result<Vec<TcpDoor<R>>, StartFault> {
        let Ok(words) = StartWords::copy(alloc, listen, upstream, workers, connections) else {
            return Err(StartFault::Memory);
        };
        if !makes_room(&mut self.stopped, workers as usize) {
            return Err(StartFault::Memory);
        }
        match self.open(alloc, &words) {
            Ok(doors) => {
                self.running = doors.len();
                self.asked = Some(words);
                Ok(doors)
            }
            Err(StartFault::Failed) => {
                self.faults = self.faults.saturating_add(1);
                Err(StartFault::Failed)
            }
            Err(StartFault::Memory) => Err(StartFault::Memory),
        }
    }

    fn stop(&mut self, doors: Vec<TcpDoor<R>>)
        requires running { self.old.running ≡ length doors.items }
        ensures idle { self.new.running ≡ 0 }
        ensures stopped { ⟦<TcpDoors<R> as Doors>⟧.stopped self.new ≡ ⟦<TcpDoors<R> as Doors>⟧.stopped self.old
            ++ map (stopped_by (members ⟦<TcpDoor<R> as Door>⟧.out ⟦<TcpDoor<R> as Door>⟧.to_come ⟦<TcpDoor<R> as Door>⟧.faults ⟦<TcpDoor<R> as Door>⟧.visits)
            (connections_of (option_map asked_by self.old.asked))) doors.items }
        ensures asked { self.new.asked ≡ self.old.asked }
        ensures count { self.new.faults ≡ self.old.faults }
    {
        for door in &doors {
            door.close();
        }
        keep_stopped(&mut self.stopped, doors, &self.asked);
        self.running = 0;
    }
}
