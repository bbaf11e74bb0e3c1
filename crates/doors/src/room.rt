//! A waiting room, which the doors of all workers share: of those who have sent no whole request yet.
//!
//! One door at a time leads: it waits for what the system tells of those in the room, and notes it in the hall. Each door looks at those
//! that were noted, one after the other, and comes away with one that has a request. Nobody is waited for while the hall is held, and only those
//! are looked at meanwhile who have sent a part of a request and are told of again: up to 64 at once, as many as the system tells of. Where nobody
//! was told of and another door leads, a door waits at its seat until it is woken.

use crate::client::Client;
use crate::ending::Ending;
use crate::hall::{Guest, Hall, Told};
use crate::listening::{Accepted, SHORTAGE_MILLISECONDS, accept};
use crate::looking::Look;
use mio::unix::SourceFd;
use mio::{Events, Interest, Poll, Registry, Token, Waker};
use std::alloc::Global;
use std::hint::spin_loop;
use std::net::{Net, TcpListener, TcpStream};
use std::os::fd::AsRawFd;
use std::sync::atomic::{AtomicBool, AtomicUsize, Ordering};
use std::sync::{Arc, Mutex, MutexGuard};
use std::thread::yield_now;
use std::time::Duration;
use std::{io, rt};

// The number of the listener among those that the system tells of.
const LISTENER: usize = 0;

// How many things the system tells at once at most.
const EVENTS: usize = 64;

// How many clients are accepted one after the other before those are called who are there.
const ACCEPTS: u32 = 32;

// How long one wait takes at most, in milliseconds.
const WAIT_MILLISECONDS: u64 = 500;

// How often a lock is tried again before another thread is let go first.
const TRIES: u32 = 200;

/// A place at which a door waits while another leads.
#[derive(Drop)]
struct Seat {
    waker: Waker,
    is_taken: AtomicBool,
}

/// What came of taking in those who call.
#[derive(Clone, Copy, Drop, PartialEq, Eq)]
enum Arrivals {
    /// All who called were taken in.
    All,
    /// More may call.
    More,
    /// The system lacks descriptors or memory. That passes.
    Shortage,
    /// The listener failed.
    Failed,
}

/// What the door that leads looks after.
#[derive(Drop)]
struct Lead {
    poll: Poll,
    events: Events,
    listener: TcpListener,
    arrivals: Arrivals,
    // The number of the next client.
    next: usize,
    // How long a read or a write in a turn may wait.
    patience: Duration,
    // Where it stands how many are to be looked at.
    count: Arc<AtomicUsize, Global>,
    alloc: Global,
}

/// A waiting room.
#[derive(Drop)]
pub(crate) struct Room {
    seats: Vec<Seat>,
    lead: Mutex<Lead>,
    is_led: AtomicBool,
    hall: Mutex<Hall>,
    registry: Registry,
    ending: Arc<Ending, Global>,
}

/// A client that comes in: in a turn, by its number in the room, and how long its request is where that is known.
#[derive(Drop)]
pub(crate) struct Called {
    pub(crate) number: usize,
    pub(crate) client: Arc<Client, Global>,
    pub(crate) left: Option<usize>,
    /// Whether nothing follows what it sent.
    pub(crate) is_closed: bool,
    /// Whether its request is answered by what was sent of it, so that no further turn follows.
    pub(crate) is_cut: bool,
}

/// The place of a door in a room.
#[derive(Drop)]
pub(crate) struct Place {
    pub(crate) room: Arc<Room, Global>,
    poll: Poll,
    events: Events,
    seat: usize,
}

impl Lead {
    // How long the next wait may take.
    fn longest(&self) -> Duration {
        if 0 < self.count.load(Ordering::SeqCst) {
            return Duration::ZERO;
        }
        match self.arrivals {
            Arrivals::More => Duration::ZERO,
            Arrivals::Shortage => Duration::from_millis(SHORTAGE_MILLISECONDS),
            _ => Duration::from_millis(WAIT_MILLISECONDS),
        }
    }

    // Notes those that the system told of.
    fn note(&mut self, hall: &mut Hall) {
        for event in &self.events {
            let Token(number) = event.token();
            if number == LISTENER {
                self.arrivals = Arrivals::More;
            } else {
                let is_closed = event.is_read_closed();
                hall.tell(Told { number, is_closed });
            }
        }
    }

    // Waits for what the system tells, notes it, and takes in those who call. It gives how many are to be looked at then.
    fn step<R: rt::Clock>(&mut self, rt: &R, room: &Room) -> usize {
        let longest = self.longest();
        let _ = self.poll.poll(&mut self.events, Some(longest));
        let now = rt.monotonic().unwrap_or(Duration::ZERO);
        if let Some(mut hall) = locked(&room.hall) {
            hall.sweep(now);
            hall.renew(now);
            self.note(&mut hall);
        }
        if self.arrivals == Arrivals::More || self.arrivals == Arrivals::Shortage {
            self.arrivals = self.accept(room, now);
        }
        self.count.load(Ordering::SeqCst)
    }

    // Takes in those who call, so many of them at most.
    fn accept(&mut self, room: &Room, now: Duration) -> Arrivals {
        for _ in 0..ACCEPTS {
            match accept(&self.listener) {
                Accepted::Client(stream) => self.enter(stream, room, now),
                Accepted::Nobody => return Arrivals::All,
                Accepted::Shortage => {
                    if let Some(mut hall) = locked(&room.hall) {
                        hall.make_room(now);
                    }
                    return Arrivals::Shortage;
                }
                Accepted::Failed => return Arrivals::Failed,
            }
        }
        Arrivals::More
    }

    // A client that has just called, as it comes into the room. None where the system or the memory refuses that.
    fn guest(&mut self, stream: TcpStream, room: &Room, now: Duration) -> Option<Guest> {
        let client = Client::ready(stream)?;
        client.set_up(self.patience);
        let number = self.next;
        self.next = self.next.wrapping_add(1).max(1);
        room.watch(&client, number)?;
        Some(Guest {
            number,
            client: Arc::new(self.alloc, client).ok()?,
            since: now,
            has_begun: false,
            is_closed: false,
        })
    }

    // Takes a client in that has just called. Where that is refused, its connection is closed.
    fn enter(&mut self, stream: TcpStream, room: &Room, now: Duration) {
        let Some(guest) = self.guest(stream, room, now) else {
            return;
        };
        if let Some(mut hall) = locked(&room.hall) {
            hall.take_in(guest);
        }
    }
}

// Takes a lock that is held for a moment at a time.
fn locked<T>(lock: &Mutex<T>) -> Option<MutexGuard<'_, T>> {
    for _ in 0..u64::MAX {
        for _ in 0..TRIES {
            if let Some(guard) = lock.try_lock() {
                return Some(guard);
            }
            spin_loop();
        }
        yield_now();
    }
    None
}

impl Room {
    // Has the system tell of a client under this number. None where it refuses that.
    fn watch(&self, client: &Client, number: usize) -> Option<()> {
        let fd = client.fd();
        self.registry
            .register(&mut SourceFd(&fd), Token(number), Interest::READABLE)
            .ok()
    }

    // Wakes so many of those that wait at their seats.
    fn wake(&self, count: usize) {
        let mut left = count;
        for seat in &self.seats {
            if left == 0 {
                return;
            }
            if seat.is_taken.swap(false, Ordering::SeqCst) {
                let _ = seat.waker.wake();
                left -= 1;
            }
        }
    }

    // Wakes one that may lead, where no door does.
    fn hand_on(&self) {
        if !self.is_led.load(Ordering::SeqCst) {
            self.wake(1);
        }
    }

    // The next client that is to be looked at. It is the door's then. None where the system is to be asked first and no door does.
    fn next<R: rt::Clock>(&self, rt: &R) -> Option<Guest> {
        let now = rt.monotonic().unwrap_or(Duration::ZERO);
        let mut hall = locked(&self.hall)?;
        if !self.is_led.load(Ordering::SeqCst) && hall.is_to_ask(now) {
            return None;
        }
        hall.call()
    }

    // Takes a client back that a door had, of whose next request some may be there.
    fn put_back(&self, guest: Guest, may_have_begun: bool) {
        if let Some(mut hall) = locked(&self.hall) {
            hall.take_back(guest, may_have_begun);
        }
    }

    /// Forgets a client that a door had, and whose connection is closed.
    pub(crate) fn forget(&self, number: usize) {
        if let Some(mut hall) = locked(&self.hall) {
            let _ = hall.forget(number);
        }
    }

    /// Takes back a client after its turn. Its next request may be there.
    pub(crate) fn take_back<R: rt::Clock>(&self, rt: &R, called: Called) {
        let guest = Guest {
            number: called.number,
            client: called.client,
            since: rt.monotonic().unwrap_or(Duration::ZERO),
            has_begun: false,
            is_closed: called.is_closed,
        };
        self.put_back(guest, true);
    }

    /// Takes leave of a client that a door had, so that no worker waits for it: what it still sends is dropped in the room, for a while.
    pub(crate) fn see_off<R: rt::Clock>(&self, rt: &R, called: Called) {
        if !called.client.begin_leave() {
            self.forget(called.number);
            return;
        }
        let guest = Guest {
            number: called.number,
            client: called.client,
            since: rt.monotonic().unwrap_or(Duration::ZERO),
            has_begun: false,
            is_closed: called.is_closed,
        };
        if let Some(mut hall) = locked(&self.hall) {
            hall.see_off(guest);
        }
    }

    // Puts one back who has sent a part of a request, or nothing.
    fn wait_on(&self, now: Duration, mut guest: Guest, has_begun: bool) {
        if !has_begun || !guest.has_begun {
            guest.since = now;
        }
        guest.has_begun = has_begun;
        self.put_back(guest, false);
    }

    // Looks at a client that the system told of. One without a whole request goes back, or is let go where it hung up; with a part of one
    // and no more to come, or not in its time, it is for the doors to say so.
    fn look_at<R: rt::Clock>(&self, rt: &R, guest: Guest) -> Option<Called> {
        let now = rt.monotonic().unwrap_or(Duration::ZERO);
        let (left, is_cut) = match guest.client.look() {
            Look::Request(length) => (Some(length), false),
            Look::Other => (None, false),
            Look::Part(length) if guest.is_closed || guest.is_late(now) => (Some(length), true),
            Look::Over => {
                self.forget(guest.number);
                return None;
            }
            Look::Part(_) => {
                self.wait_on(now, guest, true);
                return None;
            }
            Look::Nothing => {
                self.wait_on(now, guest, false);
                return None;
            }
        };
        Some(Called {
            number: guest.number,
            client: guest.client,
            left,
            is_closed: guest.is_closed,
            is_cut,
        })
    }

    // One that has a request, of those that the system told of.
    fn call<R: rt::Clock>(&self, rt: &R) -> Option<Called> {
        for _ in 0..u64::MAX {
            let guest = self.next(rt)?;
            if let Some(called) = self.look_at(rt, guest) {
                return Some(called);
            }
        }
        None
    }

    // One that leaves: of those who had their last reply, or of all who have sent something.
    fn leaving(&self, of_all: bool) -> Option<Guest> {
        let mut hall = locked(&self.hall)?;
        if of_all {
            hall.dismiss()
        } else {
            hall.dismiss_last()
        }
    }

    /// Takes leave of those who had their last reply, or of all who have sent something, since a stream that is closed with bytes unread may lose
    /// the last reply. It takes no longer than one leave.
    pub(crate) fn dismiss<R: rt::Clock>(&self, rt: &R, of_all: bool) {
        let begun = rt.monotonic().unwrap_or(Duration::ZERO);
        for _ in 0..u64::MAX {
            match self.leaving(of_all) {
                Some(guest) => guest.client.take_leave_since(rt, begun),
                None => return,
            }
        }
    }

    /// Whether the end was asked for.
    pub(crate) fn is_ending<R: rt::Clock + rt::Files>(&self, rt: &R) -> bool {
        self.ending.is_asked(rt)
    }
}

impl Place {
    // Says that the door waits at its seat, or that it doesn't.
    fn sit(&self, is_taken: bool) {
        if let Some(seat) = self.room.seats.get(self.seat) {
            seat.is_taken.store(is_taken, Ordering::SeqCst);
        }
    }

    // Waits at the seat for a while.
    fn rest(&mut self) {
        let patience = Duration::from_millis(WAIT_MILLISECONDS);
        let _ = self.poll.poll(&mut self.events, Some(patience));
        self.sit(false);
    }

    // Leads for once, unless another door does. It gives how many are to be looked at then, or that the listener failed.
    fn lead<R: rt::Clock>(&self, rt: &R) -> Led {
        let Some(mut lead) = self.room.lead.try_lock() else {
            return Led::ByOther;
        };
        self.sit(false);
        if lead.arrivals == Arrivals::Failed {
            return Led::Failed;
        }
        self.room.is_led.store(true, Ordering::SeqCst);
        let count = lead.step(rt, &self.room);
        self.room.is_led.store(false, Ordering::SeqCst);
        Led::Told(count)
    }

    // Waits until some are to be looked at, or for a while. False where the listener failed.
    fn wait<R: rt::Clock>(&mut self, rt: &R) -> bool {
        self.sit(true);
        match self.lead(rt) {
            Led::Told(count) => self.room.wake(count.saturating_sub(1)),
            Led::ByOther => self.rest(),
            Led::Failed => return false,
        }
        true
    }

    /// The next client that has a request. None where an end was asked for, or the listener failed.
    pub(crate) fn next<R: rt::Clock + rt::Files>(&mut self, rt: &R) -> Option<Called> {
        for _ in 0..u64::MAX {
            if self.room.is_ending(rt) {
                self.room.dismiss(rt, true);
                return None;
            }
            if let Some(called) = self.room.call(rt) {
                self.room.hand_on();
                return Some(called);
            }
            if !self.wait(rt) {
                return None;
            }
        }
        None
    }
}

/// What came of a door's wish to lead.
#[derive(Clone, Copy, Drop)]
enum Led {
    /// It led, and so many are to be looked at then.
    Told(usize),
    ByOther,
    /// The listener failed.
    Failed,
}

// The seats of a room, and for each the place of a door.
fn seats<R: Net>(
    rt: &R,
    alloc: Global,
    count: u32,
) -> io::Result<(Vec<Seat>, Vec<(Poll, Events)>)> {
    let mut seats = Vec::new(alloc);
    let mut polls = Vec::new(alloc);
    for _ in 0..count {
        let poll = Poll::new(rt)?;
        let waker = Waker::new(poll.registry(), Token(LISTENER))?;
        seats.push(Seat {
            waker,
            is_taken: AtomicBool::new(false),
        })?;
        polls.push((poll, Events::with_capacity(alloc, 1)?))?;
    }
    Ok((seats, polls))
}

// What the door that leads looks after. One read or one write in a turn waits no longer than `patience`.
fn lead_at<R: Net>(
    rt: &R,
    alloc: Global,
    listener: TcpListener,
    hall: &Hall,
    patience: Duration,
) -> io::Result<Lead> {
    listener.set_nonblocking(true)?;
    let poll = Poll::new(rt)?;
    let fd = listener.as_raw_fd();
    poll.registry()
        .register(&mut SourceFd(&fd), Token(LISTENER), Interest::READABLE)?;
    Ok(Lead {
        poll,
        events: Events::with_capacity(alloc, EVENTS)?,
        listener,
        arrivals: Arrivals::More,
        next: 1,
        patience,
        count: hall.count()?,
        alloc,
    })
}

/// A room at this listener, with its hall, and the places of so many doors in it.
pub(crate) fn places<R: Net>(
    rt: &R,
    alloc: Global,
    listener: TcpListener,
    ending: Arc<Ending, Global>,
    hall: Hall,
    patience: Duration,
    doors: u32,
) -> io::Result<Vec<Place>> {
    let lead = lead_at(rt, alloc, listener, &hall, patience)?;
    let registry = lead.poll.registry().try_clone()?;
    let (seats, polls) = seats(rt, alloc, doors)?;
    let room = Room {
        seats,
        lead: Mutex::new(lead),
        is_led: AtomicBool::new(false),
        hall: Mutex::new(hall),
        registry,
        ending,
    };
    let room = Arc::new(alloc, room)?;
    let mut places = Vec::new(alloc);
    let mut seat = 0;
    for (poll, events) in polls {
        places.push(Place {
            room: Arc::try_clone(&room)?,
            poll,
            events,
            seat,
        })?;
        seat = places.len();
    }
    Ok(places)
}
