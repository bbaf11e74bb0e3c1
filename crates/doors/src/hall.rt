//! Those who wait in a waiting room.

use crate::client::{Client, LINGER_SECONDS};
use crate::looking::Look;
use lru::LruCache;
use std::alloc::{AllocError, Global};
use std::sync::Arc;
use std::sync::atomic::{AtomicUsize, Ordering};
use std::time::Duration;

/// How long a client may stay in the waiting room without a request, in seconds.
pub const IDLE_SECONDS: u64 = 75;

/// How long the rest of a request is waited for there, from its first byte, in seconds. Then what was sent so far is answered.
pub const BEGUN_SECONDS: u64 = 10;

// How many are called before the system is asked again whom to tell of.
const CALLS: u32 = 64;

// How long they are called before that, in milliseconds.
const CALL_MILLISECONDS: u64 = 50;

// How long fewer clients may wait where the system lacked descriptors, in seconds.
const SHORT_SECONDS: u64 = 60;

/// A client in the room, by the number that it has there, and since when it waits: for a request, or for the rest of one.
#[derive(Drop)]
pub(crate) struct Guest {
    pub(crate) number: usize,
    pub(crate) client: Arc<Client, Global>,
    pub(crate) since: Duration,
    pub(crate) has_begun: bool,
    /// Whether nothing follows what it sent.
    pub(crate) is_closed: bool,
}

/// That the system told of the one with this number, and whether nothing follows what it sent.
#[derive(Clone, Copy, Drop)]
pub(crate) struct Told {
    pub(crate) number: usize,
    pub(crate) is_closed: bool,
}

/// One that a door has, and what the system told of it since.
#[derive(Clone, Copy, Drop)]
struct Away {
    number: usize,
    is_told: bool,
    is_closed: bool,
}

impl Guest {
    /// Whether it has taken too long with its request.
    pub(crate) fn is_late(&self, now: Duration) -> bool {
        self.has_begun && self.waits_for(now, BEGUN_SECONDS)
    }

    // Whether it has waited for so many seconds.
    fn waits_for(&self, now: Duration, seconds: u64) -> bool {
        Duration::from_secs(seconds) <= now.saturating_sub(self.since)
    }
}

/// All who wait: those without a request, those with a part of one, and those that are to be looked at, as the system told of them. Beside
/// them stay those who had their last reply, and may still send something that is dropped.
#[derive(Drop)]
pub(crate) struct Hall {
    idle: LruCache<usize, Guest>,
    begun: LruCache<usize, Guest>,
    told: LruCache<usize, Guest>,
    leaving: LruCache<usize, Guest>,
    // How many are to be looked at.
    count: Arc<AtomicUsize, Global>,
    // How many were called since the system was asked whom to tell of, and when that was.
    calls: u32,
    asked_at: Duration,
    away: Vec<Away>,
    most: usize,
    // How many may wait at this time, and when the system last lacked descriptors.
    room: usize,
    short_at: Duration,
    // How many are let go where the system lacks descriptors.
    spare: usize,
}

impl Hall {
    /// Nobody waits. So many may wait at most, and so many are let go where the system lacks descriptors.
    pub(crate) fn new(alloc: Global, most: u32, spare: u32) -> Result<Hall, AllocError> {
        Ok(Hall {
            idle: LruCache::unbounded(alloc)?,
            begun: LruCache::unbounded(alloc)?,
            told: LruCache::unbounded(alloc)?,
            leaving: LruCache::unbounded(alloc)?,
            count: Arc::new(alloc, AtomicUsize::new(0))?,
            calls: 0,
            asked_at: Duration::ZERO,
            away: Vec::new(alloc),
            most: most as usize,
            room: most as usize,
            short_at: Duration::ZERO,
            spare: spare as usize,
        })
    }

    /// Where it stands how many are to be looked at.
    pub(crate) fn count(&self) -> Result<Arc<AtomicUsize, Global>, AllocError> {
        Ok(Arc::try_clone(&self.count)?)
    }

    // Says how many are to be looked at.
    fn count_anew(&self) {
        self.count.store(self.told.len(), Ordering::SeqCst);
    }

    /// The system told of one, which stands behind those then that are to be looked at. One that still lacks the rest of a request stays
    /// where it is, so that its time runs on.
    pub(crate) fn tell(&mut self, told: Told) {
        if let Some(guest) = self.idle.pop(&told.number) {
            self.line_up(guest, told.is_closed);
        } else if let Some(guest) = self.begun.peek(&told.number) {
            if told.is_closed || !is_part(&guest.client) {
                self.line_up_begun(told);
            }
        } else if let Some(guest) = self.told.peek_mut(&told.number) {
            guest.is_closed = guest.is_closed || told.is_closed;
        } else if let Some(guest) = self.leaving.peek(&told.number) {
            if !guest.client.drain() {
                let _ = self.leaving.pop(&told.number);
            }
        } else {
            self.note(told);
        }
    }

    // Lets one stand behind those that are to be looked at. Where there is no memory for that, its connection is closed.
    fn line_up(&mut self, mut guest: Guest, is_closed: bool) {
        guest.is_closed = guest.is_closed || is_closed;
        let _ = self.told.put(guest.number, guest);
        self.count_anew();
    }

    // The same of one that has sent a part of a request.
    fn line_up_begun(&mut self, told: Told) {
        if let Some(guest) = self.begun.pop(&told.number) {
            self.line_up(guest, told.is_closed);
        }
    }

    /// At this time the system was asked whom to tell of.
    pub(crate) fn renew(&mut self, now: Duration) {
        self.calls = 0;
        self.asked_at = now;
    }

    /// Whether so many were called since, or for so long, that the system is to be asked again.
    pub(crate) fn is_to_ask(&self, now: Duration) -> bool {
        let passed = now.saturating_sub(self.asked_at);
        CALLS <= self.calls || Duration::from_millis(CALL_MILLISECONDS) <= passed
    }

    /// The first of those that are to be looked at. It is the door's then, until it is taken back or forgotten.
    pub(crate) fn call(&mut self) -> Option<Guest> {
        self.calls = self.calls.saturating_add(1);
        let (number, guest) = self.told.pop_lru()?;
        self.count_anew();
        let _ = self.away.push(Away {
            number,
            is_told: false,
            is_closed: false,
        });
        Some(guest)
    }

    /// One of those that are to be looked at, have sent a part of a request or had their last reply, who leaves; none where there is no such one.
    pub(crate) fn dismiss(&mut self) -> Option<Guest> {
        if let Some((_, guest)) = self.told.pop_lru() {
            self.count_anew();
            return Some(guest);
        }
        if let Some((_, guest)) = self.begun.pop_lru() {
            return Some(guest);
        }
        self.dismiss_last()
    }

    /// One of those who had their last reply; none where there is no such one.
    pub(crate) fn dismiss_last(&mut self) -> Option<Guest> {
        let (_, guest) = self.leaving.pop_lru()?;
        Some(guest)
    }

    /// Lets one stay that a door had, whose last reply was written and of whom what came so far was dropped.
    pub(crate) fn see_off(&mut self, guest: Guest) {
        let is_told = self.forget(guest.number).is_some();
        if is_told && !guest.client.drain() {
            return;
        }
        let _ = self.leaving.put(guest.number, guest);
        self.keep(self.room);
    }

    // Notes that the system told of one that a door has.
    fn note(&mut self, told: Told) {
        for away in &mut self.away {
            if away.number == told.number {
                away.is_told = true;
                away.is_closed = told.is_closed;
            }
        }
    }

    /// Forgets one that a door had, and gives what the system told of it meanwhile.
    pub(crate) fn forget(&mut self, number: usize) -> Option<Told> {
        let at = self.away.iter().position(|away| away.number == number)?;
        let away = self.away.swap_remove(at);
        if !away.is_told {
            return None;
        }
        Some(Told {
            number,
            is_closed: away.is_closed,
        })
    }

    /// Takes one back that a door had. It is to be looked at where some of a request may be there, or the system told of it meanwhile.
    pub(crate) fn take_back(&mut self, guest: Guest, may_have_begun: bool) {
        match self.forget(guest.number) {
            Some(told) => self.line_up(guest, told.is_closed),
            None if may_have_begun => self.line_up(guest, false),
            None => self.take_in(guest),
        }
    }

    /// Takes one in. Where there is no memory for that, its connection is closed.
    pub(crate) fn take_in(&mut self, guest: Guest) {
        if guest.has_begun {
            let _ = self.begun.put(guest.number, guest);
        } else {
            let _ = self.idle.put(guest.number, guest);
        }
        self.keep(self.room);
    }

    // How many stay in the room, but for those that are to be looked at.
    fn staying(&self) -> usize {
        self.idle
            .len()
            .saturating_add(self.begun.len())
            .saturating_add(self.leaving.len())
    }

    // Lets so many go that no more than this number stay: first those who had their last reply, then those who have waited longest without a request.
    fn keep(&mut self, most: usize) {
        for _ in 0..self.staying().saturating_sub(most) {
            if self.leaving.pop_lru().is_none() && self.idle.pop_lru().is_none() {
                let _ = self.begun.pop_lru();
            }
        }
    }

    // Has those looked at who have taken too long with a request, as many at once as are called before the system is asked again.
    fn call_late(&mut self, now: Duration) {
        for _ in 0..CALLS {
            match self.begun.peek_lru() {
                Some((_, guest)) if guest.is_late(now) => {}
                _ => return,
            }
            if let Some((_, guest)) = self.begun.pop_lru() {
                self.line_up(guest, false);
            }
        }
    }

    /// Lets those go that have waited too long, has those looked at who have taken too long, and lets as many wait again as may, once no shortage
    /// came for a while.
    pub(crate) fn sweep(&mut self, now: Duration) {
        if Duration::from_secs(SHORT_SECONDS) <= now.saturating_sub(self.short_at) {
            self.room = self.most;
        }
        let_go(&mut self.leaving, now, LINGER_SECONDS);
        let_go(&mut self.idle, now, IDLE_SECONDS);
        self.call_late(now);
    }

    /// For a while so many fewer may wait that the doors find descriptors for their calls.
    pub(crate) fn make_room(&mut self, now: Duration) {
        let fewer = self.staying().saturating_sub(self.spare);
        self.room = self.room.min(fewer.max(self.spare));
        self.short_at = now;
        self.keep(self.room);
    }
}

// Whether a client has sent a part of a request.
fn is_part(client: &Client) -> bool {
    match client.look() {
        Look::Part(_) => true,
        _ => false,
    }
}

// Lets those go that have waited for so many seconds.
fn let_go(guests: &mut LruCache<usize, Guest>, now: Duration, seconds: u64) {
    for _ in 0..guests.len() {
        match guests.peek_lru() {
            Some((_, guest)) if guest.waits_for(now, seconds) => {}
            _ => return,
        }
        let _ = guests.pop_lru();
    }
}
