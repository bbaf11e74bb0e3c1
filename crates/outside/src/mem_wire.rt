//! A wire in memory.

ghost use Rattle.std.specs.Prelude.{◌≡◌, ◌≤◌, ◌<◌, ◌+◌, ◌⊎◌, [], ◌∷◌, ℕ, true, false, IsTrue, IsErr, Contains, Option, Some, None, length, IfOk, OnOk, OnErr};
ghost use Rattle.outside.specs.Dials.{dial_of, dials_of, log_of, is_up, fresh_dial, missed_dial, NextReply, Logged, LoggedBy, LastBecomes, written_by, read_by};
ghost use Rattle.outside.specs.Faults.{Rose, last_count, next_count};
ghost use Rattle.outside.specs.Taken.{ReadTakes};

use crate::failures::Failures;
use crate::pieces::{Cut, move_front};
use crate::wire::{DialFault, Wire, WireFault};
use std::alloc::Global;

/// What went over a wire in memory on one dial that was answered.
#[derive(Drop)]
pub struct WireDial {
    /// How many dials nobody answered before it, behind the one that was answered before.
    pub missed: u64,
    pub sent: Vec<u8>,
    pub taken: Vec<u8>,
    /// Whether the end was met.
    pub ended: bool,
    /// Whether a transfer failed.
    pub failed: bool,
}

impl WireDial {
    // Keeps the first bytes of the piece as sent, or that a transfer failed.
    fn send(&mut self, fails: bool, piece: &[u8], count: usize) -> Result<usize, WireFault>
        requires { count ≤ length piece.now }
        ensures dial { dial_of self.new ≡ written_by result piece.now (dial_of self.old) }
        ensures missed { self.new.missed ≡ self.old.missed }
        ensures sent { IfOk result (λ sent. sent ≡ count) }
        ensures fails { IsTrue fails → IsErr result }
    {
        if !fails && self.sent.extend_from_slice(&piece[..count]).is_ok() {
            return Ok(count);
        }
        self.failed = true;
        Err(WireFault)
    }

    // Moves the first bytes to come into the piece, at most so many, or keeps that a transfer failed.
    fn take(
        &mut self,
        fails: bool,
        coming: &mut Vec<u8>,
        most: usize,
        into: &mut [u8],
    ) -> Result<usize, WireFault>
        requires most { most ≤ length coming.old.items }
        requires some { most ≡ 0 → coming.old.items ≡ [] }
        ensures dial { dial_of self.new ≡ read_by result into.new (dial_of self.old) }
        ensures missed { self.new.missed ≡ self.old.missed }
        ensures bytes { ReadTakes (Some coming.old.items) (Some coming.new.items) result into.new }
        ensures fails { IsTrue fails → IsErr result }
    {
        let count = most.min(into.len());
        if !fails && self.taken.extend_from_slice(&coming[..count]).is_ok() {
            let taken = move_front(coming, into, count);
            self.ended |= taken == 0 && 0 < into.len();
            return Ok(taken);
        }
        self.failed = true;
        Err(WireFault)
    }
}

/// A wire in memory. It tells its log and the bytes to come.
#[derive(Drop)]
pub struct MemWire {
    alloc: Global,
    is_dialled: bool,
    /// The replies to the dials to come, the last one first. Where there is none a reply is empty.
    pub replies: Vec<Vec<u8>>,
    /// The bytes to come on the latest dial that was answered.
    pub coming: Vec<u8>,
    /// What went over the wire on the dials that were answered before the latest.
    pub past: Vec<WireDial>,
    /// What went over the wire on the latest dial that was answered.
    pub latest: Option<WireDial>,
    /// How many dials nobody answered behind that.
    pub missed: u64,
    /// A place at which one read ends.
    pub read_cut: Cut,
    /// A place at which one write ends.
    pub write_cut: Cut,
    /// The dials so far, and those that are to fail.
    pub dials: Failures,
    /// The reads and writes so far, and those that are to fail.
    pub transfers: Failures,
    /// The count of dials that were to fail, or found no memory.
    pub dial_faults: u64,
    /// The count of transfers that were to fail, or found no memory.
    pub faults: u64,
}

impl MemWire {
    /// A wire that was not dialled yet, with these replies to come, the last one first, and these failures.
    pub fn new(
        alloc: Global,
        replies: Vec<Vec<u8>>,
        dials: Failures,
        transfers: Failures,
    ) -> MemWire
        ensures replies { result.replies ≡ replies }
        ensures log { dials_of result.past.items result.latest result.missed ≡ [] }
        ensures dials { result.dials ≡ dials }
        ensures transfers { result.transfers ≡ transfers }
        ensures dial_faults { result.dial_faults ≡ 0 }
        ensures faults { result.faults ≡ 0 }
    {
        MemWire {
            alloc,
            is_dialled: false,
            replies,
            coming: Vec::new(alloc),
            past: Vec::new(alloc),
            latest: None,
            missed: 0,
            read_cut: Cut { ahead: 0 },
            write_cut: Cut { ahead: 0 },
            dials,
            transfers,
            dial_faults: 0,
            faults: 0,
        }
    }
}

// Puts the latest dial behind those before it. Without memory for that it stays.
fn put_by(past: &mut Vec<WireDial>, latest: &mut Option<WireDial>) -> bool
    ensures same { (missed : ℕ) → dials_of past.new.items latest.new missed ≡ dials_of past.old.items latest.old missed }
    ensures free { IsTrue result → latest.new ≡ None }
{
    let Some(dial) = latest.take() else {
        return true;
    };
    match past.push(dial) {
        Ok(()) => true,
        Err(back) => {
            *latest = Some(back.value);
            false
        }
    }
}

// Counts one more dial that nobody answered, among those since the latest that was answered and among all.
// Where the former stand at their last value already, so do the latter.
fn count_missed(missed: &mut u64, faults: &mut u64)
    ensures missed { (missed.new ≡ missed.old + 1) ⊎ ((missed.new ≡ missed.old) × (last_count ≤ faults.new)) }
    ensures count { faults.old ≤ faults.new }
    ensures cause { Rose faults.old faults.new }
{
    let all = *faults;
    match missed.checked_add(1) {
        Some(more) => {
            *missed = more;
            *faults = all.saturating_add(1);
        }
        None => *faults = all.max(u64::MAX),
    }
}

// The next reply, and an empty one where there is none.
fn next_reply(alloc: Global, replies: &mut Vec<Vec<u8>>) -> Vec<u8>
    ensures { NextReply replies.old.items result.items replies.new.items }
{
    match replies.pop() {
        Some(reply) => reply,
        None => Vec::new(alloc),
    }
}

impl Wire for MemWire {
    ghost dialled = { λ wire. is_up wire.is_dialled wire.latest wire.missed };

    ghost log = { λ wire. log_of wire.past.items wire.latest wire.missed };

    ghost coming = { λ wire. Some wire.coming.items };

    ghost dial_faults = { λ wire. wire.dial_faults };

    ghost faults = { λ wire. wire.faults };

    // It takes the next reply, and fails where this dial was to fail, or for want of memory.
    fn dial(&mut self) -> Result<(), DialFault>
        ensures up { OnOk result (is_up self.new.is_dialled self.new.latest self.new.missed ≡ true) }
        ensures down { OnErr result (is_up self.new.is_dialled self.new.latest self.new.missed ≡ false) }
        ensures logged { OnOk result (Logged (log_of self.old.past.items self.old.latest self.old.missed) (fresh_dial ∷ [])
            (log_of self.new.past.items self.new.latest self.new.missed)) }
        ensures missed { OnErr result (LoggedBy self.new.dial_faults
            (log_of self.old.past.items self.old.latest self.old.missed) (missed_dial ∷ [])
            (log_of self.new.past.items self.new.latest self.new.missed)) }
        ensures count { self.old.dial_faults ≤ self.new.dial_faults }
        ensures still { OnOk result (self.new.dial_faults ≡ self.old.dial_faults) }
        ensures cause { OnErr result (Rose self.old.dial_faults self.new.dial_faults) }
        ensures transfers { self.new.faults ≡ self.old.faults }
        ensures next { OnOk result (NextReply self.old.replies.items self.new.coming.items self.new.replies.items) }
        ensures kept { OnErr result (self.new.replies ≡ self.old.replies) }
        ensures fails { Contains self.old.dials.failing.items self.old.dials.calls → IsErr result }
        ensures calls { self.new.dials.calls ≡ next_count self.old.dials.calls }
    {
        self.is_dialled = false;
        let fails = self.dials.next_fails();
        if fails || !put_by(&mut self.past, &mut self.latest) {
            count_missed(&mut self.missed, &mut self.dial_faults);
            return Err(DialFault);
        }
        self.coming = next_reply(self.alloc, &mut self.replies);
        self.latest = Some(WireDial {
            missed: self.missed,
            sent: Vec::new(self.alloc),
            taken: Vec::new(self.alloc),
            ended: false,
            failed: false,
        });
        self.missed = 0;
        self.is_dialled = true;
        Ok(())
    }

    // It takes the piece up to the cut, and fails where this transfer was to fail, or for want of memory.
    fn write(&mut self, piece: &[u8]) -> Result<usize, WireFault>
        requires dialled { is_up self.old.is_dialled self.old.latest self.old.missed ≡ true }
        ensures within { IfOk result (λ count. count ≤ length piece.now) }
        ensures some { IfOk result (λ count. 0 < length piece.now → 0 < count) }
        ensures sent { LastBecomes (written_by result piece.now) (log_of self.old.past.items self.old.latest self.old.missed)
            (log_of self.new.past.items self.new.latest self.new.missed) }
        ensures up { is_up self.new.is_dialled self.new.latest self.new.missed ≡ true }
        ensures count { self.old.faults ≤ self.new.faults }
        ensures still { OnOk result (self.new.faults ≡ self.old.faults) }
        ensures cause { OnErr result (Rose self.old.faults self.new.faults) }
        ensures dials { self.new.dial_faults ≡ self.old.dial_faults }
        ensures kept { (self.new.replies ≡ self.old.replies) × (self.new.coming ≡ self.old.coming) }
        ensures fails { Contains self.old.transfers.failing.items self.old.transfers.calls → IsErr result }
        ensures calls { self.new.transfers.calls ≡ next_count self.old.transfers.calls }
    {
        let fails = self.transfers.next_fails();
        let most = self.write_cut.within(piece.len());
        let Some(dial) = self.latest.as_mut() else {
            self.faults = self.faults.saturating_add(1);
            return Err(WireFault);
        };
        let sent = dial.send(fails, piece, most);
        if sent.is_err() {
            self.faults = self.faults.saturating_add(1);
        }
        sent
    }

    // It gives what fits, up to the cut, and fails where this transfer was to fail, or for want of memory.
    fn read(&mut self, into: &mut [u8]) -> Result<usize, WireFault>
        requires dialled { is_up self.old.is_dialled self.old.latest self.old.missed ≡ true }
        ensures bytes { ReadTakes (Some self.old.coming.items) (Some self.new.coming.items) result into.new }
        ensures taken { LastBecomes (read_by result into.new) (log_of self.old.past.items self.old.latest self.old.missed)
            (log_of self.new.past.items self.new.latest self.new.missed) }
        ensures up { is_up self.new.is_dialled self.new.latest self.new.missed ≡ true }
        ensures count { self.old.faults ≤ self.new.faults }
        ensures still { OnOk result (self.new.faults ≡ self.old.faults) }
        ensures cause { OnErr result (Rose self.old.faults self.new.faults) }
        ensures dials { self.new.dial_faults ≡ self.old.dial_faults }
        ensures kept { self.new.replies ≡ self.old.replies }
        ensures fails { Contains self.old.transfers.failing.items self.old.transfers.calls → IsErr result }
        ensures calls { self.new.transfers.calls ≡ next_count self.old.transfers.calls }
    {
        let fails = self.transfers.next_fails();
        let most = self.read_cut.within(self.coming.len());
        let Some(dial) = self.latest.as_mut() else {
            self.faults = self.faults.saturating_add(1);
            return Err(WireFault);
        };
        let taken = dial.take(fails, &mut self.coming, most, into);
        if taken.is_err() {
            self.faults = self.faults.saturating_add(1);
        }
        taken
    }

    fn hang_up(&mut self)
        ensures down { is_up self.new.is_dialled self.new.latest self.new.missed ≡ false }
        ensures log { log_of self.new.past.items self.new.latest self.new.missed
            ≡ log_of self.old.past.items self.old.latest self.old.missed }
        ensures transfers { self.new.faults ≡ self.old.faults }
        ensures dials { self.new.dial_faults ≡ self.old.dial_faults }
        ensures kept { (self.new.replies ≡ self.old.replies) × (self.new.coming ≡ self.old.coming) }
    {
        self.is_dialled = false;
    }
}
