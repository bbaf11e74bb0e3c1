//! Doors in memory.

ghost use Rattle.std.specs.Prelude.{◌≡◌, ◌+◌, ◌≤◌, ◌<◌, [], Contains, IfOk, IfSome, IfNone, IsErr, OnOk, OnErr, IsTrue, Some, None, is_some, cond, true, false, drop, length, map, vec_len, vec_capacity, option_map};
ghost use Rattle.outside.specs.Faults.{Rose, next_count};
ghost use Rattle.doors.specs.Visits.{after_visit};
ghost use Rattle.doors.specs.MemVisits.{visits_by};

use crate::conn::{Conn, Tells};
use crate::door::{Door, DoorFault};
use outside::{Clock, Failures, Sink, Source, Wire};
use std::alloc::{AllocError, Global};

/// A connection in memory, twice: one is given, and the other stays at the door, to tell afterwards what was
/// given. Both tell the same.
#[derive(Drop)]
pub struct Twins<S: Source + Drop, K: Sink + Drop, W: Wire + Drop, C: Clock + Drop> {
    give: Conn<S, K, W, C>,
    keep: Conn<S, K, W, C>,
    ghost left: { S.left give.source ≡ S.left keep.source },
    ghost written: { K.written give.sink ≡ K.written keep.sink },
    ghost readings: { C.readings give.clock ≡ C.readings keep.clock },
    ghost log: { W.log give.wire ≡ W.log keep.wire },
    ghost read_faults: { S.faults give.source ≡ S.faults keep.source },
    ghost write_faults: { K.faults give.sink ≡ K.faults keep.sink },
    ghost dial_faults: { W.dial_faults give.wire ≡ W.dial_faults keep.wire },
    ghost transfer_faults: { W.faults give.wire ≡ W.faults keep.wire },
}

impl<S: Source + Drop, K: Sink + Drop, W: Wire + Drop, C: Clock + Drop> Twins<S, K, W, C> {
    /// Two connections that tell the same.
    pub fn new(give: Conn<S, K, W, C>, keep: Conn<S, K, W, C>) -> Twins<S, K, W, C>
        requires same { ⟦<Conn<S, K, W, C> as Tells>⟧.told give ≡ ⟦<Conn<S, K, W, C> as Tells>⟧.told keep }
        ensures give { result.give ≡ give }
        ensures keep { result.keep ≡ keep }
    {
        Twins { give, keep }
    }
}

/// A visit to a door in memory.
#[derive(Drop)]
pub struct MemVisit<S: Drop, K: Drop, W: Drop, C: Drop> {
    /// What tells what the connection told when it was given.
    pub given: Conn<S, K, W, C>,
    /// The connection as it was handed back.
    pub back: Conn<S, K, W, C>,
    /// The number of its end.
    pub end: u8,
}

/// A door in memory. It tells its visits.
#[derive(Drop)]
pub struct MemDoor<S: Source + Drop, K: Sink + Drop, W: Wire + Drop, C: Clock + Drop> {
    /// The connections to come.
    planned: Vec<Twins<S, K, W, C>>,
    /// The twin of the connection that is out.
    kept: Option<Conn<S, K, W, C>>,
    /// The visits so far.
    past: Vec<MemVisit<S, K, W, C>>,
    /// The calls of `accept` so far, and those that are to fail.
    pub failures: Failures,
    /// The count of faults: of calls that were to fail.
    pub faults: u64,
    ghost room: { vec_len past + (vec_len planned + cond (is_some kept) 1 0) ≤ vec_capacity past },
}

impl<S: Source + Drop, K: Sink + Drop, W: Wire + Drop, C: Clock + Drop> MemDoor<S, K, W, C> {
    /// A door with these connections to come, and these failures of `accept`. The room for its visits is taken.
    pub fn new(
        alloc: Global,
        planned: Vec<Twins<S, K, W, C>>,
        failures: Failures,
    ) -> Result<MemDoor<S, K, W, C>, AllocError>
        ensures planned { IfOk result (λ door. door.planned ≡ planned) }
        ensures kept { IfOk result (λ door. door.kept ≡ None) }
        ensures past { IfOk result (λ door. door.past.items ≡ []) }
        ensures failures { IfOk result (λ door. door.failures ≡ failures) }
        ensures faults { IfOk result (λ door. door.faults ≡ 0) }
    {
        let past = Vec::with_capacity(alloc, planned.len())?;
        Ok(MemDoor {
            planned,
            kept: None,
            past,
            failures,
            faults: 0,
        })
    }

    /// The visits so far.
    pub fn visits(&self) -> &[MemVisit<S, K, W, C>]
        ensures { result.now ≡ self.now.past.items }
    {
        self.past.as_slice()
    }

    // Whether it was not used yet, and has so many connections to come.
    pub(crate) fn is_new(&self, connections: u32) -> bool
        ensures { IsTrue result → (is_some self.now.kept ≡ false) × (length self.now.planned.items ≡ connections)
            × (self.now.faults ≡ 0) × (length self.now.past.items ≡ 0) }
    {
        self.kept.is_none()
            && self.past.is_empty()
            && self.faults == 0
            && self.planned.len() == connections as usize
    }
}

impl<
    S: Source + Drop + Send,
    K: Sink + Drop + Send,
    W: Wire + Drop + Send,
    C: Clock + Drop + Send,
> Door for MemDoor<S, K, W, C> {
    type S = S;

    type K = K;

    type W = W;

    type C = C;

    ghost out = { λ door. is_some door.kept };

    ghost to_come = { λ door. length door.planned.items };

    ghost faults = { λ door. door.faults };

    ghost given = { λ door. option_map ⟦<Conn<S, K, W, C> as Tells>⟧.told door.kept };

    ghost visits = { λ door. visits_by ⟦<Conn<S, K, W, C> as Tells>⟧.told door.past.items };

    // It gives its connections in order, and fails exactly where this call was to fail and one is still to come.
    fn accept(&mut self) -> Result<Option<Conn<S, K, W, C>>, DoorFault>
        requires free { is_some self.old.kept ≡ false }
        ensures some { IfOk result (λ next. IfSome next (λ _. (is_some self.new.kept ≡ true)
            × (length self.old.planned.items ≡ length self.new.planned.items + 1))) }
        ensures given { IfOk result (λ next. IfSome next (λ conn. option_map ⟦<Conn<S, K, W, C> as Tells>⟧.told self.new.kept
            ≡ Some (⟦<Conn<S, K, W, C> as Tells>⟧.told conn))) }
        ensures none { IfOk result (λ next. IfNone next ((is_some self.new.kept ≡ false)
            × (length self.old.planned.items ≡ 0) × (length self.new.planned.items ≡ 0))) }
        ensures failed { OnErr result ((is_some self.new.kept ≡ false) × (0 < length self.old.planned.items)
            × (length self.new.planned.items ≡ length self.old.planned.items)) }
        ensures count { self.old.faults ≤ self.new.faults }
        ensures cause { OnErr result (Rose self.old.faults self.new.faults) }
        ensures still { OnOk result (self.new.faults ≡ self.old.faults) }
        ensures visits { self.new.past ≡ self.old.past }
        ensures order { IfOk result (λ _. self.new.planned.items ≡ drop 1 self.old.planned.items) }
        ensures fails { Contains self.old.failures.failing.items self.old.failures.calls → 0 < length self.old.planned.items → IsErr result }
        ensures only { IsErr result → Contains self.old.failures.failing.items self.old.failures.calls }
        ensures calls { self.new.failures.calls ≡ next_count self.old.failures.calls }
    {
        let fails = self.failures.next_fails();
        if self.planned.is_empty() {
            return Ok(None);
        }
        if fails {
            self.faults = self.faults.saturating_add(1);
            return Err(DoorFault);
        }
        let Twins { give, keep } = self.planned.remove(0);
        self.kept = Some(keep);
        Ok(Some(give))
    }

    fn hand_back(&mut self, conn: Conn<S, K, W, C>, end: u8)
        requires out { is_some self.old.kept ≡ true }
        ensures free { is_some self.new.kept ≡ false }
        ensures to_come { length self.new.planned.items ≡ length self.old.planned.items }
        ensures count { self.new.faults ≡ self.old.faults }
        ensures visit { ⟦<MemDoor<S, K, W, C> as Door>⟧.visits self.new ≡ after_visit
            (⟦<MemDoor<S, K, W, C> as Door>⟧.visits self.old) (⟦<MemDoor<S, K, W, C> as Door>⟧.given self.old)
            (⟦<Conn<S, K, W, C> as Tells>⟧.told conn) end }
    {
        match self.kept.take() {
            Some(given) => self.past.push_reserved(MemVisit {
                given,
                back: conn,
                end,
            }),
            None => unreachable!(),
        }
    }
}
