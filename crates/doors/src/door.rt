//! Doors, which give a worker its connections one after the other.

ghost use Rattle.std.specs.Prelude.{◌≡◌, ◌≤◌, ◌<◌, ◌+◌, ℕ, Bool, List, Option, true, false, IfOk, IfSome, IfNone, OnOk, OnErr};
ghost use Rattle.outside.specs.Faults.{Rose};
ghost use Rattle.doors.specs.Visits.{Told, Visit, given_by, after_visit};

use crate::conn::{Conn, Tells};
use outside::{Clock, Sink, Source, Wire};
use thiserror::Error;

/// That a door gave no connection though some are still to come. The count of its faults rose.
#[derive(Clone, Copy, Debug, Drop, PartialEq, Eq, Error)]
#[error("no connection was accepted")]
pub struct DoorFault;

/// A door, which gives one connection at a time until none is still to come. Each is handed back before the next.
pub trait Door: Drop {
    /// The stream that a client sends on.
    type S: Source + Drop + Send;
    /// The stream of the replies.
    type K: Sink + Drop + Send;
    /// The wire to the upstream.
    type W: Wire + Drop + Send;
    /// The clock.
    type C: Clock + Drop + Send;

    /// Whether a connection is out.
    ghost out: { Self → Bool };
    /// How many connections are still to come.
    ghost to_come: { Self → ℕ };
    /// The count of faults, which never falls.
    ghost faults: { Self → ℕ };
    /// What the connection that is out told when it was given, where the door tells it.
    ghost given: { Self → Option Told };
    /// The visits so far, where the door tells them.
    ghost visits: { Self → Option (List Visit) };

    /// Gives the next connection, and none exactly where none is still to come.
    fn accept(&mut self) -> Result<Option<Conn<Self::S, Self::K, Self::W, Self::C>>, DoorFault>
        requires free { out self.old ≡ false }
        ensures some { IfOk result (λ next. IfSome next (λ _. (out self.new ≡ true) × (to_come self.old ≡ to_come self.new + 1))) }
        ensures given { IfOk result (λ next. IfSome next (λ conn.
            given self.new ≡ given_by (visits self.old) (⟦<Conn<Self::S, Self::K, Self::W, Self::C> as Tells>⟧.told conn))) }
        ensures none { IfOk result (λ next. IfNone next ((out self.new ≡ false) × (to_come self.old ≡ 0) × (to_come self.new ≡ 0))) }
        ensures failed { OnErr result ((out self.new ≡ false) × (0 < to_come self.old) × (to_come self.new ≡ to_come self.old)) }
        ensures count { faults self.old ≤ faults self.new }
        ensures cause { OnErr result (Rose (faults self.old) (faults self.new)) }
        ensures still { OnOk result (faults self.new ≡ faults self.old) }
        ensures visits { visits self.new ≡ visits self.old };

    /// Takes back the connection that was given last, with the number of its end.
    fn hand_back(&mut self, conn: Conn<Self::S, Self::K, Self::W, Self::C>, end: u8)
        requires out { out self.old ≡ true }
        ensures free { out self.new ≡ false }
        ensures to_come { to_come self.new ≡ to_come self.old }
        ensures count { faults self.new ≡ faults self.old }
        ensures visit { visits self.new ≡ after_visit (visits self.old) (given self.old)
            (⟦<Conn<Self::S, Self::K, Self::W, Self::C> as Tells>⟧.told conn) end };
}
