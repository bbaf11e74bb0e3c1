//! The account of one client: what it has settled, holds and carries in a window, and the law that
//! what is settled and held never passes the allowance and what is carried.
//!
//! A budget is kept by windows of time. Before a request goes out, its greatest cost is reserved;
//! when the reply is in, the reservation is settled at the measured cost. A client whose limit says
//! so carries over what a window leaves, up to one allowance. An account keeps seven numbers for
//! that. They stand for a state of the budget machine, which keeps a list of all open grants, and
//! each call is one step of it.
//!
//! Costs are in the units of `cost_num`, and no meaning here hangs on what a unit is.
#![tactic(auto)]

ghost use Rattle.std.specs.Prelude.{◌≡◌, ℕ, ◌+◌, ◌≤◌, ◌<◌, ◌^◌, max, IfOk, IfErr};
ghost use Rattle.cost_num.specs.Within.{Within};
ghost use Rattle.account_core.specs.declared.Limit as limit_type;
ghost use Rattle.account_core.specs.Costs.{cost, together, remaining, smaller};
ghost use Rattle.account_core.specs.Machine.{State, used_of, carried_past, first, entry, reservation, granted, short, done};
ghost use Rattle.account_core.specs.Numbers.{StandsFor, StepsTo, HasOpen, settlement_of, reply_of, ticket_for, HasTicket, FitsCap, moved_to, KeepsLimit, UnchangedIfShort, account_holding, reservation_reply, reserved_account, settled_account};

use cost_num::{CAP, Cost, covers};

pub mod laws;

/// What a client may spend.
#[derive(Clone, Copy, Debug, PartialEq, Eq)]
pub struct Limit {
    /// What each window allows.
    pub allowance: Cost,
    /// Whether a window carries over what the one before it left, up to one allowance.
    pub carry: bool,
}

/// What a client has settled, holds and carries in the window that its account has come to.
#[derive(Clone, Copy, Debug, PartialEq, Eq)]
pub struct Account {
    /// The window's number: the seconds of a moment in it divided by the window's length, rounded down.
    pub window: u64,
    /// The measured costs that are settled in the window.
    pub settled: Cost,
    /// The bounds of the window's open grants.
    pub held: Cost,
    /// What was carried into the window from those before it.
    pub carried: Cost,
}

/// A granted reservation, which must be settled: a ticket can be neither copied nor dropped.
#[derive(Debug)]
pub struct Ticket {
    /// The client, by its place among the clients.
    pub client: u32,
    /// The caller's own number of the reservation.
    pub seq: u64,
    /// The window in which the reservation stands.
    pub window: u64,
    /// The most that may be settled for it.
    pub bound: Cost,
}

/// What a reservation is answered.
#[derive(Debug)]
pub enum Reply {
    /// The bound is held until the ticket is settled.
    Granted(Ticket),
    /// The bound is more than what the window has left, in one component at least.
    Short {
        /// What the window has left.
        left: Cost,
    },
}

const NOTHING: Cost = Cost {
    types: 0,
    fields: 0,
};

/// The account in window 0, with nothing settled, held or carried.
pub fn fresh() -> Account
    ensures first { StandsFor result first }
{
    Account {
        window: 0,
        settled: NOTHING,
        held: NOTHING,
        carried: NOTHING,
    }
}

/// The smaller of two costs, component by component.
fn smaller(a: Cost, b: Cost) -> Cost
    ensures { result ≡ smaller a b }
{
    Cost {
        types: a.types.min(b.types),
        fields: a.fields.min(b.fields),
    }
}

impl Account {
    /// What the account's own window has left.
    fn left(self, limit: Limit) -> Cost
        requires cap { FitsCap (cost CAP CAP) limit }
        requires inside { KeepsLimit limit self }
        ensures { result ≡ remaining (together limit.allowance self.carried) (used_of self) }
    {
        let Limit {
            allowance,
            carry: _,
        } = limit;
        Cost {
            types: allowance.types + self.carried.types - self.settled.types - self.held.types,
            fields: allowance.fields + self.carried.fields - self.settled.fields - self.held.fields,
        }
    }

    /// What is carried into a window past the account's own.
    fn carried_past(self, limit: Limit, window: u64) -> Cost
        requires cap { FitsCap (cost CAP CAP) limit }
        requires inside { KeepsLimit limit self }
        requires past { self.window < window }
        ensures { result ≡ carried_past limit self window }
    {
        if !limit.carry {
            NOTHING
        } else if window - self.window > 1 {
            limit.allowance
        } else {
            smaller(limit.allowance, self.left(limit))
        }
    }

    /// The account once it has come to a window.
    fn moved_to(self, limit: Limit, window: u64) -> Account
        requires cap { FitsCap (cost CAP CAP) limit }
        requires inside { KeepsLimit limit self }
        requires window { self.window ≤ window }
        ensures exact { result ≡ moved_to limit self window }
        ensures inside { KeepsLimit limit result }
    {
        if window == self.window {
            self
        } else {
            Account {
                window,
                carried: self.carried_past(limit, window),
                ..fresh()
            }
        }
    }

    fn holding(self, bound: Cost) -> Account
        requires types { self.held.types + bound.types < 2 ^ 64 }
        requires fields { self.held.fields + bound.fields < 2 ^ 64 }
        ensures { result ≡ account_holding self bound }
    {
        let held = Cost {
            types: self.held.types + bound.types,
            fields: self.held.fields + bound.fields,
        };
        Account { held, ..self }
    }

    /// Holds a bound in a window that has room for it, and else says what is left there.
    fn hold(&mut self, limit: Limit, window: u64, bound: Cost) -> Result<(), Cost>
        requires cap { FitsCap (cost CAP CAP) limit }
        requires inside { KeepsLimit limit self.old }
        ensures granted { IfOk result (λ _. reservation_reply limit self.old window bound ≡ granted self.new.window) }
        ensures short { IfErr result (λ left. reservation_reply limit self.old window bound ≡ short left) }
        ensures account { self.new ≡ reserved_account limit self.old window bound }
        ensures inside { KeepsLimit limit self.new }
    {
        let here = self.moved_to(limit, self.window.max(window));
        let left = here.left(limit);
        if !covers(left, bound) {
            return Err(left);
        }
        *self = here.holding(bound);
        Ok(())
    }

    fn settled_at(self, window: u64, bound: Cost, measured: Cost) -> Account
        requires measured { Within bound measured }
        requires held { window ≡ self.window → Within self.held bound }
        requires inside { Within (cost CAP CAP) (used_of self) }
        ensures exact { result ≡ settled_account self window bound measured }
        ensures inside { Within (used_of self) (used_of result) }
        ensures late { window < self.window → result ≡ self }
    {
        if window != self.window {
            return self;
        }
        let settled = Cost {
            types: self.settled.types + measured.types,
            fields: self.settled.fields + measured.fields,
        };
        let held = Cost {
            types: self.held.types - bound.types,
            fields: self.held.fields - bound.fields,
        };
        Account {
            settled,
            held,
            ..self
        }
    }

    /// Reserves a bound in a window, or in the account's own window if that is later.
    ///
    /// In a window that the account hasn't come to, nothing is settled or held yet. With carry it
    /// begins with what the account's window has left, up to one allowance, where that is the window
    /// before, and with a whole allowance where windows were passed over. If both components of the
    /// bound are at most what the allowance and the carried cost leave there, the account comes to
    /// the window and holds the bound until the ticket is settled. Otherwise the reply is `Short` with
    /// what is left, and the account is as it was.
    pub fn reserve(
        &mut self,
        limit: Limit,
        client: u32,
        seq: u64,
        window: u64,
        bound: Cost,
    ) -> Reply
        requires cap { FitsCap (cost CAP CAP) limit }
        requires inside { KeepsLimit limit self.old }
        // A step of the machine, from each state that the account stands for, whoever calls.
        ensures step { (s : State) (caller : ℕ) → StandsFor self.old s
            → StepsTo limit s (entry caller seq (reservation window bound) (reply_of result)) self.new }
        ensures ticket { HasTicket result (ticket_for client seq (max self.old.window window) bound) }
        ensures short { UnchangedIfShort result self.old self.new }
        // The same on the seven numbers.
        ensures reply { reply_of result ≡ reservation_reply limit self.old window bound }
        ensures account { self.new ≡ reserved_account limit self.old window bound }
        ensures inside { KeepsLimit limit self.new }
    {
        match self.hold(limit, window, bound) {
            Ok(()) => Reply::Granted(Ticket {
                client,
                seq,
                window: self.window,
                bound,
            }),
            Err(left) => Reply::Short { left },
        }
    }

    /// Settles a granted reservation at its measured cost.
    ///
    /// In the account's window the bound is no longer held and the measured cost is settled. The
    /// account of a later window is as it was.
    pub fn settle(&mut self, ticket: Ticket, measured: Cost)
        requires measured { Within ticket.bound measured }
        requires window { ticket.window ≤ self.old.window }
        requires held { ticket.window ≡ self.old.window → Within self.old.held ticket.bound }
        requires inside { Within (cost CAP CAP) (used_of self.old) }
        // A step of the machine, from each state that the account stands for and where the caller has this grant open.
        ensures step { (limit : limit_type.Limit) (s : State) (caller number : ℕ) → StandsFor self.old s
            → HasOpen caller ticket s → StepsTo limit s (entry caller number (settlement_of ticket measured) done) self.new }
        // The same on the seven numbers, which a late settlement leaves as they are.
        ensures account { self.new ≡ settled_account self.old ticket.window ticket.bound measured }
        ensures late { ticket.window < self.old.window → self.new ≡ self.old }
        ensures inside { Within (used_of self.old) (used_of self.new) }
    {
        let Ticket {
            client: _,
            seq: _,
            window,
            bound,
        } = ticket;
        *self = self.settled_at(window, bound, measured);
    }
}
