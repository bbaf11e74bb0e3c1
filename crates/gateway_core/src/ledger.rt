//! Accounts of clients, in whichever form they are kept.

ghost use Rattle.std.specs.Prelude.{◌≡◌, ◌≤◌, ◌<◌, ◌+◌, ◌^◌, ◌++◌, ◌∷◌, [], ℕ, List, Option, length, IfOk, OnOk, OnErr};
ghost use Rattle.cost_num.specs.Within.{Within};
ghost use Rattle.account_core.specs.declared.Ticket.{Ticket as TicketType};
ghost use Rattle.account_core.specs.Machine.{Call, reservation};
ghost use Rattle.account_core.specs.Numbers.{settlement_of};
ghost use Rattle.account_shared.specs.Gains.{ClientCall};
ghost use Rattle.outside.specs.Faults.{Rose};
ghost use Rattle.gateway_core.specs.declared.gate.Gate.{Gate as GateType};
ghost use Rattle.gateway_core.specs.Gates.{rules_of};
ghost use Rattle.gateway_core.specs.Finishes.{settling};
ghost use Rattle.gateway_core.specs.Reservations.{calls_reserved, IsReservedFor, OpensIfReserved, IsFullOnlyIf};
ghost use Rattle.gateway_core.specs.Numbers.{numbers_taken, IsFullAt, AreSettled};

use crate::gate::Gate;
use account_core::Ticket;
use cost_num::Cost;
use std::sync::Wait;

/// What a reservation is answered.
pub enum Reserved {
    /// The bound is held until the ticket is settled.
    Granted(Ticket),
    /// The bound is more than what the window has left.
    Short {
        /// What the window has left.
        left: Cost,
    },
    /// There is no room to keep the grant and its settlement.
    Full,
}

/// The accounts of the clients of a gate, as one worker has them. Calls are numbered, and each is made on the account of one client.
pub trait Ledger {
    /// Why the accounts may be lost in a call.
    type Lost;

    /// The number of the next call.
    ghost made: { Self → ℕ };
    /// Where numbers are slots, how many slots there are.
    ghost slots: { Option ℕ };
    /// From one moment to another just these calls were made, with these replies.
    ghost gains: { Self → Self → List ClientCall → Type 0 };
    /// These are accounts of the clients of the gate.
    ghost belongs: { Self → GateType → Type 0 };
    /// The grant of a ticket is open.
    ghost opens: { Self → TicketType → Type 0 };
    /// No grant is open.
    ghost idle: { Self → Type 0 };
    /// There is no room for a further grant.
    ghost full: { Self → Type 0 };
    /// How often what keeps the accounts has failed. It never falls.
    ghost faults: { Self → ℕ };
    /// In this call on a client's account, which was begun at the first moment, the accounts were lost.
    ghost loses: { Self → Self → ℕ → Call → Type 0 };

    /// Reserves a bound at a client's account, in a window or in the account's own if that is later. It takes no memory.
    ///
    /// # Errors
    ///
    /// The accounts are lost, and no further call is made on them.
    fn reserve<R: Wait>(
        &mut self,
        gate: &Gate,
        rt: &R,
        client: u32,
        window: u64,
        bound: Cost,
    ) -> Result<Reserved, Self::Lost>
        requires belong { belongs self.old gate.now }
        requires made { made self.old < 2 ^ 62 }
        requires client { client < length (rules_of gate.now).clients }
        ensures belong { IfOk result (λ reserved. belongs self.new gate.now) }
        ensures reserved { IfOk result (IsReservedFor client (made self.old) bound) }
        ensures open { IfOk result (OpensIfReserved (opens self.new)) }
        ensures call { IfOk result (λ reserved. gains self.old self.new (calls_reserved client window bound reserved)) }
        ensures full { IfOk result (IsFullOnlyIf (full self.old)) }
        ensures lost { OnErr result (loses self.old self.new client (reservation window bound)) }
        ensures count { faults self.old ≤ faults self.new }
        ensures cause { OnErr result (Rose (faults self.old) (faults self.new)) };

    /// Settles an open grant at its measured cost. It takes no memory.
    ///
    /// # Errors
    ///
    /// The accounts are lost, and no further call is made on them.
    fn settle<R: Wait>(
        &mut self,
        gate: &Gate,
        rt: &R,
        ticket: Ticket,
        measured: Cost,
    ) -> Result<(), Self::Lost>
        requires belong { belongs self.old gate.now }
        requires made { made self.old < 2 ^ 63 }
        requires open { opens self.old ticket }
        requires measured { Within ticket.bound measured }
        ensures belong { OnOk result (belongs self.new gate.now) }
        ensures call { OnOk result (gains self.old self.new (settling ticket measured ∷ [])) }
        ensures lost { OnErr result (loses self.old self.new ticket.client (settlement_of ticket measured)) }
        ensures count { faults self.old ≤ faults self.new }
        ensures cause { OnErr result (Rose (faults self.old) (faults self.new)) };

    /// Where no call is made, nothing is gained.
    ghost gains_none: { (a : Self) → gains a a [] };
    /// Stretches of calls add up.
    ghost gains_then: { (a b c : Self) (these those : List ClientCall) → gains a b these → gains b c those → gains a c (these ++ those) };
    /// Each call takes its number.
    ghost counts: { (a b : Self) (calls : List ClientCall) → gains a b calls → made b ≡ made a + numbers_taken slots calls };
    /// Where no grant was open and what was granted is settled, none is open.
    ghost stays_idle: { (a b : Self) (calls : List ClientCall) → gains a b calls → AreSettled (made a) calls → idle a → idle b };
    /// Without open grants there is no room where too few slots are free.
    ghost fills: { (a : Self) → idle a → full a → IsFullAt slots (made a) };
    /// And only there.
    ghost has_room: { (a : Self) → idle a → IsFullAt slots (made a) → full a };
}
