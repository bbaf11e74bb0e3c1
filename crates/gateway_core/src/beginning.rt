//! How a request begins.

ghost use Rattle.std.specs.Prelude.{◌≡◌, ◌≤◌, ◌<◌, ◌^◌, length, IfOk, OnErr};
ghost use Rattle.local_introspection.specs.PassedOn.{IsWithin};
ghost use Rattle.outside.specs.Faults.{Rose};
ghost use Rattle.account_core.specs.Machine.{reservation};
ghost use Rattle.gateway_core.specs.Rules.{window_of};
ghost use Rattle.gateway_core.specs.Losses.{LosesCalls, LosesBegun};
ghost use Rattle.gateway_core.specs.Gates.{rules_of};
ghost use Rattle.gateway_core.specs.PlanBounds.{Covers};
ghost use Rattle.local_introspection.specs.Counted.{answer_counted};
ghost use Rattle.gateway_core.specs.Begins.{Begins, OpensIfBegun, IfDenied, HasCostsWithin, IfAnswered, IsGiven, IsWritten, IsReserved, IsPaid, TellsFull, calls_begun};

use crate::examining::{Examined, examine};
use crate::finishing::{Finished, starved};
use crate::gate::Gate;
use crate::grant::Grant;
use crate::ledger::{Ledger, Reserved};
use crate::promise::Promise;
use cost_num::Cost;
use local_introspection::{Counted, LocalFault, Refusal, write};
use request_bodies::BodyFault;
use std::alloc::{AllocError, Global};
use std::sync::Wait;
use trusted_documents::ExpandFault;

/// Why a request isn't forwarded.
#[derive(Debug, Drop)]
pub enum Denial {
    /// The key is no client's.
    UnknownKey,
    /// The body isn't expanded. The fault is not want of memory.
    Unexpanded(ExpandFault),
    /// The body is no request. The fault is not want of memory.
    BadBody(BodyFault),
    /// The operation is refused.
    Refused(Refusal),
    /// The operation asks for what the gateway knows of its schema, and isn't answered. The fault is not want of memory.
    NotLocal(LocalFault),
    /// The account doesn't cover the bound, or the cost of the gateway's own answer.
    Short {
        /// What the window has left.
        left: Cost,
        /// What a response costs at most.
        bound: Cost,
    },
    /// There is no room to keep what would be granted.
    Full,
    /// The steps are spent that an examination may take.
    Work,
    /// There was no memory.
    Memory,
}

/// The answer to an operation that asks for what the gateway knows of its schema. What it costs was reserved, and settled at once.
#[derive(Debug, Drop)]
pub struct LocalAnswer {
    pub finished: Finished,
    /// The window in which it was granted.
    pub window: u64,
    /// The number of the call that granted it.
    pub seq: u64,
}

/// What becomes of a request.
pub enum Begun<'g> {
    /// It is forwarded, and must be finished.
    Granted(Grant<'g>),
    /// The gateway answers it itself.
    Answered(LocalAnswer),
    /// It isn't forwarded.
    Denied(Denial),
}

// Reserves what was promised at the client's account. It takes no memory.
fn reserve<'g, L: Ledger, R: Wait>(
    gate: &'g Gate,
    rt: &R,
    ledger: &mut L,
    client: u32,
    moment: u64,
    promise: Promise<'g>,
) -> Result<Begun<'g>, L::Lost>
    requires belong { L.belongs ledger.old gate.now }
    requires made { L.made ledger.old < 2 ^ 62 }
    requires client { client < length (rules_of gate.now).clients }
    requires covered { Covers promise.plan promise.bound }
    ensures belong { IfOk result (λ begun. L.belongs ledger.new gate.now) }
    ensures open { IfOk result (OpensIfBegun (λ g. L.opens ledger.new g.ticket)) }
    ensures reserved { IfOk result (IsReserved promise.entry client (L.made ledger.old)) }
    ensures call { IfOk result (λ begun. L.gains ledger.old ledger.new (calls_begun client (window_of (rules_of gate.now) moment) begun)) }
    ensures within { IfOk result (λ begun. IfDenied begun HasCostsWithin) }
    ensures full { IfOk result (TellsFull (L.full ledger.old)) }
    ensures lost { OnErr result (L.loses ledger.old ledger.new client (reservation (window_of (rules_of gate.now) moment) promise.entry.bound)) }
    ensures count { L.faults ledger.old ≤ L.faults ledger.new }
    ensures cause { OnErr result (Rose (L.faults ledger.old) (L.faults ledger.new)) }
{
    let window = moment / u64::from(gate.settings.window_seconds);
    let bound = promise.bound;
    let reserved = ledger.reserve(gate, rt, client, window, bound)?;
    match reserved {
        Reserved::Granted(ticket) => Ok(Begun::Granted(Grant {
            ticket,
            plan: promise.plan,
            alias: promise.alias,
            forward: promise.forward,
        })),
        Reserved::Short { left } => Ok(Begun::Denied(Denial::Short { left, bound })),
        Reserved::Full => Ok(Begun::Denied(Denial::Full)),
    }
}

// An answer that is paid for. Where there is no memory for its text, it is answered as a reply is that there is no memory for.
fn written(alloc: Global, counted: &Counted) -> Finished
    ensures written { IsWritten (answer_counted counted.now) result }
    ensures bound { result.bound ≡ counted.now.cost }
    ensures charged { result.charged ≡ counted.now.cost }
{
    match write(alloc, counted) {
        Ok(answer) => Finished {
            status: 200,
            body: answer.text,
            bound: answer.cost,
            charged: answer.cost,
        },
        Err(AllocError) => starved(alloc, counted.cost),
    }
}

// Reserves what an answer costs at the client's account, and settles it at once where it is granted. Only then the answer is written.
fn pay<'g, L: Ledger, R: Wait>(
    gate: &'g Gate,
    alloc: Global,
    rt: &R,
    ledger: &mut L,
    client: u32,
    moment: u64,
    counted: Counted,
) -> Result<Begun<'g>, L::Lost>
    requires belong { L.belongs ledger.old gate.now }
    requires made { L.made ledger.old < 2 ^ 62 }
    requires client { client < length (rules_of gate.now).clients }
    requires capped { IsWithin counted.cost }
    ensures belong { IfOk result (λ begun. L.belongs ledger.new gate.now) }
    ensures open { IfOk result (OpensIfBegun (λ g. L.opens ledger.new g.ticket)) }
    ensures paid { IfOk result (IsPaid (answer_counted counted.entry) (L.made ledger.old)) }
    ensures calls { IfOk result (λ begun. L.gains ledger.old ledger.new (calls_begun client (window_of (rules_of gate.now) moment) begun)) }
    ensures within { IfOk result (λ begun. IfDenied begun HasCostsWithin) }
    ensures given { IfOk result (λ begun. IfAnswered begun IsGiven) }
    ensures full { IfOk result (TellsFull (L.full ledger.old)) }
    ensures lost { OnErr result (LosesCalls client (window_of (rules_of gate.now) moment) counted.entry.cost (L.made ledger.old) (L.gains ledger.old) (λ before. L.loses before ledger.new)) }
    ensures count { L.faults ledger.old ≤ L.faults ledger.new }
    ensures cause { OnErr result (Rose (L.faults ledger.old) (L.faults ledger.new)) }
{
    let window = moment / u64::from(gate.settings.window_seconds);
    let cost = counted.cost;
    let reserved = ledger.reserve(gate, rt, client, window, cost)?;
    match reserved {
        Reserved::Granted(ticket) => {
            let window = ticket.window;
            let seq = ticket.seq;
            ledger.settle(gate, rt, ticket, cost)?;
            let finished = written(alloc, &counted);
            Ok(Begun::Answered(LocalAnswer {
                finished,
                window,
                seq,
            }))
        }
        Reserved::Short { left } => Ok(Begun::Denied(Denial::Short { left, bound: cost })),
        Reserved::Full => Ok(Begun::Denied(Denial::Full)),
    }
}

/// Begins a request with this key and this body at a moment, in seconds. The key is tested first. Then the body is expanded by the
/// list of trusted documents, if the gate has one, and tested, and then its operation; and then the bound of the operation is reserved
/// at the client's account, in the window of the moment. Where the gate knows its schema, an operation that asks for it is answered,
/// and what the answer costs is reserved and settled before any of it is written.
///
/// All memory is taken before the reservation, but that of the gateway's own answer. It may wait for the steps of other workers.
///
/// # Errors
///
/// The accounts were lost in a call that the request needs.
pub fn begin_in<'g, L: Ledger, R: Wait>(
    gate: &'g Gate,
    alloc: Global,
    rt: &R,
    ledger: &mut L,
    key: &str,
    body: &[u8],
    moment: u64,
) -> Result<Begun<'g>, L::Lost>
    requires belong { L.belongs ledger.old gate.now }
    requires made { L.made ledger.old < 2 ^ 62 }
    ensures belong { IfOk result (λ begun. L.belongs ledger.new gate.now) }
    ensures open { IfOk result (OpensIfBegun (λ g. L.opens ledger.new g.ticket)) }
    ensures begun { IfOk result (Begins (rules_of gate.now) (L.made ledger.old) (L.gains ledger.old ledger.new) key.now body.now moment) }
    ensures within { IfOk result (λ begun. IfDenied begun HasCostsWithin) }
    ensures given { IfOk result (λ begun. IfAnswered begun IsGiven) }
    ensures full { IfOk result (TellsFull (L.full ledger.old)) }
    ensures lost { OnErr result (LosesBegun (rules_of gate.now) key.now body.now moment (L.made ledger.old) (L.gains ledger.old) (λ before. L.loses before ledger.new)) }
    ensures count { L.faults ledger.old ≤ L.faults ledger.new }
    ensures cause { OnErr result (Rose (L.faults ledger.old) (L.faults ledger.new)) }
{
    let Some(client) = gate.client(key) else {
        return Ok(Begun::Denied(Denial::UnknownKey));
    };
    match examine(gate, alloc, key, client, body) {
        Ok(Examined::Upstream(promise)) => Ok(reserve(gate, rt, ledger, client, moment, promise)?),
        Ok(Examined::Local(counted)) => Ok(pay(gate, alloc, rt, ledger, client, moment, counted)?),
        Err(denial) => Ok(Begun::Denied(denial)),
    }
}
