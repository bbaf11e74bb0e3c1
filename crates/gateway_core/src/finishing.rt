//! How a granted request finishes.

ghost use Rattle.std.specs.Prelude.{◌≡◌, ◌⊎◌, ◌≤◌, ◌<◌, ◌^◌, ◌∷◌, [], IfOk, OnErr};
ghost use Rattle.outside.specs.Faults.{Rose};
ghost use Rattle.cost_num.specs.Within.{Within};
ghost use Rattle.gateway_core.specs.Rules.{greatest};
ghost use Rattle.gateway_core.specs.Losses.{LosesFinished};
ghost use Rattle.gateway_core.specs.Finishes.{IsReplied, link_charge, IsUnanswered, IsStarved, IsTold, IsFinished, settling};

use crate::gate::Gate;
use crate::grant::Grant;
use crate::ledger::Ledger;
use crate::messages::{link_message, link_status, message_body, not_response, size_broken};
use cost_num::Cost;
use gql_base::Text;
use response_meter::{MeterFault, meter, print_answer};
use std::alloc::{AllocError, Global};
use std::sync::Wait;
use upstream_link::{LinkFault, UpstreamReply};

/// What the upstream made of a granted request.
#[derive(Debug, Drop)]
pub enum Outcome {
    /// It replied.
    Reply(UpstreamReply),
    /// There is no reply.
    Fault(LinkFault),
    /// There was no memory to ask it.
    NoMemory,
}

/// What a granted request is answered, and what it is charged.
#[derive(Debug, Drop)]
pub struct Finished {
    pub status: u16,
    /// The body of the answer. It is empty where there was no memory.
    pub body: Text,
    /// What was held for the request.
    pub bound: Cost,
    /// What is settled for it.
    pub charged: Cost,
}

/// No cost.
pub(crate) const NOTHING: Cost = Cost {
    types: 0,
    fields: 0,
};

/// The answer for want of memory. It takes none.
pub(crate) fn starved(alloc: Global, bound: Cost) -> Finished
    ensures { IsStarved bound result }
{
    Finished {
        status: 500,
        body: Text::from(String::new(alloc)),
        bound,
        charged: bound,
    }
}

// The answer of a status that tells a message, or the one for want of memory.
fn told(
    alloc: Global,
    status: u16,
    message: Result<Text, AllocError>,
    bound: Cost,
    charged: Cost,
) -> Finished
    ensures { IsTold message status bound charged result }
{
    let Ok(message) = message else {
        return starved(alloc, bound);
    };
    match message_body(alloc, message.as_str()) {
        Ok(body) => Finished {
            status,
            body,
            bound,
            charged,
        },
        Err(_) => starved(alloc, bound),
    }
}

// What is charged where there is no reply.
fn link_charge(bound: Cost, fault: LinkFault) -> Cost
    ensures { result ≡ link_charge bound fault }
{
    match fault {
        LinkFault::Down => NOTHING,
        _ => bound,
    }
}

// What is answered where there is no reply.
fn unanswered(alloc: Global, bound: Cost, fault: LinkFault) -> Finished
    ensures unanswered { IsUnanswered bound fault result ⊎ IsStarved bound result }
    ensures within { Within bound result.charged }
{
    match fault {
        LinkFault::Memory => starved(alloc, bound),
        fault => told(
            alloc,
            link_status(fault),
            link_message(alloc, fault),
            bound,
            link_charge(bound, fault),
        ),
    }
}

// What is answered to a reply.
fn replied(alloc: Global, grant: &Grant, reply: &[u8]) -> Finished
    ensures replied { IsReplied grant.now reply.now result ⊎ IsStarved grant.now.ticket.bound result }
    ensures within { Within grant.now.ticket.bound result.charged }
{
    let bound = grant.ticket.bound;
    match meter(alloc, &grant.plan, grant.alias.as_str(), reply) {
        Ok(metered) => Finished {
            status: 200,
            charged: metered.cost,
            body: print_answer(metered),
            bound,
        },
        Err(MeterFault::NotResponse { path, why }) => {
            told(alloc, 502, not_response(alloc, &path, why), bound, bound)
        }
        Err(MeterFault::SizeBroken { path, size, length }) => {
            told(
                alloc,
                502,
                size_broken(alloc, &path, size, length),
                bound,
                bound,
            )
        }
        Err(MeterFault::Memory) => starved(alloc, bound),
    }
}

// What is answered, and what is charged: at most the bound.
fn concluded(alloc: Global, grant: &Grant, outcome: Outcome) -> Finished
    ensures finished { IsFinished grant.now outcome result }
    ensures within { Within grant.now.ticket.bound result.charged }
{
    let bound = grant.ticket.bound;
    match outcome {
        Outcome::Reply(reply) => replied(alloc, grant, &reply.body),
        Outcome::Fault(fault) => unanswered(alloc, bound, fault),
        Outcome::NoMemory => starved(alloc, bound),
    }
}

/// Finishes a granted request by what the upstream made of it, and settles it at what it is charged: a response that keeps the
/// declared sizes at its measured cost; any other reply, a failed transfer and want of memory at the bound; and a dial that
/// nobody answered at nothing. Where there is no memory for the answer, its body is empty and the bound is charged.
///
/// The settling takes no memory, and always happens. It may wait for the steps of other workers.
///
/// # Errors
///
/// The accounts were lost.
pub fn finish_in<L: Ledger, R: Wait>(
    gate: &Gate,
    alloc: Global,
    rt: &R,
    ledger: &mut L,
    grant: Grant,
    outcome: Outcome,
) -> Result<Finished, L::Lost>
    requires belong { L.belongs ledger.old gate.now }
    requires open { L.opens ledger.old grant.ticket }
    requires made { L.made ledger.old < 2 ^ 63 }
    ensures belong { IfOk result (λ finished. L.belongs ledger.new gate.now) }
    ensures finished { IfOk result (IsFinished grant.entry outcome) }
    ensures bound { IfOk result (λ finished. finished.bound ≡ grant.entry.ticket.bound) }
    ensures settled { IfOk result (λ finished. L.gains ledger.old ledger.new (settling grant.entry.ticket finished.charged ∷ [])) }
    ensures within { IfOk result (λ finished. Within finished.bound finished.charged) }
    ensures capped { IfOk result (λ finished. Within greatest finished.bound) }
    ensures lost { OnErr result (LosesFinished grant.entry outcome (L.loses ledger.old ledger.new grant.entry.ticket.client)) }
    ensures count { L.faults ledger.old ≤ L.faults ledger.new }
    ensures cause { OnErr result (Rose (L.faults ledger.old) (L.faults ledger.new)) }
{
    let finished = concluded(alloc, &grant, outcome);
    let Grant {
        ticket,
        plan: _,
        alias: _,
        forward: _,
    } = grant;
    ledger.settle(gate, rt, ticket, finished.charged)?;
    Ok(finished)
}
