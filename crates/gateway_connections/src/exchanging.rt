//! One exchange: a request of a client, and its reply.

ghost use Rattle.std.specs.Prelude.{◌≡◌, ◌≤◌, ◌<◌, ◌+◌, ◌^◌, IfSome, IfOk, OnErr};
ghost use Rattle.outside.specs.Faults.{Rose};
ghost use Rattle.http_front.specs.ReplyBytes.{IsHint};
ghost use Rattle.gateway_core.specs.Begins.{HasCostsWithin};
ghost use Rattle.gateway_core.specs.Gates.{rules_of};
ghost use Rattle.gateway_connections.specs.Replies.{IsWritable};
ghost use Rattle.gateway_connections.specs.Exchanges.{Forwards, Replies, LosesForwarded, LosesExchange, outcome_of, service_of, service_in, telling, short_hint, hint_of};

use crate::reply::{Reply, answered_reply, denial_reply};
use gateway_core::{Begun, Denial, Gate, Grant, Ledger, Outcome, begin_in, finish_in};
use http_front::{Ask, Hint};
use outside::Wire;
use std::alloc::Global;
use std::sync::Wait;
use upstream_link::{LinkFault, UpstreamReply, ask};

// What the upstream made of a request.
fn outcome_of(asked: Result<UpstreamReply, LinkFault>) -> Outcome
    ensures { result ≡ outcome_of asked }
{
    match asked {
        Ok(reply) => Outcome::Reply(reply),
        Err(fault) => Outcome::Fault(fault),
    }
}

// What is told at a moment to a client whose account is short, if waiting may help.
fn short_hint(gate: &Gate, ask: &Ask, moment: u64, denial: &Denial) -> Option<Hint>
    requires within { HasCostsWithin denial.now }
    ensures hint { result ≡ short_hint (rules_of gate.now) ask.now.key moment denial.now }
    ensures within { IfSome result IsHint }
{
    match denial {
        Denial::Short { left, bound } => {
            if gate.may_have_room(ask.key.as_str(), *bound) {
                Some(Hint {
                    seconds: gate.seconds_left(moment),
                    left: *left,
                })
            } else {
                None
            }
        }
        _ => None,
    }
}

// What is told with a denial.
fn hint_of(gate: &Gate, ask: &Ask, moment: u64, denial: &Denial) -> Option<Hint>
    requires within { HasCostsWithin denial.now }
    ensures hint { result ≡ hint_of (service_of gate.now) ask.now.key moment denial.now }
    ensures within { IfSome result IsHint }
{
    if gate.hints() {
        short_hint(gate, ask, moment, denial)
    } else {
        None
    }
}

// Forwards a granted request with lines of further fields, and finishes it.
fn forward<L: Ledger, R: Wait, W: Wire>(
    gate: &Gate,
    alloc: Global,
    rt: &R,
    ledger: &mut L,
    wire: &mut W,
    grant: Grant,
    lines: &[u8],
) -> Result<Reply, L::Lost>
    requires belong { L.belongs ledger.old gate.now }
    requires open { L.opens ledger.old grant.ticket }
    requires made { L.made ledger.old < 2 ^ 63 }
    ensures belong { IfOk result (λ reply. L.belongs ledger.new gate.now) }
    ensures forwarded { IfOk result (Forwards (service_in L.slots gate.now) (telling W.Wire) grant.entry lines.now (L.gains ledger.old ledger.new) wire.old wire.new) }
    ensures writable { IfOk result IsWritable }
    ensures lost { OnErr result (LosesForwarded (service_in L.slots gate.now) (telling W.Wire) grant.entry lines.now
        (L.loses ledger.old ledger.new grant.entry.ticket.client) wire.old wire.new) }
    ensures count { L.faults ledger.old ≤ L.faults ledger.new }
    ensures cause { OnErr result (Rose (L.faults ledger.old) (L.faults ledger.new)) }
{
    let asked = ask(
        alloc,
        wire,
        gate.host(),
        gate.target(),
        lines,
        grant.forward().as_bytes(),
    );
    let finished = finish_in(gate, alloc, rt, ledger, grant, outcome_of(asked))?;
    Ok(Reply {
        status: finished.status,
        costs: Some((finished.bound, finished.charged)),
        hint: None,
        body: finished.body,
    })
}

/// Makes one exchange: decides a request at a moment, in seconds; forwards it where it is granted, with the lines of those of its
/// fields that are passed on; settles it; and gives the reply.
///
/// It may wait for the steps of other workers.
///
/// # Errors
///
/// The accounts were lost in a call that the exchange needs.
pub fn exchange<L: Ledger, R: Wait, W: Wire>(
    gate: &Gate,
    alloc: Global,
    rt: &R,
    ledger: &mut L,
    wire: &mut W,
    ask: &Ask,
    moment: u64,
) -> Result<Reply, L::Lost>
    requires belong { L.belongs ledger.old gate.now }
    requires made { L.made ledger.old < 2 ^ 62 }
    requires idle { L.idle ledger.old }
    ensures belong { IfOk result (λ reply. L.belongs ledger.new gate.now) }
    ensures few { IfOk result (λ reply. L.made ledger.new ≤ L.made ledger.old + 2) }
    ensures idle { IfOk result (λ reply. L.idle ledger.new) }
    ensures replied { IfOk result (Replies (service_in L.slots gate.now) (telling W.Wire) ask.now moment (L.made ledger.old) (L.gains ledger.old ledger.new) wire.old wire.new) }
    ensures writable { IfOk result IsWritable }
    ensures lost { OnErr result (LosesExchange (service_in L.slots gate.now) (telling W.Wire) ask.now moment (L.made ledger.old) (L.gains ledger.old)
        (λ before. L.loses before ledger.new) wire.old wire.new) }
    ensures count { L.faults ledger.old ≤ L.faults ledger.new }
    ensures cause { OnErr result (Rose (L.faults ledger.old) (L.faults ledger.new)) }
{
    let begun = begin_in(gate, alloc, rt, ledger, ask.key.as_str(), &ask.body, moment)?;
    match begun {
        Begun::Granted(grant) => Ok(forward(gate, alloc, rt, ledger, wire, grant, &ask.passed)?),
        Begun::Answered(answer) => Ok(answered_reply(answer.finished)),
        Begun::Denied(denial) => Ok(denial_reply(
            alloc,
            &denial,
            hint_of(gate, ask, moment, &denial),
        )),
    }
}
