//! One turn of a connection: the next request, its exchange, and its reply.

ghost use Rattle.std.specs.Prelude.{◌≡◌, ◌≢◌, ◌≤◌, ◌<◌, ◌+◌, ◌^◌, [], IfSome, IfOk, OnErr, Option, Some};
ghost use Rattle.outside.specs.Faults.{Rose};
ghost use Rattle.gateway_core.specs.Messages.{message_body, no_memory_text};
ghost use Rattle.gateway_connections.specs.Replies.{IsWritable};
ghost use Rattle.gateway_connections.specs.Exchanges.{service_in, telling};
ghost use Rattle.gateway_connections.specs.Connections.{Refuses, Answers, IfEndsBy, UnlessEndsBy};
ghost use Rattle.gateway_connections.specs.Serving.{TurnsFrom, LosesNext};
ghost use Rattle.gateway_connections.specs.declared.ending.ConnectionEnd.TheVariants as ending;

use crate::ending::{ConnectionEnd, Served, carries_close, end_after, end_of_silence};
use crate::exchanging::exchange;
use crate::reply::{Reply, fault_reply, write};
use doors::{Conn, Tells};
use gateway_core::{Gate, Ledger};
use http_front::{Front, FrontFault};
use outside::{Clock, Sink, Source, Wire, WriteFault};
use std::alloc::Global;
use std::sync::Wait;

// Replies to a fault of the next request, behind so many exchanges.
fn refuse<K: Sink>(
    alloc: Global,
    to: &mut K,
    fault: FrontFault,
    number: u32,
    spare: &mut Vec<u8>,
) -> Served
    requires few { number < 1000 }
    requires spare { spare.old.items ≡ message_body no_memory_text }
    ensures refuses { Refuses fault number (K.written to.old) (K.written to.new) result.replies result.end }
    ensures most { result.replies ≤ number + 1 }
    ensures count { K.faults to.old ≤ K.faults to.new }
    ensures cause { result.end ≡ ending.WriteFault → Rose (K.faults to.old) (K.faults to.new) }
    ensures still { result.end ≢ ending.WriteFault → K.faults to.new ≡ K.faults to.old }
    ensures spare { spare.new.items ≡ message_body no_memory_text }
{
    let Some(reply) = fault_reply(alloc, fault) else {
        return Served {
            end: end_of_silence(fault),
            replies: number,
        };
    };
    let end = end_after(reply.status, number);
    match write(alloc, to, true, reply, spare) {
        Ok(()) => Served {
            end,
            replies: number + 1,
        },
        Err(WriteFault) => Served {
            end: ConnectionEnd::WriteFault,
            replies: number,
        },
    }
}

// Writes the reply to an exchange behind so many others. None where the connection goes on.
fn answer<K: Sink>(
    alloc: Global,
    to: &mut K,
    reply: Reply,
    close: bool,
    number: u32,
    spare: &mut Vec<u8>,
) -> Option<Served>
    requires few { number < 1000 }
    requires writable { IsWritable reply }
    requires spare { spare.old.items ≡ message_body no_memory_text }
    ensures answers { Answers reply close number (K.written to.old) (K.written to.new) result }
    ensures most { IfSome result (λ served. served.replies ≤ number + 1) }
    ensures count { K.faults to.old ≤ K.faults to.new }
    ensures cause { IfEndsBy ending.WriteFault result (Rose (K.faults to.old) (K.faults to.new)) }
    ensures still { UnlessEndsBy ending.WriteFault result (K.faults to.new ≡ K.faults to.old) }
    ensures spare { spare.new.items ≡ message_body no_memory_text }
{
    let status = reply.status;
    let close = carries_close(close, number, status);
    match write(alloc, to, close, reply, spare) {
        Ok(()) if !close => None,
        Ok(()) => Some(Served {
            end: end_after(status, number),
            replies: number + 1,
        }),
        Err(WriteFault) => Some(Served {
            end: ConnectionEnd::WriteFault,
            replies: number,
        }),
    }
}

/// Takes the next request, makes its exchange and replies to it; or replies to what is wrong with it. None where the connection
/// goes on after that.
///
/// # Errors
///
/// The accounts were lost, and the request has no reply.
pub(crate) fn turn<
    L: Ledger,
    R: Wait,
    S: Source + Drop,
    K: Sink + Drop,
    W: Wire + Drop,
    C: Clock + Drop,
>(
    gate: &Gate,
    alloc: Global,
    rt: &R,
    ledger: &mut L,
    front: &mut Front,
    conn: &mut Conn<S, K, W, C>,
    number: u32,
    spare: &mut Vec<u8>,
) -> Result<Option<Served>, L::Lost>
    requires belong { L.belongs ledger.old gate.now }
    requires made { L.made ledger.old < 2 ^ 62 }
    requires idle { L.idle ledger.old }
    requires few { number < 1000 }
    requires spare { spare.old.items ≡ message_body no_memory_text }
    ensures belong { IfOk result (λ served. L.belongs ledger.new gate.now) }
    ensures few { IfOk result (λ served. L.made ledger.new ≤ L.made ledger.old + 2) }
    ensures idle { IfOk result (λ served. L.idle ledger.new) }
    ensures spare { spare.new.items ≡ message_body no_memory_text }
    ensures turns { IfOk result (TurnsFrom (service_in L.slots gate.now) (L.made ledger.old) (L.gains ledger.old ledger.new) number front.old front.new
        (⟦<Conn<S, K, W, C> as Tells>⟧.told conn.old) (⟦<Conn<S, K, W, C> as Tells>⟧.told conn.new)) }
    ensures most { IfOk result (λ turned. IfSome turned (λ served. served.replies ≤ number + 1)) }
    ensures reads { S.faults conn.old.source ≤ S.faults conn.new.source }
    ensures writes { K.faults conn.old.sink ≤ K.faults conn.new.sink }
    ensures read_fault { IfOk result (λ turned. IfEndsBy ending.ReadFault turned (Rose (S.faults conn.old.source) (S.faults conn.new.source))) }
    ensures write_fault { IfOk result (λ turned. IfEndsBy ending.WriteFault turned (Rose (K.faults conn.old.sink) (K.faults conn.new.sink))) }
    ensures read_still { IfOk result (λ turned. UnlessEndsBy ending.ReadFault turned (S.faults conn.new.source ≡ S.faults conn.old.source)) }
    ensures write_still { IfOk result (λ turned. UnlessEndsBy ending.WriteFault turned (K.faults conn.new.sink ≡ K.faults conn.old.sink)) }
    ensures lost { OnErr result (LosesNext (service_in L.slots gate.now) L.Ledger (telling W.Wire) front.old ledger.old ledger.new
        (⟦<Conn<S, K, W, C> as Tells>⟧.told conn.old) (⟦<Conn<S, K, W, C> as Tells>⟧.told conn.new) conn.old.wire conn.new.wire) }
    ensures count { L.faults ledger.old ≤ L.faults ledger.new }
    ensures cause { OnErr result (Rose (L.faults ledger.old) (L.faults ledger.new)) }
{
    let ask = match front.next(alloc, gate.passed(), &mut conn.source) {
        Ok(ask) => ask,
        Err(fault) => return Ok(Some(refuse(alloc, &mut conn.sink, fault, number, spare))),
    };
    let moment = conn.clock.seconds();
    let reply = exchange(gate, alloc, rt, ledger, &mut conn.wire, &ask, moment)?;
    Ok(answer(alloc, &mut conn.sink, reply, ask.close, number, spare))
}
