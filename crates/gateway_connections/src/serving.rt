//! Serving a connection.

ghost use Rattle.std.specs.Prelude.{◌≡◌, ◌≢◌, ◌≤◌, ◌<◌, ◌+◌, ◌^◌, [], Some, IfOk, IfErr, OnErr};
ghost use Rattle.outside.specs.Faults.{Rose};
ghost use Rattle.account_shared.specs.Views.{Belongs, IsIdle};
ghost use Rattle.account_shared.specs.Gains.{Gains};
ghost use Rattle.gateway_core.specs.Messages.{message_body, no_memory_text};
ghost use Rattle.gateway_connections.specs.Exchanges.{service_of, service_in, telling};
ghost use Rattle.gateway_connections.specs.Serving.{Serves, LosesServing};
ghost use Rattle.gateway_connections.specs.declared.ending.ConnectionEnd.TheVariants as ending;

use crate::ending::{ConnectionEnd, EXCHANGE_LIMIT, Served};
use crate::reply::spare_body;
use crate::turn::turn;
use account_shared::Passes;
use doors::{Conn, Tells};
use gateway_core::{Gate, Ledger};
use http_front::Front;
use outside::{Clock, Sink, Source, Wire};
use std::alloc::{AllocError, Global};
use std::sync::Wait;

// Takes turns until the connection stops.
fn serve<L: Ledger, R: Wait, S: Source + Drop, K: Sink + Drop, W: Wire + Drop, C: Clock + Drop>(
    gate: &Gate,
    alloc: Global,
    rt: &R,
    ledger: &mut L,
    conn: &mut Conn<S, K, W, C>,
    mut front: Front,
    mut spare: Vec<u8>,
) -> Result<Served, (L::Lost, u32)>
    requires belong { L.belongs ledger.old gate.now }
    requires made { L.made ledger.old ≤ 2 ^ 61 }
    requires idle { L.idle ledger.old }
    requires front { front ≡ Some [] }
    requires spare { spare.items ≡ message_body no_memory_text }
    ensures belong { IfOk result (λ served. L.belongs ledger.new gate.now) }
    ensures few { IfOk result (λ served. L.made ledger.new ≤ L.made ledger.old + 2000) }
    ensures idle { IfOk result (λ served. L.idle ledger.new) }
    ensures most { IfOk result (λ served. served.replies ≤ EXCHANGE_LIMIT) }
    ensures serves { IfOk result (Serves (service_in L.slots gate.now) (L.made ledger.old) (L.gains ledger.old ledger.new) (⟦<Conn<S, K, W, C> as Tells>⟧.told conn.old) (⟦<Conn<S, K, W, C> as Tells>⟧.told conn.new)) }
    ensures read_fault { IfOk result (λ served. served.end ≡ ending.ReadFault → Rose (S.faults conn.old.source) (S.faults conn.new.source)) }
    ensures write_fault { IfOk result (λ served. served.end ≡ ending.WriteFault → Rose (K.faults conn.old.sink) (K.faults conn.new.sink)) }
    ensures read_still { IfOk result (λ served. served.end ≢ ending.ReadFault → S.faults conn.new.source ≡ S.faults conn.old.source) }
    ensures write_still { IfOk result (λ served. served.end ≢ ending.WriteFault → K.faults conn.new.sink ≡ K.faults conn.old.sink) }
    ensures lost { IfErr result (λ lost. LosesServing (service_in L.slots gate.now) (telling W.Wire) L.made L.gains (λ before. L.loses before ledger.new)
        ledger.old (⟦<Conn<S, K, W, C> as Tells>⟧.told conn.old) (⟦<Conn<S, K, W, C> as Tells>⟧.told conn.new) conn.new.wire lost.1) }
    ensures few_lost { IfErr result (λ lost. lost.1 < EXCHANGE_LIMIT) }
    ensures count { L.faults ledger.old ≤ L.faults ledger.new }
    ensures cause { OnErr result (Rose (L.faults ledger.old) (L.faults ledger.new)) }
{
    let mut number = 0u32;
    'turns: loop {
        let turned = match turn(
            gate, alloc, rt, ledger, &mut front, conn, number, &mut spare,
        ) {
            Ok(turned) => turned,
            Err(lost) => return Err((lost, number)),
        };
        match turned {
            Some(served) => return Ok(served),
            None => number += 1,
        }
    }
}

// What a connection needs before its first request.
fn begin(alloc: Global) -> Result<(Front, Vec<u8>), AllocError>
    ensures { IfOk result (λ r. (r.0 ≡ Some []) × (r.1.items ≡ message_body no_memory_text)) }
{
    Ok((Front::make(alloc)?, spare_body(alloc)?))
}

/// Serves the exchanges of a connection, one after the other, at most a thousand. Where there is no memory to begin, nothing is
/// read and nothing written.
///
/// It may wait for the steps of other workers. No grant is open when it returns.
///
/// # Errors
///
/// The accounts were lost behind so many replies, and the last request has none.
pub fn serve_in<
    L: Ledger,
    R: Wait,
    S: Source + Drop,
    K: Sink + Drop,
    W: Wire + Drop,
    C: Clock + Drop,
>(
    gate: &Gate,
    alloc: Global,
    rt: &R,
    ledger: &mut L,
    conn: &mut Conn<S, K, W, C>,
) -> Result<Served, (L::Lost, u32)>
    requires belong { L.belongs ledger.old gate.now }
    requires made { L.made ledger.old ≤ 2 ^ 61 }
    requires idle { L.idle ledger.old }
    ensures belong { IfOk result (λ served. L.belongs ledger.new gate.now) }
    ensures few { IfOk result (λ served. L.made ledger.new ≤ L.made ledger.old + 2000) }
    ensures idle { IfOk result (λ served. L.idle ledger.new) }
    ensures most { IfOk result (λ served. served.replies ≤ EXCHANGE_LIMIT) }
    ensures serves { IfOk result (Serves (service_in L.slots gate.now) (L.made ledger.old) (L.gains ledger.old ledger.new) (⟦<Conn<S, K, W, C> as Tells>⟧.told conn.old) (⟦<Conn<S, K, W, C> as Tells>⟧.told conn.new)) }
    ensures read_fault { IfOk result (λ served. served.end ≡ ending.ReadFault → Rose (S.faults conn.old.source) (S.faults conn.new.source)) }
    ensures write_fault { IfOk result (λ served. served.end ≡ ending.WriteFault → Rose (K.faults conn.old.sink) (K.faults conn.new.sink)) }
    ensures read_still { IfOk result (λ served. served.end ≢ ending.ReadFault → S.faults conn.new.source ≡ S.faults conn.old.source) }
    ensures write_still { IfOk result (λ served. served.end ≢ ending.WriteFault → K.faults conn.new.sink ≡ K.faults conn.old.sink) }
    ensures lost { IfErr result (λ lost. LosesServing (service_in L.slots gate.now) (telling W.Wire) L.made L.gains (λ before. L.loses before ledger.new)
        ledger.old (⟦<Conn<S, K, W, C> as Tells>⟧.told conn.old) (⟦<Conn<S, K, W, C> as Tells>⟧.told conn.new) conn.new.wire lost.1) }
    ensures few_lost { IfErr result (λ lost. lost.1 < EXCHANGE_LIMIT) }
    ensures count { L.faults ledger.old ≤ L.faults ledger.new }
    ensures cause { OnErr result (Rose (L.faults ledger.old) (L.faults ledger.new)) }
{
    match begin(alloc) {
        Ok((front, spare)) => serve(gate, alloc, rt, ledger, conn, front, spare),
        Err(_) => Ok(Served {
            end: ConnectionEnd::Memory,
            replies: 0,
        }),
    }
}

/// As `serve_in`, through passes to the gate's own cells.
pub fn serve_connection<R: Wait, S: Source + Drop, K: Sink + Drop, W: Wire + Drop, C: Clock + Drop>(
    gate: &Gate,
    alloc: Global,
    rt: &R,
    passes: &mut Passes,
    conn: &mut Conn<S, K, W, C>,
) -> Served
    requires belong { Belongs passes.old gate.now.accounts }
    requires made { passes.old.made ≤ 2 ^ 61 }
    requires idle { IsIdle passes.old }
    ensures belong { Belongs passes.new gate.now.accounts }
    ensures few { passes.new.made ≤ passes.old.made + 2000 }
    ensures idle { IsIdle passes.new }
    ensures most { result.replies ≤ EXCHANGE_LIMIT }
    ensures serves { Serves (service_of gate.now) passes.old.made (Gains passes.old passes.new) (⟦<Conn<S, K, W, C> as Tells>⟧.told conn.old) (⟦<Conn<S, K, W, C> as Tells>⟧.told conn.new) result }
    ensures read_fault { result.end ≡ ending.ReadFault → Rose (S.faults conn.old.source) (S.faults conn.new.source) }
    ensures write_fault { result.end ≡ ending.WriteFault → Rose (K.faults conn.old.sink) (K.faults conn.new.sink) }
    ensures read_still { result.end ≢ ending.ReadFault → S.faults conn.new.source ≡ S.faults conn.old.source }
    ensures write_still { result.end ≢ ending.WriteFault → K.faults conn.new.sink ≡ K.faults conn.old.sink }
{
    match serve_in(gate, alloc, rt, passes, conn) {
        Ok(served) => served,
    }
}
