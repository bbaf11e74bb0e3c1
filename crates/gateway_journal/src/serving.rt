//! Serving a connection over accounts in a journal.

ghost use Rattle.std.specs.Prelude.{◌≡◌, ◌≢◌, ◌≤◌, ◌<◌, Some, IfOk, IfErr, OnErr};
ghost use Rattle.outside.specs.Faults.{Rose};
ghost use Rattle.gateway_workers.specs.PassedOn.{telling, Lost as EndingLost, ReadFault as EndingReadFault, WriteFault as EndingWriteFault};
ghost use Rattle.gateway_journal.specs.Kept.{IsKeptFor};
ghost use Rattle.gateway_journal.specs.Served.{ServesKept, LosesKeptAs};

use crate::kept::Kept;
use account_journal::Journal;
use doors::{Conn, Tells};
use gateway_workers::{ConnectionEnd, EXCHANGE_LIMIT, Gate, Served, serve_in};
use journal_disk::Disk;
use outside::{Clock, Sink, Source, Wire};
use std::alloc::Global;
use std::sync::Wait;

/// As `serve_kept`, on a journal that stays where it is.
///
/// # Errors
///
/// A call on the disk failed behind so many replies, and the last request has none.
pub(crate) fn serve_on<
    D: Disk + Drop,
    R: Wait,
    S: Source + Drop,
    K: Sink + Drop,
    W: Wire + Drop,
    C: Clock + Drop,
>(
    gate: &Gate,
    alloc: Global,
    rt: &R,
    kept: &mut Kept<D>,
    conn: &mut Conn<S, K, W, C>,
) -> Result<Served, u32>
    requires kept { IsKeptFor D.reads kept.old.journal gate.now }
    requires idle { kept.old.journal.opened ≡ 0 }
    ensures kept { IfOk result (λ served. IsKeptFor D.reads kept.new.journal gate.now) }
    ensures idle { IfOk result (λ served. kept.new.journal.opened ≡ 0) }
    ensures serves { IfOk result (ServesKept D.reads D.image D.faults gate.now kept.old.journal kept.new.journal (⟦<Conn<S, K, W, C> as Tells>⟧.told conn.old) (⟦<Conn<S, K, W, C> as Tells>⟧.told conn.new)) }
    ensures lost { IfErr result (LosesKeptAs D.Disk kept.new.journal.disk (telling W.Wire)
        gate.now kept.old.journal (⟦<Conn<S, K, W, C> as Tells>⟧.told conn.old) (⟦<Conn<S, K, W, C> as Tells>⟧.told conn.new) conn.new.wire) }
    ensures not_lost { IfOk result (λ served. served.end ≢ EndingLost) }
    ensures count { D.faults kept.old.journal.disk ≤ D.faults kept.new.journal.disk }
    ensures cause { OnErr result (Rose (D.faults kept.old.journal.disk) (D.faults kept.new.journal.disk)) }
    ensures read_fault { IfOk result (λ served. served.end ≡ EndingReadFault → Rose (S.faults conn.old.source) (S.faults conn.new.source)) }
    ensures write_fault { IfOk result (λ served. served.end ≡ EndingWriteFault → Rose (K.faults conn.old.sink) (K.faults conn.new.sink)) }
    ensures most { IfOk result (λ served. served.replies ≤ EXCHANGE_LIMIT) }
    ensures few { IfErr result (λ replies. replies < EXCHANGE_LIMIT) }
{
    match serve_in(gate, alloc, rt, kept, conn) {
        Ok(served) => Ok(served),
        Err((_, replies)) => Err(replies),
    }
}

/// Serves the exchanges of a connection, one after the other, at most a thousand, over the accounts of a journal. Each grant is on
/// the disk before its request goes to the upstream, and each settlement before its reply is written. The gate's own cells are not
/// used.
///
/// Where a call on the disk fails, the last request has no reply, and the disk is handed back: the journal has to be opened again.
pub fn serve_kept<
    D: Disk + Drop,
    R: Wait,
    S: Source + Drop,
    K: Sink + Drop,
    W: Wire + Drop,
    C: Clock + Drop,
>(
    gate: &Gate,
    alloc: Global,
    rt: &R,
    journal: Journal<D>,
    conn: &mut Conn<S, K, W, C>,
) -> (Result<Journal<D>, D>, Served)
    requires kept { IsKeptFor D.reads journal gate.now }
    requires idle { journal.opened ≡ 0 }
    ensures kept { IfOk result.0 (λ j. IsKeptFor D.reads j gate.now) }
    ensures idle { IfOk result.0 (λ j. j.opened ≡ 0) }
    ensures serves { IfOk result.0 (λ j. ServesKept D.reads D.image D.faults gate.now journal j (⟦<Conn<S, K, W, C> as Tells>⟧.told conn.old) (⟦<Conn<S, K, W, C> as Tells>⟧.told conn.new) result.1) }
    ensures lost { IfErr result.0 (λ disk. LosesKeptAs D.Disk disk (telling W.Wire)
        gate.now journal (⟦<Conn<S, K, W, C> as Tells>⟧.told conn.old) (⟦<Conn<S, K, W, C> as Tells>⟧.told conn.new) conn.new.wire result.1.replies) }
    ensures end { OnErr result.0 (result.1.end ≡ EndingLost) }
    ensures not_lost { IfOk result.0 (λ j. result.1.end ≢ EndingLost) }
    ensures count { IfOk result.0 (λ j. D.faults journal.disk ≤ D.faults j.disk) }
    ensures cause { IfErr result.0 (λ disk. Rose (D.faults journal.disk) (D.faults disk)) }
    ensures read_fault { result.1.end ≡ EndingReadFault → Rose (S.faults conn.old.source) (S.faults conn.new.source) }
    ensures write_fault { result.1.end ≡ EndingWriteFault → Rose (K.faults conn.old.sink) (K.faults conn.new.sink) }
    ensures most { result.1.replies ≤ EXCHANGE_LIMIT }
{
    let mut kept = Kept { journal };
    match serve_on(gate, alloc, rt, &mut kept, conn) {
        Ok(served) => (Ok(kept.journal), served),
        Err(replies) => (
            Err(kept.journal.into_disk()),
            Served {
                end: ConnectionEnd::Lost,
                replies,
            },
        ),
    }
}
