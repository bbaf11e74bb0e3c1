//! Connections in memory.

ghost use Rattle.std.specs.Prelude.{◌≡◌, [], IfOk};
ghost use Rattle.outside.specs.Dials.{dials_of};
ghost use Rattle.served_rows.specs.Fresh.{fresh_told};

use crate::case::{Change, Planned};
use crate::fault::RowFault;
use crate::marked::push_marked;
use doors::{Conn, Tells};
use outside::{Cut, Failures, ListClock, MemSink, MemSource, MemWire};
use std::alloc::{AllocError, Global};

/// A connection in memory.
pub(crate) type MemConn = Conn<MemSource, MemSink, MemWire, ListClock>;

/// The call of this number fails, counted from 1, and none where it is 0.
pub(crate) fn failing(alloc: Global, number: u64) -> Result<Failures, AllocError> {
    if number == 0 {
        return Ok(Failures::none(alloc));
    }
    Ok(Failures::of(Vec::from_slice(alloc, &[number - 1])?))
}

/// What is sent on the connection, where each stands for this number.
pub(crate) fn sent_of<'a>(plan: &Planned<'a>, each: u64) -> &'a [u8] {
    let sent = plan.sent.as_bytes();
    if !plan.has(Change::Short) {
        return sent;
    }
    let length = plan.number_of(Change::Short, each).min(sent.len() as u64) as usize;
    &sent[..length]
}

fn wire_of(alloc: Global, plan: &Planned<'_>, each: u64) -> Result<MemWire, RowFault>
    ensures log { IfOk result (λ wire. dials_of wire.past.items wire.latest wire.missed ≡ []) }
    ensures faults { IfOk result (λ wire. (wire.dial_faults ≡ 0) × (wire.faults ≡ 0)) }
{
    let mut replies = Vec::new(alloc);
    for reply in &plan.replies {
        replies.push(Vec::from_slice(alloc, reply.as_bytes())?)?;
    }
    let dials = failing(alloc, plan.number_of(Change::Dial, each))?;
    let transfers = failing(alloc, plan.number_of(Change::Transfer, each))?;
    let mut wire = MemWire::new(alloc, replies, dials, transfers);
    wire.write_cut = Cut {
        ahead: plan.number_of(Change::WireCut, each) as usize,
    };
    Ok(wire)
}

fn source_of(
    alloc: Global,
    sent: &[u8],
    plan: &Planned<'_>,
    each: u64,
) -> Result<MemSource, RowFault>
    ensures left { IfOk result (λ source. source.left.items ≡ sent.now) }
    ensures faults { IfOk result (λ source. source.faults ≡ 0) }
{
    let failures = failing(alloc, plan.number_of(Change::Read, each))?;
    let mut source = MemSource::new(Vec::from_slice(alloc, sent)?, failures);
    source.cut = Cut {
        ahead: plan.number_of(Change::Cut, each) as usize,
    };
    Ok(source)
}

/// The connection on which these bytes are sent, where each stands for this number.
pub(crate) fn conn_of(
    alloc: Global,
    sent: &[u8],
    plan: &Planned<'_>,
    each: u64,
) -> Result<MemConn, RowFault>
    ensures { IfOk result (λ conn. ⟦<Conn<MemSource, MemSink, MemWire, ListClock> as Tells>⟧.told conn ≡ fresh_told sent.now plan.now.readings.items) }
{
    let source = source_of(alloc, sent, plan, each)?;
    let failures = failing(alloc, plan.number_of(Change::Write, each))?;
    let wire = wire_of(alloc, plan, each)?;
    let readings = Vec::from_slice(alloc, &plan.readings)?;
    Ok(Conn {
        source,
        sink: MemSink::new(alloc, failures),
        wire,
        clock: ListClock { readings },
    })
}

/// Whether a call on the connection failed.
pub(crate) fn has_failed(conn: &MemConn) -> bool {
    conn.source.faults > 0
        || conn.sink.faults > 0
        || conn.wire.dial_faults > 0
        || conn.wire.faults > 0
}

/// Writes what was left unread, the replies, and what was sent on each dial.
pub(crate) fn push_conn(into: &mut String, conn: &MemConn) -> Result<(), RowFault> {
    let left = conn.source.left.len();
    if left > 0 {
        write!(into, "left {left}\n")?;
    }
    push_marked(into, "< ", &conn.sink.written)?;
    let dials = conn.wire.dials.calls;
    write!(into, "dials {dials}\n")?;
    for dial in &conn.wire.past {
        push_marked(into, "> ", &dial.sent)?;
    }
    if let Some(dial) = &conn.wire.latest {
        push_marked(into, "> ", &dial.sent)?;
    }
    Ok(())
}
