//! A client's connection, with what serves it.

ghost use Rattle.doors.specs.Visits.{Told};

use outside::{Clock, Sink, Source, Wire};

/// What tells what it holds, as one.
pub trait Tells {
    /// What it tells at this moment.
    ghost told: { Self → Told };
}

/// A client's connection: the stream that it sends on, the stream of the replies, the wire to the upstream, and
/// the clock that its requests are dated by.
#[derive(Drop)]
pub struct Conn<S: Drop, K: Drop, W: Drop, C: Drop> {
    pub source: S,
    pub sink: K,
    pub wire: W,
    pub clock: C,
}

impl<S: Source + Drop, K: Sink + Drop, W: Wire + Drop, C: Clock + Drop> Tells for Conn<S, K, W, C> {
    ghost told = { λ conn. record {
      left = S.left conn.source;
      written = K.written conn.sink;
      readings = C.readings conn.clock;
      log = W.log conn.wire;
      read_faults = S.faults conn.source;
      write_faults = K.faults conn.sink;
      dial_faults = W.dial_faults conn.wire;
      transfer_faults = W.faults conn.wire;
    } };
}
