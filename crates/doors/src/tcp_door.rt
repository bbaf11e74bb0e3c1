//! Doors over TCP.

ghost use Rattle.std.specs.Prelude.{◌≡◌, None, true, false, is_some, IfSome, string_bytes};

use crate::client::{ClientReader, ClientWriter};
use crate::conn::Conn;
use crate::door::{Door, DoorFault};
use crate::entrance::Entrance;
use crate::room::Called;
use outside::{StdSink, StdSource, SystemClock, TcpWire};
use std::alloc::Global;
use std::net::{Net, TcpListener, TcpStream};
use std::rt;
use std::sync::Arc;
use std::time::Duration;

/// A connection of a client over TCP.
pub type TcpConn<R> = Conn<
    StdSource<ClientReader>,
    StdSink<ClientWriter>,
    TcpWire<R>,
    SystemClock<R>,
>;

/// A door over TCP. Doors of several workers may share one listener, and a waiting room. It doesn't tell its visits.
#[derive(Drop)]
pub struct TcpDoor<
    R: Net<Listener = TcpListener, Stream = TcpStream> + rt::Clock + rt::Files + Clone + Drop,
> {
    rt: R,
    alloc: Global,
    entrance: Entrance,
    upstream: String,
    patience: Duration,
    /// The client, while a connection is out.
    client: Option<Called>,
    to_come: u32,
    faults: u64,
}

impl<
    R: Net<Listener = TcpListener, Stream = TcpStream> + rt::Clock + rt::Files + Clone + Drop,
> TcpDoor<R> {
    // A door for so many connections of clients that come in here.
    pub(crate) fn new(
        rt: R,
        alloc: Global,
        entrance: Entrance,
        upstream: String,
        patience: Duration,
        connections: u32,
    ) -> TcpDoor<R>
        ensures client { result.client ≡ None }
        ensures to_come { result.to_come ≡ connections }
        ensures faults { result.faults ≡ 0 }
        ensures upstream { result.upstream ≡ upstream }
        ensures patience { result.patience ≡ patience }
    {
        TcpDoor {
            rt,
            alloc,
            entrance,
            upstream,
            patience,
            client: None,
            to_come: connections,
            faults: 0,
        }
    }

    // A connection of this client.
    fn connect(&self, called: &Called) -> Option<TcpConn<R>>
        ensures { IfSome result (λ conn. string_bytes conn.wire.address ≡ string_bytes self.now.upstream) }
    {
        let reader = ClientReader::new(Arc::try_clone(&called.client).ok()?, called.left);
        let writer = ClientWriter::new(Arc::try_clone(&called.client).ok()?);
        Some(Conn {
            source: StdSource::new(reader),
            sink: StdSink::new(writer),
            wire: TcpWire::new(self.rt.clone().ok()?, self.upstream.clone().ok()?),
            clock: SystemClock::new(self.rt.clone().ok()?),
        })
    }

    /// Takes leave of those who had their last reply and stay where clients take turns.
    pub(crate) fn close(&self) {
        self.entrance.close(&self.rt);
    }

    // The next client, and the connection to it.
    fn next(&mut self) -> Option<(Called, TcpConn<R>)>
        ensures client { self.new.client ≡ self.old.client }
        ensures to_come { self.new.to_come ≡ self.old.to_come }
        ensures faults { self.new.faults ≡ self.old.faults }
        ensures upstream { self.new.upstream ≡ self.old.upstream }
        ensures led { IfSome result (λ next. string_bytes next.1.wire.address ≡ string_bytes self.old.upstream) }
    {
        let called = self.entrance.next(&self.rt, self.alloc, self.patience)?;
        let conn = self.connect(&called)?;
        Some((called, conn))
    }
}

impl<
    R: Net<Listener = TcpListener, Stream = TcpStream>
        + rt::Clock
        + rt::Files
        + Clone
        + Drop
        + Send,
> Door for TcpDoor<R> {
    type S = StdSource<ClientReader>;

    type K = StdSink<ClientWriter>;

    type W = TcpWire<R>;

    type C = SystemClock<R>;

    ghost out = { λ door. is_some door.client };

    ghost to_come = { λ door. door.to_come };

    ghost faults = { λ door. door.faults };

    ghost given = { λ _. None };

    ghost visits = { λ _. None };

    fn accept(&mut self) -> Result<Option<TcpConn<R>>, DoorFault> {
        if self.to_come == 0 {
            return Ok(None);
        }
        match self.next() {
            Some((called, conn)) => {
                self.client = Some(called);
                self.to_come -= 1;
                Ok(Some(conn))
            }
            None => {
                self.faults = self.faults.saturating_add(1);
                Err(DoorFault)
            }
        }
    }

    fn hand_back(&mut self, conn: TcpConn<R>, _end: u8)
        requires out { is_some self.old.client ≡ true }
        ensures free { is_some self.new.client ≡ false }
        ensures to_come { self.new.to_come ≡ self.old.to_come }
        ensures count { self.new.faults ≡ self.old.faults }
    {
        drop(conn);
        if let Some(called) = self.client.take() {
            self.entrance.take_back(&self.rt, called);
        }
    }
}
