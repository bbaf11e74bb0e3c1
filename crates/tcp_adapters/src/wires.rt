//! Wires to a peer that doesn't reply as it should.

ghost use Rattle.std.specs.Prelude.{◌≡◌, true, IfOk};

use crate::hasty::Hasty;
use outside::{TcpWire, Wire, WireFault};
use std::alloc::Global;
use std::io;
use std::io::{ErrorKind, Write};
use std::net::{Net, TcpListener, TcpStream};
use std::thread::{Threads, join, sleep};
use std::time::Duration;

/// Lets a while pass in which nothing is sent, longer than any patience here.
pub(crate) fn be_silent(rt: &HostRuntime) {
    sleep(rt, Duration::from_secs(2));
}

// A wire to a peer that listens here, dialled, with a request sent on it.
fn dialled<R: Net + Drop>(rt: R, alloc: Global, peer: &TcpListener) -> io::Result<TcpWire<R>>
    ensures { IfOk result (λ wire. ⟦<TcpWire<R> as Wire>⟧.dialled wire ≡ true) }
{
    let address = peer.local_addr()?;
    let mut wire = TcpWire::new(rt, format!(in alloc; "{address}")?);
    if wire.dial().is_err() {
        return Err(io::Error::new(ErrorKind::Other, "nobody answered the dial"));
    }
    let _ = wire.write(b"a request");
    Ok(wire)
}

// What the reply on a wire ends with.
fn ends_with<W: Wire>(wire: &mut W) -> &'static str
    requires { W.dialled wire.old ≡ true }
{
    let mut piece = [0u8; 64];
    'reads: for _ in 0..100u32 {
        match wire.read(&mut piece) {
            Ok(0) => return "the end",
            Ok(_) => {}
            Err(WireFault) => return "a fault",
        }
    }
    "more"
}

/// What a reply ends with where the peer wrote it whole.
pub(crate) fn whole(rt: &HostRuntime) -> io::Result<&'static str> {
    let peer = TcpListener::bind(rt, "127.0.0.1:0")?;
    let mut wire = dialled(rt.clone()?, rt.alloc(), &peer)?;
    let (mut stream, _) = peer.accept()?;
    let mut asked = [0u8; 64];
    io::Read::read(&mut stream, &mut asked)?;
    stream.write_all(b"a reply")?;
    drop(stream);
    Ok(ends_with(&mut wire))
}

/// What a reply ends with where the peer resets the connection in the middle: it closes without having read all that was sent.
pub(crate) fn reset(rt: &HostRuntime) -> io::Result<&'static str> {
    let peer = TcpListener::bind(rt, "127.0.0.1:0")?;
    let mut wire = dialled(rt.clone()?, rt.alloc(), &peer)?;
    let (mut stream, _) = peer.accept()?;
    stream.write_all(b"half a ")?;
    drop(stream);
    Ok(ends_with(&mut wire))
}

// Stays silent, then hangs up.
fn hang_up_late(rt: &HostRuntime, stream: TcpStream) {
    let mut stream = stream;
    let _ = io::Read::read(&mut stream, &mut [0u8; 64]);
    be_silent(rt);
}

/// What a reply ends with where the peer is silent for longer than the wire may wait.
pub(crate) fn stalled<W: Threads>(rt: &HostRuntime, workers: &W) -> io::Result<&'static str> {
    let peer = TcpListener::bind(rt, "127.0.0.1:0")?;
    let mut wire = dialled(Hasty { rt: rt.clone()? }, rt.alloc(), &peer)?;
    let (stream, _) = peer.accept()?;
    let (found, ()) = join(
        workers,
        || ends_with(&mut wire),
        || hang_up_late(rt, stream),
    );
    Ok(found)
}
