//! Clients at the doors.

ghost use Rattle.std.specs.Prelude.{◌≡◌, false};

use crate::hasty::patience;
use crate::wires::be_silent;
use doors::{Door, Doors, TcpDoor, TcpDoors};
use outside::{ReadFault, Sink, Source, write_whole};
use std::alloc::Global;
use std::io;
use std::io::{Read, Write};
use std::net::{Shutdown, TcpListener, TcpStream};
use std::rt::Clock;
use std::thread::{Threads, join, sleep};
use std::time::Duration;

const REQUEST: &[u8] =
    b"POST /graphql HTTP/1.1\r\nx-client-key: k\r\ncontent-type: application/json\r\ncontent-length: 2\r\n\r\n{}";

// The head of a request that is refused whatever its body is, since it names no client. The body doesn't come.
const KEYLESS: &[u8] =
    b"POST /graphql HTTP/1.1\r\ncontent-type: application/json\r\ncontent-length: 2\r\n\r\n";

const REPLY: &[u8] = b"a reply";

// How many descriptors the system is asked for at most where it shall lack them.
const MOST_DESCRIPTORS: u32 = 1_100_000;

// What asks for the end where it is there: the folder in which the program runs, which always is.
const STOP_FILE: &str = ".";

// An address at which nobody listens.
fn free_address(rt: &HostRuntime) -> io::Result<String> {
    let listener = TcpListener::bind(rt, "127.0.0.1:0")?;
    let address = listener.local_addr()?;
    Ok(format!(in rt.alloc(); "{address}")?)
}

// Stays silent, then hangs up.
fn hang_up_late(rt: &HostRuntime, client: TcpStream) {
    be_silent(rt);
    drop(client);
}

// What a source gives at its end.
fn ends_with<S: Source>(source: &mut S) -> &'static str {
    let mut piece = [0u8; 4096];
    for _ in 0..100u32 {
        match source.read(&mut piece) {
            Ok(0) => return "the end",
            Ok(_) => {}
            Err(ReadFault) => return "a fault",
        }
    }
    "more"
}

// Sends the beginning of a request, of which so many bytes are still to come.
fn begin_request(alloc: Global, client: &mut TcpStream) -> io::Result<()> {
    let mut request = Vec::new(alloc);
    request.extend_from_slice(
        b"POST /graphql HTTP/1.1\r\nx-client-key: k\r\ncontent-type: application/json\r\ncontent-length: 30000\r\n\r\n",
    )?;
    request.resize(20_000, b' ')?;
    client.write_all(&request)
}

/// What a door's source gives of a client that sends a part of a request, and then is silent for longer than it may wait; whether clients
/// take turns or not.
pub(crate) fn silent<W: Threads>(
    rt: &HostRuntime,
    workers: &W,
    takes_turns: bool,
) -> io::Result<&'static str> {
    let address = free_address(rt)?;
    let mut doors = TcpDoors::new(rt.clone()?, rt.alloc());
    doors.wait_at_most(patience());
    if takes_turns {
        doors.let_wait(2);
    }
    let Ok(mut all) = doors.start(rt.alloc(), address.as_str(), "127.0.0.1:1", 1, 1) else {
        return Ok("no door");
    };
    let mut client = TcpStream::connect(rt, address.as_str())?;
    begin_request(rt.alloc(), &mut client)?;
    let mut found = "no connection";
    if let Ok(Some(mut conn)) = all[0].accept() {
        let source = &mut conn.source;
        let (given, ()) = join(workers, || ends_with(source), || hang_up_late(rt, client));
        found = given;
        all[0].hand_back(conn, 1);
    }
    doors.stop(all);
    Ok(found)
}

// Whether a request is read, and after its reply the end.
fn is_turn<S: Source, K: Sink>(source: &mut S, sink: &mut K) -> bool {
    let mut piece = [0u8; 256];
    let read = match source.read(&mut piece) {
        Ok(count) => &piece[..count] == REQUEST,
        Err(ReadFault) => false,
    };
    read && write_whole(sink, REPLY).is_ok() && source.read(&mut piece) == Ok(0)
}

// Whether a client that makes a request has a turn at the door, and its reply.
fn has_turn(door: &mut TcpDoor<HostRuntime>, client: &mut TcpStream) -> io::Result<bool>
    requires { ⟦<TcpDoor<HostRuntime> as Door>⟧.out door.old ≡ false }
    ensures { ⟦<TcpDoor<HostRuntime> as Door>⟧.out door.new ≡ false }
{
    let sent = client.write_all(REQUEST);
    let Ok(Some(mut conn)) = door.accept() else {
        return Ok(false);
    };
    let is_turn = is_turn(&mut conn.source, &mut conn.sink);
    door.hand_back(conn, 1);
    let mut piece = [0u8; 64];
    let count = client.read(&mut piece)?;
    sent?;
    Ok(is_turn && &piece[..count] == REPLY)
}

/// Whether a client has a turn for each of two requests on one connection.
pub(crate) fn turns(rt: &HostRuntime) -> io::Result<bool> {
    let address = free_address(rt)?;
    let mut doors = TcpDoors::new(rt.clone()?, rt.alloc());
    doors.let_wait(2);
    let Ok(mut all) = doors.start(rt.alloc(), address.as_str(), "127.0.0.1:1", 1, 2) else {
        return Ok(false);
    };
    let mut client = TcpStream::connect(rt, address.as_str())?;
    let first = has_turn(&mut all[0], &mut client)?;
    let second = has_turn(&mut all[0], &mut client)?;
    doors.stop(all);
    Ok(first && second)
}

// What a client reads within a short time.
fn reads(client: &mut TcpStream) -> io::Result<&'static str> {
    client.set_read_timeout(Some(Duration::from_millis(100)))?;
    match client.read(&mut [0u8; 64]) {
        Ok(0) => Ok("the end"),
        Ok(_) => Ok("bytes"),
        Err(_) => Ok("nothing"),
    }
}

/// What three clients read, of whom the last makes a request, where two may wait: the one that has waited longest is let go.
pub(crate) fn crowded(rt: &HostRuntime) -> io::Result<(&'static str, &'static str, bool)> {
    let address = free_address(rt)?;
    let mut doors = TcpDoors::new(rt.clone()?, rt.alloc());
    doors.let_wait(2);
    let Ok(mut all) = doors.start(rt.alloc(), address.as_str(), "127.0.0.1:1", 1, 2) else {
        return Ok(("no door", "no door", false));
    };
    let mut one = TcpStream::connect(rt, address.as_str())?;
    let mut two = TcpStream::connect(rt, address.as_str())?;
    let mut three = TcpStream::connect(rt, address.as_str())?;
    let turn = has_turn(&mut all[0], &mut three)?;
    doors.stop(all);
    Ok((reads(&mut one)?, reads(&mut two)?, turn))
}

// What a door gives.
fn gives(door: &mut TcpDoor<HostRuntime>) -> &'static str
    requires { ⟦<TcpDoor<HostRuntime> as Door>⟧.out door.old ≡ false }
    ensures { ⟦<TcpDoor<HostRuntime> as Door>⟧.out door.new ≡ false }
{
    match door.accept() {
        Ok(Some(conn)) => {
            door.hand_back(conn, 1);
            "a connection"
        }
        Ok(None) => "nothing",
        Err(_) => "a fault",
    }
}

/// What a door gives where what asks for the end is there, whether clients take turns or not.
pub(crate) fn stopped(rt: &HostRuntime, takes_turns: bool) -> io::Result<&'static str> {
    let address = free_address(rt)?;
    let mut doors = TcpDoors::new(rt.clone()?, rt.alloc());
    doors.stop_at(String::from_str(rt.alloc(), STOP_FILE)?);
    if takes_turns {
        doors.let_wait(2);
    }
    let Ok(mut all) = doors.start(rt.alloc(), address.as_str(), "127.0.0.1:1", 1, 2) else {
        return Ok("no door");
    };
    let _client = TcpStream::connect(rt, address.as_str())?;
    let found = gives(&mut all[0]);
    doors.stop(all);
    Ok(found)
}

// How long it is since then.
fn passed(rt: &HostRuntime, begun: Duration) -> Duration {
    rt.monotonic()
        .unwrap_or(Duration::ZERO)
        .saturating_sub(begun)
}

// Whether a client that sends this has a turn at the door, after which leave is taken of it.
fn has_last_turn(
    door: &mut TcpDoor<HostRuntime>,
    client: &mut TcpStream,
    request: &[u8],
) -> io::Result<bool>
    requires { ⟦<TcpDoor<HostRuntime> as Door>⟧.out door.old ≡ false }
    ensures { ⟦<TcpDoor<HostRuntime> as Door>⟧.out door.new ≡ false }
{
    let sent = client.write_all(request);
    let Ok(Some(mut conn)) = door.accept() else {
        return Ok(false);
    };
    let is_written = write_whole(&mut conn.sink, REPLY).is_ok();
    door.hand_back(conn, 1);
    sent?;
    Ok(is_written)
}

// How long a client can send a byte each tenth of a second; then another makes a request.
fn sends_for(rt: &HostRuntime, client: TcpStream, mut other: TcpStream) -> &'static str {
    let mut client = client;
    let begun = passed(rt, Duration::ZERO);
    for _ in 0..100u32 {
        if client.write_all(b" ").is_err() {
            break;
        }
        sleep(rt, Duration::from_millis(100));
    }
    let seconds = passed(rt, begun).as_millis();
    let _ = other.write_all(REQUEST);
    if seconds < 1500 {
        "less"
    } else if seconds < 4000 {
        "two seconds"
    } else {
        "more"
    }
}

/// When a client has its turn where leave is taken of another, who still sends something, and for how long that one can.
pub(crate) fn leave<W: Threads>(
    rt: &HostRuntime,
    workers: &W,
) -> io::Result<(&'static str, &'static str)> {
    let address = free_address(rt)?;
    let mut doors = TcpDoors::new(rt.clone()?, rt.alloc());
    doors.let_wait(4);
    let Ok(mut all) = doors.start(rt.alloc(), address.as_str(), "127.0.0.1:1", 1, 3) else {
        return Ok(("no door", "no door"));
    };
    let mut one = TcpStream::connect(rt, address.as_str())?;
    let mut two = TcpStream::connect(rt, address.as_str())?;
    let three = TcpStream::connect(rt, address.as_str())?;
    let begun = passed(rt, Duration::ZERO);
    let is_first = has_last_turn(&mut all[0], &mut one, REQUEST)?;
    let is_second = has_turn(&mut all[0], &mut two)?;
    let is_soon = passed(rt, begun) < Duration::from_secs(1);
    let turn = if is_first && is_second && is_soon {
        "a turn at once"
    } else {
        "none so soon"
    };
    let door = &mut all[0];
    let (_, sends) = join(workers, || gives(door), || sends_for(rt, one, three));
    doors.stop(all);
    Ok((turn, sends))
}

/// When a client has its turn that sends the head alone of a request which is refused by that.
pub(crate) fn refused(rt: &HostRuntime) -> io::Result<&'static str> {
    let address = free_address(rt)?;
    let mut doors = TcpDoors::new(rt.clone()?, rt.alloc());
    doors.let_wait(2);
    let Ok(mut all) = doors.start(rt.alloc(), address.as_str(), "127.0.0.1:1", 1, 1) else {
        return Ok("no door");
    };
    let mut client = TcpStream::connect(rt, address.as_str())?;
    let begun = passed(rt, Duration::ZERO);
    let is_turn = has_last_turn(&mut all[0], &mut client, KEYLESS)?;
    let is_soon = passed(rt, begun) < Duration::from_secs(5);
    drop(client);
    doors.stop(all);
    Ok(if is_turn && is_soon {
        "a turn at once"
    } else {
        "none so soon"
    })
}

// As many descriptors as the system gives, up to a million.
fn all_descriptors(rt: &HostRuntime) -> io::Result<Vec<TcpListener>> {
    let listener = TcpListener::bind(rt, "127.0.0.1:0")?;
    let mut all = Vec::new(rt.alloc());
    for _ in 0..MOST_DESCRIPTORS {
        match listener.try_clone() {
            Ok(one) => all.push(one)?,
            Err(_) => break,
        }
    }
    all.push(listener)?;
    Ok(all)
}

// Lets them go after a while.
fn let_go_late(rt: &HostRuntime, descriptors: Vec<TcpListener>) {
    sleep(rt, patience());
    drop(descriptors);
}

/// What a door gives where a client calls while the system has no descriptor left, which passes; whether clients take turns or not.
pub(crate) fn short<W: Threads>(
    rt: &HostRuntime,
    workers: &W,
    takes_turns: bool,
) -> io::Result<&'static str> {
    let address = free_address(rt)?;
    let mut doors = TcpDoors::new(rt.clone()?, rt.alloc());
    if takes_turns {
        doors.let_wait(2);
    }
    let Ok(mut all) = doors.start(rt.alloc(), address.as_str(), "127.0.0.1:1", 1, 1) else {
        return Ok("no door");
    };
    let mut client = TcpStream::connect(rt, address.as_str())?;
    client.write_all(REQUEST)?;
    client.shutdown(Shutdown::Write)?;
    let descriptors = all_descriptors(rt)?;
    let door = &mut all[0];
    let (found, ()) = join(workers, || gives(door), || let_go_late(rt, descriptors));
    doors.stop(all);
    Ok(found)
}
