//! Exchanges on one connection, between a client, the gateway and an upstream.

use std::alloc::Global;
use std::io;
use std::io::{Read, Write};
use std::net::{TcpListener, TcpStream};
use std::thread::sleep;
use std::time::Duration;

/// How many exchanges are made.
pub(crate) const EXCHANGES: u32 = 100;

const QUERY: &str = r#"{"query":"{ user { id } }"}"#;

const DATA: &str = r#"{"data":{"user":{"id":"1"}}}"#;

// A connection to the gateway, which may not listen yet.
fn connect(rt: &HostRuntime, listen: &str) -> io::Result<TcpStream> {
    for _ in 0..1_000u32 {
        if let Ok(stream) = TcpStream::connect(rt, listen) {
            return Ok(stream);
        }
        sleep(rt, Duration::from_millis(10));
    }
    TcpStream::connect(rt, listen)
}

// A message that ends in these bytes.
fn read_through(alloc: Global, stream: &mut TcpStream, end: &[u8]) -> io::Result<Vec<u8>> {
    let mut message = Vec::new(alloc);
    let mut piece = [0u8; 512];
    for _ in 0..1_000u32 {
        let count = stream.read(&mut piece)?;
        message.extend_from_slice(&piece[..count])?;
        if count == 0 || message.ends_with(end) {
            break;
        }
    }
    Ok(message)
}

// The upstream's part of an exchange.
fn reply(alloc: Global, upstream: &TcpListener) -> io::Result<()> {
    let (mut stream, _) = upstream.accept()?;
    read_through(alloc, &mut stream, b"{}}")?;
    let reply = format!(in alloc; "HTTP/1.1 200 OK\r\ncontent-length: 28\r\n\r\n{DATA}")?;
    stream.write_all(reply.as_bytes())
}

// An exchange, after which the connection is kept or closed: whether the answer is the one that is due.
fn exchange(
    alloc: Global,
    client: &mut TcpStream,
    upstream: &TcpListener,
    then: &str,
) -> io::Result<bool> {
    let sent = format!(in alloc;
        "POST /graphql HTTP/1.1\r\nhost: g\r\nx-client-key: alpha\r\ncontent-type: application/json\r\nconnection: {then}\r\ncontent-length: 27\r\n\r\n{QUERY}"
    )?;
    let wanted = format!(in alloc;
        "HTTP/1.1 200 OK\r\ncontent-type: application/json\r\ncontent-length: 28\r\nconnection: {then}\r\nx-cost-bound: 2.000 1.000\r\nx-cost-charged: 2.000 1.000\r\n\r\n{DATA}"
    )?;
    client.write_all(sent.as_bytes())?;
    reply(alloc, upstream)?;
    let answer = read_through(alloc, client, DATA.as_bytes())?;
    Ok(answer.as_slice() == wanted.as_bytes())
}

/// Makes all exchanges, of which the last closes the connection, and gives how many answers were those that are due.
pub(crate) fn count_exchanges(
    rt: &HostRuntime,
    listen: &str,
    upstream: &TcpListener,
) -> io::Result<u32> {
    let mut client = connect(rt, listen)?;
    let mut answered = 0u32;
    for number in 0..EXCHANGES {
        let then = if number + 1 < EXCHANGES {
            "keep-alive"
        } else {
            "close"
        };
        if exchange(rt.alloc(), &mut client, upstream, then)? {
            answered = answered.saturating_add(1);
        }
    }
    Ok(answered)
}
