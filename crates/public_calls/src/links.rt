//! Replies of the upstream as they come in pieces.

use outside::{Cut, Failures, MemWire};
use std::alloc::Global;
use std::test::Fail;
use upstream_link::{LinkFault, ask};

// Replies with their bodies.
const READ: &[(&str, &str)] = &[
    (
        "HTTP/1.1 200 OK\r\ncontent-length: 5\r\n\r\n[1,2]6",
        "[1,2]",
    ),
    (
        "HTTP/1.0 500 No\ncontent-encoding: Identity\n\n{\"data\":null}",
        "{\"data\":null}",
    ),
    (
        "HTTP/1.1 100 Continue\r\nx: y\r\n\r\nHTTP/1.1 204 No\r\ncontent-length: 4194305\r\n\r\n{}",
        "",
    ),
    (
        "HTTP/1.1 200 OK\r\ntransfer-encoding: chunked\r\n\r\n00A;of=ten\r\n0123456789\r\n1a\r\nabcdefghijklmnopqrstuvwxyz\r\n0;last\r\nx: y\n\r\nmore",
        "0123456789abcdefghijklmnopqrstuvwxyz",
    ),
];

// Replies that are none, with their faults.
const REFUSED: &[(&str, LinkFault)] = &[
    (
        "HTTP/1.1 200 OK\r\na: b\r\n folded\r\n\r\n",
        LinkFault::BadReplyHead,
    ),
    (
        "HTTP/1.1 200 OK\r\ncontent-length: 9999999\r\ncontent-encoding:\r\n\r\n{}",
        LinkFault::Coded,
    ),
    (
        "HTTP/1.1 200 OK\r\ntransfer-encoding: chunked\r\n\r\n2\r\n{}\r\n3ffffF\r\n",
        LinkFault::TooLarge,
    ),
    (
        "HTTP/1.1 200 OK\r\ntransfer-encoding: chunked\r\n\r\n2\r\n{}\r\n0\r\nx: y\r\n",
        LinkFault::Truncated,
    ),
    (
        "HTTP/1.1 200 OK\r\ntransfer-encoding: chunked\r\n\r\n2\r\n{}{}",
        LinkFault::BadChunk,
    ),
];

// A wire with this reply, whose first read ends behind so many bytes.
fn cut_wire(alloc: Global, reply: &str, ahead: usize) -> Result<MemWire, Fail> {
    let mut replies = Vec::new(alloc);
    replies.push(Vec::from_slice(alloc, reply.as_bytes())?)?;
    let mut wire = MemWire::new(alloc, replies, Failures::none(alloc), Failures::none(alloc));
    wire.read_cut = Cut { ahead };
    Ok(wire)
}

#[test]
fn replies_come_in_any_pieces(rt: HostRuntime) -> Result<(), Fail> {
    let alloc = rt.alloc();
    for (reply, body) in READ {
        for ahead in 0..reply.len() + 1 {
            let mut wire = cut_wire(alloc, reply, ahead)?;
            let found = ask(alloc, &mut wire, "api:4000", "/graphql", b"", b"{}")?;
            assert!(rt; found.body.as_slice() == body.as_bytes());
        }
    }
    for (reply, fault) in REFUSED {
        for ahead in 0..reply.len() + 1 {
            let mut wire = cut_wire(alloc, reply, ahead)?;
            let found = ask(alloc, &mut wire, "api:4000", "/graphql", b"", b"{}");
            assert!(rt; found.err() == Some(*fault));
        }
    }
    Ok(())
}
