//! Requests to the upstream.

ghost use Rattle.std.specs.Prelude.{◌≡◌, ◌+◌, ◌≤◌, ◌++◌, [], IfOk, OnOk, length, string_bytes};
ghost use Rattle.upstream_link.specs.RequestBytes.{start_bytes, fields_bytes, length_bytes, end_bytes, head_bytes, request_bytes};
ghost use Rattle.upstream_link.specs.Exchanges.{bytes_of};

use std::alloc::{AllocError, Global};

/// How many bytes go out in one write at most, where a request has no more.
const ROOM: usize = 4_096;

/// A request that is ready to be sent: the bytes that go out first, and those behind them.
#[derive(Drop)]
pub(crate) struct Request<'a> {
    pub(crate) first: Vec<u8>,
    pub(crate) rest: &'a [u8],
}

/// The fields that every request has, up to the length of its body.
const FIELDS: &[u8] =
    b"\r\ncontent-type: application/json\r\naccept: application/json\r\naccept-encoding: identity\r\nconnection: close\r\ncontent-length: ";

/// Puts a piece behind the bytes of a request.
fn put(into: &mut Vec<u8>, piece: &[u8]) -> Result<(), AllocError>
    ensures { OnOk result (into.new.items ≡ into.old.items ++ piece.now) }
{
    into.extend_from_slice(piece)
}

/// The length of the body, and the end of its line.
fn length_of(alloc: Global, length: usize) -> Result<String, AllocError>
    ensures { IfOk result (λ line. string_bytes line ≡ length_bytes length) }
{
    format!(in alloc; "{length}\r\n")
}

/// The request line, and the host.
fn start_of(alloc: Global, host: &str, target: &str) -> Result<Vec<u8>, AllocError>
    ensures { IfOk result (λ start. start.items ≡ start_bytes host.now target.now) }
{
    let mut start = Vec::with_capacity(alloc, ROOM)?;
    put(&mut start, b"POST ")?;
    put(&mut start, target.as_bytes())?;
    put(&mut start, b" HTTP/1.1\r\nhost: ")?;
    put(&mut start, host.as_bytes())?;
    Ok(start)
}

/// Puts the end of a head behind it.
fn put_end(alloc: Global, lines: &[u8], length: usize, head: &mut Vec<u8>) -> Result<(), AllocError>
    ensures { OnOk result (head.new.items ≡ head.old.items ++ end_bytes lines.now length) }
{
    let length = length_of(alloc, length)?;
    put(head, length.as_bytes())?;
    put(head, lines)?;
    put(head, b"\r\n")
}

/// The head of a request with the lines of further fields, and a body of this length.
#[tactic(auto, unfolding(crate::specs::RequestBytes::head_bytes))]
fn head_of(
    alloc: Global,
    host: &str,
    target: &str,
    lines: &[u8],
    length: usize,
) -> Result<Vec<u8>, AllocError>
    ensures { IfOk result (λ head. head.items ≡ head_bytes host.now target.now lines.now length) }
{
    let mut head = start_of(alloc, host, target)?;
    put(&mut head, FIELDS)?;
    put_end(alloc, lines, length, &mut head)?;
    Ok(head)
}

/// A request with the lines of further fields, and this body. Where head and body have at most 4,096 bytes, all of it goes out first.
pub(crate) fn request_of<'a>(
    alloc: Global,
    host: &str,
    target: &str,
    lines: &[u8],
    body: &'a [u8],
) -> Result<Request<'a>, AllocError>
    ensures bytes { IfOk result (λ request. bytes_of request ≡ request_bytes host.now target.now lines.now body.now) }
    ensures one_piece { IfOk result (λ request. length (bytes_of request) ≤ 4096 → request.rest.now ≡ []) }
{
    let mut first = head_of(alloc, host, target, lines, body.len())?;
    if first.len() > ROOM || body.len() > ROOM - first.len() {
        return Ok(Request { first, rest: body });
    }
    put(&mut first, body)?;
    Ok(Request { first, rest: b"" })
}
