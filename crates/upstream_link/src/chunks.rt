//! Chunked bodies (RFC 9112, section 7.1).

ghost use Rattle.std.specs.Prelude.{◌≡◌, ◌≢◌, ◌+◌, ◌-◌, ◌≤◌, ◌<◌, ◌++◌, ◌==◌, ◌&&◌, ◌↔◌, nat_lt, ℕ, List, true, false, Err, IfOk, IfSome, OnOk, IsTrue, length, take, drop};
ghost use Rattle.outside.specs.Faults.{Rose};
ghost use Rattle.upstream_link.specs.Bodies.{items_of};
ghost use Rattle.upstream_link.specs.Received.{Received, is_failed};
ghost use Rattle.upstream_link.specs.Chunks.{room, line_end, body_limit, line_state, trailer_length, ChunkedIs};
ghost use Rattle.upstream_link.specs.Service.{LookSays, LineSays, TrailerSays, ChunkSays};

use crate::fault::LinkFault;
use crate::kept::Kept;
use crate::pieces::{take_data, take_piece};
use httparse::{Status, parse_chunk_size};
use outside::Wire;
use std::alloc::{AllocError, Global};

/// The bytes in which a head, a size line or a trailer must stand.
pub(crate) const ROOM: usize = 16_384;
/// The greatest length of a body.
pub(crate) const BODY_LIMIT: usize = 4_194_304;

/// The bytes at the front in which a head or a size line must stand.
pub(crate) fn room_of(bytes: &[u8]) -> &[u8]
    ensures { result.now ≡ room bytes.now }
{
    &bytes[..bytes.len().min(ROOM)]
}

/// The length of the size line at the front and the size, or nothing where more bytes are needed.
pub(crate) fn look_at(bytes: &[u8]) -> Result<Option<(usize, u64)>, LinkFault>
    ensures exact { LookSays bytes.now result }
    ensures within { IfOk result (λ found. IfSome found (λ line. line.0 ≤ length bytes.now)) }
    ensures short { IfOk result (λ found. IfSome found (λ line. line.0 ≤ 16384)) }
{
    match parse_chunk_size(room_of(bytes)) {
        Ok(Status::Complete(line)) => Ok(Some(line)),
        Ok(Status::Partial) => {
            if bytes.len() < ROOM {
                Ok(None)
            } else {
                Err(LinkFault::BadChunk)
            }
        }
        Err(_) => Err(LinkFault::BadChunk),
    }
}

/// Receives until a size line is kept, and gives its length and the size.
fn take_line<W: Wire>(kept: &mut Kept, wire: &mut W) -> Result<(usize, u64), LinkFault>
    requires dialled { W.dialled wire.old ≡ true }
    ensures exact { Received kept.old (W.coming wire.old, W.log wire.old) (W.coming wire.new, W.log wire.new) (is_failed result)
        (LineSays kept.new result) }
    ensures within { IfOk result (λ line. line.0 ≤ length kept.new) }
    ensures short { IfOk result (λ line. line.0 ≤ 16384) }
    ensures up { W.dialled wire.new ≡ true }
    ensures count { W.faults wire.old ≤ W.faults wire.new }
    ensures cause { result ≡ Err LinkFault.Failed → Rose (W.faults wire.old) (W.faults wire.new) }
    ensures still { result ≢ Err LinkFault.Failed → W.faults wire.new ≡ W.faults wire.old }
    ensures dials { W.dial_faults wire.new ≡ W.dial_faults wire.old }
{
    'pieces: loop {
        match look_at(kept.bytes()) {
            Ok(Some(line)) => return Ok(line),
            Ok(None) => {}
            Err(fault) => return Err(fault),
        }
        match take_piece(kept, wire) {
            Ok(true) => return Err(LinkFault::Truncated),
            Ok(false) => {}
            Err(fault) => return Err(fault),
        }
    }
}

/// The length of a trailer, or nothing where its empty line isn't here.
fn trailer_length(bytes: &[u8]) -> Option<usize>
    ensures { result ≡ trailer_length bytes.now }
{
    let mut state = 0u8;
    for at in 0..bytes.len() {
        let byte = bytes[at];
        if ends_here(state, byte) {
            return Some(at + 1);
        }
        state = next_state(state, byte);
    }
    None
}

/// Whether the byte ends an empty line.
fn ends_here(state: u8, byte: u8) -> bool
    ensures { result ≡ ((byte == 10) && nat_lt state 2) }
{
    byte == b'\n' && state < 2
}

fn next_state(state: u8, byte: u8) -> u8
    ensures { result ≡ line_state state byte }
{
    if byte == b'\n' {
        0
    } else if byte == b'\r' && state == 0 {
        1
    } else {
        2
    }
}

pub(crate) fn after(bytes: &[u8], count: usize) -> &[u8]
    requires { count ≤ length bytes.now }
    ensures { result.now ≡ drop count bytes.now }
{
    &bytes[count..]
}

/// Whether a trailer stands behind so many bytes.
fn has_trailer(bytes: &[u8], count: usize) -> Option<usize>
    requires { count ≤ length bytes.now }
    ensures { result ≡ trailer_length (room (drop count bytes.now)) }
{
    trailer_length(room_of(after(bytes, count)))
}

/// Receives until a trailer is kept behind the first `len` bytes.
fn take_trailer<W: Wire>(kept: &mut Kept, wire: &mut W, len: usize) -> Result<(), LinkFault>
    requires dialled { W.dialled wire.old ≡ true }
    requires within { len ≤ length kept.old }
    ensures exact { Received kept.old (W.coming wire.old, W.log wire.old) (W.coming wire.new, W.log wire.new) (is_failed result)
        (TrailerSays len result) }
    ensures up { W.dialled wire.new ≡ true }
    ensures count { W.faults wire.old ≤ W.faults wire.new }
    ensures cause { result ≡ Err LinkFault.Failed → Rose (W.faults wire.old) (W.faults wire.new) }
    ensures still { result ≢ Err LinkFault.Failed → W.faults wire.new ≡ W.faults wire.old }
    ensures dials { W.dial_faults wire.new ≡ W.dial_faults wire.old }
{
    'pieces: loop {
        match has_trailer(kept.bytes(), len) {
            Some(_) => return Ok(()),
            None => {}
        }
        if kept.len() - len >= ROOM {
            return Err(LinkFault::BadChunk);
        }
        match take_piece(kept, wire) {
            Ok(true) => return Err(LinkFault::Truncated),
            Ok(false) => {}
            Err(fault) => return Err(fault),
        }
    }
}

/// Whether CR LF stands at a place.
fn ends_at(bytes: &[u8], at: usize) -> bool
    requires { at + 2 ≤ length bytes.now }
    ensures { IsTrue result ↔ (take 2 (drop at bytes.now) ≡ line_end) }
{
    bytes[at] == b'\r' && bytes[at + 1] == b'\n'
}

fn add_part(content: &mut Vec<u8>, bytes: &[u8], from: usize, to: usize) -> Result<(), AllocError>
    requires ordered { from ≤ to }
    requires within { to ≤ length bytes.now }
    ensures { OnOk result (content.new.items ≡ content.old.items ++ take (to - from) (drop from bytes.now)) }
{
    content.extend_from_slice(&bytes[from..to])
}

/// Receives one chunk more, and says whether it was the last, with its trailer.
fn take_chunk<W: Wire>(
    kept: &mut Kept,
    content: &mut Vec<u8>,
    wire: &mut W,
) -> Result<bool, LinkFault>
    requires dialled { W.dialled wire.old ≡ true }
    requires fits { length content.old.items ≤ body_limit }
    ensures exact { Received kept.old (W.coming wire.old, W.log wire.old) (W.coming wire.new, W.log wire.new) (is_failed result)
        (ChunkSays content.old.items content.new.items kept.new result) }
    ensures up { W.dialled wire.new ≡ true }
    ensures count { W.faults wire.old ≤ W.faults wire.new }
    ensures cause { result ≡ Err LinkFault.Failed → Rose (W.faults wire.old) (W.faults wire.new) }
    ensures still { result ≢ Err LinkFault.Failed → W.faults wire.new ≡ W.faults wire.old }
    ensures dials { W.dial_faults wire.new ≡ W.dial_faults wire.old }
{
    let (len, size) = match take_line(kept, wire) {
        Ok(line) => line,
        Err(fault) => return Err(fault),
    };
    if size > (BODY_LIMIT - content.len()) as u64 {
        return Err(LinkFault::TooLarge);
    }
    if size == 0 {
        match take_trailer(kept, wire, len) {
            Ok(()) => return Ok(true),
            Err(fault) => return Err(fault),
        }
    }
    let end = len + size as usize;
    match take_data(kept, wire, end + 2) {
        Ok(()) => {}
        Err(fault) => return Err(fault),
    }
    if ends_at(kept.bytes(), end) {} else {
        return Err(LinkFault::BadChunk);
    }
    match add_part(content, kept.bytes(), len, end) {
        Ok(()) => {}
        Err(_) => return Err(LinkFault::Memory),
    }
    kept.pass(end + 2);
    Ok(false)
}

/// Receives a chunked body.
pub(crate) fn take_chunks<W: Wire>(
    alloc: Global,
    kept: &mut Kept,
    wire: &mut W,
) -> Result<Vec<u8>, LinkFault>
    requires dialled { W.dialled wire.old ≡ true }
    ensures exact { Received kept.old (W.coming wire.old, W.log wire.old) (W.coming wire.new, W.log wire.new) (is_failed result)
        (ChunkedIs (items_of result)) }
    ensures up { W.dialled wire.new ≡ true }
    ensures count { W.faults wire.old ≤ W.faults wire.new }
    ensures cause { result ≡ Err LinkFault.Failed → Rose (W.faults wire.old) (W.faults wire.new) }
    ensures still { result ≢ Err LinkFault.Failed → W.faults wire.new ≡ W.faults wire.old }
    ensures dials { W.dial_faults wire.new ≡ W.dial_faults wire.old }
{
    let mut content: Vec<u8> = Vec::new(alloc);
    'chunks: loop {
        match take_chunk(kept, &mut content, wire) {
            Ok(true) => return Ok(content),
            Ok(false) => {}
            Err(fault) => return Err(fault),
        }
    }
}
