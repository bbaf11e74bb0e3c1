//! A look at what a client sent, which takes nothing.

ghost use Rattle.std.specs.Prelude.{◌≡◌, ◌≤◌, length, IfOk};

use http_fields::Fields;
use httparse::Status;
use httparse::spans::{EMPTY_HEADER_SPAN, HeaderSpan, parse_request};
use std::io::ErrorKind;
use std::net::TcpStream;

/// How many bytes a look sees at most: as many as the longest head has.
pub const LOOK_BYTES: usize = 16_384;

// How many bytes a look sees at first: as many as most requests have.
const SHORT_BYTES: usize = 2_048;

// The longest body that a client may send. What is longer is refused by its head.
const BODY_BYTES: u64 = 262_144;

/// What stands at the front of what a client sent.
#[derive(Clone, Copy, Drop, PartialEq, Eq)]
pub(crate) enum Look {
    /// Nothing so far.
    Nothing,
    /// Nothing, and nothing follows; or the stream failed.
    Over,
    /// Less than a request: so many bytes of it.
    Part(usize),
    /// A request of so many bytes: all of them, or as many as a look sees.
    Request(usize),
    /// What is no request, or none that is taken: what follows doesn't matter.
    Other,
}

// The length of the body that a head says, where it is taken.
fn body_length(fields: Fields) -> Option<usize> {
    match fields.length() {
        Ok(Some(length)) if length <= BODY_BYTES => Some(length as usize),
        _ => None,
    }
}

// Whether a field of this name stands in a head just once.
fn stands_once(fields: Fields, name: &[u8]) -> bool {
    let mut values = fields.named(name);
    values.next().is_some() && values.next().is_none()
}

// Whether a head is refused whatever its body is: for its target, its method, codings of the body, or since it doesn't have one key and one type of
// the body. Who reads the request says so again, and in which words; it tests the key and the type too.
fn is_refused(method: &[u8], target: &[u8], fields: Fields) -> bool {
    target != b"/graphql".as_slice()
        || method != b"POST".as_slice()
        || !stands_once(fields, b"x-client-key")
        || !stands_once(fields, b"content-type")
        || fields.is_coded()
        || fields.has_transfer_coding()
}

// What these bytes are the front of.
fn look_at(bytes: &[u8], headers: &mut [HeaderSpan]) -> Look
    requires room { length headers.old ≡ 64 }
{
    match parse_request(bytes, headers) {
        Ok(Status::Complete(spans)) => {
            let fields = Fields {
                bytes,
                headers: &headers[..spans.headers],
            };
            let look = match body_length(fields) {
                Some(length) => so_far(bytes.len(), spans.len.saturating_add(length)),
                None => Look::Other,
            };
            match look {
                Look::Part(_) if is_refused(spans.method.of(bytes), spans.path.of(bytes), fields) =>
                    { Look::Other }
                look => look,
            }
        }
        Ok(Status::Partial) if bytes.len() < LOOK_BYTES => Look::Part(bytes.len()),
        _ => Look::Other,
    }
}

// Whether a request of that length is there.
fn so_far(seen: usize, length: usize) -> Look {
    if seen < length.min(LOOK_BYTES) {
        Look::Part(seen)
    } else {
        Look::Request(length)
    }
}

// Looks at so much as fits of what a client sent. None where that is full.
fn peeked_in(stream: &TcpStream, front: &mut [u8]) -> Option<Look> {
    let mut headers = [EMPTY_HEADER_SPAN; 64];
    match stream.peek(front) {
        Ok(0) => Some(Look::Over),
        Ok(count) if front.len() <= count && count < LOOK_BYTES => None,
        Ok(count) => Some(look_at(&front[..count], &mut headers)),
        Err(error) if error.kind() == ErrorKind::WouldBlock => Some(Look::Nothing),
        Err(_) => Some(Look::Over),
    }
}

/// Looks at what a client sent, on a stream whose reads don't wait.
pub(crate) fn peeked(stream: &TcpStream) -> Look {
    match peeked_in(stream, &mut [0u8; SHORT_BYTES]) {
        Some(look) => look,
        None => peeked_in(stream, &mut [0u8; LOOK_BYTES]).unwrap_or(Look::Other),
    }
}
