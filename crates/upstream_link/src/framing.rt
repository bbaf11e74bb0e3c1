//! How the body of a reply is framed (RFC 9112, section 6.3).

ghost use Rattle.std.specs.Prelude.{◌≡◌, Ok, Err};
ghost use Rattle.http_fields.specs.Fields.{pairs_of, values_of, values_left};
ghost use Rattle.upstream_link.specs.Framing.{has_no_body, has_other_coding, framing_by};

use crate::fault::LinkFault;
use http_fields::{BadLength, Fields, is_same};

/// How the body of a reply is framed.
#[derive(Clone, Copy)]
pub(crate) enum Framing {
    /// There is no body.
    NoBody,
    /// The body comes in chunks.
    Chunked,
    /// The body has so many bytes.
    Length { length: u64 },
    /// The body goes on to the end of the wire.
    UntilEnd,
}

/// The greatest length of a body.
const LIMIT: u64 = 4_194_304;

fn has_no_body(code: u16) -> bool
    ensures { result ≡ has_no_body code }
{
    code == 204 || code == 304
}

/// Whether a transfer coding stands that is not `chunked`.
fn has_other_coding(fields: Fields) -> bool
    ensures { result ≡ has_other_coding (pairs_of fields.entry) }
{
    !fields
        .named(b"transfer-encoding")
        .all(|value| is_same(value, b"chunked"))
}

/// How the body behind a head with this status and these fields is framed.
pub(crate) fn body_framing(code: u16, fields: Fields) -> Result<Framing, LinkFault>
    ensures { result ≡ framing_by code (pairs_of fields.entry) }
{
    if has_other_coding(fields) {
        return Err(LinkFault::BadReplyHead);
    }
    let length = match fields.length() {
        Ok(length) => length,
        Err(BadLength) => return Err(LinkFault::BadReplyHead),
    };
    if fields.is_coded() {
        return Err(LinkFault::Coded);
    }
    if has_no_body(code) {
        return Ok(Framing::NoBody);
    }
    if fields.has_transfer_coding() {
        return Ok(Framing::Chunked);
    }
    match length {
        None => Ok(Framing::UntilEnd),
        Some(length) if LIMIT < length => Err(LinkFault::TooLarge),
        Some(length) => Ok(Framing::Length { length }),
    }
}
