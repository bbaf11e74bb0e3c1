//! Fields of a client's request that are passed on to the upstream.

ghost use Rattle.std.specs.Prelude.{◌≡◌, ◌++◌, IfOk, OnOk, length, take};
ghost use Rattle.httparse.specs.Spans.{IsHeaderWithin, header_bytes};
ghost use Rattle.http_fields.specs.Fields.{pairs_of};
ghost use Rattle.http_front.specs.Passed.{is_among, field_line, line_if_named, passed_lines, own_fields, connection_fields, is_of_proxies, may_be_passed};

use gql_base::Text;
use http_fields::{Fields, is_same};
use httparse::is_token;
use httparse::spans::HeaderSpan;
use std::alloc::{AllocError, Global};

/// Whether a name is one of these, in any case.
fn is_among(names: &[Text], name: &[u8]) -> bool
    ensures { result ≡ is_among names.now name.now }
{
    'names: for other in names {
        if is_same(name, other.as_str().as_bytes()) {
            return true;
        }
    }
    false
}

/// Puts the line of a field.
fn put_line(name: &[u8], value: &[u8], lines: &mut Vec<u8>) -> Result<(), AllocError>
    ensures { OnOk result (lines.new.items ≡ lines.old.items ++ field_line (name.now, value.now)) }
{
    lines.extend_from_slice(name)?;
    lines.extend_from_slice(b": ")?;
    lines.extend_from_slice(value)?;
    lines.extend_from_slice(b"\r\n")
}

/// Puts the line of a field, if it has one of the names and may be passed on.
fn put_if_named(
    names: &[Text],
    bytes: &[u8],
    field: HeaderSpan,
    lines: &mut Vec<u8>,
) -> Result<(), AllocError>
    requires within { IsHeaderWithin (length bytes.now) field }
    ensures { OnOk result (lines.new.items ≡ lines.old.items ++ line_if_named names.now (header_bytes bytes.now field)) }
{
    let name = field.name.of(bytes);
    if is_among(names, name) && may_pass(name) {
        return put_line(name, field.value.of(bytes), lines);
    }
    Ok(())
}

/// The lines of the fields with these names that may be passed on, in their order. It fails for want of memory alone, and takes none where no field
/// has such a name.
pub(crate) fn passed_lines(
    alloc: Global,
    names: &[Text],
    fields: Fields<'_>,
) -> Result<Vec<u8>, AllocError>
    ensures { IfOk result (λ lines. lines.items ≡ passed_lines names.now (pairs_of fields.entry)) }
{
    let mut lines = Vec::new(alloc);
    'fields: for field in fields.headers {
        put_if_named(names, fields.bytes, *field, &mut lines)?;
    }
    Ok(lines)
}

/// A field of the request as the gateway itself writes it.
fn is_own(name: &[u8]) -> bool
    ensures { result ≡ is_among own_fields name.now }
{
    is_same(name, b"host")
        || is_same(name, b"content-length")
        || is_same(name, b"content-type")
        || is_same(name, b"content-encoding")
        || is_same(name, b"accept")
        || is_same(name, b"accept-encoding")
}

/// A field that speaks of one connection alone.
fn is_of_connection(name: &[u8]) -> bool
    ensures { result ≡ is_among connection_fields name.now }
{
    is_same(name, b"connection")
        || is_same(name, b"keep-alive")
        || is_same(name, b"transfer-encoding")
        || is_same(name, b"te")
        || is_same(name, b"trailer")
        || is_same(name, b"upgrade")
        || is_same(name, b"expect")
}

/// Whether the name begins with `proxy-`.
fn is_of_proxies(name: &[u8]) -> bool
    ensures { result ≡ is_of_proxies name.now }
{
    is_same(&name[..name.len().min(6)], b"proxy-")
}

/// Whether a field of this name may be passed on.
fn may_pass(name: &[u8]) -> bool
    ensures { result ≡ may_be_passed name.now }
{
    is_token(name) && !is_own(name) && !is_of_connection(name) && !is_of_proxies(name)
}

/// Whether fields of this name may be passed on: it is a token, and none that the gateway writes itself or that speaks of one
/// connection alone (RFC 9110, section 7.6.1).
pub fn may_be_passed(name: &str) -> bool
    ensures { result ≡ may_be_passed name.now }
{
    may_pass(name.as_bytes())
}
