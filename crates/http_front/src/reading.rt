//! What the fields of the head of a request say.

ghost use Rattle.std.specs.Prelude.{◌≡◌};
ghost use Rattle.std.specs.Option.{option_map};
ghost use Rattle.http_fields.specs.Fields.{pairs_of, values_of, values_left};
ghost use Rattle.http_front.specs.Fields.{single, key_in, is_json_type, is_json, says_close, body_length};

use crate::fault::FrontFault;
use crate::values::{Elements, has_element};
use client_files::bytes_are_key;
use http_fields::{BadLength, Fields, is_same};

/// The value of the field with this name, where there is just one.
fn single<'a>(fields: Fields<'a>, name: &'a [u8]) -> Option<&'a [u8]>
    ensures { option_map (λ value. value.now) result ≡ single (values_of name.now (pairs_of fields.entry)) }
{
    let mut values = fields.named(name);
    let first = values.next()?;
    if values.next().is_some() {
        None
    } else {
        Some(first)
    }
}

/// The client's key, where there is one.
pub(crate) fn key<'a>(fields: Fields<'a>) -> Option<&'a [u8]>
    ensures { option_map (λ value. value.now) result ≡ key_in (pairs_of fields.entry) }
{
    let value = single(fields, b"x-client-key")?;
    if bytes_are_key(value) {
        Some(value)
    } else {
        None
    }
}

/// Whether the body is JSON by its type.
pub(crate) fn is_json(fields: Fields) -> bool
    ensures { result ≡ is_json (pairs_of fields.entry) }
{
    match single(fields, b"content-type") {
        None => false,
        Some(value) => is_json_type(value),
    }
}

/// Whether the client closes the connection after this request.
pub(crate) fn says_close(fields: Fields) -> bool
    ensures { result ≡ says_close (pairs_of fields.entry) }
{
    fields
        .named(b"connection")
        .any(|value| has_element(b"close", value))
}

/// The length of the body.
pub(crate) fn body_length(fields: Fields) -> Result<u64, FrontFault>
    ensures { result ≡ body_length (pairs_of fields.entry) }
{
    match fields.length() {
        Ok(Some(length)) => Ok(length),
        Ok(None) => Err(FrontFault::NoLength),
        Err(BadLength) => Err(FrontFault::BadLength),
    }
}

/// Whether the value up to its first `;` is `application/json`.
fn is_json_type(value: &[u8]) -> bool
    ensures { result ≡ is_json_type value.now }
{
    match Elements::of(b';', value).next() {
        Some(kind) => is_same(kind, b"application/json"),
        None => false,
    }
}
