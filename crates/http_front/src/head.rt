//! Heads of requests: what one asks for, and the head at the front of bytes.

ghost use Rattle.std.specs.Prelude.{◌≡◌, ◌⊎◌, ◌≤◌, Some, None, Ok, Err, IfOk, IfErr, IfSome, length, map};
ghost use Rattle.httparse.specs.Grammar.{RequestHead, print_request};
ghost use Rattle.httparse.specs.Spans.{IsRequestAt, IsRequestWithin, name_and_value};
ghost use Rattle.http_fields.specs.Fields.{pairs_of};
ghost use Rattle.http_front.specs.Heads.{WantedIs, wanted, wanted_by, wants};
ghost use Rattle.http_front.specs.Asks.{in_room};
ghost use Rattle.http_front.specs.Passed.{passed_lines};
ghost use Rattle.http_front.specs.Service.{IsOfHead, FoundIs, LookIs};

use crate::fault::FrontFault;
use crate::passed::passed_lines;
use crate::reading::{body_length, is_json, key, says_close};
use gql_base::Text;
use http_fields::Fields;
use httparse::spans::{EMPTY_HEADER_SPAN, HeaderSpan, RequestSpans, parse_request};
use httparse::{Error, Status};
use std::alloc::Global;

/// The most bytes of a head.
pub(crate) const HEAD_BYTES: usize = 16_384;

/// The most bytes of a body.
pub(crate) const BODY_BYTES: u64 = 262_144;

/// What a head asks for.
#[derive(Clone, Copy)]
pub(crate) struct Wanted<'a> {
    pub(crate) key: &'a [u8],
    pub(crate) length: u64,
    pub(crate) close: bool,
}

/// The head at the front of bytes: what it asks for, and its own length.
#[derive(Drop)]
pub(crate) struct Head {
    pub(crate) key: Text,
    pub(crate) length: u64,
    pub(crate) close: bool,
    /// The lines of the fields that are passed on.
    pub(crate) passed: Vec<u8>,
    pub(crate) len: usize,
}

/// The tests of a head, in their order.
fn test_head<'a>(
    method: &[u8],
    target: &[u8],
    minor: u8,
    fields: Fields<'a>,
) -> Result<Wanted<'a>, FrontFault>
    ensures exact { WantedIs result (wanted_by method.now target.now minor (pairs_of fields.entry)) }
    ensures within { IfOk result (λ found. found.length ≤ 262144) }
    ensures kind { IfErr result IsOfHead }
{
    if target != b"/graphql".as_slice() {
        return Err(FrontFault::NotFound);
    }
    if method != b"POST".as_slice() {
        return Err(FrontFault::BadMethod);
    }
    let Some(key) = key(fields) else {
        return Err(FrontFault::NoKey);
    };
    if fields.is_coded() {
        return Err(FrontFault::Coded);
    }
    if !is_json(fields) {
        return Err(FrontFault::BadMedia);
    }
    if fields.has_transfer_coding() {
        return Err(FrontFault::Chunked);
    }
    let close = minor == 0 || says_close(fields);
    match body_length(fields) {
        Ok(length) if BODY_BYTES < length => Err(FrontFault::BodyTooLarge { length }),
        Ok(length) => Ok(Wanted { key, length, close }),
        Err(fault) => Err(fault),
    }
}

/// A copy of a key. It fails for want of memory.
fn copy_of(alloc: Global, key: &[u8]) -> Option<Text>
    ensures { IfSome result (λ copy. copy ≡ key.now) }
{
    // The characters of a key are ASCII, so that it is always a text.
    match key.to_vec(alloc) {
        Ok(bytes) => Text::from_utf8(bytes).ok(),
        Err(_) => None,
    }
}

/// What the head at these spans asks for.
fn head_at(
    alloc: Global,
    names: &[Text],
    front: &[u8],
    spans: RequestSpans,
    headers: &[HeaderSpan],
) -> Result<Head, FrontFault>
    requires within { IsRequestWithin front.now headers.now spans }
    ensures head { IfOk result (λ found. (head : RequestHead) → IsRequestAt front.now headers.now spans head
        → (wanted head ≡ Ok (wants found.key found.length found.close)) × (found.passed.items ≡ passed_lines names.now (map name_and_value head.fields))
        × (found.len ≡ length (print_request head))) }
    ensures within { IfOk result (λ found. found.length ≤ 262144) }
    ensures len { IfOk result (λ found. found.len ≤ length front.now) }
    ensures refused { IfErr result (λ f. (f ≡ FrontFault.Memory) ⊎ (IsOfHead f × ((head : RequestHead)
        → IsRequestAt front.now headers.now spans head → wanted head ≡ Err f))) }
{
    let fields = Fields {
        bytes: front,
        headers: &headers[..spans.headers],
    };
    let found = test_head(
        spans.method.of(front),
        spans.path.of(front),
        spans.version,
        fields,
    );
    let found = match found {
        Ok(found) => found,
        Err(fault) => return Err(fault),
    };
    let Some(key) = copy_of(alloc, found.key) else {
        return Err(FrontFault::Memory);
    };
    let Ok(passed) = passed_lines(alloc, names, fields) else {
        return Err(FrontFault::Memory);
    };
    Ok(Head {
        key,
        length: found.length,
        close: found.close,
        passed,
        len: spans.len,
    })
}

/// The bytes in which a whole head must stand.
fn front_of(bytes: &[u8]) -> &[u8]
    ensures { result.now ≡ in_room bytes.now }
{
    &bytes[..bytes.len().min(HEAD_BYTES)]
}

/// Where a whole head stands at the front of the bytes, or nothing where that takes more bytes, or the fault.
pub(crate) fn find_head(
    bytes: &[u8],
    headers: &mut [HeaderSpan],
) -> Result<Option<RequestSpans>, FrontFault>
    requires room { length headers.old ≡ 64 }
    ensures { FoundIs bytes.now headers.new result }
{
    match parse_request(front_of(bytes), headers) {
        Ok(Status::Complete(spans)) => Ok(Some(spans)),
        Ok(Status::Partial) => {
            if bytes.len() < HEAD_BYTES {
                Ok(None)
            } else {
                Err(FrontFault::HeadTooLarge)
            }
        }
        Err(Error::TooManyHeaders) => Err(FrontFault::HeadTooLarge),
        Err(_) => Err(FrontFault::BadHead),
    }
}

/// The head at the front of the bytes, or nothing where that takes more bytes, or the first fault.
pub(crate) fn look_at(
    alloc: Global,
    names: &[Text],
    bytes: &[u8],
) -> Result<Option<Head>, FrontFault>
    ensures exact { LookIs names.now bytes.now result }
    ensures kind { ¬ (result ≡ Err FrontFault.ReadFault) }
    ensures within { IfOk result (λ found. IfSome found (λ head. (head.length ≤ 262144) × (head.len ≤ length bytes.now))) }
{
    let mut headers = [EMPTY_HEADER_SPAN; 64];
    match find_head(bytes, &mut headers) {
        Ok(Some(spans)) => match head_at(alloc, names, front_of(bytes), spans, &headers) {
            Ok(head) => Ok(Some(head)),
            Err(fault) => Err(fault),
        },
        Ok(None) => Ok(None),
        Err(fault) => Err(fault),
    }
}
