//! Replies.

ghost use Rattle.std.specs.Prelude.{◌≡◌, ◌≢◌, ◌+◌, ◌≤◌, ◌<◌, ◌++◌, ◌∷◌, [], Some, IfSome, OnOk, OnErr, length, take, codes};
ghost use Rattle.std.specs.Fmt.{decimal};
ghost use Rattle.std.specs.Io.KnownBytes.{Appends};
ghost use Rattle.cost_num.specs.CostText.{cost_text};
ghost use Rattle.outside.specs.Contents.{AppendsFront};
ghost use Rattle.outside.specs.Faults.{Rose};
ghost use Rattle.http_front.specs.ReplyBytes.{status_text, connection_text, status_field, cost_fields, hint_fields, head_bytes, reply_bytes, AreCosts, IsHint};

use cost_num::{CAP, Cost, cost_bytes};
use outside::{Sink, WriteFault, write_whole};

/// What helps a client whose account is short.
#[derive(Clone, Copy, Debug, PartialEq, Eq)]
pub struct Hint {
    /// How many seconds there are up to the next window.
    pub seconds: u64,
    /// What the window has left.
    pub left: Cost,
}

/// A reply of the gateway.
#[derive(Drop)]
pub struct Answer {
    pub status: u16,
    /// Whether the connection closes after it.
    pub close: bool,
    /// The bound and the charge, where a reservation was granted.
    pub costs: Option<(Cost, Cost)>,
    /// What helps a client whose account is short.
    pub hint: Option<Hint>,
    pub body: Vec<u8>,
}

/// How many bytes go out in one write at most, where a reply has no more.
const ROOM: usize = 4096;

/// Puts a piece at a place, and gives the place behind it.
fn put(into: &mut [u8; ROOM], at: usize, piece: &[u8]) -> usize
    requires { at + length piece.now ≤ 4096 }
    ensures end { result ≡ at + length piece.now }
    ensures written { take result into.new ≡ take at into.old ++ piece.now }
{
    let end = at + piece.len();
    into[at..end].copy_from_slice(piece);
    end
}

/// Puts one decimal digit.
fn put_digit(into: &mut [u8; ROOM], at: usize, digit: u64) -> usize
    requires is_digit { digit < 10 }
    requires room { at < 4096 }
    ensures end { result ≡ at + 1 }
    ensures written { take result into.new ≡ take at into.old ++ (48 + digit) ∷ [] }
{
    into[at] = b'0' + digit as u8;
    at + 1
}

/// Puts a number with no leading zero.
#[tactic(auto, using(crate::proofs::Digits::digit_by_digit))]
fn put_decimal(into: &mut [u8; ROOM], at: usize, number: u64) -> usize
    requires { at + length (decimal number) ≤ 4096 }
    ensures end { result ≡ at + length (decimal number) }
    ensures written { take result into.new ≡ take at into.old ++ decimal number }
{
    if number < 10 {
        return put_digit(into, at, number);
    }
    let last = put_decimal(into, at, number / 10);
    put_digit(into, last, number % 10)
}

/// Puts the length of a body.
fn put_length(into: &mut [u8; ROOM], at: usize, number: u64) -> usize
    requires { at + 20 ≤ 4096 }
    ensures end { result ≤ at + 20 }
    ensures written { take result into.new ≡ take at into.old ++ decimal number }
{
    put_decimal(into, at, number)
}

/// Puts a cost.
fn put_cost(into: &mut [u8; ROOM], at: usize, cost: Cost) -> usize
    requires room { at + 39 ≤ 4096 }
    requires types { cost.types ≤ CAP }
    requires fields { cost.fields ≤ CAP }
    ensures end { result ≤ at + 39 }
    ensures written { take result into.new ≡ take at into.old ++ cost_text cost }
{
    let mut text = [0u8; 48];
    let length = cost_bytes(cost, &mut text);
    put(into, at, &text[..length])
}

/// Puts the fields of the bound and the charge.
fn put_costs(into: &mut [u8; ROOM], at: usize, bound: Cost, charged: Cost) -> usize
    requires room { at + 112 ≤ 4096 }
    requires costs { AreCosts (bound, charged) }
    ensures end { result ≤ at + 112 }
    ensures written { take result into.new ≡ take at into.old ++ cost_fields (Some (bound, charged)) }
{
    let at = put(into, at, b"x-cost-bound: ");
    let at = put_cost(into, at, bound);
    let at = put(into, at, b"\r\nx-cost-charged: ");
    let at = put_cost(into, at, charged);
    put(into, at, b"\r\n")
}

/// Puts the fields of the costs, where there are some.
fn put_if_costs(into: &mut [u8; ROOM], at: usize, costs: Option<(Cost, Cost)>) -> usize
    requires room { at + 112 ≤ 4096 }
    requires costs { IfSome costs AreCosts }
    ensures end { result ≤ at + 112 }
    ensures written { take result into.new ≡ take at into.old ++ cost_fields costs }
{
    match costs {
        Some((bound, charged)) => put_costs(into, at, bound, charged),
        None => at,
    }
}

/// Puts the fields of a hint.
fn put_hint(into: &mut [u8; ROOM], at: usize, hint: Hint) -> usize
    requires room { at + 89 ≤ 4096 }
    requires hint { IsHint hint }
    ensures end { result ≤ at + 89 }
    ensures written { take result into.new ≡ take at into.old ++ hint_fields (Some hint) }
{
    let at = put(into, at, b"retry-after: ");
    let at = put_length(into, at, hint.seconds);
    let at = put(into, at, b"\r\nx-cost-left: ");
    let at = put_cost(into, at, hint.left);
    put(into, at, b"\r\n")
}

/// Puts the fields of a hint, where there is one.
fn put_if_hint(into: &mut [u8; ROOM], at: usize, hint: Option<Hint>) -> usize
    requires room { at + 89 ≤ 4096 }
    requires hint { IfSome hint IsHint }
    ensures end { result ≤ at + 89 }
    ensures written { take result into.new ≡ take at into.old ++ hint_fields hint }
{
    match hint {
        Some(hint) => put_hint(into, at, hint),
        None => at,
    }
}

/// A status with its reason.
fn status_of(status: u16) -> &'static [u8]
    ensures text { result.now ≡ status_text status }
    ensures short { length result.now ≤ 35 }
{
    match status {
        200 => b"200 OK",
        400 => b"400 Bad Request",
        401 => b"401 Unauthorized",
        404 => b"404 Not Found",
        405 => b"405 Method Not Allowed",
        411 => b"411 Length Required",
        413 => b"413 Content Too Large",
        415 => b"415 Unsupported Media Type",
        429 => b"429 Too Many Requests",
        431 => b"431 Request Header Fields Too Large",
        500 => b"500 Internal Server Error",
        501 => b"501 Not Implemented",
        502 => b"502 Bad Gateway",
        503 => b"503 Service Unavailable",
        _ => b"",
    }
}

fn connection_of(close: bool) -> &'static [u8]
    ensures text { result.now ≡ connection_text close }
    ensures short { length result.now ≤ 10 }
{
    if close { b"close" } else { b"keep-alive" }
}

/// The field that two of the statuses have.
fn field_of(status: u16) -> &'static [u8]
    ensures text { result.now ≡ status_field status }
    ensures short { length result.now ≤ 29 }
{
    match status {
        405 => b"allow: POST\r\n",
        401 => b"www-authenticate: ClientKey\r\n",
        _ => b"",
    }
}

/// Puts the head of a reply at the front, and gives its length.
fn put_head(
    into: &mut [u8; ROOM],
    status: u16,
    close: bool,
    costs: Option<(Cost, Cost)>,
    hint: Option<Hint>,
    length: u64,
) -> usize
    requires costs { IfSome costs AreCosts }
    requires hint { IfSome hint IsHint }
    ensures within { result ≤ 4096 }
    ensures head { take result into.new ≡ head_bytes status close costs hint length }
{
    let at = put(into, 0, b"HTTP/1.1 ");
    let at = put(into, at, status_of(status));
    let at = put(
        into,
        at,
        b"\r\ncontent-type: application/json\r\ncontent-length: ",
    );
    let at = put_length(into, at, length);
    let at = put(into, at, b"\r\nconnection: ");
    let at = put(into, at, connection_of(close));
    let at = put(into, at, b"\r\n");
    let at = put(into, at, field_of(status));
    let at = put_if_costs(into, at, costs);
    let at = put_if_hint(into, at, hint);
    put(into, at, b"\r\n")
}

/// Writes a reply, or stops at the first fault with some front of it written. A reply of at most 4,096 bytes
/// goes out in one write. It takes no memory.
pub fn write_reply<K: Sink>(to: &mut K, answer: &Answer) -> Result<(), WriteFault>
    requires status { status_text answer.now.status ≢ [] }
    requires costs { IfSome answer.now.costs AreCosts }
    requires hint { IfSome answer.now.hint IsHint }
    ensures whole { OnOk result (Appends (K.written to.old) (K.written to.new) (reply_bytes answer.now)) }
    ensures count { K.faults to.old ≤ K.faults to.new }
    ensures still { OnOk result (K.faults to.new ≡ K.faults to.old) }
    ensures cause { OnErr result (Rose (K.faults to.old) (K.faults to.new)) }
    ensures front { OnErr result (AppendsFront (K.written to.old) (K.written to.new) (reply_bytes answer.now)) }
{
    let mut room = [0u8; ROOM];
    let body = answer.body.as_slice();
    let head = put_head(
        &mut room,
        answer.status,
        answer.close,
        answer.costs,
        answer.hint,
        body.len() as u64,
    );
    if body.len() <= ROOM - head {
        let end = put(&mut room, head, body);
        return write_whole(to, &room[..end]);
    }
    match write_whole(to, &room[..head]) {
        Ok(()) => {}
        Err(WriteFault) => return Err(WriteFault),
    }
    match write_whole(to, body) {
        Ok(()) => Ok(()),
        Err(WriteFault) => Err(WriteFault),
    }
}
