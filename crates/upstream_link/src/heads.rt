//! Heads of replies (RFC 9112, section 4), and those that are passed over (RFC 9110, section 15.2).

ghost use Rattle.std.specs.Prelude.{◌≡◌, ◌≢◌, ◌≤◌, ◌<◌, ℕ, List, true, Err, IfOk, IfSome, IsTrue, ◌↔◌, length};
ghost use Rattle.http.specs.StatusCode.{IsInClass};
ghost use Rattle.httparse.specs.Grammar.{ResponseHead};
ghost use Rattle.httparse.specs.Spans.{IsResponseAt, IsResponseWithin};
ghost use Rattle.outside.specs.Faults.{Rose};
ghost use Rattle.upstream_link.specs.Framing.{framing_of};
ghost use Rattle.upstream_link.specs.Received.{Received, is_failed};
ghost use Rattle.upstream_link.specs.Service.{HeadLookSays, HeadSays, ReplyHeadSays};

use crate::chunks::{ROOM, room_of};
use crate::fault::LinkFault;
use crate::framing::{Framing, body_framing};
use crate::kept::Kept;
use crate::pieces::take_piece;
use http::StatusCode;
use http_fields::Fields;
use httparse::Status;
use httparse::spans::{EMPTY_HEADER_SPAN, HeaderSpan, ResponseSpans, parse_response};
use outside::Wire;

/// The length of a head, its status, and how the body behind it is framed, or why it can't be read.
#[derive(Clone, Copy)]
pub(crate) struct Head {
    pub(crate) len: usize,
    pub(crate) code: u16,
    pub(crate) framing: Result<Framing, LinkFault>,
}

/// How the body behind the head at these spans is framed.
fn framing_at(
    front: &[u8],
    spans: ResponseSpans,
    headers: &[HeaderSpan],
) -> Result<Framing, LinkFault>
    requires within { IsResponseWithin front.now headers.now spans }
    ensures { (h : ResponseHead) → IsResponseAt front.now headers.now spans h → result ≡ framing_of h }
{
    let fields = Fields {
        bytes: front,
        headers: &headers[..spans.headers],
    };
    body_framing(spans.code, fields)
}

/// The head at the front, or nothing where more bytes are needed.
pub(crate) fn look_at_head(bytes: &[u8]) -> Result<Option<Head>, LinkFault>
    ensures exact { HeadLookSays bytes.now result }
    ensures within { IfOk result (λ found. IfSome found (λ head. head.len ≤ length bytes.now)) }
{
    let front = room_of(bytes);
    let mut headers = [EMPTY_HEADER_SPAN; 64];
    match parse_response(front, &mut headers) {
        Ok(Status::Complete(spans)) => Ok(Some(Head {
            len: spans.len,
            code: spans.code,
            framing: framing_at(front, spans, &headers),
        })),
        Ok(Status::Partial) => {
            if bytes.len() < ROOM {
                Ok(None)
            } else {
                Err(LinkFault::BadReplyHead)
            }
        }
        Err(httparse::Error::TooManyHeaders) => Err(LinkFault::BadReplyHead),
        Err(_) => Err(LinkFault::BadReplyHead),
    }
}

/// Receives until a head is kept.
fn take_head<W: Wire>(kept: &mut Kept, wire: &mut W) -> Result<Head, LinkFault>
    requires dialled { W.dialled wire.old ≡ true }
    ensures exact { Received kept.old (W.coming wire.old, W.log wire.old) (W.coming wire.new, W.log wire.new) (is_failed result)
        (HeadSays kept.new result) }
    ensures within { IfOk result (λ head. head.len ≤ length kept.new) }
    ensures up { W.dialled wire.new ≡ true }
    ensures count { W.faults wire.old ≤ W.faults wire.new }
    ensures cause { result ≡ Err LinkFault.Failed → Rose (W.faults wire.old) (W.faults wire.new) }
    ensures still { result ≢ Err LinkFault.Failed → W.faults wire.new ≡ W.faults wire.old }
    ensures dials { W.dial_faults wire.new ≡ W.dial_faults wire.old }
{
    'pieces: loop {
        match look_at_head(kept.bytes()) {
            Ok(Some(head)) => return Ok(head),
            Ok(None) => {}
            Err(fault) => return Err(fault),
        }
        match take_piece(kept, wire) {
            Ok(true) => return Err(LinkFault::Truncated),
            Ok(false) => {}
            Err(fault) => return Err(fault),
        }
    }
}

/// Whether a head of this status is passed over.
fn is_interim(code: u16) -> bool
    ensures { IsTrue result ↔ IsInClass 100 code }
{
    match StatusCode::from_u16(code) {
        Ok(status) => status.is_informational(),
        Err(_) => false,
    }
}

/// Passes over at most eight heads of interim replies, and receives the next head.
pub(crate) fn take_reply_head<W: Wire>(kept: &mut Kept, wire: &mut W) -> Result<Head, LinkFault>
    requires dialled { W.dialled wire.old ≡ true }
    ensures exact { Received kept.old (W.coming wire.old, W.log wire.old) (W.coming wire.new, W.log wire.new) (is_failed result)
        (ReplyHeadSays kept.new result) }
    ensures within { IfOk result (λ head. head.len ≤ length kept.new) }
    ensures up { W.dialled wire.new ≡ true }
    ensures count { W.faults wire.old ≤ W.faults wire.new }
    ensures cause { result ≡ Err LinkFault.Failed → Rose (W.faults wire.old) (W.faults wire.new) }
    ensures still { result ≢ Err LinkFault.Failed → W.faults wire.new ≡ W.faults wire.old }
    ensures dials { W.dial_faults wire.new ≡ W.dial_faults wire.old }
{
    let mut passed = 0u32;
    'heads: loop {
        let head = match take_head(kept, wire) {
            Ok(head) => head,
            Err(fault) => return Err(fault),
        };
        if is_interim(head.code) {
            if passed == 8 {
                return Err(LinkFault::BadReplyHead);
            }
            kept.pass(head.len);
            passed += 1;
        } else {
            return Ok(head);
        }
    }
}
