//! A reply of the upstream.

ghost use Rattle.std.specs.Prelude.{◌≡◌, ◌≢◌, ◌≤◌, ℕ, List, true, Err};
ghost use Rattle.outside.specs.Faults.{Rose};
ghost use Rattle.upstream_link.specs.Received.{Received, is_failed};
ghost use Rattle.upstream_link.specs.Replies.{ReplyOf};

use crate::bodies::take_body;
use crate::fault::LinkFault;
use crate::heads::take_reply_head;
use crate::kept::Kept;
use outside::Wire;
use std::alloc::Global;

/// A reply of the upstream: its status, and its body without transfer coding.
#[derive(Debug, Drop)]
pub struct UpstreamReply {
    pub status: u16,
    pub body: Vec<u8>,
}

/// Receives a reply.
pub(crate) fn take_reply<W: Wire>(
    alloc: Global,
    kept: &mut Kept,
    wire: &mut W,
) -> Result<UpstreamReply, LinkFault>
    requires dialled { W.dialled wire.old ≡ true }
    ensures exact { Received kept.old (W.coming wire.old, W.log wire.old) (W.coming wire.new, W.log wire.new) (is_failed result)
        (ReplyOf result) }
    ensures up { W.dialled wire.new ≡ true }
    ensures count { W.faults wire.old ≤ W.faults wire.new }
    ensures cause { result ≡ Err LinkFault.Failed → Rose (W.faults wire.old) (W.faults wire.new) }
    ensures still { result ≢ Err LinkFault.Failed → W.faults wire.new ≡ W.faults wire.old }
    ensures dials { W.dial_faults wire.new ≡ W.dial_faults wire.old }
{
    let head = match take_reply_head(kept, wire) {
        Ok(head) => head,
        Err(fault) => return Err(fault),
    };
    let framing = match head.framing {
        Ok(framing) => framing,
        Err(fault) => return Err(fault),
    };
    kept.pass(head.len);
    match take_body(alloc, kept, wire, framing) {
        Ok(body) => Ok(UpstreamReply {
            status: head.code,
            body,
        }),
        Err(fault) => Err(fault),
    }
}
