//! Requests to the upstream with their replies.

ghost use Rattle.std.specs.Prelude.{◌≡◌, ◌≢◌, ◌≤◌, ◌⊎◌, [], List, true, false, Err, IfOk};
ghost use Rattle.outside.specs.Dials.{Dial, LoggedBy, fresh_dial};
ghost use Rattle.outside.specs.Faults.{Rose};
ghost use Rattle.upstream_link.specs.Exchanges.{CameTo, Exchanges, bytes_of};
ghost use Rattle.upstream_link.specs.RequestBytes.{request_bytes};

use crate::fault::LinkFault;
use crate::kept::Kept;
use crate::reply::{UpstreamReply, take_reply};
use crate::request::{Request, request_of};
use crate::sending::send_request;
use outside::{DialFault, Wire};
use std::alloc::{AllocError, Global};

/// Sends a request over a dialled wire, and receives its reply.
fn exchange<W: Wire>(
    alloc: Global,
    kept: &mut Kept,
    wire: &mut W,
    request: &Request,
) -> Result<UpstreamReply, LinkFault>
    requires dialled { W.dialled wire.old ≡ true }
    requires nothing { kept.old ≡ [] }
    ensures exact { Exchanges (bytes_of request.now) result fresh_dial (W.log wire.old) (W.log wire.new) }
    ensures count { W.faults wire.old ≤ W.faults wire.new }
    ensures cause { result ≡ Err LinkFault.Failed → Rose (W.faults wire.old) (W.faults wire.new) }
    ensures still { result ≢ Err LinkFault.Failed → W.faults wire.new ≡ W.faults wire.old }
    ensures dials { W.dial_faults wire.new ≡ W.dial_faults wire.old }
{
    match send_request(wire, request) {
        Ok(()) => {}
        Err(fault) => return Err(fault),
    }
    match take_reply(alloc, kept, wire) {
        Ok(reply) => Ok(reply),
        Err(fault) => Err(fault),
    }
}

/// Dials, sends a request with the lines of further fields and this body, receives its reply, and hangs up.
///
/// The room for the request is taken before the dial, so that want of memory there leaves the wire as it
/// was. Where head and body of the request have at most 4,096 bytes, they go out in one write. After a reply
/// whose length is known the wire is hung up without a further read. The wire's count of dials that nobody answered
/// changes only with `Down`, and that of its transfers only with `Failed`.
pub fn ask<W: Wire>(
    alloc: Global,
    wire: &mut W,
    host: &str,
    target: &str,
    lines: &[u8],
    body: &[u8],
) -> Result<UpstreamReply, LinkFault>
    ensures exact { (dials : List Dial) × LoggedBy (W.dial_faults wire.new) (W.log wire.old) dials (W.log wire.new)
        × CameTo (wire.new ≡ wire.old) (request_bytes host.now target.now lines.now body.now) result dials }
    ensures hung_up { (W.dialled wire.new ≡ false) ⊎ (wire.new ≡ wire.old) }
    ensures dial_count { W.dial_faults wire.old ≤ W.dial_faults wire.new }
    ensures down { result ≡ Err LinkFault.Down → Rose (W.dial_faults wire.old) (W.dial_faults wire.new) }
    ensures dial_still { result ≢ Err LinkFault.Down → W.dial_faults wire.new ≡ W.dial_faults wire.old }
    ensures count { W.faults wire.old ≤ W.faults wire.new }
    ensures failed { result ≡ Err LinkFault.Failed → Rose (W.faults wire.old) (W.faults wire.new) }
    ensures still { result ≢ Err LinkFault.Failed → W.faults wire.new ≡ W.faults wire.old }
{
    let request = match request_of(alloc, host, target, lines, body) {
        Ok(request) => request,
        Err(_) => return Err(LinkFault::Memory),
    };
    let mut kept = match Kept::make(alloc) {
        Ok(kept) => kept,
        Err(_) => return Err(LinkFault::Memory),
    };
    match wire.dial() {
        Ok(()) => {}
        Err(DialFault) => return Err(LinkFault::Down),
    }
    let answer = exchange(alloc, &mut kept, wire, &request);
    wire.hang_up();
    answer
}
