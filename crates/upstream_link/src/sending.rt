//! Bytes sent over a wire.

ghost use Rattle.std.specs.Prelude.{◌≡◌, ◌≢◌, ◌≤◌, ◌<◌, true, Err};
ghost use Rattle.outside.specs.Faults.{Rose};
ghost use Rattle.upstream_link.specs.Exchanges.{bytes_of, SendSays};

use crate::fault::LinkFault;
use crate::request::Request;
use outside::{Wire, WireFault};

/// Sends all of a piece, or stops at the first fault.
fn send<W: Wire>(wire: &mut W, piece: &[u8]) -> Result<(), LinkFault>
    requires dialled { W.dialled wire.old ≡ true }
    ensures exact { SendSays piece.now result (W.log wire.old) (W.log wire.new) }
    ensures up { W.dialled wire.new ≡ true }
    ensures count { W.faults wire.old ≤ W.faults wire.new }
    ensures cause { result ≡ Err LinkFault.Failed → Rose (W.faults wire.old) (W.faults wire.new) }
    ensures still { result ≢ Err LinkFault.Failed → W.faults wire.new ≡ W.faults wire.old }
    ensures dials { W.dial_faults wire.new ≡ W.dial_faults wire.old }
{
    let mut done = 0;
    'pieces: while done < piece.len() {
        match wire.write(&piece[done..]) {
            Ok(count) => done += count,
            Err(WireFault) => return Err(LinkFault::Failed),
        }
    }
    Ok(())
}

/// Sends a request, or stops at the first fault.
pub(crate) fn send_request<W: Wire>(wire: &mut W, request: &Request) -> Result<(), LinkFault>
    requires dialled { W.dialled wire.old ≡ true }
    ensures exact { SendSays (bytes_of request.now) result (W.log wire.old) (W.log wire.new) }
    ensures up { W.dialled wire.new ≡ true }
    ensures count { W.faults wire.old ≤ W.faults wire.new }
    ensures cause { result ≡ Err LinkFault.Failed → Rose (W.faults wire.old) (W.faults wire.new) }
    ensures still { result ≢ Err LinkFault.Failed → W.faults wire.new ≡ W.faults wire.old }
    ensures dials { W.dial_faults wire.new ≡ W.dial_faults wire.old }
{
    match send(wire, request.first.as_slice()) {
        Ok(()) => {}
        Err(fault) => return Err(fault),
    }
    match send(wire, request.rest) {
        Ok(()) => Ok(()),
        Err(fault) => Err(fault),
    }
}
