//! Bodies behind the head of a reply (RFC 9112, section 6.3).

ghost use Rattle.std.specs.Prelude.{◌≡◌, ◌≢◌, ◌≤◌, ◌<◌, ◌++◌, ℕ, List, true, false, Err, IfOk, IsTrue, length, take};
ghost use Rattle.outside.specs.Faults.{Rose};
ghost use Rattle.upstream_link.specs.Bodies.{SizedIs, RestIs, BodyIs, AllSays, items_of};
ghost use Rattle.upstream_link.specs.Received.{Received, is_failed};

use crate::chunks::{BODY_LIMIT, take_chunks};
use crate::fault::LinkFault;
use crate::framing::Framing;
use crate::kept::Kept;
use crate::pieces::{take_data, take_piece};
use outside::Wire;
use std::alloc::Global;

/// Receives a body of so many bytes.
fn take_sized<W: Wire>(
    alloc: Global,
    kept: &mut Kept,
    wire: &mut W,
    size: usize,
) -> Result<Vec<u8>, LinkFault>
    requires dialled { W.dialled wire.old ≡ true }
    ensures exact { Received kept.old (W.coming wire.old, W.log wire.old) (W.coming wire.new, W.log wire.new) (is_failed result)
        (SizedIs size (items_of result)) }
    ensures up { W.dialled wire.new ≡ true }
    ensures count { W.faults wire.old ≤ W.faults wire.new }
    ensures cause { result ≡ Err LinkFault.Failed → Rose (W.faults wire.old) (W.faults wire.new) }
    ensures still { result ≢ Err LinkFault.Failed → W.faults wire.new ≡ W.faults wire.old }
    ensures dials { W.dial_faults wire.new ≡ W.dial_faults wire.old }
{
    match take_data(kept, wire, size) {
        Ok(()) => Ok(kept.hand_over(alloc, size)),
        Err(fault) => Err(fault),
    }
}

/// Receives all that comes, up to the end.
fn take_all<W: Wire>(kept: &mut Kept, wire: &mut W) -> Result<(), LinkFault>
    requires dialled { W.dialled wire.old ≡ true }
    ensures exact { Received kept.old (W.coming wire.old, W.log wire.old) (W.coming wire.new, W.log wire.new) (is_failed result)
        (AllSays kept.new result) }
    ensures up { W.dialled wire.new ≡ true }
    ensures count { W.faults wire.old ≤ W.faults wire.new }
    ensures cause { result ≡ Err LinkFault.Failed → Rose (W.faults wire.old) (W.faults wire.new) }
    ensures still { result ≢ Err LinkFault.Failed → W.faults wire.new ≡ W.faults wire.old }
    ensures dials { W.dial_faults wire.new ≡ W.dial_faults wire.old }
{
    'pieces: while kept.len() <= BODY_LIMIT {
        match take_piece(kept, wire) {
            Ok(true) => return Ok(()),
            Ok(false) => {}
            Err(fault) => return Err(fault),
        }
    }
    Err(LinkFault::TooLarge)
}

/// Receives a body that goes on to the end of the wire.
fn take_rest<W: Wire>(alloc: Global, kept: &mut Kept, wire: &mut W) -> Result<Vec<u8>, LinkFault>
    requires dialled { W.dialled wire.old ≡ true }
    ensures exact { Received kept.old (W.coming wire.old, W.log wire.old) (W.coming wire.new, W.log wire.new) (is_failed result)
        (RestIs (items_of result)) }
    ensures up { W.dialled wire.new ≡ true }
    ensures count { W.faults wire.old ≤ W.faults wire.new }
    ensures cause { result ≡ Err LinkFault.Failed → Rose (W.faults wire.old) (W.faults wire.new) }
    ensures still { result ≢ Err LinkFault.Failed → W.faults wire.new ≡ W.faults wire.old }
    ensures dials { W.dial_faults wire.new ≡ W.dial_faults wire.old }
{
    match take_all(kept, wire) {
        Ok(()) => {
            let count = kept.len();
            Ok(kept.hand_over(alloc, count))
        }
        Err(fault) => Err(fault),
    }
}

/// Receives the body behind a head that frames it so.
pub(crate) fn take_body<W: Wire>(
    alloc: Global,
    kept: &mut Kept,
    wire: &mut W,
    framing: Framing,
) -> Result<Vec<u8>, LinkFault>
    requires dialled { W.dialled wire.old ≡ true }
    ensures exact { Received kept.old (W.coming wire.old, W.log wire.old) (W.coming wire.new, W.log wire.new) (is_failed result)
        (BodyIs framing (items_of result)) }
    ensures up { W.dialled wire.new ≡ true }
    ensures count { W.faults wire.old ≤ W.faults wire.new }
    ensures cause { result ≡ Err LinkFault.Failed → Rose (W.faults wire.old) (W.faults wire.new) }
    ensures still { result ≢ Err LinkFault.Failed → W.faults wire.new ≡ W.faults wire.old }
    ensures dials { W.dial_faults wire.new ≡ W.dial_faults wire.old }
{
    match framing {
        Framing::NoBody => Ok(Vec::new(alloc)),
        Framing::Chunked => take_chunks(alloc, kept, wire),
        Framing::Length { length } => take_sized(alloc, kept, wire, length as usize),
        Framing::UntilEnd => take_rest(alloc, kept, wire),
    }
}
