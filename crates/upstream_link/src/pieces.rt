//! Pieces received over a wire.

ghost use Rattle.std.specs.Prelude.{◌≡◌, ◌≢◌, ◌≤◌, ◌<◌, ◌++◌, ℕ, List, true, false, Err, IfOk, IsTrue, length};
ghost use Rattle.std.specs.Io.KnownBytes.{IsAtEnd};
ghost use Rattle.outside.specs.Faults.{Rose};
ghost use Rattle.upstream_link.specs.Received.{Brings, Received, is_failed};
ghost use Rattle.upstream_link.specs.Service.{PieceSays, is_end, DataSays};

use crate::fault::LinkFault;
use crate::kept::Kept;
use outside::{Wire, WireFault};

/// Receives one piece more behind what is kept, and says whether the end was met in place of one.
pub(crate) fn take_piece<W: Wire>(kept: &mut Kept, wire: &mut W) -> Result<bool, LinkFault>
    requires dialled { W.dialled wire.old ≡ true }
    ensures exact { (piece : List ℕ)
        × Brings (W.coming wire.old, W.log wire.old) piece (is_end result) (is_failed result) (W.coming wire.new, W.log wire.new)
        × PieceSays kept.old kept.new piece result }
    ensures end { IfOk result (λ ended. IsTrue ended → IsAtEnd (W.coming wire.new)) }
    ensures up { W.dialled wire.new ≡ true }
    ensures count { W.faults wire.old ≤ W.faults wire.new }
    ensures cause { result ≡ Err LinkFault.Failed → Rose (W.faults wire.old) (W.faults wire.new) }
    ensures still { result ≢ Err LinkFault.Failed → W.faults wire.new ≡ W.faults wire.old }
    ensures dials { W.dial_faults wire.new ≡ W.dial_faults wire.old }
{
    let mut piece = [0u8; 4096];
    match wire.read(&mut piece) {
        Ok(0) => Ok(true),
        Ok(count) => match kept.add(&piece[..count]) {
            Ok(()) => Ok(false),
            Err(_) => Err(LinkFault::Memory),
        },
        Err(WireFault) => Err(LinkFault::Failed),
    }
}

/// Receives until so many bytes are kept.
pub(crate) fn take_data<W: Wire>(
    kept: &mut Kept,
    wire: &mut W,
    total: usize,
) -> Result<(), LinkFault>
    requires dialled { W.dialled wire.old ≡ true }
    ensures exact { Received kept.old (W.coming wire.old, W.log wire.old) (W.coming wire.new, W.log wire.new) (is_failed result)
        (DataSays total kept.new result) }
    ensures up { W.dialled wire.new ≡ true }
    ensures count { W.faults wire.old ≤ W.faults wire.new }
    ensures cause { result ≡ Err LinkFault.Failed → Rose (W.faults wire.old) (W.faults wire.new) }
    ensures still { result ≢ Err LinkFault.Failed → W.faults wire.new ≡ W.faults wire.old }
    ensures dials { W.dial_faults wire.new ≡ W.dial_faults wire.old }
{
    'pieces: while kept.len() < total {
        match take_piece(kept, wire) {
            Ok(true) => return Err(LinkFault::Truncated),
            Ok(false) => {}
            Err(fault) => return Err(fault),
        }
    }
    Ok(())
}
