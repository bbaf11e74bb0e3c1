//! Wires to another program: dialled, written, read and hung up.

ghost use Rattle.std.specs.Prelude.{◌≡◌, ◌<◌, ◌≤◌, [], ◌∷◌, ℕ, Bool, true, false, List, Option, IfOk, OnOk, OnErr, length};
ghost use Rattle.outside.specs.Dials.{Dial, fresh_dial, missed_dial, Logged, LoggedBy, LastBecomes, written_by, read_by};
ghost use Rattle.outside.specs.Faults.{Rose};
ghost use Rattle.outside.specs.Taken.{ReadTakes};

use thiserror::Error;

/// That nobody answered a dial. The count of such faults rose.
#[derive(Clone, Copy, Debug, Drop, PartialEq, Eq, Error)]
#[error("nobody answered the dial")]
pub struct DialFault;

/// That a transfer over a wire failed. The count of such faults rose.
#[derive(Clone, Copy, Debug, Drop, PartialEq, Eq, Error)]
#[error("the transfer failed")]
pub struct WireFault;

/// A wire to another program. It is dialled from a dial that is answered until it is hung up, or dialled
/// again.
pub trait Wire {
    /// Whether the wire is dialled.
    ghost dialled: { Self → Bool };
    /// The dials, each with whether it was answered and what went over it, where the object tells them.
    ghost log: { Self → Option (List Dial) };
    /// The bytes to come on the latest dial, where the object tells them.
    ghost coming: { Self → Option (List ℕ) };
    /// The count of dials that nobody answered, which never falls.
    ghost dial_faults: { Self → ℕ };
    /// The count of transfers that failed, which never falls.
    ghost faults: { Self → ℕ };

    /// Dials, and ends an earlier dial.
    fn dial(&mut self) -> Result<(), DialFault>
        ensures up { OnOk result (dialled self.new ≡ true) }
        ensures down { OnErr result (dialled self.new ≡ false) }
        ensures logged { OnOk result (Logged (log self.old) (fresh_dial ∷ []) (log self.new)) }
        ensures missed { OnErr result (LoggedBy (dial_faults self.new) (log self.old) (missed_dial ∷ []) (log self.new)) }
        ensures count { dial_faults self.old ≤ dial_faults self.new }
        ensures still { OnOk result (dial_faults self.new ≡ dial_faults self.old) }
        ensures cause { OnErr result (Rose (dial_faults self.old) (dial_faults self.new)) }
        ensures transfers { faults self.new ≡ faults self.old };

    /// Sends the first bytes of `piece`, and gives their number. Of a piece that is not empty it is at
    /// least 1.
    fn write(&mut self, piece: &[u8]) -> Result<usize, WireFault>
        requires dialled { dialled self.old ≡ true }
        ensures within { IfOk result (λ count. count ≤ length piece.now) }
        ensures some { IfOk result (λ count. 0 < length piece.now → 0 < count) }
        ensures sent { LastBecomes (written_by result piece.now) (log self.old) (log self.new) }
        ensures up { dialled self.new ≡ true }
        ensures count { faults self.old ≤ faults self.new }
        ensures still { OnOk result (faults self.new ≡ faults self.old) }
        ensures cause { OnErr result (Rose (faults self.old) (faults self.new)) }
        ensures dials { dial_faults self.new ≡ dial_faults self.old };

    /// Takes the first bytes to come into the front of `into`, and gives their number. It gives 0 for a
    /// piece that is not empty only at the end.
    fn read(&mut self, into: &mut [u8]) -> Result<usize, WireFault>
        requires dialled { dialled self.old ≡ true }
        ensures bytes { ReadTakes (coming self.old) (coming self.new) result into.new }
        ensures taken { LastBecomes (read_by result into.new) (log self.old) (log self.new) }
        ensures up { dialled self.new ≡ true }
        ensures count { faults self.old ≤ faults self.new }
        ensures still { OnOk result (faults self.new ≡ faults self.old) }
        ensures cause { OnErr result (Rose (faults self.old) (faults self.new)) }
        ensures dials { dial_faults self.new ≡ dial_faults self.old };

    /// Ends the dial, without a further read.
    fn hang_up(&mut self)
        ensures down { dialled self.new ≡ false }
        ensures log { log self.new ≡ log self.old }
        ensures transfers { faults self.new ≡ faults self.old }
        ensures dials { dial_faults self.new ≡ dial_faults self.old };
}
