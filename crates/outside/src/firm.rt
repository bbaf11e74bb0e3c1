//! Forms in memory that never fail.

ghost use Rattle.std.specs.Prelude.{◌≡◌, Some, None, false};

use crate::pieces::move_front;
use crate::sink::{Sink, WriteFault};
use crate::source::{ReadFault, Source};
use crate::wire::{DialFault, Wire, WireFault};

/// A stream in memory that never fails. It tells what is left.
#[derive(Drop)]
pub struct FirmSource {
    /// The bytes that are left.
    pub left: Vec<u8>,
    /// Whether a read met the end.
    pub ended: bool,
}

impl FirmSource {
    /// These bytes to read.
    pub fn new(left: Vec<u8>) -> FirmSource
        ensures left { result.left ≡ left }
        ensures ended { result.ended ≡ false }
    {
        FirmSource { left, ended: false }
    }
}

impl Source for FirmSource {
    ghost left = { λ source. Some source.left.items };

    ghost ended = { λ source. source.ended };

    ghost faults = { λ _. 0 };

    fn read(&mut self, into: &mut [u8]) -> Result<usize, ReadFault> {
        let most = self.left.len();
        let taken = move_front(&mut self.left, into, most);
        self.ended |= taken == 0 && 0 < into.len();
        Ok(taken)
    }
}

/// A stream that takes whatever is written, keeps nothing of it, and never fails.
#[derive(Clone, Copy, Drop)]
pub struct FirmSink;

impl Sink for FirmSink {
    ghost written = { λ _. None };

    ghost faults = { λ _. 0 };

    fn write(&mut self, piece: &[u8]) -> Result<usize, WriteFault> {
        Ok(piece.len())
    }
}

/// A wire in memory that never fails, has one reply to the first of its dials and empty ones after it, and
/// keeps nothing of what is sent.
#[derive(Drop)]
pub struct FirmWire {
    is_dialled: bool,
    /// The bytes to come.
    pub coming: Vec<u8>,
}

impl FirmWire {
    /// A wire that was not dialled yet, with this reply.
    pub fn new(coming: Vec<u8>) -> FirmWire
        ensures coming { result.coming ≡ coming }
    {
        FirmWire {
            is_dialled: false,
            coming,
        }
    }
}

impl Wire for FirmWire {
    ghost dialled = { λ wire. wire.is_dialled };

    ghost log = { λ _. None };

    ghost coming = { λ wire. Some wire.coming.items };

    ghost dial_faults = { λ _. 0 };

    ghost faults = { λ _. 0 };

    fn dial(&mut self) -> Result<(), DialFault> {
        self.is_dialled = true;
        Ok(())
    }

    fn write(&mut self, piece: &[u8]) -> Result<usize, WireFault> {
        Ok(piece.len())
    }

    fn read(&mut self, into: &mut [u8]) -> Result<usize, WireFault> {
        let most = self.coming.len();
        Ok(move_front(&mut self.coming, into, most))
    }

    fn hang_up(&mut self) {
        self.is_dialled = false;
    }
}
