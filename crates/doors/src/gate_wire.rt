//! Wires that hold their replies, for tests that exchanges are served side by side.

ghost use Rattle.std.specs.Prelude.{◌≡◌, None, Some};

use outside::{DialFault, FirmWire, Wire, WireFault};
use std::alloc::Global;
use std::sync::Arc;
use std::sync::atomic::{AtomicU64, Ordering};

/// What the word is while no exchange stands at its reply, while one does, and once another was answered.
pub const NONE_WAITS: u64 = 0;

pub const ONE_WAITS: u64 = 1;

pub const OTHER_ANSWERED: u64 = 2;

/// A wire in memory whose first read waits for another exchange, whose objects have the same word.
///
/// With its switch on it says so in the word, and waits until the other was answered. With its switch off it waits
/// until the other stands at its reply. So neither is answered where one is served after the other. Past its limit
/// of turns, each a look at the word, the read fails.
#[derive(Drop)]
pub struct GateWire {
    wire: FirmWire,
    word: Arc<AtomicU64, Global>,
    is_switched: bool,
    turns: u64,
    was_read: bool,
    /// The count of reads that waited in vain.
    pub faults: u64,
}

impl GateWire {
    /// A wire that was not dialled yet, with this reply.
    pub fn new(
        reply: Vec<u8>,
        word: Arc<AtomicU64, Global>,
        is_switched: bool,
        turns: u64,
    ) -> GateWire
        ensures reply { result.wire.coming ≡ reply }
        ensures switch { result.is_switched ≡ is_switched }
        ensures turns { result.turns ≡ turns }
        ensures faults { result.faults ≡ 0 }
    {
        GateWire {
            wire: FirmWire::new(reply),
            word,
            is_switched,
            turns,
            was_read: false,
            faults: 0,
        }
    }

    // Whether the word came so far within the turns.
    fn comes_to(&self, least: u64) -> bool {
        for _ in 0..self.turns {
            if least <= self.word.load(Ordering::SeqCst) {
                return true;
            }
        }
        false
    }

    // Whether what the first read waits for came within the turns.
    fn is_let_through(&self) -> bool {
        if self.is_switched {
            self.word.store(ONE_WAITS, Ordering::SeqCst);
            return self.comes_to(OTHER_ANSWERED);
        }
        self.comes_to(ONE_WAITS)
    }
}

impl Wire for GateWire {
    ghost dialled = { λ gate. ⟦<FirmWire as Wire>⟧.dialled gate.wire };

    ghost log = { λ _. None };

    ghost coming = { λ gate. Some gate.wire.coming.items };

    ghost dial_faults = { λ _. 0 };

    ghost faults = { λ gate. gate.faults };

    fn dial(&mut self) -> Result<(), DialFault> {
        self.wire.dial()
    }

    fn write(&mut self, piece: &[u8]) -> Result<usize, WireFault> {
        self.wire.write(piece)
    }

    fn read(&mut self, into: &mut [u8]) -> Result<usize, WireFault> {
        let holds = !self.was_read;
        self.was_read = true;
        if holds && !self.is_let_through() {
            self.faults = self.faults.saturating_add(1);
            return Err(WireFault);
        }
        self.wire.read(into)
    }

    fn hang_up(&mut self) {
        self.wire.hang_up();
    }
}
