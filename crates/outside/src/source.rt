//! Streams that are read, and the form of them in memory.

ghost use Rattle.std.specs.Prelude.{◌≡◌, ◌≤◌, ◌||◌, false, ℕ, Bool, List, Option, Some, OnOk, OnErr, IsErr, Contains};
ghost use Rattle.outside.specs.Faults.{Rose, next_count};
ghost use Rattle.outside.specs.Taken.{ReadTakes, meets_end};

use crate::failures::Failures;
use crate::pieces::{Cut, move_front};
use std::alloc::Global;
use thiserror::Error;

/// That a stream gave nothing, and is not at its end. The count of faults rose.
#[derive(Clone, Copy, Debug, Drop, PartialEq, Eq, Error)]
#[error("the stream gave nothing")]
pub struct ReadFault;

/// A stream that is read from its front to its end, in whatever pieces it gives.
pub trait Source {
    /// The bytes that are left, where the object tells them.
    ghost left: { Self → Option (List ℕ) };
    /// Whether a read met the end.
    ghost ended: { Self → Bool };
    /// The count of faults, which never falls.
    ghost faults: { Self → ℕ };

    /// Takes the first bytes that are left into the front of `into`, and gives their number. It gives 0 for
    /// a piece that is not empty only at the end.
    fn read(&mut self, into: &mut [u8]) -> Result<usize, ReadFault>
        ensures bytes { ReadTakes (left self.old) (left self.new) result into.new }
        ensures met { ended self.new ≡ (ended self.old || meets_end result into.new) }
        ensures count { faults self.old ≤ faults self.new }
        ensures still { OnOk result (faults self.new ≡ faults self.old) }
        ensures cause { OnErr result (Rose (faults self.old) (faults self.new)) };
}

/// A stream in memory. It tells what is left.
#[derive(Drop)]
pub struct MemSource {
    /// The bytes that are left.
    pub left: Vec<u8>,
    /// Whether a read met the end.
    pub ended: bool,
    /// A place at which one read ends.
    pub cut: Cut,
    /// The calls so far, and those that are to fail.
    pub failures: Failures,
    /// The count of faults: of calls that were to fail.
    pub faults: u64,
}

impl MemSource {
    /// These bytes to read, with no place at which a read ends, and these failures to come.
    pub fn new(left: Vec<u8>, failures: Failures) -> MemSource
        ensures left { result.left ≡ left }
        ensures ended { result.ended ≡ false }
        ensures failures { result.failures ≡ failures }
        ensures faults { result.faults ≡ 0 }
        ensures cut { result.cut.ahead ≡ 0 }
    {
        MemSource {
            left,
            ended: false,
            cut: Cut { ahead: 0 },
            failures,
            faults: 0,
        }
    }
}

impl Source for MemSource {
    ghost left = { λ source. Some source.left.items };

    ghost ended = { λ source. source.ended };

    ghost faults = { λ source. source.faults };

    // It gives what fits, up to the cut, and fails where this call was to fail.
    fn read(&mut self, into: &mut [u8]) -> Result<usize, ReadFault>
        ensures bytes { ReadTakes (Some self.old.left.items) (Some self.new.left.items) result into.new }
        ensures met { self.new.ended ≡ (self.old.ended || meets_end result into.new) }
        ensures count { self.old.faults ≤ self.new.faults }
        ensures still { OnOk result (self.new.faults ≡ self.old.faults) }
        ensures cause { OnErr result (Rose self.old.faults self.new.faults) }
        ensures fails { Contains self.old.failures.failing.items self.old.failures.calls → IsErr result }
        ensures calls { self.new.failures.calls ≡ next_count self.old.failures.calls }
    {
        if self.failures.next_fails() {
            self.faults = self.faults.saturating_add(1);
            return Err(ReadFault);
        }
        let most = self.cut.within(self.left.len());
        let taken = move_front(&mut self.left, into, most);
        self.ended |= taken == 0 && 0 < into.len();
        Ok(taken)
    }
}
