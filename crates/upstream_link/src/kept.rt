//! Bytes that were received and not yet used.

ghost use Rattle.std.specs.Prelude.{◌≡◌, ◌≤◌, ◌++◌, [], IfOk, OnOk, length, take, drop};

use std::alloc::{AllocError, Global};
use std::marker::Model;
use std::mem;

/// Bytes that were received and not yet used. Contracts see it as their list.
///
/// Bytes that are passed over stay in the buffer until more bytes are added, so that it is moved once a
/// piece.
#[derive(Drop)]
pub(crate) struct Kept {
    buffer: Vec<u8>,
    passed: usize,
}

impl Model for Kept {
    ghost use Rattle.std.specs.Prelude.{ℕ, List, drop, length, ◌≤◌};

    ghost Value = { List ℕ };

    ghost view = { λ kept. drop kept.passed kept.buffer.items };

    ghost invariant = { λ kept. kept.passed ≤ length kept.buffer.items };
}

/// The room of a new buffer.
const FIRST_ROOM: usize = 4_096;

impl Kept {
    /// No bytes, with room for the first ones.
    pub(crate) fn make(alloc: Global) -> Result<Kept, AllocError>
        ensures { IfOk result (λ kept. kept ≡ []) }
    {
        Ok(Kept {
            buffer: Vec::with_capacity(alloc, FIRST_ROOM)?,
            passed: 0,
        })
    }

    /// All of them.
    pub(crate) fn bytes(&self) -> &[u8]
        ensures { result.now ≡ self.now }
    {
        &self.buffer[self.passed..]
    }

    /// Their number.
    pub(crate) fn len(&self) -> usize
        ensures { result ≡ length self.now }
    {
        self.buffer.len() - self.passed
    }

    /// Passes over the first bytes.
    pub(crate) fn pass(&mut self, count: usize)
        requires { count ≤ length self.old }
        ensures { self.new ≡ drop count self.old }
    {
        self.passed += count;
    }

    /// Hands over the first of them in the buffer that they were received in, and keeps none.
    pub(crate) fn hand_over(&mut self, alloc: Global, count: usize) -> Vec<u8>
        ensures { result.items ≡ take count self.old }
    {
        let passed = self.passed;
        self.passed = 0;
        let mut bytes = mem::replace(&mut self.buffer, Vec::new(alloc));
        bytes.drain(..passed);
        bytes.truncate(count);
        bytes
    }

    /// Adds a piece behind them.
    pub(crate) fn add(&mut self, piece: &[u8]) -> Result<(), AllocError>
        ensures whole { OnOk result (self.new ≡ self.old ++ piece.now) }
    {
        self.clear_passed();
        self.buffer.extend_from_slice(piece)
    }

    /// Moves them to the front of the buffer.
    fn clear_passed(&mut self)
        ensures { self.new ≡ self.old }
    {
        if self.passed > 0 {
            let count = self.passed;
            self.passed = 0;
            self.buffer.drain(..count);
        }
    }
}
