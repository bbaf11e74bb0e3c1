//! Streams that are written, and the form of them in memory.

ghost use Rattle.std.specs.Prelude.{◌≡◌, ◌<◌, ◌≤◌, [], ℕ, List, Option, Some, IfOk, OnOk, OnErr, IsErr, Contains, length};
ghost use Rattle.std.specs.Io.KnownBytes.{Appends, WriteAppends};
ghost use Rattle.outside.specs.Contents.{AppendsFront};
ghost use Rattle.outside.specs.Faults.{Rose, next_count};

use crate::failures::Failures;
use std::alloc::Global;
use thiserror::Error;

/// That a stream took nothing. The count of faults rose.
#[derive(Clone, Copy, Debug, Drop, PartialEq, Eq, Error)]
#[error("the stream took nothing")]
pub struct WriteFault;

/// A stream that is written from its front to its end.
pub trait Sink {
    /// The bytes that were written so far, where the object tells them.
    ghost written: { Self → Option (List ℕ) };
    /// The count of faults, which never falls.
    ghost faults: { Self → ℕ };

    /// Writes the first bytes of `piece`, and gives their number. Of a piece that is not empty it is at
    /// least 1.
    fn write(&mut self, piece: &[u8]) -> Result<usize, WriteFault>
        ensures within { IfOk result (λ count. count ≤ length piece.now) }
        ensures some { IfOk result (λ count. 0 < length piece.now → 0 < count) }
        ensures bytes { WriteAppends (written self.old) (written self.new) result piece.now }
        ensures count { faults self.old ≤ faults self.new }
        ensures still { OnOk result (faults self.new ≡ faults self.old) }
        ensures cause { OnErr result (Rose (faults self.old) (faults self.new)) };
}

/// Writes all of `text`, piece by piece, or stops at the first fault, with some front of `text` written.
pub fn write_whole<K: Sink>(to: &mut K, text: &[u8]) -> Result<(), WriteFault>
    ensures whole { OnOk result (Appends (K.written to.old) (K.written to.new) text.now) }
    ensures count { K.faults to.old ≤ K.faults to.new }
    ensures still { OnOk result (K.faults to.new ≡ K.faults to.old) }
    ensures cause { OnErr result (Rose (K.faults to.old) (K.faults to.new)) }
    ensures front { OnErr result (AppendsFront (K.written to.old) (K.written to.new) text.now) }
{
    let mut done = 0;
    while done < text.len() {
        done += to.write(&text[done..])?;
    }
    Ok(())
}

/// A stream in memory. It tells what was written.
#[derive(Drop)]
pub struct MemSink {
    pub written: Vec<u8>,
    /// The calls so far, and those that are to fail.
    pub failures: Failures,
    /// The count of faults: of calls that were to fail, and of those that found no memory.
    pub faults: u64,
}

impl MemSink {
    /// Nothing written and no fault so far, and these failures to come.
    pub fn new(alloc: Global, failures: Failures) -> MemSink
        ensures written { result.written.items ≡ [] }
        ensures failures { result.failures ≡ failures }
        ensures faults { result.faults ≡ 0 }
    {
        MemSink {
            written: Vec::new(alloc),
            failures,
            faults: 0,
        }
    }
}

impl Sink for MemSink {
    ghost written = { λ sink. Some sink.written.items };

    ghost faults = { λ sink. sink.faults };

    // It takes the whole piece, and fails where this call was to fail, or for want of memory.
    fn write(&mut self, piece: &[u8]) -> Result<usize, WriteFault>
        ensures within { IfOk result (λ count. count ≤ length piece.now) }
        ensures some { IfOk result (λ count. 0 < length piece.now → 0 < count) }
        ensures bytes { WriteAppends (Some self.old.written.items) (Some self.new.written.items) result piece.now }
        ensures count { self.old.faults ≤ self.new.faults }
        ensures still { OnOk result (self.new.faults ≡ self.old.faults) }
        ensures cause { OnErr result (Rose self.old.faults self.new.faults) }
        ensures whole { IfOk result (λ count. count ≡ length piece.now) }
        ensures fails { Contains self.old.failures.failing.items self.old.failures.calls → IsErr result }
        ensures calls { self.new.failures.calls ≡ next_count self.old.failures.calls }
    {
        let fails = self.failures.next_fails();
        if fails || self.written.extend_from_slice(piece).is_err() {
            self.faults = self.faults.saturating_add(1);
            return Err(WriteFault);
        }
        Ok(piece.len())
    }
}
