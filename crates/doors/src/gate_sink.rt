//! Sinks that signal that they took a reply, for tests that exchanges are served side by side.

ghost use Rattle.std.specs.Prelude.{◌≡◌, [], Some};

use crate::gate_wire::OTHER_ANSWERED;
use outside::{Failures, MemSink, Sink, WriteFault};
use std::alloc::Global;
use std::sync::Arc;
use std::sync::atomic::{AtomicU64, Ordering};

/// A sink in memory that never is to fail. With its switch on it says in the word, once it has taken so many bytes,
/// that its exchange was answered.
#[derive(Drop)]
pub struct GateSink {
    /// What was written.
    pub sink: MemSink,
    word: Arc<AtomicU64, Global>,
    is_switched: bool,
    wanted: usize,
}

impl GateSink {
    /// A sink on which nothing was written.
    pub fn new(
        alloc: Global,
        word: Arc<AtomicU64, Global>,
        is_switched: bool,
        wanted: usize,
    ) -> GateSink
        ensures written { result.sink.written.items ≡ [] }
        ensures switch { result.is_switched ≡ is_switched }
        ensures wanted { result.wanted ≡ wanted }
        ensures faults { result.sink.faults ≡ 0 }
    {
        GateSink {
            sink: MemSink::new(alloc, Failures::none(alloc)),
            word,
            is_switched,
            wanted,
        }
    }
}

impl Sink for GateSink {
    ghost written = { λ gate. Some gate.sink.written.items };

    ghost faults = { λ gate. gate.sink.faults };

    fn write(&mut self, piece: &[u8]) -> Result<usize, WriteFault> {
        let taken = self.sink.write(piece);
        if self.is_switched && self.wanted <= self.sink.written.len() {
            self.word.store(OTHER_ANSWERED, Ordering::SeqCst);
        }
        taken
    }
}
