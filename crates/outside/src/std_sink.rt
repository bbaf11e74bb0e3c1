//! Standard output, standard error and every other writer of the system, as a sink.

ghost use Rattle.std.specs.Prelude.{◌≡◌, ◌≤◌, IfSome, MatchOption, length, take};
ghost use Rattle.std.specs.Io.KnownBytes.{Appends, Keeps};

use crate::sink::{Sink, WriteFault};
use std::io::{ErrorKind, Write};

/// A writer of the system. It tells what was written where the writer does, as a vector does and a stream
/// of the system doesn't.
#[derive(Drop)]
pub struct StdSink<W: Write + Drop> {
    to: W,
    faults: u64,
}

impl<W: Write + Drop> StdSink<W> {
    /// A sink over this writer, without a fault so far.
    pub fn new(to: W) -> StdSink<W>
        ensures to { result.to ≡ to }
        ensures faults { result.faults ≡ 0 }
    {
        StdSink { to, faults: 0 }
    }
}

// What one call of the writer took, tried again where it was interrupted; nothing where it failed.
pub(crate) fn taken<W: Write>(to: &mut W, piece: &[u8]) -> Option<usize>
    ensures within { IfSome result (λ count. count ≤ length piece.now) }
    ensures bytes { MatchOption result (Keeps (W.contents to.old) (W.contents to.new))
        (λ count. Appends (W.contents to.old) (W.contents to.new) (take count piece.now)) }
{
    for _ in 0..u64::MAX {
        match to.write(piece) {
            Ok(count) => return Some(count),
            Err(error) if error.kind() == ErrorKind::Interrupted => {}
            Err(_) => return None,
        }
    }
    None
}

impl<W: Write + Drop> Sink for StdSink<W> {
    ghost written = { λ sink. W.contents sink.to };

    ghost faults = { λ sink. sink.faults };

    fn write(&mut self, piece: &[u8]) -> Result<usize, WriteFault> {
        match taken(&mut self.to, piece) {
            Some(count) if 0 < count || piece.is_empty() => Ok(count),
            _ => {
                self.faults = self.faults.saturating_add(1);
                Err(WriteFault)
            }
        }
    }
}
