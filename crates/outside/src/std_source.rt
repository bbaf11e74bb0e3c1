//! Every reader of the system, as a source.

ghost use Rattle.std.specs.Prelude.{◌≡◌, None, false};

use crate::source::{ReadFault, Source};
use crate::std_files::given;
use std::io::Read;

/// A reader of the system. It doesn't tell what is left.
#[derive(Drop)]
pub struct StdSource<R: Read + Drop> {
    from: R,
    ended: bool,
    faults: u64,
}

impl<R: Read + Drop> StdSource<R> {
    /// A source over this reader, without a fault so far.
    pub fn new(from: R) -> StdSource<R>
        ensures from { result.from ≡ from }
        ensures ended { result.ended ≡ false }
        ensures faults { result.faults ≡ 0 }
    {
        StdSource {
            from,
            ended: false,
            faults: 0,
        }
    }
}

impl<R: Read + Drop> Source for StdSource<R> {
    ghost left = { λ _. None };

    ghost ended = { λ source. source.ended };

    ghost faults = { λ source. source.faults };

    fn read(&mut self, into: &mut [u8]) -> Result<usize, ReadFault> {
        match given(&mut self.from, into) {
            Some(count) => {
                self.ended |= count == 0 && 0 < into.len();
                Ok(count)
            }
            None => {
                self.faults = self.faults.saturating_add(1);
                Err(ReadFault)
            }
        }
    }
}
