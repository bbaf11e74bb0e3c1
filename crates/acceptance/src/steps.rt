//! How many steps a request may take.

ghost use Rattle.counted_work.specs.Counted.{IsCounted};
ghost use Rattle.std.specs.Prelude.{◌↔◌, IsSome};

use counted_work::Work;
use std::cell::Cell;

/// Work that is counted in this cell, where so many steps may be taken at most; it isn't counted where no number is given.
///
/// A request whose steps run out is told as one that finds no memory. Whoever gave a number asks then whether the work is spent.
pub fn work_up_to<'a>(most: Option<u32>, left: &'a Cell<u64>) -> Work<'a>
    ensures { IsCounted result ↔ IsSome most }
{
    match most {
        Some(most) => {
            left.set(u64::from(most));
            Work::counted(left)
        }
        None => Work::free(),
    }
}
