//! The number of steps that are left.

ghost use Rattle.std.specs.Prelude.{◌≡◌, IfErr, IsTrue, None};
ghost use Rattle.counted_work.specs.Counted.{IsCounted};

use std::alloc::AllocError;
use std::cell::Cell;

/// A hold on the number of steps that a request may still take, where steps are counted.
///
/// **A step** is: a step of a walk over a document, a selection or a selection set made ready, a field collected or kept, a type looked at, a pair of
/// things compared, a value weighed, defaulted, coerced, compared or copied, a row of a plan, a mark set or cleared, a value of an answer, and each
/// `BYTES_IN_A_STEP` bytes of a text that is copied, compared or written. Reading texts (lexing, parsing, JSON) takes none: it is done once, and its time
/// goes with their length. No promise rests on the number; what is promised is that only counted work is ever spent.
#[derive(Clone, Copy)]
pub struct Work<'a> {
    left: Option<&'a Cell<u64>>,
}

impl<'a> Work<'a> {
    /// Work that isn't counted.
    pub fn free() -> Work<'a>
        ensures { result.left ≡ None }
    {
        Work { left: None }
    }

    /// Work for which as many steps are left as the cell holds. Copies share the cell.
    pub fn counted(left: &'a Cell<u64>) -> Work<'a>
        ensures { IsCounted result }
    {
        Work { left: Some(left) }
    }

    /// Takes so many steps. Where fewer are left it takes these and fails as for want of memory, and so it does whenever it is asked for one more.
    pub fn take(self, steps: usize) -> Result<(), AllocError>
        ensures { IfErr result (λ _. IsCounted self.entry) }
    {
        match self.left {
            None => Ok(()),
            Some(left) => match left.get().checked_sub(steps as u64) {
                Some(rest) => {
                    left.set(rest);
                    Ok(())
                }
                None => {
                    left.set(0);
                    Err(AllocError)
                }
            },
        }
    }

    /// Takes so many steps where nothing can fail: the next that can then does.
    pub fn count(self, steps: usize) {
        let _ = self.take(steps);
    }

    /// Whether steps are counted and none is left.
    pub fn is_spent(self) -> bool
        ensures { IsTrue result → IsCounted self.entry }
    {
        match self.left {
            None => false,
            Some(left) => left.get() == 0,
        }
    }
}
