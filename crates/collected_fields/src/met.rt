//! How often numbers were met, and whether they are to be found apart. Nothing but time rests on it.

use counted_work::{Work, steps_of_text};
use input_values::TypeId;
use std::alloc::{AllocError, Global};

/// What takes no more steps is found again rather than kept.
pub(crate) const SHORT: usize = 8;

/// Whether so many steps are many for so few fields.
pub(crate) fn are_many(steps: usize, fields: usize) -> bool {
    steps > SHORT && most_fields(steps) >= fields
}

/// So many fields at most are few for so many steps.
pub(crate) fn most_fields(steps: usize) -> usize {
    steps / 4
}

/// How often numbers were met, and the steps that were walked.
#[derive(Drop)]
pub struct Met {
    /// How often each number was met for a type, once or twice.
    times: Vec<Vec<u8>>,
    /// How many steps were walked for which none was spent yet on finding numbers apart. So finding them takes no longer than the
    /// walks that gave rise to it.
    credit: usize,
    /// How many steps were walked altogether.
    walked: usize,
}

impl Met {
    pub(crate) fn new(alloc: Global) -> Met {
        Met {
            times: Vec::new(alloc),
            credit: 0,
            walked: 0,
        }
    }

    /// Notes that so many steps were walked: for a position, or to find a number apart, by which they are spent.
    pub(crate) fn walked(&mut self, steps: usize, apart: bool) {
        self.walked = self.walked.saturating_add(steps);
        self.credit = if apart {
            self.credit.saturating_sub(steps)
        } else {
            self.credit.saturating_add(steps)
        };
    }

    /// How many steps were walked.
    pub(crate) fn steps(&self) -> usize {
        self.walked
    }

    /// Whether a number, which is met for a type, is to be found apart: where it was met once before, and something is left to be
    /// spent. Else it is to be at another time.
    pub(crate) fn is_due(
        &mut self,
        alloc: Global,
        work: Work<'_>,
        number: usize,
        of: TypeId,
    ) -> Result<bool, AllocError> {
        'met: while self.times.len() <= number {
            self.times.push(Vec::new(alloc))?;
        }
        match self.times.get_mut(number) {
            Some(row) => meet_at(work, row, of.number, self.credit > 0),
            None => Ok(false),
        }
    }
}

/// Whether a place was met once before. It is met once more, but for the second time only where that may be.
fn meet_at(work: Work<'_>, row: &mut Vec<u8>, at: usize, may: bool) -> Result<bool, AllocError> {
    work.take(1)?;
    work.take(steps_of_text(at.saturating_sub(row.len())))?;
    while row.len() <= at {
        row.push(0)?;
    }
    if row[at] == 0 {
        row[at] = 1;
        return Ok(false);
    }
    let due = row[at] == 1 && may;
    if due {
        row[at] = 2;
    }
    Ok(due)
}
