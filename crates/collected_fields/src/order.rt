//! An order of fragments in which one stands behind those that it spreads. Nothing rests on it.

use crate::steps::Step;
use crate::tables::Tables;
use crate::walk::entry_at;
use std::alloc::{AllocError, Global};
use std::mem;

/// Where each fragment is spread.
#[derive(Drop)]
struct Spreads {
    /// For each fragment, how many spreads in it are of fragments that don't stand in the order yet.
    waiting: Vec<usize>,
    /// For each fragment, those that spread it.
    within: Vec<Vec<usize>>,
}

impl Spreads {
    fn new(alloc: Global, count: usize) -> Result<Spreads, AllocError> {
        let mut waiting = Vec::new(alloc);
        let mut within = Vec::new(alloc);
        for _at in 0..count {
            waiting.push(0)?;
            within.push(Vec::new(alloc))?;
        }
        Ok(Spreads { waiting, within })
    }

    /// Notes that a fragment is spread in another.
    fn note(&mut self, number: usize, other: usize) -> Result<(), AllocError> {
        match self.within.get_mut(number) {
            Some(within) => within.push(other)?,
            None => return Ok(()),
        }
        match self.waiting.get_mut(other) {
            Some(waiting) => *waiting = waiting.saturating_add(1),
            None => {}
        }
        Ok(())
    }

    /// Notes the spreads of a fragment.
    fn note_all(&mut self, steps: &[Step<'_>], other: usize) -> Result<(), AllocError> {
        for step in steps {
            match step {
                Step::Spread(number) => self.note(*number, other)?,
                Step::Field(_) => {}
                Step::Inline { on: _, count: _ } => {}
            }
        }
        Ok(())
    }

    /// Whether a fragment waits for none.
    fn is_free(&self, number: usize) -> bool {
        match self.waiting.get(number) {
            Some(waiting) => *waiting == 0,
            None => false,
        }
    }

    /// Waits for one spread less, and tells whether none is left.
    fn release(&mut self, number: usize) -> bool {
        match self.waiting.get_mut(number) {
            Some(waiting) => {
                *waiting = waiting.saturating_sub(1);
                *waiting == 0
            }
            None => false,
        }
    }

    /// Those that spread a fragment. They are told once.
    fn take_within(&mut self, alloc: Global, number: usize) -> Vec<usize> {
        match self.within.get_mut(number) {
            Some(within) => mem::replace(within, Vec::new(alloc)),
            None => Vec::new(alloc),
        }
    }

    /// Puts those behind the order that wait for this fragment alone.
    fn pass(
        &mut self,
        alloc: Global,
        number: usize,
        order: &mut Vec<usize>,
    ) -> Result<(), AllocError> {
        let within = self.take_within(alloc, number);
        for other in within.as_slice() {
            if self.release(*other) {
                order.push(*other)?;
            }
        }
        Ok(())
    }
}

/// Notes the spreads of a fragment.
fn note_fragment(
    tables: &Tables<'_>,
    number: usize,
    spreads: &mut Spreads,
) -> Result<(), AllocError> {
    let list = match entry_at(tables, number) {
        Some(entry) => tables.lists.get(entry.list),
        None => None,
    };
    match list {
        Some(list) => {
            tables.planning.work.take(list.steps.len())?;
            spreads.note_all(list.steps.as_slice(), number)
        }
        None => Ok(()),
    }
}

/// The numbers of fragments, each behind those of the fragments that it spreads. Fragments that come back to themselves are left
/// out, and those that spread them.
pub(crate) fn order_of(alloc: Global, tables: &Tables<'_>) -> Result<Vec<usize>, AllocError> {
    let count = tables.entries.as_slice().len();
    tables.planning.work.take(count)?;
    let mut spreads = Spreads::new(alloc, count)?;
    for number in 0..count {
        note_fragment(tables, number, &mut spreads)?;
    }
    let mut order = Vec::new(alloc);
    for number in 0..count {
        if spreads.is_free(number) {
            order.push(number)?;
        }
    }
    for place in 0..count {
        match order.get(place).copied() {
            Some(number) => spreads.pass(alloc, number, &mut order)?,
            None => return Ok(order),
        }
    }
    Ok(order)
}
