//! Operations for which there is no memory, or that take more steps than they may.

ghost use Rattle.command_outcomes.specs.Outcomes.{IsWanting};

use crate::outcome::Outcome;
use crate::texts::refused_as;
use counted_work::Work;
use std::alloc::Global;

/// The outcome of an operation for which there is no memory. Steps that run out are told as want of memory by all that take them: here they
/// are told apart, where a number of them was given.
pub fn wanting(alloc: Global, most: Option<u32>, work: Work<'_>) -> Outcome
    ensures { IsWanting most result }
{
    if most.is_some() && work.is_spent() {
        refused_as(alloc, "work 1 TooMuch")
    } else {
        Outcome::Memory
    }
}
