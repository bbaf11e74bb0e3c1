//! How many steps an operation took.

ghost use Rattle.std.specs.Prelude.{◌≡◌, ◌++◌, OnOk};
ghost use Rattle.operation_commands.specs.Steps.{AreSteps, steps_text};

use std::alloc::{AllocError, Global};
use std::cell::Cell;

/// How many steps were taken of those that were given, by how many are left of them.
pub(crate) fn steps_taken(most: Option<u32>, left: &Cell<u64>) -> Option<u64>
    ensures { AreSteps most result }
{
    match most {
        Some(most) => Some(u64::from(most).saturating_sub(left.get())),
        None => None,
    }
}

/// Appends how many steps were taken, where that is told, behind a text.
pub(crate) fn push_steps(
    alloc: Global,
    front: &str,
    steps: Option<u64>,
    into: &mut Vec<u8>,
) -> Result<(), AllocError>
    ensures { OnOk result (into.new.items ≡ into.old.items ++ steps_text front.now steps) }
{
    match steps {
        Some(steps) => {
            let text = format!(in alloc; "{front}work {steps}")?;
            into.extend_from_slice(text.as_bytes())
        }
        None => Ok(()),
    }
}
