//! Why a value is refused.

ghost use Rattle.std.specs.Prelude.{◌≡◌, ◌++◌, [], IfOk};
ghost use Rattle.input_values.specs.coercion.Answers.{key_step, item_step};
ghost use Rattle.input_values.specs.coercion.Calls.{TellsHere, TellsAfter};

use gql_base::Text;
use std::alloc::{AllocError, AllocFailed, Global};
use thiserror::Error;

/// Why a value doesn't coerce.
#[derive(Debug, Drop, Error)]
pub enum CoercionFault {
    /// The value at this place doesn't coerce. The path goes from the place where the value is given: a `.` and the name
    /// of a field or the number of an item, for each step.
    #[error("a value doesn't coerce at the path '{path}'")]
    BadValue { path: Text },
    #[error("memory ran out")]
    Memory,
}

impl From<AllocError> for CoercionFault {
    ghost use Rattle.std.specs.Prelude.{◌≡◌};
    ghost use Rattle.input_values.specs.declared.coercion.faults.CoercionFault.TheVariants.{Memory};

    ghost from_gives = { λ _ fault. fault ≡ Memory };

    fn from(_error: AllocError) -> CoercionFault {
        CoercionFault::Memory
    }
}

impl<T: Drop> From<AllocFailed<T>> for CoercionFault {
    ghost use Rattle.std.specs.Prelude.{◌≡◌};
    ghost use Rattle.input_values.specs.declared.coercion.faults.CoercionFault.TheVariants.{Memory};

    ghost from_gives = { λ _ fault. fault ≡ Memory };

    fn from(_failed: AllocFailed<T>) -> CoercionFault {
        CoercionFault::Memory
    }
}

/// The fault of a value that is itself refused.
pub fn bad_value(alloc: Global) -> CoercionFault
    ensures { TellsHere result }
{
    match Text::copy_of(alloc, "") {
        Ok(path) => CoercionFault::BadValue { path },
        Err(_) => CoercionFault::Memory,
    }
}

/// A path with a step before it.
fn stepped(alloc: Global, step: &str, path: &Text) -> Result<Text, AllocError>
    ensures { IfOk result (λ whole. whole ≡ step.now ++ path.now) }
{
    let mut whole = step.to_string(alloc)?;
    whole.push_str(path.as_str())?;
    Ok(Text::from(whole))
}

impl CoercionFault {
    fn after(self, alloc: Global, step: &str) -> CoercionFault
        ensures { TellsAfter step.now self result }
    {
        match self {
            CoercionFault::BadValue { path } => match stepped(alloc, step, &path) {
                Ok(path) => CoercionFault::BadValue { path },
                Err(_) => CoercionFault::Memory,
            },
            CoercionFault::Memory => CoercionFault::Memory,
        }
    }

    /// The fault, seen from the object that has the value under this name.
    pub fn at_key(self, alloc: Global, name: &str) -> CoercionFault
        ensures { TellsAfter (key_step name.now) self result }
    {
        match format!(in alloc; ".{name}") {
            Ok(step) => self.after(alloc, step.as_str()),
            Err(_) => CoercionFault::Memory,
        }
    }

    /// The fault, seen from the list that has the value at this item.
    pub fn at_item(self, alloc: Global, index: usize) -> CoercionFault
        ensures { TellsAfter (item_step index) self result }
    {
        match format!(in alloc; ".{index}") {
            Ok(step) => self.after(alloc, step.as_str()),
            Err(_) => CoercionFault::Memory,
        }
    }
}
