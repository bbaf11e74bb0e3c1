//! Why variables and arguments are refused.

use crate::values::VALUE_LIMIT;
use gql_base::Text;
use std::alloc::{AllocError, AllocFailed};
use thiserror::Error;

/// The first refusal among the variables of an operation, in the order of their declarations (GraphQL October 2021,
/// 6.1.2).
#[derive(Debug, Drop, Error)]
pub enum CoerceFault {
    #[error("the variable '{name}' must have a value, and has neither one nor a default")]
    Missing { name: Text },
    /// The value that is given, or else the default, doesn't coerce. The path begins with the variable's name, and has a
    /// `.` and the name of a field or the number of an item for each step.
    #[error("the value of a variable doesn't coerce at '{path}'")]
    BadValue { path: Text },
    #[error("the value of the variable '{name}' has more than {VALUE_LIMIT} nodes")]
    TooLarge { name: Text },
    #[error("memory ran out")]
    Memory,
}

impl From<AllocError> for CoerceFault {
    ghost use Rattle.std.specs.Prelude.{◌≡◌};
    ghost use Rattle.variable_coercion.specs.declared.faults.CoerceFault.TheVariants.{Memory};

    ghost from_gives = { λ _ fault. fault ≡ Memory };

    fn from(_error: AllocError) -> CoerceFault {
        CoerceFault::Memory
    }
}

impl<T: Drop> From<AllocFailed<T>> for CoerceFault {
    ghost use Rattle.std.specs.Prelude.{◌≡◌};
    ghost use Rattle.variable_coercion.specs.declared.faults.CoerceFault.TheVariants.{Memory};

    ghost from_gives = { λ _ fault. fault ≡ Memory };

    fn from(_failed: AllocFailed<T>) -> CoerceFault {
        CoerceFault::Memory
    }
}

/// The first refusal among the arguments of a field, in the order of their definitions (GraphQL October 2021, 6.4.1).
#[derive(Debug, Drop, Error)]
pub enum ArgFault {
    #[error("the argument '{name}' must have a value, and has neither one nor a default")]
    Missing { name: Text },
    #[error("the value of the argument '{name}' doesn't coerce")]
    BadValue { name: Text },
    #[error("the value of the argument '{name}' has more than {VALUE_LIMIT} nodes")]
    TooLarge { name: Text },
    #[error("memory ran out")]
    Memory,
}

impl From<AllocError> for ArgFault {
    ghost use Rattle.std.specs.Prelude.{◌≡◌};
    ghost use Rattle.variable_coercion.specs.declared.faults.ArgFault.TheVariants.{Memory};

    ghost from_gives = { λ _ fault. fault ≡ Memory };

    fn from(_error: AllocError) -> ArgFault {
        ArgFault::Memory
    }
}

impl<T: Drop> From<AllocFailed<T>> for ArgFault {
    ghost use Rattle.std.specs.Prelude.{◌≡◌};
    ghost use Rattle.variable_coercion.specs.declared.faults.ArgFault.TheVariants.{Memory};

    ghost from_gives = { λ _ fault. fault ≡ Memory };

    fn from(_failed: AllocFailed<T>) -> ArgFault {
        ArgFault::Memory
    }
}
