//! Why an operation has no plan.

ghost use Rattle.std.specs.Prelude.{◌≡◌};
ghost use Rattle.merged_selections.specs.Faults.{fault_number};

use cost_directives::SizeFault;
use gql_base::Text;
use std::alloc::{AllocError, AllocFailed};
use thiserror::Error;
use variable_coercion::ArgFault;

/// Why an operation has no plan: the first fault among its nodes, in depth-first order. `at` is the path of the node that is at
/// fault, `data` and behind it a `.` and a response key for each step.
///
/// At one node the tests have this order: `TooDeep`, `Conflict` by the names of the fields, `Argument` of one field
/// after another, `Conflict` by their arguments, `Size`, `NoPossibleType`.
#[derive(Drop, Debug, Error)]
pub enum PlanFault {
    /// An argument of one of the node's fields is refused.
    #[error("an argument of a field at {at} is refused: {fault}")]
    Argument { at: Text, fault: ArgFault },
    /// The fields of one response key have different names or different arguments (GraphQL October 2021, 5.3.2).
    #[error("the fields at {at} can't be merged")]
    Conflict { at: Text },
    /// The list has no declared size (IBM GraphQL Cost Directives Specification, `@listSize`).
    #[error("the list at {at} has no size: {fault}")]
    Size { at: Text, fault: SizeFault },
    /// No object can stand there.
    #[error("no object can stand at {at}")]
    NoPossibleType { at: Text },
    /// None of the first nodes, up to the limit, is at fault, and there are more.
    #[error("the operation has more than {} nodes", crate::NODE_LIMIT)]
    TooLarge,
    /// The node stands below more fields than may nest.
    #[error("{at} stands deeper than {} fields", crate::LEVEL_LIMIT)]
    TooDeep { at: Text },
    /// There was no memory for the plan.
    #[error("memory ran out")]
    Memory,
}

impl PlanFault {
    /// The fault's number, from 1 on.
    pub fn number(&self) -> u32
        ensures { result ≡ fault_number self.now }
    {
        match self {
            PlanFault::Argument { .. } => 1,
            PlanFault::Conflict { .. } => 2,
            PlanFault::Size { .. } => 3,
            PlanFault::NoPossibleType { .. } => 4,
            PlanFault::TooLarge => 5,
            PlanFault::TooDeep { .. } => 6,
            PlanFault::Memory => 7,
        }
    }
}

impl From<AllocError> for PlanFault {
    ghost use Rattle.std.specs.Prelude.{◌≡◌};
    ghost use Rattle.merged_selections.specs.declared.fault.PlanFault.TheVariants.{Memory};

    ghost from_gives = { λ _ fault. fault ≡ Memory };

    fn from(_error: AllocError) -> PlanFault {
        PlanFault::Memory
    }
}

impl<T: Drop> From<AllocFailed<T>> for PlanFault {
    ghost use Rattle.std.specs.Prelude.{◌≡◌};
    ghost use Rattle.merged_selections.specs.declared.fault.PlanFault.TheVariants.{Memory};

    ghost from_gives = { λ _ fault. fault ≡ Memory };

    fn from(_failed: AllocFailed<T>) -> PlanFault {
        PlanFault::Memory
    }
}
