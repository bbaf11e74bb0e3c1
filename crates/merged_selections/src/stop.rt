//! Why building a plan stops.

ghost use Rattle.std.specs.Prelude.{◌≡◌, ◌∷◌, ◌++◌, [], ℕ, List, Option, None, Some, IfOk, codes};
ghost use Rattle.plan_model.specs.Visits.{NodeFault, PlanAnswer, faulty};
ghost use Rattle.merged_selections.specs.Faults.{step_text, path_text, IsTold};
ghost use Rattle.merged_selections.specs.NodeTests.{fault_told, IsThere};
ghost use Rattle.merged_selections.specs.Outcomes.{Outcome, unless_fault, under_outcome, answer_from, IsStop};

use crate::fault::PlanFault;
use crate::why::Why;
use gql_base::Text;
use std::alloc::{AllocError, Global};
use variable_coercion::ArgFault;

/// Why building a plan stops.
#[derive(Drop)]
pub enum Stop {
    /// A node is at fault. The path has a `.` and a response key for each step, from where building began.
    At { path: Text, why: Why },
    /// There are more nodes than the limit.
    TooLarge,
    Memory,
}

impl From<AllocError> for Stop {
    ghost use Rattle.std.specs.Prelude.{◌≡◌};
    ghost use Rattle.merged_selections.specs.declared.stop.Stop.TheVariants.{Memory};

    ghost from_gives = { λ _ stop. stop ≡ Memory };

    fn from(_error: AllocError) -> Stop {
        Stop::Memory
    }
}

/// A point, a key, and what stands behind them.
fn step_before(alloc: Global, key: &str, rest: &str) -> Result<Text, AllocError>
    ensures { IfOk result (λ text. text ≡ step_text key.now ++ rest.now) }
{
    let mut whole = ".".to_string(alloc)?;
    whole.push_str(key)?;
    whole.push_str(rest)?;
    Ok(Text::from(whole))
}

/// The node of this key is at fault.
pub fn stopped(alloc: Global, key: &str, why: Why) -> Stop
    ensures { (fault : Option NodeFault) (o : Outcome) → IsThere (fault_told why) fault → IsStop result (unless_fault (key.now ∷ []) fault o) }
{
    match step_before(alloc, key, "") {
        Ok(path) => Stop::At { path, why },
        Err(_) => Stop::Memory,
    }
}

/// The same, seen from above the node of this key.
pub fn under(alloc: Global, stop: Stop, key: &str) -> Stop
    ensures { (o : Outcome) → IsStop stop o → IsStop result (under_outcome key.now o) }
{
    match stop {
        Stop::At { path, why } => match step_before(alloc, key, path.as_str()) {
            Ok(path) => Stop::At { path, why },
            Err(_) => Stop::Memory,
        },
        Stop::TooLarge => Stop::TooLarge,
        Stop::Memory => Stop::Memory,
    }
}

/// The fault of the node whose path has this text.
fn fault_at(at: Text, why: Why) -> PlanFault
    ensures told { (path : List (List ℕ)) (fault : NodeFault) → at ≡ path_text path → IsThere (fault_told why) (Some fault) → IsTold (faulty (path, fault)) result }
    ensures untold { (answer : PlanAnswer) → fault_told why ≡ None → IsTold answer result }
{
    match why {
        Why::TooDeep => PlanFault::TooDeep { at },
        Why::Conflict => PlanFault::Conflict { at },
        Why::Argument(ArgFault::Memory) => PlanFault::Memory,
        Why::Argument(fault) => PlanFault::Argument { at, fault },
        Why::Size(fault) => PlanFault::Size { at, fault },
        Why::NoPossibleType => PlanFault::NoPossibleType { at },
    }
}

/// The text of a path from the root on.
fn from_root(alloc: Global, path: &str) -> Result<Text, AllocError>
    ensures { IfOk result (λ text. text ≡ codes "data" ++ path.now) }
{
    let mut whole = "data".to_string(alloc)?;
    whole.push_str(path)?;
    Ok(Text::from(whole))
}

/// The fault for which building stopped, that began at the root.
pub fn fault_of(alloc: Global, stop: Stop) -> PlanFault
    ensures { (o : Outcome) → IsStop stop o → IsTold (answer_from o) result }
{
    match stop {
        Stop::At { path, why } => match from_root(alloc, path.as_str()) {
            Ok(at) => fault_at(at, why),
            Err(_) => PlanFault::Memory,
        },
        Stop::TooLarge => PlanFault::TooLarge,
        Stop::Memory => PlanFault::Memory,
    }
}
