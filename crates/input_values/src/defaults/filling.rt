//! What the literals of defaults come to.

ghost use Rattle.std.specs.Prelude.{Ok};
ghost use Rattle.gql_base.specs.parts.Trees.{value_tree};
ghost use Rattle.input_values.specs.values.Coerced.{CoercedTree};
ghost use Rattle.input_values.specs.inputs.Shapes.{shape_tree};
ghost use Rattle.input_values.specs.coercion.Answers.{Answer};
ghost use Rattle.input_values.specs.coercion.Calls.{Tells, Coerces};
ghost use Rattle.input_values.specs.defaults.Drafts.{default_value, small_enough};
ghost use Rattle.input_values.specs.defaults.Rounds.{TellsDefault, AnswersDefault};

use crate::coercion::faults::CoercionFault;
use crate::coercion::literals::coerce_literal;
use crate::coercion::scope::Scope;
use crate::inputs::shape::Shape;
use crate::inputs::types::InputTypes;
use crate::values::coerced::Coerced;
use crate::values::made;
use counted_work::Work;
use gql_base::{Value, index_owned};
use std::alloc::{AllocError, Global};
use thiserror::Error;

/// The greatest number of nodes that a default may have, with what is filled in.
pub const DEFAULT_LIMIT: u32 = 1_000;

/// Why a default has no value.
#[derive(Clone, Copy, Debug, PartialEq, Eq, Error)]
pub enum DefaultFault {
    /// It doesn't coerce, it has more nodes than a default may have, or it is filled with a default that has no value or
    /// that comes back to it.
    #[error("a default has no value of at most {DEFAULT_LIMIT} nodes")]
    Bad,
    #[error("memory ran out")]
    Memory,
}

impl From<AllocError> for DefaultFault {
    ghost use Rattle.std.specs.Prelude.{◌≡◌};
    ghost use Rattle.input_values.specs.declared.defaults.filling.DefaultFault.TheVariants.{Memory};

    ghost from_gives = { λ _ fault. fault ≡ Memory };

    fn from(_error: AllocError) -> DefaultFault {
        DefaultFault::Memory
    }
}

/// What the literal of a default comes to.
pub fn coerce_default<T: InputTypes>(
    alloc: Global,
    types: &T,
    shape: &Shape,
    literal: &Value,
) -> Result<Coerced, DefaultFault>
    ensures { AnswersDefault result (default_value (T.forms types.now) (shape_tree shape.now) (value_tree literal.now)) }
{
    let variables = index_owned(alloc, Vec::new(alloc))?;
    let scope = Scope {
        types,
        variables: &variables,
        limit: DEFAULT_LIMIT,
        work: Work::free(),
    };
    let mut count = 0;
    match coerce_literal(alloc, &scope, shape, literal, &mut count) {
        Ok(value) => small_value(alloc, value, count),
        Err(fault) => Err(default_fault(fault)),
    }
}

/// A value that was built, where it is small enough. Whatever is filled with it shares it.
fn small_value(alloc: Global, value: Option<Coerced>, count: u64) -> Result<Coerced, DefaultFault>
    ensures { (answer : Answer CoercedTree) → Coerces 1000 0 count (Ok value) answer → AnswersDefault result (small_enough answer) }
{
    if count > u64::from(DEFAULT_LIMIT) {
        return Err(DefaultFault::Bad);
    }
    match value {
        Some(value) => Ok(made::shared(alloc, value)?),
        None => Err(DefaultFault::Bad),
    }
}

/// The fault of a default that doesn't coerce.
fn default_fault(fault: CoercionFault) -> DefaultFault
    ensures { (answer : Answer CoercedTree) → Tells fault answer → TellsDefault result (small_enough answer) }
{
    match fault {
        CoercionFault::BadValue { .. } => DefaultFault::Bad,
        CoercionFault::Memory => DefaultFault::Memory,
    }
}
