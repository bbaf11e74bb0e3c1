//! One value, coerced within the limit.

ghost use Rattle.std.specs.Prelude.{Ok};
ghost use Rattle.gql_base.specs.parts.Trees.{value_tree};
ghost use Rattle.serde_json.specs.View.{view};
ghost use Rattle.input_values.specs.values.Coerced.{CoercedTree, coerced_tree};
ghost use Rattle.input_values.specs.inputs.Shapes.{shape_tree};
ghost use Rattle.input_values.specs.coercion.Answers.{Answer};
ghost use Rattle.input_values.specs.coercion.Calls.{Tells, Coerces};
ghost use Rattle.input_values.specs.coercion.Coercion.{coerced};
ghost use Rattle.input_values.specs.coercion.Literals.{no_variables, values_of, literal_given};
ghost use Rattle.schema_model.specs.InputForms.{schema_forms};
ghost use Rattle.variable_coercion.specs.Json.{json_given};
ghost use Rattle.variable_coercion.specs.Refusals.{fitting, value_limit};
ghost use Rattle.variable_coercion.specs.Calls.{IsTold, AnswersValue, unfit_told};

use crate::json::walk::coerce_json;
use counted_work::Work;
use gql_base::{Indexed, Text, Value as Literal, index_owned};
use input_values::{Coerced, CoercionFault, Scope, Shape, VariableValue, coerce_literal};
use schema_model::Schema;
use serde_json::Value;
use std::alloc::{AllocError, Global};

/// The greatest number of nodes of a value. Each null, leaf, list and object in it is a node, those in the value of a
/// custom scalar too.
pub const VALUE_LIMIT: u32 = 20_000;

/// Why a value is refused.
#[derive(Drop)]
pub(crate) enum ValueFault {
    /// The path goes from the place where the value is given.
    BadValue { path: Text },
    TooLarge,
    Memory,
}

impl From<AllocError> for ValueFault {
    ghost use Rattle.std.specs.Prelude.{◌≡◌};
    ghost use Rattle.variable_coercion.specs.declared.values.ValueFault.TheVariants.{Memory};

    ghost from_gives = { λ _ fault. fault ≡ Memory };

    fn from(_error: AllocError) -> ValueFault {
        ValueFault::Memory
    }
}

/// What JSON comes to at a place of this shape.
pub(crate) fn coerced_json(
    alloc: Global,
    work: Work<'_>,
    schema: &Schema,
    shape: &Shape,
    json: &Value,
) -> Result<Coerced, ValueFault>
    ensures { AnswersValue result (fitting (coerced (schema_forms schema.now) (json_given (view json.now)) (shape_tree shape.now))) }
{
    let variables = index_owned(alloc, Vec::new(alloc))?;
    let scope = Scope {
        types: schema,
        variables: &variables,
        limit: VALUE_LIMIT,
        work,
    };
    let mut count = 0;
    let walked = coerce_json(alloc, &scope, shape, json, &mut count);
    fitting(walked, count)
}

/// What a literal comes to at a place of this shape, beside the values of variables.
pub(crate) fn coerced_literal(
    alloc: Global,
    work: Work<'_>,
    schema: &Schema,
    variables: &Indexed<VariableValue>,
    shape: &Shape,
    literal: &Literal,
) -> Result<Coerced, ValueFault>
    ensures { AnswersValue result (fitting (coerced (schema_forms schema.now) (literal_given (values_of variables.now.items.items) (value_tree literal.now)) (shape_tree shape.now))) }
{
    let scope = Scope {
        types: schema,
        variables,
        limit: VALUE_LIMIT,
        work,
    };
    let mut count = 0;
    let walked = coerce_literal(alloc, &scope, shape, literal, &mut count);
    fitting(walked, count)
}

/// What a literal without variables comes to at a place of this shape.
pub(crate) fn coerced_default(
    alloc: Global,
    work: Work<'_>,
    schema: &Schema,
    shape: &Shape,
    literal: &Literal,
) -> Result<Coerced, ValueFault>
    ensures { AnswersValue result (fitting (coerced (schema_forms schema.now) (literal_given no_variables (value_tree literal.now)) (shape_tree shape.now))) }
{
    let none = index_owned(alloc, Vec::new(alloc))?;
    coerced_literal(alloc, work, schema, &none, shape, literal)
}

/// What was coerced, where it isn't too large.
fn fitting(
    walked: Result<Option<Coerced>, CoercionFault>,
    count: u64,
) -> Result<Coerced, ValueFault>
    ensures { (answer : Answer CoercedTree) → Coerces value_limit 0 count walked answer → AnswersValue result (fitting answer) }
{
    match walked {
        Ok(value) => small_value(value, count),
        Err(fault) => Err(value_fault(fault)),
    }
}

/// A value that was built, where it is small enough.
fn small_value(value: Option<Coerced>, count: u64) -> Result<Coerced, ValueFault>
    ensures { (answer : Answer CoercedTree) → Coerces value_limit 0 count (Ok value) answer → AnswersValue result (fitting answer) }
{
    if count > u64::from(VALUE_LIMIT) {
        return Err(ValueFault::TooLarge);
    }
    match value {
        Some(value) => Ok(value),
        None => Err(ValueFault::TooLarge),
    }
}

/// The fault of a value that doesn't coerce.
fn value_fault(fault: CoercionFault) -> ValueFault
    ensures { (answer : Answer CoercedTree) → Tells fault answer → IsTold (unfit_told result) (fitting answer) }
{
    match fault {
        CoercionFault::BadValue { path } => ValueFault::BadValue { path },
        CoercionFault::Memory => ValueFault::Memory,
    }
}
