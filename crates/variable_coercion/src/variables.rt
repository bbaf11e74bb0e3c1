//! The values of an operation's variables (GraphQL October 2021, 6.1.2).

ghost use Rattle.std.specs.Prelude.{◌≡◌, ◌++◌, map, option_map, Result, IfOk};
ghost use Rattle.gql_base.specs.parts.Trees.{maybe_value};
ghost use Rattle.serde_json.specs.View.{view};
ghost use Rattle.input_values.specs.values.Coerced.{CoercedTree, coerced_tree};
ghost use Rattle.input_values.specs.inputs.Shapes.{shape_tree};
ghost use Rattle.input_values.specs.coercion.Literals.{values_of};
ghost use Rattle.schema_model.specs.SchemaViews.{schema_data};
ghost use Rattle.schema_model.specs.InputForms.{schema_forms};
ghost use Rattle.variable_coercion.specs.Refusals.{Unfit, given_value, no_value};
ghost use Rattle.variable_coercion.specs.Variables.{declared_of, variable_refusal, default_answer, value_answer, variable_answer, variables_answer};
ghost use Rattle.variable_coercion.specs.Calls.{AnswersRefusal, unfit_told, variable_told, value_data, variable_data, variables_data, environment};

use crate::faults::CoerceFault;
use crate::shapes::shape_in;
use crate::values::{ValueFault, coerced_default, coerced_json};
use counted_work::{Work, steps_of_text};
use document_reader::{Operation, VariableDef};
use gql_base::{Indexed, Text, Value as Literal, index_owned};
use input_values::places::is_nullable;
use input_values::{Coerced, Shape, VariableValue, made};
use schema_model::Schema;
use serde_json::Value;
use std::alloc::{AllocError, Global};

/// The values of an operation's variables.
#[derive(Drop)]
pub struct Variables {
    pub(crate) values: Indexed<VariableValue>,
}

impl Variables {
    /// One for each declared variable, in their order; without a value where it has none.
    pub fn list(&self) -> &[VariableValue]
        ensures { map variable_data result.now ≡ variables_data self.now }
    {
        self.values.items()
    }

    /// The variables with their values, by their names.
    pub fn by_name(&self) -> &Indexed<VariableValue>
        ensures { values_of result.now.items.items ≡ environment self.now }
    {
        &self.values
    }

    /// The value of the variable of this name, in the time of a search in a tree; none where it has no value.
    pub fn value(&self, name: &str) -> Option<&Coerced>
        ensures { option_map (λ value. coerced_tree value.now) result ≡ environment self.now name.now }
    {
        input_values::value_of(&self.values, name)
    }
}

/// The values of an operation's variables: for each the one that is given, or else its default. `given` is an object of
/// JSON, by the names without the `$`; what is no object gives nothing. Names that aren't declared don't matter.
///
/// It asks that the types of the variables are input types of the schema. At a type that the schema doesn't have no value
/// but null coerces. It fails as for want of memory where too few steps are left.
pub fn coerce_variables(
    alloc: Global,
    work: Work<'_>,
    schema: &Schema,
    of: &Operation,
    given: &Value,
) -> Result<Variables, CoerceFault>
    ensures { AnswersRefusal variables_data variable_told result (variables_answer (schema_data schema.now) of.now.variables.items (view given.now)) }
{
    let values = all_values(alloc, work, schema, of.variables.as_slice(), given)?;
    Ok(Variables {
        values: index_owned(alloc, values)?,
    })
}

/// The variables in their order, up to the first that is refused.
fn all_values(
    alloc: Global,
    work: Work<'_>,
    schema: &Schema,
    variables: &[VariableDef],
    given: &Value,
) -> Result<Vec<VariableValue>, CoerceFault>
    ensures { AnswersRefusal (λ vs. map variable_data vs.items) variable_told result (variables_answer (schema_data schema.now) variables.now (view given.now)) }
{
    work.take(variables.len())?;
    let mut values = Vec::new(alloc);
    'variables: for variable in variables {
        match coerce_variable(alloc, work, schema, variable, given) {
            Ok(value) => values.push(value)?,
            Err(fault) => return Err(fault),
        }
    }
    Ok(values)
}

/// One variable.
fn coerce_variable(
    alloc: Global,
    work: Work<'_>,
    schema: &Schema,
    variable: &VariableDef,
    given: &Value,
) -> Result<VariableValue, CoerceFault>
    ensures { AnswersRefusal variable_data variable_told result (variable_answer (schema_forms schema.now) (view given.now) (declared_of (schema_data schema.now) variable.now)) }
{
    work.take(steps_of_text(variable.name.text.as_str().len()))?;
    let name = Text::copy_of(alloc, variable.name.text.as_str())?;
    match coerce_value(
        alloc,
        work,
        schema,
        variable,
        given.get(variable.name.text.as_str()),
    ) {
        Ok(value) => Ok(VariableValue { name, value }),
        Err(fault) => Err(fault),
    }
}

/// The value of a variable: what is given for it, or else its default.
fn coerce_value(
    alloc: Global,
    work: Work<'_>,
    schema: &Schema,
    variable: &VariableDef,
    given: Option<&Value>,
) -> Result<Option<Coerced>, CoerceFault>
    ensures { AnswersRefusal value_data variable_told result (value_answer (schema_forms schema.now) (declared_of (schema_data schema.now) variable.now) (option_map (λ json. view json.now) given.entry)) }
{
    let shape = shape_in(alloc, schema, true, &variable.of)?;
    match given {
        Some(json) => {
            let value = coerced_json(alloc, work, schema, &shape, json);
            told(alloc, variable.name.text.as_str(), value)
        }
        None => {
            let name = variable.name.text.as_str();
            default_value(alloc, work, schema, name, &shape, &variable.default)
        }
    }
}

/// The default of a variable of this name and shape, or none.
fn default_value(
    alloc: Global,
    work: Work<'_>,
    schema: &Schema,
    name: &str,
    shape: &Shape,
    default: &Option<Literal>,
) -> Result<Option<Coerced>, CoerceFault>
    ensures { AnswersRefusal value_data variable_told result (default_answer (schema_forms schema.now) name.now (shape_tree shape.now) (maybe_value default.now)) }
{
    match default {
        Some(literal) => {
            let value = coerced_default(alloc, work, schema, shape, literal);
            told(alloc, name, value)
        },
        None => no_value(alloc, name, is_nullable(shape)),
    }
}

/// No value, where that may be.
fn no_value(alloc: Global, name: &str, nullable: bool) -> Result<Option<Coerced>, CoerceFault>
    ensures { AnswersRefusal value_data variable_told result (no_value name.now nullable) }
{
    if nullable {
        return Ok(None);
    }
    Err(CoerceFault::Missing {
        name: Text::copy_of(alloc, name)?,
    })
}

/// What a value that is there says of the variable of this name. Whatever it is written into shares it.
fn told(
    alloc: Global,
    name: &str,
    value: Result<Coerced, ValueFault>,
) -> Result<Option<Coerced>, CoerceFault>
    ensures { (answer : Result CoercedTree Unfit) → AnswersRefusal coerced_tree unfit_told value answer → AnswersRefusal value_data variable_told result (given_value (variable_refusal name.now) answer) }
{
    match value {
        Ok(value) => Ok(Some(made::shared(alloc, value)?)),
        Err(ValueFault::BadValue { path }) => Err(CoerceFault::BadValue {
            path: joined(alloc, name, &path)?,
        }),
        Err(ValueFault::TooLarge) => Err(CoerceFault::TooLarge {
            name: Text::copy_of(alloc, name)?,
        }),
        Err(ValueFault::Memory) => Err(CoerceFault::Memory),
    }
}

/// A path, seen from the variable of this name.
fn joined(alloc: Global, name: &str, path: &Text) -> Result<Text, AllocError>
    ensures { IfOk result (λ whole. whole ≡ name.now ++ path.now) }
{
    let mut whole = name.to_string(alloc)?;
    whole.push_str(path.as_str())?;
    Ok(Text::from(whole))
}
