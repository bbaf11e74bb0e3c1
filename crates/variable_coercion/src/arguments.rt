//! The arguments of a field (GraphQL October 2021, 6.4.1).

ghost use Rattle.std.specs.Prelude.{◌≡◌, List, Some, Result, Ok, IfOk, map, length, replicate, slice_set};
ghost use Rattle.gql_base.specs.parts.Trees.{value_tree};
ghost use Rattle.input_values.specs.values.Coerced.{CoercedTree, coerced_tree};
ghost use Rattle.input_values.specs.inputs.Definitions.{input_data};
ghost use Rattle.input_values.specs.coercion.Literals.{literal_given};
ghost use Rattle.schema_model.specs.SchemaViews.{schema_data};
ghost use Rattle.schema_model.specs.InputForms.{schema_forms};
ghost use Rattle.schema_model.specs.Arguments.{ArgData, arg_data, args_data};
ghost use Rattle.variable_coercion.specs.Refusals.{Unfit, given_value, no_value};
ghost use Rattle.variable_coercion.specs.Arguments.{no_argument, argument_given, argument_refusal, default_or_none, supplied_answer, unsupplied_answer, argument_answer, defined_answer, arguments_answer};
ghost use Rattle.variable_coercion.specs.Calls.{AnswersRefusal, AreSomeOf, PutsAt, AnswersArgument, unfit_told, argument_told, value_data, environment};

use crate::faults::ArgFault;
use crate::values::{VALUE_LIMIT, ValueFault, coerced_literal};
use crate::variables::Variables;
use counted_work::Work;
use gql_base::{Argument, NameIndex, Text, Value, index_of};
use input_values::places::is_nullable;
use input_values::{Coerced, InputDef, Scope, copy_value, is_nothing};
use schema_model::{Arg, Args, FieldId, Schema};
use std::alloc::{AllocError, Global};

/// The arguments that a field defines, in their order, where `written` is what is written at it: each by its value, or
/// else its default. The values of variables are taken as they are.
///
/// It asks that the names that are written are known and distinct. Of two of one name the first counts, and one that
/// isn't known doesn't matter.
pub fn coerce_arguments(
    alloc: Global,
    work: Work<'_>,
    schema: &Schema,
    of: FieldId,
    written: &[Argument],
    variables: &Variables,
) -> Result<Args, ArgFault>
    ensures { AnswersRefusal args_data argument_told result (arguments_answer (schema_data schema.now) of.number written.now (environment variables.now)) }
{
    work.take(written.len())?;
    let index = index_of(alloc, written)?;
    all_arguments(alloc, work, schema, schema.arguments(of), &index, variables)
}

/// So many arguments without a value.
fn no_arguments(alloc: Global, count: usize) -> Result<Vec<Arg>, AllocError>
    ensures { IfOk result (λ list. map arg_data list.items ≡ replicate count no_argument) }
{
    let mut list = Vec::new(alloc);
    for _at in 0..count {
        list.push(Arg {
            value: None,
            supplied: false,
        })?;
    }
    Ok(list)
}

/// Puts an argument at a place, if there is such a one.
fn put_argument(list: &mut Vec<Arg>, place: usize, argument: Arg)
    ensures { list.new.items ≡ slice_set list.old.items place argument }
{
    if place < list.len() {
        list[place] = argument;
    }
}

/// Coerces the argument at a place, and puts it there.
fn coerce_at(
    alloc: Global,
    work: Work<'_>,
    schema: &Schema,
    inputs: &[InputDef],
    written: &NameIndex<'_, Argument>,
    place: usize,
    variables: &Variables,
    list: &mut Vec<Arg>,
) -> Result<(), ArgFault>
    ensures many { length list.new.items ≡ length list.old.items }
    ensures put { (args : List ArgData) → defined_answer (schema_data schema.now) (map input_data inputs.now) written.now.items.now (environment variables.now) ≡ Ok args → length list.old.items ≡ length inputs.now → PutsAt (map arg_data list.old.items) (map arg_data list.new.items) args place result }
{
    match inputs.get(place) {
        Some(input) => match coerce_argument(alloc, work, schema, input, written, variables) {
            Ok(argument) => {
                put_argument(list, place, argument);
                Ok(())
            }
            Err(fault) => Err(fault),
        },
        None => Ok(()),
    }
}

/// Of the arguments that a field defines those at some places, beside others without a value, where all of them are coerced.
pub fn coerce_arguments_at(
    alloc: Global,
    work: Work<'_>,
    schema: &Schema,
    of: FieldId,
    written: &[Argument],
    places: &[usize],
    variables: &Variables,
) -> Result<Args, ArgFault>
    ensures { (args : List ArgData) → arguments_answer (schema_data schema.now) of.number written.now (environment variables.now) ≡ Ok args → AreSomeOf places.now args result }
{
    work.take(written.len())?;
    let index = index_of(alloc, written)?;
    arguments_at(
        alloc,
        work,
        schema,
        schema.arguments(of),
        &index,
        places,
        variables,
    )
}

fn arguments_at(
    alloc: Global,
    work: Work<'_>,
    schema: &Schema,
    inputs: &[InputDef],
    written: &NameIndex<'_, Argument>,
    places: &[usize],
    variables: &Variables,
) -> Result<Args, ArgFault>
    ensures { (args : List ArgData) → defined_answer (schema_data schema.now) (map input_data inputs.now) written.now.items.now (environment variables.now) ≡ Ok args → AreSomeOf places.now args result }
{
    work.take(inputs.len())?;
    work.take(places.len())?;
    let mut list = no_arguments(alloc, inputs.len())?;
    'places: for place in places {
        match coerce_at(
            alloc, work, schema, inputs, written, *place, variables, &mut list,
        ) {
            Ok(()) => {}
            Err(fault) => return Err(fault),
        }
    }
    Ok(Args { list })
}

/// The arguments that are defined, in their order, up to the first that is refused.
fn all_arguments(
    alloc: Global,
    work: Work<'_>,
    schema: &Schema,
    inputs: &[InputDef],
    written: &NameIndex<'_, Argument>,
    variables: &Variables,
) -> Result<Args, ArgFault>
    ensures { AnswersRefusal args_data argument_told result (defined_answer (schema_data schema.now) (map input_data inputs.now) written.now.items.now (environment variables.now)) }
{
    work.take(inputs.len())?;
    let mut list = Vec::new(alloc);
    'inputs: for input in inputs {
        match coerce_argument(alloc, work, schema, input, written, variables) {
            Ok(argument) => list.push(argument)?,
            Err(fault) => return Err(fault),
        }
    }
    Ok(Args { list })
}

/// One argument.
fn coerce_argument(
    alloc: Global,
    work: Work<'_>,
    schema: &Schema,
    input: &InputDef,
    written: &NameIndex<'_, Argument>,
    variables: &Variables,
) -> Result<Arg, ArgFault>
    ensures { AnswersArgument result (argument_answer (schema_forms schema.now) (input_data input.now) (argument_given (environment variables.now) written.now.items.now input.now.name)) }
{
    match written.first_named(input.name.as_str()) {
        Some(argument) => written_argument(alloc, work, schema, input, &argument.value, variables),
        None => unsupplied_argument(alloc, work, input),
    }
}

/// An argument that is written.
fn written_argument(
    alloc: Global,
    work: Work<'_>,
    schema: &Schema,
    input: &InputDef,
    value: &Value,
    variables: &Variables,
) -> Result<Arg, ArgFault>
    ensures { AnswersArgument result (argument_answer (schema_forms schema.now) (input_data input.now) (Some (literal_given (environment variables.now) (value_tree value.now)))) }
{
    let scope = Scope {
        types: schema,
        variables: &variables.values,
        limit: VALUE_LIMIT,
        work,
    };
    if is_nothing(&scope, value) {
        return unsupplied_argument(alloc, work, input);
    }
    supplied_argument(alloc, work, schema, input, value, variables)
}

/// An argument that is supplied.
fn supplied_argument(
    alloc: Global,
    work: Work<'_>,
    schema: &Schema,
    input: &InputDef,
    value: &Value,
    variables: &Variables,
) -> Result<Arg, ArgFault>
    ensures { AnswersArgument result (supplied_answer (schema_forms schema.now) (input_data input.now) (literal_given (environment variables.now) (value_tree value.now))) }
{
    let value = coerced_literal(alloc, work, schema, &variables.values, &input.shape, value);
    match told(alloc, input.name.as_str(), value) {
        Ok(value) => Ok(Arg {
            value,
            supplied: true,
        }),
        Err(fault) => Err(fault),
    }
}

/// An argument that isn't supplied.
fn unsupplied_argument(alloc: Global, work: Work<'_>, input: &InputDef) -> Result<Arg, ArgFault>
    ensures { AnswersArgument result (unsupplied_answer (input_data input.now)) }
{
    match default_or_none(alloc, work, input) {
        Ok(value) => Ok(Arg {
            value,
            supplied: false,
        }),
        Err(fault) => Err(fault),
    }
}

/// The default of an argument, or none where it may be absent.
fn default_or_none(
    alloc: Global,
    work: Work<'_>,
    input: &InputDef,
) -> Result<Option<Coerced>, ArgFault>
    ensures { AnswersRefusal value_data argument_told result (default_or_none (input_data input.now) (input_data input.now).default) }
{
    match &input.default {
        Some(default) => Ok(Some(copy_value(alloc, work, default)?)),
        None => no_value(alloc, input.name.as_str(), is_nullable(&input.shape)),
    }
}

/// No value, where that may be.
fn no_value(alloc: Global, name: &str, nullable: bool) -> Result<Option<Coerced>, ArgFault>
    ensures { AnswersRefusal value_data argument_told result (no_value name.now nullable) }
{
    if nullable {
        return Ok(None);
    }
    Err(ArgFault::Missing {
        name: Text::copy_of(alloc, name)?,
    })
}

/// What a value that is there says of the argument of this name.
fn told(
    alloc: Global,
    name: &str,
    value: Result<Coerced, ValueFault>,
) -> Result<Option<Coerced>, ArgFault>
    ensures { (answer : Result CoercedTree Unfit) → AnswersRefusal coerced_tree unfit_told value answer → AnswersRefusal value_data argument_told result (given_value (argument_refusal name.now) answer) }
{
    match value {
        Ok(value) => Ok(Some(value)),
        Err(ValueFault::BadValue { .. }) => Err(ArgFault::BadValue {
            name: Text::copy_of(alloc, name)?,
        }),
        Err(ValueFault::TooLarge) => Err(ArgFault::TooLarge {
            name: Text::copy_of(alloc, name)?,
        }),
        Err(ValueFault::Memory) => Err(ArgFault::Memory),
    }
}
