//! Values of custom scalars, as literals (GraphQL October 2021, 3.5.5): any value without a variable, whose numbers are whole
//! unless the scalar is lax, and in which no name stands twice in one object.

ghost use Rattle.std.specs.Prelude.{◌≡◌, IfOk, false};
ghost use Rattle.gql_base.specs.names.Names.{are_distinct};
ghost use Rattle.gql_base.specs.parts.Trees.{value_tree};
ghost use Rattle.input_values.specs.values.Coerced.{coerced_object};
ghost use Rattle.input_values.specs.values.Floats.{float_bits};
ghost use Rattle.input_values.specs.coercion.Answers.{mapped};
ghost use Rattle.input_values.specs.coercion.Given.{bits_given, given_string, given_name, given_list, given_object};
ghost use Rattle.input_values.specs.coercion.Customs.{any_value, any_fields};
ghost use Rattle.input_values.specs.coercion.Literals.{no_variables, literal_given, literal_items, literal_fields};
ghost use Rattle.input_values.specs.coercion.Sizes.{items_written, fields_written, names_written};
ghost use Rattle.input_values.specs.coercion.Calls.{Coerces};

use crate::coercion::building::{list_within, object_within, push_field, push_item};
use crate::coercion::faults::{CoercionFault, bad_value};
use crate::coercion::leaves::{boolean, enum_value, float, integer, null, string};
use crate::values::coerced::Coerced;
use crate::values::counting::count_node;
use crate::values::floats::float_bits;
use counted_work::{Work, steps_of_text};
use gql_base::{Argument, Value, index_of};
use std::alloc::{AllocError, Global};

/// Any value without a variable.
#[cycle(any)]
#[tactic(auto, using(crate::proofs::CoercionSteps::Literals::literal_trees))]
fn any_literal(
    alloc: Global,
    work: Work<'_>,
    lax: bool,
    value: &Value,
    limit: u32,
    count: &mut u64,
) -> Result<Option<Coerced>, CoercionFault>
    ensures { Coerces limit count.old count.new result (any_value lax (literal_given no_variables (value_tree value.now))) }
{
    work.take(1)?;
    match value {
        Value::Var(_) => Err(bad_value(alloc)),
        Value::Int(number) => integer(*number, limit, count),
        Value::Float(digits) => any_float(alloc, work, lax, digits.as_str(), limit, count),
        Value::Str(text) => any_string(alloc, work, text.as_str(), limit, count),
        Value::Bool(truth) => boolean(*truth, limit, count),
        Value::Null => null(limit, count),
        Value::EnumName(name) => any_name(alloc, work, name.text.as_str(), limit, count),
        Value::List(items) => any_list(alloc, work, lax, items.as_slice(), limit, count),
        Value::Object(fields) => any_object(alloc, work, lax, fields.as_slice(), limit, count),
    }
}

/// A float. Its length is counted.
fn any_float(
    alloc: Global,
    work: Work<'_>,
    lax: bool,
    digits: &str,
    limit: u32,
    count: &mut u64,
) -> Result<Option<Coerced>, CoercionFault>
    ensures { Coerces limit count.old count.new result (any_value lax (bits_given (float_bits digits.now))) }
{
    work.take(steps_of_text(digits.len()))?;
    match float_bits(digits) {
        Some(bits) => {
            if lax {
                float(bits, limit, count)
            } else {
                Err(bad_value(alloc))
            }
        }
        None => Err(bad_value(alloc)),
    }
}

/// A string. Its length is counted.
fn any_string(
    alloc: Global,
    work: Work<'_>,
    text: &str,
    limit: u32,
    count: &mut u64,
) -> Result<Option<Coerced>, CoercionFault>
    ensures { Coerces limit count.old count.new result (any_value false (given_string text.now)) }
{
    work.take(steps_of_text(text.len()))?;
    string(alloc, text, limit, count)
}

/// A name. Its length is counted.
fn any_name(
    alloc: Global,
    work: Work<'_>,
    name: &str,
    limit: u32,
    count: &mut u64,
) -> Result<Option<Coerced>, CoercionFault>
    ensures { Coerces limit count.old count.new result (any_value false (given_name name.now)) }
{
    work.take(steps_of_text(name.len()))?;
    enum_value(alloc, name, limit, count)
}

/// A list of any values.
#[cycle(any)]
pub(crate) fn any_list(
    alloc: Global,
    work: Work<'_>,
    lax: bool,
    items: &[Value],
    limit: u32,
    count: &mut u64,
) -> Result<Option<Coerced>, CoercionFault>
    ensures { Coerces limit count.old count.new result (any_value lax (given_list (literal_items no_variables (items_written items.now)))) }
{
    count_node(limit, count);
    let mut built = Vec::new(alloc);
    'items: for item in items {
        let value = any_literal(alloc, work, lax, item, limit, count)?;
        push_item(&mut built, value)?;
    }
    Ok(list_within(built, limit, *count))
}

/// An object of any values, in which no name stands twice.
#[cycle(any)]
pub(crate) fn any_object(
    alloc: Global,
    work: Work<'_>,
    lax: bool,
    fields: &[Argument],
    limit: u32,
    count: &mut u64,
) -> Result<Option<Coerced>, CoercionFault>
    ensures { Coerces limit count.old count.new result (any_value lax (given_object false (literal_fields no_variables (fields_written fields.now)))) }
{
    work.take(fields.len())?;
    if are_distinct(alloc, fields)? {
        any_fields(alloc, work, lax, fields, limit, count)
    } else {
        Err(bad_value(alloc))
    }
}

/// The fields of an object of any values.
#[cycle(any)]
fn any_fields(
    alloc: Global,
    work: Work<'_>,
    lax: bool,
    fields: &[Argument],
    limit: u32,
    count: &mut u64,
) -> Result<Option<Coerced>, CoercionFault>
    ensures { Coerces limit count.old count.new result (mapped coerced_object (any_fields lax (literal_fields no_variables (fields_written fields.now)))) }
{
    count_node(limit, count);
    let mut built = Vec::new(alloc);
    'fields: for field in fields {
        work.take(steps_of_text(field.name.text.as_str().len()))?;
        match any_literal(alloc, work, lax, &field.value, limit, count) {
            Ok(value) => push_field(alloc, work, &mut built, field.name.text.as_str(), value)?,
            Err(fault) => return Err(fault),
        }
    }
    Ok(object_within(built, limit, *count))
}

/// Whether no name is written twice.
fn are_distinct(alloc: Global, fields: &[Argument]) -> Result<bool, AllocError>
    ensures { IfOk result (λ distinct. distinct ≡ are_distinct (names_written fields.now)) }
{
    Ok(index_of(alloc, fields)?.are_distinct())
}
