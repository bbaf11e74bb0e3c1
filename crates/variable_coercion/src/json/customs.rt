//! Values of custom scalars, as JSON (GraphQL October 2021, 3.5.5): any value, whose numbers are whole
//! unless the scalar is lax.

ghost use Rattle.std.specs.Prelude.{◌≡◌, true, false};
ghost use Rattle.serde_json.specs.View.{view, number_view, items_view, members_view};
ghost use Rattle.serde_json.specs.Find.{to_float};
ghost use Rattle.input_values.specs.values.Floats.{finite_bits};
ghost use Rattle.input_values.specs.coercion.Given.{bits_given, given_text, given_list, given_object};
ghost use Rattle.input_values.specs.coercion.Customs.{any_value};
ghost use Rattle.input_values.specs.coercion.Calls.{Coerces};
ghost use Rattle.variable_coercion.specs.Json.{number_given, json_given, json_items, json_members};

use counted_work::{Work, steps_of_text};
use input_values::building::{list_within, object_within, push_field, push_item};
use input_values::leaves::{boolean, float, integer, null, string};
use input_values::{Coerced, CoercionFault, bad_value, count_node, finite_bits};
use serde_json::{Map, Number, Value};
use std::alloc::Global;

/// Any value. Where the scalar isn't lax, its numbers are whole.
#[cycle(any)]
fn any_json(
    alloc: Global,
    work: Work<'_>,
    lax: bool,
    value: &Value,
    limit: u32,
    count: &mut u64,
) -> Result<Option<Coerced>, CoercionFault>
    ensures { Coerces limit count.old count.new result (any_value lax (json_given (view value.now))) }
{
    work.take(1)?;
    match value {
        Value::Null => null(limit, count),
        Value::Bool(truth) => boolean(*truth, limit, count),
        Value::Number(number) => any_number(alloc, lax, number, limit, count),
        Value::String(text) => any_text(alloc, work, text.as_str(), limit, count),
        Value::Array(items) => any_array(alloc, work, lax, items.as_slice(), limit, count),
        Value::Object(members) => any_members(alloc, work, lax, members, limit, count),
    }
}

/// A number: one that isn't held as a whole number is refused unless the scalar is lax.
fn any_number(
    alloc: Global,
    lax: bool,
    number: &Number,
    limit: u32,
    count: &mut u64,
) -> Result<Option<Coerced>, CoercionFault>
    ensures { Coerces limit count.old count.new result (any_value lax (number_given (number_view number.now))) }
{
    match number.as_i128() {
        Some(whole) => integer(whole, limit, count),
        None => any_bits(alloc, lax, bits_of(number), limit, count),
    }
}

/// A number by the bits of its double.
fn any_bits(
    alloc: Global,
    lax: bool,
    bits: Option<u64>,
    limit: u32,
    count: &mut u64,
) -> Result<Option<Coerced>, CoercionFault>
    ensures { Coerces limit count.old count.new result (any_value lax (bits_given bits)) }
{
    match bits {
        Some(bits) => {
            if lax {
                float(bits, limit, count)
            } else {
                Err(bad_value(alloc))
            }
        }
        None => Err(bad_value(alloc)),
    }
}

/// The bits of a number's double.
pub(crate) fn bits_of(number: &Number) -> Option<u64>
    ensures { result ≡ finite_bits (to_float (number_view number.now)) }
{
    match number.as_f64() {
        Some(real) => finite_bits(real),
        None => None,
    }
}

/// A string. Its length is counted.
fn any_text(
    alloc: Global,
    work: Work<'_>,
    text: &str,
    limit: u32,
    count: &mut u64,
) -> Result<Option<Coerced>, CoercionFault>
    ensures { Coerces limit count.old count.new result (any_value false (given_text text.now)) }
{
    work.take(steps_of_text(text.len()))?;
    string(alloc, text, limit, count)
}

/// A list of any values.
#[cycle(any)]
pub(crate) fn any_array(
    alloc: Global,
    work: Work<'_>,
    lax: bool,
    items: &[Value],
    limit: u32,
    count: &mut u64,
) -> Result<Option<Coerced>, CoercionFault>
    ensures { Coerces limit count.old count.new result (any_value lax (given_list (json_items (items_view items.now)))) }
{
    count_node(limit, count);
    let mut built = Vec::new(alloc);
    'items: for item in items {
        let value = any_json(alloc, work, lax, item, limit, count)?;
        push_item(&mut built, value)?;
    }
    Ok(list_within(built, limit, *count))
}

/// An object of any values, in the order of its names.
#[cycle(any)]
pub(crate) fn any_members(
    alloc: Global,
    work: Work<'_>,
    lax: bool,
    members: &Map<String, Value>,
    limit: u32,
    count: &mut u64,
) -> Result<Option<Coerced>, CoercionFault>
    ensures { Coerces limit count.old count.new result (any_value lax (given_object true (json_members (members_view members.now.entries)))) }
{
    count_node(limit, count);
    let mut built = Vec::new(alloc);
    'members: for (name, member) in members.iter() {
        work.take(steps_of_text(name.len()))?;
        let value = any_json(alloc, work, lax, member, limit, count)?;
        push_field(alloc, work, &mut built, name.as_str(), value)?;
    }
    Ok(object_within(built, limit, *count))
}
