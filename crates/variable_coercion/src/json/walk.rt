//! Coercion of JSON at places of shapes. Past the limit nothing more is built, and the walk goes on for what is refused.

ghost use Rattle.std.specs.Prelude.{true};
ghost use Rattle.serde_json.specs.Find.{as_integer};
ghost use Rattle.serde_json.specs.View.{view, number_view, items_view, members_view};
ghost use Rattle.input_values.specs.values.Coerced.{coerced_list, coerced_object};
ghost use Rattle.input_values.specs.inputs.Shapes.{shape_tree};
ghost use Rattle.input_values.specs.coercion.Answers.{mapped};
ghost use Rattle.input_values.specs.coercion.Given.{given_float, bits_given, given_integer, given_text, given_boolean, given_list, given_object};
ghost use Rattle.input_values.specs.coercion.Kinds.{field_seen};
ghost use Rattle.input_values.specs.coercion.Leaves.{custom_at};
ghost use Rattle.input_values.specs.coercion.Customs.{any_value};
ghost use Rattle.input_values.specs.coercion.Coercion.{coerced, items_coerced};
ghost use Rattle.input_values.specs.coercion.Calls.{Coerces, CoercesField};
ghost use Rattle.input_values.specs.coercion.Left.{PushesField};
ghost use Rattle.variable_coercion.specs.Json.{number_given, json_given, json_items, json_members};
ghost use Rattle.variable_coercion.specs.Members.{members_at_type, members_from, members_as_input, member_field};

use crate::json::customs::{any_array, any_members, bits_of};
use crate::json::members::{member, unknown_name};
use counted_work::steps_of_text;
use input_values::building::{list_within, object_within, push_field, push_item};
use input_values::kinds::{boolean_at, float_at, integer_at, text_at};
use input_values::leaves::null_at;
use input_values::places::{innermost, is_nullable, wrapped};
use input_values::{
    Coerced, CoercedField, CoercionFault, InputField, InputKind, InputTypes, Scope, Shape,
    ShapeLevel, TypeId, absent_field, bad_value, count_node, shape_level,
};
use serde_json::{Map, Number, Value};
use std::alloc::Global;

/// JSON at a place of this shape. It names no variables, so those of the scope aren't looked at.
#[cycle(json)]
pub(crate) fn coerce_json<T: InputTypes>(
    alloc: Global,
    scope: &Scope<'_, T>,
    shape: &Shape,
    value: &Value,
    count: &mut u64,
) -> Result<Option<Coerced>, CoercionFault>
    ensures { Coerces scope.now.limit count.old count.new result (coerced (T.forms scope.now.types.now) (json_given (view value.now)) (shape_tree shape.now)) }
{
    scope.work.take(1)?;
    match value {
        Value::Null => null_at(alloc, is_nullable(shape), scope.limit, count),
        Value::Bool(truth) => coerce_boolean(alloc, scope, shape, *truth, count),
        Value::Number(number) => coerce_number(alloc, scope, shape, number, count),
        Value::String(text) => coerce_text(alloc, scope, shape, text.as_str(), count),
        Value::Array(items) => coerce_array(alloc, scope, shape, items.as_slice(), count),
        Value::Object(members) => coerce_object(alloc, scope, shape, members, count),
    }
}

/// A truth value.
fn coerce_boolean<T: InputTypes>(
    alloc: Global,
    scope: &Scope<'_, T>,
    shape: &Shape,
    truth: bool,
    count: &mut u64,
) -> Result<Option<Coerced>, CoercionFault>
    ensures { Coerces scope.now.limit count.old count.new result (coerced (T.forms scope.now.types.now) (given_boolean truth) (shape_tree shape.now)) }
{
    let of = innermost(shape);
    let inner = boolean_at(alloc, scope.types, of, truth, scope.limit, count);
    wrapped(alloc, scope.work, shape, inner, scope.limit, count)
}

/// A number.
fn coerce_number<T: InputTypes>(
    alloc: Global,
    scope: &Scope<'_, T>,
    shape: &Shape,
    number: &Number,
    count: &mut u64,
) -> Result<Option<Coerced>, CoercionFault>
    ensures { Coerces scope.now.limit count.old count.new result (coerced (T.forms scope.now.types.now) (number_given (number_view number.now)) (shape_tree shape.now)) }
{
    match number.as_i128() {
        Some(whole) => coerce_integer(alloc, scope, shape, whole, count),
        None => coerce_bits(alloc, scope, shape, bits_of(number), count),
    }
}

/// A number that isn't held as a whole one, by the bits of its double.
fn coerce_bits<T: InputTypes>(
    alloc: Global,
    scope: &Scope<'_, T>,
    shape: &Shape,
    bits: Option<u64>,
    count: &mut u64,
) -> Result<Option<Coerced>, CoercionFault>
    ensures { Coerces scope.now.limit count.old count.new result (coerced (T.forms scope.now.types.now) (bits_given bits) (shape_tree shape.now)) }
{
    match bits {
        Some(bits) => coerce_float(alloc, scope, shape, bits, count),
        None => Err(bad_value(alloc)),
    }
}

fn coerce_float<T: InputTypes>(
    alloc: Global,
    scope: &Scope<'_, T>,
    shape: &Shape,
    bits: u64,
    count: &mut u64,
) -> Result<Option<Coerced>, CoercionFault>
    ensures { Coerces scope.now.limit count.old count.new result (coerced (T.forms scope.now.types.now) (given_float bits) (shape_tree shape.now)) }
{
    let of = innermost(shape);
    let inner = float_at(alloc, scope.types, of, bits, scope.limit, count);
    wrapped(alloc, scope.work, shape, inner, scope.limit, count)
}

/// A whole number.
fn coerce_integer<T: InputTypes>(
    alloc: Global,
    scope: &Scope<'_, T>,
    shape: &Shape,
    whole: i128,
    count: &mut u64,
) -> Result<Option<Coerced>, CoercionFault>
    ensures { Coerces scope.now.limit count.old count.new result (coerced (T.forms scope.now.types.now) (given_integer whole) (shape_tree shape.now)) }
{
    let of = innermost(shape);
    let inner = integer_at(alloc, scope.types, of, whole, scope.limit, count);
    wrapped(alloc, scope.work, shape, inner, scope.limit, count)
}

/// A string.
fn coerce_text<T: InputTypes>(
    alloc: Global,
    scope: &Scope<'_, T>,
    shape: &Shape,
    text: &str,
    count: &mut u64,
) -> Result<Option<Coerced>, CoercionFault>
    ensures { Coerces scope.now.limit count.old count.new result (coerced (T.forms scope.now.types.now) (given_text text.now) (shape_tree shape.now)) }
{
    let of = innermost(shape);
    scope.work.take(steps_of_text(text.len()))?;
    let inner = text_at(alloc, scope.types, of, text, scope.limit, count);
    wrapped(alloc, scope.work, shape, inner, scope.limit, count)
}

/// A list.
#[cycle(json)]
fn coerce_array<T: InputTypes>(
    alloc: Global,
    scope: &Scope<'_, T>,
    shape: &Shape,
    items: &[Value],
    count: &mut u64,
) -> Result<Option<Coerced>, CoercionFault>
    ensures { Coerces scope.now.limit count.old count.new result (coerced (T.forms scope.now.types.now) (given_list (json_items (items_view items.now))) (shape_tree shape.now)) }
{
    match shape_level(shape) {
        ShapeLevel::Named { of, .. } => custom_array(alloc, scope, of, items, count),
        ShapeLevel::ListOf { item, .. } => coerce_items(alloc, scope, item, items, count),
    }
}

/// A list at a named type.
fn custom_array<T: InputTypes>(
    alloc: Global,
    scope: &Scope<'_, T>,
    of: TypeId,
    items: &[Value],
    count: &mut u64,
) -> Result<Option<Coerced>, CoercionFault>
    ensures { Coerces scope.now.limit count.old count.new result (custom_at (T.forms scope.now.types.now of.number) (λ lax. any_value lax (given_list (json_items (items_view items.now))))) }
{
    match scope.types.kind(of) {
        InputKind::Custom => any_array(alloc, scope.work, false, items, scope.limit, count),
        InputKind::Lax => any_array(alloc, scope.work, true, items, scope.limit, count),
        InputKind::Int => Err(bad_value(alloc)),
        InputKind::String => Err(bad_value(alloc)),
        InputKind::Boolean => Err(bad_value(alloc)),
        InputKind::Id => Err(bad_value(alloc)),
        InputKind::Enum => Err(bad_value(alloc)),
        InputKind::Object => Err(bad_value(alloc)),
        InputKind::Float => Err(bad_value(alloc)),
        InputKind::None => Err(bad_value(alloc)),
    }
}

/// The items of a list, each at a place of this shape.
#[cycle(json)]
fn coerce_items<T: InputTypes>(
    alloc: Global,
    scope: &Scope<'_, T>,
    item_shape: &Shape,
    items: &[Value],
    count: &mut u64,
) -> Result<Option<Coerced>, CoercionFault>
    ensures { Coerces scope.now.limit count.old count.new result (mapped coerced_list (items_coerced (T.forms scope.now.types.now) 0 (json_items (items_view items.now)) (shape_tree item_shape.now))) }
{
    count_node(scope.limit, count);
    let mut built = Vec::new(alloc);
    let mut index: usize = 0;
    'items: for item in items {
        match coerce_json(alloc, scope, item_shape, item, count) {
            Ok(value) => push_item(&mut built, value)?,
            Err(fault) => return Err(fault.at_item(alloc, index)),
        }
        index += 1;
    }
    Ok(list_within(built, scope.limit, *count))
}

/// An object at a place of this shape.
#[cycle(json)]
fn coerce_object<T: InputTypes>(
    alloc: Global,
    scope: &Scope<'_, T>,
    shape: &Shape,
    members: &Map<String, Value>,
    count: &mut u64,
) -> Result<Option<Coerced>, CoercionFault>
    ensures { Coerces scope.now.limit count.old count.new result (coerced (T.forms scope.now.types.now) (given_object true (json_members (members_view members.now.entries))) (shape_tree shape.now)) }
{
    let inner = object_at(alloc, scope, innermost(shape), members, count);
    wrapped(alloc, scope.work, shape, inner, scope.limit, count)
}

/// An object at a named type.
#[cycle(json)]
fn object_at<T: InputTypes>(
    alloc: Global,
    scope: &Scope<'_, T>,
    of: TypeId,
    members: &Map<String, Value>,
    count: &mut u64,
) -> Result<Option<Coerced>, CoercionFault>
    ensures { Coerces scope.now.limit count.old count.new result (members_at_type (T.forms scope.now.types.now) (members_view members.now.entries) of.number) }
{
    match scope.types.kind(of) {
        InputKind::Object => input_object(alloc, scope, of, members, count),
        InputKind::Custom => any_members(alloc, scope.work, false, members, scope.limit, count),
        InputKind::Lax => any_members(alloc, scope.work, true, members, scope.limit, count),
        InputKind::Int => Err(bad_value(alloc)),
        InputKind::String => Err(bad_value(alloc)),
        InputKind::Boolean => Err(bad_value(alloc)),
        InputKind::Id => Err(bad_value(alloc)),
        InputKind::Enum => Err(bad_value(alloc)),
        InputKind::Float => Err(bad_value(alloc)),
        InputKind::None => Err(bad_value(alloc)),
    }
}

/// An input object: its names are looked at before its fields.
#[cycle(json)]
fn input_object<T: InputTypes>(
    alloc: Global,
    scope: &Scope<'_, T>,
    of: TypeId,
    members: &Map<String, Value>,
    count: &mut u64,
) -> Result<Option<Coerced>, CoercionFault>
    ensures { Coerces scope.now.limit count.old count.new result (members_as_input (T.forms scope.now.types.now) (members_view members.now.entries) of.number) }
{
    scope.work.take(members.len())?;
    match unknown_name(scope.work, scope.types, of, members) {
        Some(name) => Err(bad_value(alloc).at_key(alloc, name)),
        None => coerce_fields(alloc, scope, of, members, count),
    }
}

/// The fields of an input object, in the order of their definitions.
#[cycle(json)]
fn coerce_fields<T: InputTypes>(
    alloc: Global,
    scope: &Scope<'_, T>,
    of: TypeId,
    members: &Map<String, Value>,
    count: &mut u64,
) -> Result<Option<Coerced>, CoercionFault>
    ensures { Coerces scope.now.limit count.old count.new result (mapped coerced_object (members_from (T.forms scope.now.types.now) (members_view members.now.entries) of.number 0)) }
{
    scope.work.take(scope.types.field_count(of))?;
    count_node(scope.limit, count);
    let mut built = Vec::new(alloc);
    'inputs: for at in 0..scope.types.field_count(of) {
        match push_field_at(alloc, scope, of, at, members, &mut built, count) {
            Ok(()) => (),
            Err(fault) => return Err(fault),
        }
    }
    Ok(object_within(built, scope.limit, *count))
}

/// One field more of an input object.
#[cycle(json)]
fn push_field_at<T: InputTypes>(
    alloc: Global,
    scope: &Scope<'_, T>,
    of: TypeId,
    at: usize,
    members: &Map<String, Value>,
    built: &mut Vec<CoercedField>,
    count: &mut u64,
) -> Result<(), CoercionFault>
    ensures { PushesField scope.now.limit built.old.items built.new.items count.old count.new (members_from (T.forms scope.now.types.now) (members_view members.now.entries) of.number) at result }
{
    match scope.types.field(of, at) {
        Some(input) => match coerce_field(alloc, scope, &input, members, count) {
            Ok(value) => Ok(push_field(alloc, scope.work, built, input.name, value)?),
            Err(fault) => Err(fault.at_key(alloc, input.name)),
        },
        None => Ok(()),
    }
}

/// A field: the value that is given for it, or what it is without one.
#[cycle(json)]
fn coerce_field<T: InputTypes>(
    alloc: Global,
    scope: &Scope<'_, T>,
    input: &InputField<'_>,
    members: &Map<String, Value>,
    count: &mut u64,
) -> Result<Option<Coerced>, CoercionFault>
    ensures { CoercesField scope.now.limit count.old count.new result (member_field (T.forms scope.now.types.now) (members_view members.now.entries) (field_seen input.now)) }
{
    match member(members, input.name) {
        Some(value) => coerce_json(alloc, scope, input.shape, value, count),
        None => absent_field(alloc, scope.work, input.absence, scope.limit, count),
    }
}
