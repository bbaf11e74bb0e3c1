//! Coercion of literals (GraphQL October 2021, 3.5 to 3.12), beside the values of variables.

ghost use Rattle.std.specs.Prelude.{◌≡◌, [], false, option_map, IfOk};
ghost use Rattle.input_values.specs.values.Coerced.{coerced_object};
ghost use Rattle.input_values.specs.values.Floats.{float_bits};
ghost use Rattle.input_values.specs.inputs.Shapes.{shape_tree};
ghost use Rattle.input_values.specs.coercion.Answers.{mapped};
ghost use Rattle.input_values.specs.coercion.Given.{given_integer, given_float, bits_given, given_string, given_name, given_boolean, given_list, is_nothing};
ghost use Rattle.input_values.specs.coercion.Forms.{fields_of};
ghost use Rattle.input_values.specs.coercion.Kinds.{field_seen, absence_seen};
ghost use Rattle.input_values.specs.coercion.Leaves.{custom_at};
ghost use Rattle.input_values.specs.coercion.Customs.{any_value};
ghost use Rattle.input_values.specs.coercion.Objects.{absent_at, wrong_name};
ghost use Rattle.input_values.specs.coercion.Coercion.{coerced};
ghost use Rattle.input_values.specs.coercion.Literals.{no_variables, values_of, variable_given, literal_items};
ghost use Rattle.input_values.specs.coercion.Sizes.{items_written, names_written};
ghost use Rattle.input_values.specs.coercion.Written.{value_given, written_value, written_list, written_items, written_object, written_at_type, written_input, written_fields, written_field, written_as};
ghost use Rattle.input_values.specs.coercion.Calls.{Coerces, CoercesField};
ghost use Rattle.input_values.specs.coercion.Left.{PushesField};

use crate::coercion::building::{list_within, object_within, push_field, push_item};
use crate::coercion::customs::{any_list, any_object};
use crate::coercion::faults::{CoercionFault, bad_value};
use crate::coercion::kinds::{boolean_at, float_at, integer_at, name_at, string_at};
use crate::coercion::leaves::{copied, held_at, null_at};
use crate::coercion::places::{innermost, is_nullable, wrapped};
use crate::coercion::scope::{Scope, value_of};
use crate::inputs::shape::{Shape, TypeId};
use crate::inputs::types::{Absence, InputField, InputKind, InputTypes};
use crate::values::coerced::{Coerced, CoercedField};
use crate::values::counting::{count_no_node, count_node};
use crate::values::floats::float_bits;
use counted_work::{Work, steps_of_text};
use gql_base::{Argument, NameIndex, Named, Value, index_of};
use std::alloc::{AllocError, Global};
use std::collections::BTreeMap;

/// A literal at a place of this shape. Past the limit nothing more is built, and the walk goes on for what is refused. Each literal in it is a step, and so
/// are the fields of its objects and of their types.
#[cycle(literals)]
#[tactic(auto, using(crate::proofs::CoercionSteps::Literals::literal_trees))]
pub fn coerce_literal<T: InputTypes>(
    alloc: Global,
    scope: &Scope<'_, T>,
    shape: &Shape,
    value: &Value,
    count: &mut u64,
) -> Result<Option<Coerced>, CoercionFault>
    ensures { Coerces scope.now.limit count.old count.new result (written_value (T.forms scope.now.types.now) scope.now.variables.now.items.items value.now shape.now) }
{
    scope.work.take(1)?;
    match value {
        Value::Var(name) => coerce_variable(alloc, scope, shape, name.text.as_str(), count),
        Value::Int(number) => coerce_integer(alloc, scope, shape, *number, count),
        Value::Float(digits) => coerce_float(alloc, scope, shape, digits.as_str(), count),
        Value::Str(text) => coerce_string(alloc, scope, shape, text.as_str(), count),
        Value::Bool(truth) => coerce_boolean(alloc, scope, shape, *truth, count),
        Value::Null => null_at(alloc, is_nullable(shape), scope.limit, count),
        Value::EnumName(name) => coerce_name(alloc, scope, shape, name.text.as_str(), count),
        Value::List(items) => coerce_list(alloc, scope, shape, items.as_slice(), count),
        Value::Object(fields) => coerce_object(alloc, scope, shape, fields.as_slice(), count),
    }
}

/// A variable: its value as it is; without a value it counts as null.
fn coerce_variable<T: InputTypes>(
    alloc: Global,
    scope: &Scope<'_, T>,
    shape: &Shape,
    name: &str,
    count: &mut u64,
) -> Result<Option<Coerced>, CoercionFault>
    ensures { Coerces scope.now.limit count.old count.new result (coerced (T.forms scope.now.types.now) (variable_given (values_of scope.now.variables.now.items.items name.now)) (shape_tree shape.now)) }
{
    match value_of(scope.variables, name) {
        Some(value) => held_at(
            alloc,
            scope.work,
            value,
            is_nullable(shape),
            scope.limit,
            count,
        ),
        None => null_at(alloc, is_nullable(shape), scope.limit, count),
    }
}

/// A whole number.
fn coerce_integer<T: InputTypes>(
    alloc: Global,
    scope: &Scope<'_, T>,
    shape: &Shape,
    number: i128,
    count: &mut u64,
) -> Result<Option<Coerced>, CoercionFault>
    ensures { Coerces scope.now.limit count.old count.new result (coerced (T.forms scope.now.types.now) (given_integer number) (shape_tree shape.now)) }
{
    let inner = integer_at(
        alloc,
        scope.types,
        innermost(shape),
        number,
        scope.limit,
        count,
    );
    wrapped(alloc, scope.work, shape, inner, scope.limit, count)
}

/// A float, by the double that is nearest to it.
fn coerce_float<T: InputTypes>(
    alloc: Global,
    scope: &Scope<'_, T>,
    shape: &Shape,
    digits: &str,
    count: &mut u64,
) -> Result<Option<Coerced>, CoercionFault>
    ensures { Coerces scope.now.limit count.old count.new result (coerced (T.forms scope.now.types.now) (bits_given (float_bits digits.now)) (shape_tree shape.now)) }
{
    scope.work.take(steps_of_text(digits.len()))?;
    match float_bits(digits) {
        Some(bits) => coerce_bits(alloc, scope, shape, bits, count),
        None => Err(bad_value(alloc)),
    }
}

/// A number that isn't held as a whole one, by the bits of its double.
fn coerce_bits<T: InputTypes>(
    alloc: Global,
    scope: &Scope<'_, T>,
    shape: &Shape,
    bits: u64,
    count: &mut u64,
) -> Result<Option<Coerced>, CoercionFault>
    ensures { Coerces scope.now.limit count.old count.new result (coerced (T.forms scope.now.types.now) (given_float bits) (shape_tree shape.now)) }
{
    let inner = float_at(
        alloc,
        scope.types,
        innermost(shape),
        bits,
        scope.limit,
        count,
    );
    wrapped(alloc, scope.work, shape, inner, scope.limit, count)
}

/// A string.
fn coerce_string<T: InputTypes>(
    alloc: Global,
    scope: &Scope<'_, T>,
    shape: &Shape,
    text: &str,
    count: &mut u64,
) -> Result<Option<Coerced>, CoercionFault>
    ensures { Coerces scope.now.limit count.old count.new result (coerced (T.forms scope.now.types.now) (given_string text.now) (shape_tree shape.now)) }
{
    scope.work.take(steps_of_text(text.len()))?;
    let inner = string_at(
        alloc,
        scope.types,
        innermost(shape),
        text,
        scope.limit,
        count,
    );
    wrapped(alloc, scope.work, shape, inner, scope.limit, count)
}

/// A truth value.
fn coerce_boolean<T: InputTypes>(
    alloc: Global,
    scope: &Scope<'_, T>,
    shape: &Shape,
    truth: bool,
    count: &mut u64,
) -> Result<Option<Coerced>, CoercionFault>
    ensures { Coerces scope.now.limit count.old count.new result (coerced (T.forms scope.now.types.now) (given_boolean truth) (shape_tree shape.now)) }
{
    let inner = boolean_at(
        alloc,
        scope.types,
        innermost(shape),
        truth,
        scope.limit,
        count,
    );
    wrapped(alloc, scope.work, shape, inner, scope.limit, count)
}

/// A name.
fn coerce_name<T: InputTypes>(
    alloc: Global,
    scope: &Scope<'_, T>,
    shape: &Shape,
    name: &str,
    count: &mut u64,
) -> Result<Option<Coerced>, CoercionFault>
    ensures { Coerces scope.now.limit count.old count.new result (coerced (T.forms scope.now.types.now) (given_name name.now) (shape_tree shape.now)) }
{
    scope.work.take(steps_of_text(name.len()))?;
    let inner = name_at(
        alloc,
        scope.types,
        innermost(shape),
        name,
        scope.limit,
        count,
    );
    wrapped(alloc, scope.work, shape, inner, scope.limit, count)
}

/// A list: item by item at a list, and as one value at a named type.
#[cycle(literals)]
fn coerce_list<T: InputTypes>(
    alloc: Global,
    scope: &Scope<'_, T>,
    shape: &Shape,
    items: &[Value],
    count: &mut u64,
) -> Result<Option<Coerced>, CoercionFault>
    ensures { Coerces scope.now.limit count.old count.new result (written_list (T.forms scope.now.types.now) scope.now.variables.now.items.items items.now shape.now) }
{
    match shape {
        Shape::Named { of, .. } => custom_list(alloc, scope, *of, items, count),
        Shape::ListOf { item, .. } => coerce_items(alloc, scope, &**item, items, count),
    }
}

/// A list at a named type.
fn custom_list<T: InputTypes>(
    alloc: Global,
    scope: &Scope<'_, T>,
    of: TypeId,
    items: &[Value],
    count: &mut u64,
) -> Result<Option<Coerced>, CoercionFault>
    ensures { Coerces scope.now.limit count.old count.new result (custom_at (T.forms scope.now.types.now of.number) (λ lax. any_value lax (given_list (literal_items no_variables (items_written items.now))))) }
{
    match scope.types.kind(of) {
        InputKind::Custom => any_list(alloc, scope.work, false, items, scope.limit, count),
        InputKind::Lax => any_list(alloc, scope.work, true, items, scope.limit, count),
        InputKind::Int => Err(bad_value(alloc)),
        InputKind::String => Err(bad_value(alloc)),
        InputKind::Boolean => Err(bad_value(alloc)),
        InputKind::Id => Err(bad_value(alloc)),
        InputKind::Enum => Err(bad_value(alloc)),
        InputKind::Object => Err(bad_value(alloc)),
        InputKind::Float => Err(bad_value(alloc)),
        InputKind::None => Err(bad_value(alloc)),
    }
}

/// The items of a list, each at a place of this shape.
#[cycle(literals)]
fn coerce_items<T: InputTypes>(
    alloc: Global,
    scope: &Scope<'_, T>,
    item_shape: &Shape,
    items: &[Value],
    count: &mut u64,
) -> Result<Option<Coerced>, CoercionFault>
    ensures { Coerces scope.now.limit count.old count.new result (written_items (T.forms scope.now.types.now) scope.now.variables.now.items.items items.now item_shape.now) }
{
    count_node(scope.limit, count);
    let mut built = Vec::new(alloc);
    let mut index: usize = 0;
    'items: for item in items {
        match coerce_literal(alloc, scope, item_shape, item, count) {
            Ok(value) => push_item(&mut built, value)?,
            Err(fault) => return Err(fault.at_item(alloc, index)),
        }
        index += 1;
    }
    Ok(list_within(built, scope.limit, *count))
}

/// An object at a place of this shape.
#[cycle(literals)]
fn coerce_object<T: InputTypes>(
    alloc: Global,
    scope: &Scope<'_, T>,
    shape: &Shape,
    fields: &[Argument],
    count: &mut u64,
) -> Result<Option<Coerced>, CoercionFault>
    ensures { Coerces scope.now.limit count.old count.new result (written_object (T.forms scope.now.types.now) scope.now.variables.now.items.items fields.now shape.now) }
{
    let inner = object_at(alloc, scope, innermost(shape), fields, count);
    wrapped(alloc, scope.work, shape, inner, scope.limit, count)
}

/// An object at a named type.
#[cycle(literals)]
fn object_at<T: InputTypes>(
    alloc: Global,
    scope: &Scope<'_, T>,
    of: TypeId,
    fields: &[Argument],
    count: &mut u64,
) -> Result<Option<Coerced>, CoercionFault>
    ensures { Coerces scope.now.limit count.old count.new result (written_at_type (T.forms scope.now.types.now) scope.now.variables.now.items.items of.number fields.now) }
{
    match scope.types.kind(of) {
        InputKind::Object => input_object(alloc, scope, of, fields, count),
        InputKind::Custom => any_object(alloc, scope.work, false, fields, scope.limit, count),
        InputKind::Lax => any_object(alloc, scope.work, true, fields, scope.limit, count),
        InputKind::Int => Err(bad_value(alloc)),
        InputKind::String => Err(bad_value(alloc)),
        InputKind::Boolean => Err(bad_value(alloc)),
        InputKind::Id => Err(bad_value(alloc)),
        InputKind::Enum => Err(bad_value(alloc)),
        InputKind::Float => Err(bad_value(alloc)),
        InputKind::None => Err(bad_value(alloc)),
    }
}

/// An input object: its names are looked at before its fields.
#[cycle(literals)]
fn input_object<T: InputTypes>(
    alloc: Global,
    scope: &Scope<'_, T>,
    of: TypeId,
    fields: &[Argument],
    count: &mut u64,
) -> Result<Option<Coerced>, CoercionFault>
    ensures { Coerces scope.now.limit count.old count.new result (written_input (T.forms scope.now.types.now) scope.now.variables.now.items.items of.number fields.now) }
{
    match wrong_name(alloc, scope.work, scope.types, of, fields)? {
        Some(name) => Err(bad_value(alloc).at_key(alloc, name)),
        None => coerce_fields(alloc, scope, of, &index_of(alloc, fields)?, count),
    }
}

/// The first name that is no field's, or that is written a second time.
fn wrong_name<'a, T: InputTypes>(
    alloc: Global,
    work: Work<'_>,
    types: &T,
    of: TypeId,
    fields: &'a [Argument],
) -> Result<Option<&'a str>, AllocError>
    ensures { IfOk result (λ name. option_map (λ n. n.now) name ≡ wrong_name false (fields_of (T.forms types.now of.number)) [] (names_written fields.now)) }
{
    work.take(fields.len())?;
    let mut seen = BTreeMap::new(alloc);
    for at in 0..fields.len() {
        let name = fields[at].name();
        work.take(steps_of_text(name.len()))?;
        let before = seen.insert(name, at)?;
        let again = before.is_some();
        let known = types.has_field(of, name);
        if !known | again {
            return Ok(Some(name));
        }
    }
    Ok(None)
}

/// The fields of an input object, in the order of their definitions.
#[cycle(literals)]
fn coerce_fields<T: InputTypes>(
    alloc: Global,
    scope: &Scope<'_, T>,
    of: TypeId,
    given: &NameIndex<'_, Argument>,
    count: &mut u64,
) -> Result<Option<Coerced>, CoercionFault>
    ensures { Coerces scope.now.limit count.old count.new result (mapped coerced_object (written_fields (T.forms scope.now.types.now) scope.now.variables.now.items.items of.number given.now.items.now 0)) }
{
    scope.work.take(scope.types.field_count(of))?;
    count_node(scope.limit, count);
    let mut built = Vec::new(alloc);
    'inputs: for at in 0..scope.types.field_count(of) {
        match push_field_at(alloc, scope, of, at, given, &mut built, count) {
            Ok(()) => (),
            Err(fault) => return Err(fault),
        }
    }
    Ok(object_within(built, scope.limit, *count))
}

/// One field more of an input object.
#[cycle(literals)]
fn push_field_at<T: InputTypes>(
    alloc: Global,
    scope: &Scope<'_, T>,
    of: TypeId,
    at: usize,
    given: &NameIndex<'_, Argument>,
    built: &mut Vec<CoercedField>,
    count: &mut u64,
) -> Result<(), CoercionFault>
    ensures { PushesField scope.now.limit built.old.items built.new.items count.old count.new (written_fields (T.forms scope.now.types.now) scope.now.variables.now.items.items of.number given.now.items.now) at result }
{
    match scope.types.field(of, at) {
        Some(input) => match coerce_field(alloc, scope, &input, given, count) {
            Ok(value) => Ok(push_field(alloc, scope.work, built, input.name, value)?),
            Err(fault) => Err(fault.at_key(alloc, input.name)),
        },
        None => Ok(()),
    }
}

/// A field: the value that is given for it, or what it is without one.
#[cycle(literals)]
fn coerce_field<T: InputTypes>(
    alloc: Global,
    scope: &Scope<'_, T>,
    input: &InputField<'_>,
    given: &NameIndex<'_, Argument>,
    count: &mut u64,
) -> Result<Option<Coerced>, CoercionFault>
    ensures { CoercesField scope.now.limit count.old count.new result (written_field (T.forms scope.now.types.now) scope.now.variables.now.items.items (field_seen input.now) given.now.items.now) }
{
    match given.first_named(input.name) {
        Some(field) => written_field(alloc, scope, input, &field.value, count),
        None => absent_field(alloc, scope.work, input.absence, scope.limit, count),
    }
}

/// A field that is written. A variable without a value counts as absent.
#[cycle(literals)]
fn written_field<T: InputTypes>(
    alloc: Global,
    scope: &Scope<'_, T>,
    input: &InputField<'_>,
    value: &Value,
    count: &mut u64,
) -> Result<Option<Coerced>, CoercionFault>
    ensures { CoercesField scope.now.limit count.old count.new result (written_as (T.forms scope.now.types.now) scope.now.variables.now.items.items (field_seen input.now) value.now) }
{
    if is_nothing(scope, value) {
        return absent_field(alloc, scope.work, input.absence, scope.limit, count);
    }
    coerce_literal(alloc, scope, input.shape, value, count)
}

/// Whether a literal is a variable without a value.
#[tactic(auto, using(crate::proofs::CoercionSteps::Literals::literal_trees))]
pub fn is_nothing<T: InputTypes>(scope: &Scope<'_, T>, value: &Value) -> bool
    ensures { result ≡ is_nothing (value_given scope.now.variables.now.items.items value.now) }
{
    match value {
        Value::Var(name) => value_of(scope.variables, name.text.as_str()).is_none(),
        Value::Int(_) => false,
        Value::Float(_) => false,
        Value::Str(_) => false,
        Value::Bool(_) => false,
        Value::Null => false,
        Value::EnumName(_) => false,
        Value::List(_) => false,
        Value::Object(_) => false,
    }
}

/// A field for which nothing is given.
pub fn absent_field(
    alloc: Global,
    work: Work<'_>,
    absence: Absence<'_>,
    limit: u32,
    count: &mut u64,
) -> Result<Option<Coerced>, CoercionFault>
    ensures { CoercesField limit count.old count.new result (absent_at (absence_seen absence.entry)) }
{
    match absence {
        Absence::Default(default) => copied(alloc, work, default, limit, count),
        Absence::Nothing => {
            count_no_node(limit, count);
            Ok(None)
        }
        Absence::Required => Err(bad_value(alloc)),
    }
}
