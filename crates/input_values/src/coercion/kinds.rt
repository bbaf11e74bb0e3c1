//! Leaves at named types (GraphQL October 2021, 3.5 and 3.9).

ghost use Rattle.std.specs.Prelude.{◌≡◌};
ghost use Rattle.input_values.specs.coercion.Calls.{Coerces};
ghost use Rattle.input_values.specs.coercion.Forms.{integer_form, names_of};
ghost use Rattle.input_values.specs.coercion.Leaves.{integer_at, float_at, string_at, name_at, text_at, boolean_at, one_of_names};

use crate::coercion::faults::{CoercionFault, bad_value};
use crate::coercion::leaves::{boolean, enum_value, float, integer, string};
use crate::inputs::shape::TypeId;
use crate::inputs::types::{InputKind, InputTypes};
use crate::values::coerced::Coerced;
use gql_base::is_int;
use std::alloc::Global;

/// A whole number. An ID is its decimal text.
pub fn integer_at<T: InputTypes>(
    alloc: Global,
    types: &T,
    of: TypeId,
    number: i128,
    limit: u32,
    count: &mut u64,
) -> Result<Option<Coerced>, CoercionFault>
    ensures { Coerces limit count.old count.new result (integer_at (T.forms types.now of.number) number) }
{
    match types.kind(of) {
        InputKind::Int => small_integer(alloc, number, limit, count),
        InputKind::Id => match format!(in alloc; "{number}") {
            Ok(digits) => string(alloc, digits.as_str(), limit, count),
            Err(_) => Err(CoercionFault::Memory),
        },
        InputKind::Custom => integer(number, limit, count),
        InputKind::Lax => integer(number, limit, count),
        InputKind::String => Err(bad_value(alloc)),
        InputKind::Boolean => Err(bad_value(alloc)),
        InputKind::Enum => Err(bad_value(alloc)),
        InputKind::Object => Err(bad_value(alloc)),
        InputKind::Float => integer(number, limit, count),
        InputKind::None => Err(bad_value(alloc)),
    }
}

/// A whole number of 32 bits.
fn small_integer(
    alloc: Global,
    number: i128,
    limit: u32,
    count: &mut u64,
) -> Result<Option<Coerced>, CoercionFault>
    ensures { Coerces limit count.old count.new result (integer_at integer_form number) }
{
    if is_int(number) {
        integer(number, limit, count)
    } else {
        Err(bad_value(alloc))
    }
}

/// A truth value.
pub fn boolean_at<T: InputTypes>(
    alloc: Global,
    types: &T,
    of: TypeId,
    truth: bool,
    limit: u32,
    count: &mut u64,
) -> Result<Option<Coerced>, CoercionFault>
    ensures { Coerces limit count.old count.new result (boolean_at (T.forms types.now of.number) truth) }
{
    match types.kind(of) {
        InputKind::Boolean => boolean(truth, limit, count),
        InputKind::Custom => boolean(truth, limit, count),
        InputKind::Lax => boolean(truth, limit, count),
        InputKind::Int => Err(bad_value(alloc)),
        InputKind::String => Err(bad_value(alloc)),
        InputKind::Id => Err(bad_value(alloc)),
        InputKind::Enum => Err(bad_value(alloc)),
        InputKind::Object => Err(bad_value(alloc)),
        InputKind::Float => Err(bad_value(alloc)),
        InputKind::None => Err(bad_value(alloc)),
    }
}

/// A string of a literal.
pub fn string_at<T: InputTypes>(
    alloc: Global,
    types: &T,
    of: TypeId,
    text: &str,
    limit: u32,
    count: &mut u64,
) -> Result<Option<Coerced>, CoercionFault>
    ensures { Coerces limit count.old count.new result (string_at (T.forms types.now of.number) text.now) }
{
    match types.kind(of) {
        InputKind::String => string(alloc, text, limit, count),
        InputKind::Id => string(alloc, text, limit, count),
        InputKind::Custom => string(alloc, text, limit, count),
        InputKind::Lax => string(alloc, text, limit, count),
        InputKind::Int => Err(bad_value(alloc)),
        InputKind::Boolean => Err(bad_value(alloc)),
        InputKind::Enum => Err(bad_value(alloc)),
        InputKind::Object => Err(bad_value(alloc)),
        InputKind::Float => Err(bad_value(alloc)),
        InputKind::None => Err(bad_value(alloc)),
    }
}

/// A string of JSON, which may be the name of an enum value too.
pub fn text_at<T: InputTypes>(
    alloc: Global,
    types: &T,
    of: TypeId,
    text: &str,
    limit: u32,
    count: &mut u64,
) -> Result<Option<Coerced>, CoercionFault>
    ensures { Coerces limit count.old count.new result (text_at (T.forms types.now of.number) text.now) }
{
    match types.kind(of) {
        InputKind::String => string(alloc, text, limit, count),
        InputKind::Id => string(alloc, text, limit, count),
        InputKind::Custom => string(alloc, text, limit, count),
        InputKind::Lax => string(alloc, text, limit, count),
        InputKind::Enum => one_of_values(alloc, types, of, text, limit, count),
        InputKind::Int => Err(bad_value(alloc)),
        InputKind::Boolean => Err(bad_value(alloc)),
        InputKind::Object => Err(bad_value(alloc)),
        InputKind::Float => Err(bad_value(alloc)),
        InputKind::None => Err(bad_value(alloc)),
    }
}

/// A name in a literal.
pub fn name_at<T: InputTypes>(
    alloc: Global,
    types: &T,
    of: TypeId,
    name: &str,
    limit: u32,
    count: &mut u64,
) -> Result<Option<Coerced>, CoercionFault>
    ensures { Coerces limit count.old count.new result (name_at (T.forms types.now of.number) name.now) }
{
    match types.kind(of) {
        InputKind::Enum => one_of_values(alloc, types, of, name, limit, count),
        InputKind::Custom => enum_value(alloc, name, limit, count),
        InputKind::Lax => enum_value(alloc, name, limit, count),
        InputKind::Int => Err(bad_value(alloc)),
        InputKind::String => Err(bad_value(alloc)),
        InputKind::Boolean => Err(bad_value(alloc)),
        InputKind::Id => Err(bad_value(alloc)),
        InputKind::Object => Err(bad_value(alloc)),
        InputKind::Float => Err(bad_value(alloc)),
        InputKind::None => Err(bad_value(alloc)),
    }
}

/// A number that isn't held as a whole one.
pub fn float_at<T: InputTypes>(
    alloc: Global,
    types: &T,
    of: TypeId,
    bits: u64,
    limit: u32,
    count: &mut u64,
) -> Result<Option<Coerced>, CoercionFault>
    ensures { Coerces limit count.old count.new result (float_at (T.forms types.now of.number) bits) }
{
    match types.kind(of) {
        InputKind::Float => float(bits, limit, count),
        InputKind::Lax => float(bits, limit, count),
        InputKind::Int => Err(bad_value(alloc)),
        InputKind::String => Err(bad_value(alloc)),
        InputKind::Boolean => Err(bad_value(alloc)),
        InputKind::Id => Err(bad_value(alloc)),
        InputKind::Custom => Err(bad_value(alloc)),
        InputKind::Enum => Err(bad_value(alloc)),
        InputKind::Object => Err(bad_value(alloc)),
        InputKind::None => Err(bad_value(alloc)),
    }
}

/// A value of an enum.
fn one_of_values<T: InputTypes>(
    alloc: Global,
    types: &T,
    of: TypeId,
    name: &str,
    limit: u32,
    count: &mut u64,
) -> Result<Option<Coerced>, CoercionFault>
    ensures { Coerces limit count.old count.new result (one_of_names (names_of (T.forms types.now of.number)) name.now) }
{
    if types.has_value(of, name) {
        enum_value(alloc, name, limit, count)
    } else {
        Err(bad_value(alloc))
    }
}
