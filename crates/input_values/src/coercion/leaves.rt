//! Values that are one node, and copies. Each is counted, and built as long as the count is within the limit.

ghost use Rattle.std.specs.Prelude.{◌≡◌, Ok};
ghost use Rattle.input_values.specs.values.Coerced.{coerced_tree, coerced_null, coerced_integer, coerced_float, coerced_string, coerced_boolean, coerced_enum};
ghost use Rattle.input_values.specs.coercion.Answers.{Answer};
ghost use Rattle.input_values.specs.coercion.Calls.{Coerces};
ghost use Rattle.input_values.specs.coercion.Places.{null_at, variable_at};

use crate::coercion::faults::{CoercionFault, bad_value};
use crate::values::coerced::Coerced;
use crate::values::copies::copy_value;
use crate::values::counting::{count_no_node, count_node, count_nodes, is_null};
use crate::values::made;
use counted_work::Work;
use gql_base::Text;
use std::alloc::Global;

/// Null.
pub fn null(limit: u32, count: &mut u64) -> Result<Option<Coerced>, CoercionFault>
    ensures { Coerces limit count.old count.new result (Ok coerced_null) }
{
    count_node(limit, count);
    if *count > u64::from(limit) {
        return Ok(None);
    }
    Ok(Some(made::null()))
}

/// A whole number.
pub fn integer(number: i128, limit: u32, count: &mut u64) -> Result<Option<Coerced>, CoercionFault>
    ensures { Coerces limit count.old count.new result (Ok (coerced_integer number)) }
{
    count_node(limit, count);
    if *count > u64::from(limit) {
        return Ok(None);
    }
    Ok(Some(made::integer(number)))
}

/// A number that isn't held as a whole one.
pub fn float(bits: u64, limit: u32, count: &mut u64) -> Result<Option<Coerced>, CoercionFault>
    ensures { Coerces limit count.old count.new result (Ok (coerced_float bits)) }
{
    count_node(limit, count);
    if *count > u64::from(limit) {
        return Ok(None);
    }
    Ok(Some(made::float(bits)))
}

/// A truth value.
pub fn boolean(truth: bool, limit: u32, count: &mut u64) -> Result<Option<Coerced>, CoercionFault>
    ensures { Coerces limit count.old count.new result (Ok (coerced_boolean truth)) }
{
    count_node(limit, count);
    if *count > u64::from(limit) {
        return Ok(None);
    }
    Ok(Some(made::boolean(truth)))
}

/// A string.
pub fn string(
    alloc: Global,
    text: &str,
    limit: u32,
    count: &mut u64,
) -> Result<Option<Coerced>, CoercionFault>
    ensures { Coerces limit count.old count.new result (Ok (coerced_string text.now)) }
{
    count_node(limit, count);
    if *count > u64::from(limit) {
        return Ok(None);
    }
    Ok(Some(made::string(Text::copy_of(alloc, text)?)))
}

/// A value of an enum, by its name.
pub fn enum_value(
    alloc: Global,
    name: &str,
    limit: u32,
    count: &mut u64,
) -> Result<Option<Coerced>, CoercionFault>
    ensures { Coerces limit count.old count.new result (Ok (coerced_enum name.now)) }
{
    count_node(limit, count);
    if *count > u64::from(limit) {
        return Ok(None);
    }
    Ok(Some(made::enum_value(Text::copy_of(alloc, name)?)))
}

/// A copy of a coerced value. Past the limit the value isn't looked at.
pub fn copied(
    alloc: Global,
    work: Work<'_>,
    value: &Coerced,
    limit: u32,
    count: &mut u64,
) -> Result<Option<Coerced>, CoercionFault>
    ensures { Coerces limit count.old count.new result (Ok (coerced_tree value.now)) }
{
    if *count > u64::from(limit) {
        count_no_node(limit, count);
        return Ok(None);
    }
    let before = *count;
    count_nodes(value, limit, count);
    work.take(count.saturating_sub(before) as usize)?;
    if *count > u64::from(limit) {
        return Ok(None);
    }
    Ok(Some(copy_value(alloc, work, value)?))
}

/// Null, where it may stand.
pub fn null_at(
    alloc: Global,
    nullable: bool,
    limit: u32,
    count: &mut u64,
) -> Result<Option<Coerced>, CoercionFault>
    ensures { Coerces limit count.old count.new result (null_at coerced_null nullable) }
{
    if nullable {
        null(limit, count)
    } else {
        Err(bad_value(alloc))
    }
}

/// The value of a variable, as it is; null only where it may stand.
pub fn held_at(
    alloc: Global,
    work: Work<'_>,
    value: &Coerced,
    nullable: bool,
    limit: u32,
    count: &mut u64,
) -> Result<Option<Coerced>, CoercionFault>
    ensures { Coerces limit count.old count.new result (variable_at (coerced_tree value.now) nullable) }
{
    if is_null(value) && !nullable {
        return Err(bad_value(alloc));
    }
    copied(alloc, work, value, limit, count)
}
