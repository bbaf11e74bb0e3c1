//! Lists and objects that are being built.

ghost use Rattle.std.specs.Prelude.{◌≡◌, ◌++◌, IfOk, map};
ghost use Rattle.input_values.specs.values.Coerced.{coerced_tree, named_tree};
ghost use Rattle.input_values.specs.coercion.Calls.{tree_in};
ghost use Rattle.input_values.specs.coercion.Left.{one_item, one_field, EndsList, EndsObject};

use crate::values::coerced::{Coerced, CoercedField};
use crate::values::made;
use counted_work::{Work, steps_of_text};
use gql_base::Text;
use std::alloc::{AllocError, Global};

/// One item more, where it was built.
pub fn push_item(built: &mut Vec<Coerced>, value: Option<Coerced>) -> Result<(), AllocError>
    ensures { IfOk result (λ _. map coerced_tree built.new.items ≡ map coerced_tree built.old.items ++ one_item (tree_in value)) }
{
    match value {
        Some(value) => {
            built.push(value)?;
        }
        None => (),
    }
    Ok(())
}

/// One field more, where it was built. The length of its name is counted.
pub fn push_field(
    alloc: Global,
    work: Work<'_>,
    built: &mut Vec<CoercedField>,
    name: &str,
    value: Option<Coerced>,
) -> Result<(), AllocError>
    ensures { IfOk result (λ _. map named_tree built.new.items ≡ map named_tree built.old.items ++ one_field name.now (tree_in value)) }
{
    match value {
        Some(value) => {
            work.take(steps_of_text(name.len()))?;
            built.push(made::field(Text::copy_of(alloc, name)?, value))?;
        }
        None => (),
    }
    Ok(())
}

/// The whole list, where the count is within the limit.
pub fn list_within(built: Vec<Coerced>, limit: u32, count: u64) -> Option<Coerced>
    ensures { EndsList limit built.items count result }
{
    if count > u64::from(limit) {
        return None;
    }
    Some(made::list(built))
}

/// The whole object, where the count is within the limit.
pub fn object_within(built: Vec<CoercedField>, limit: u32, count: u64) -> Option<Coerced>
    ensures { EndsObject limit built.items count result }
{
    if count > u64::from(limit) {
        return None;
    }
    Some(made::object(built))
}
