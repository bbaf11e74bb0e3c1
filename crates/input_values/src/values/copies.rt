//! Copies of coerced values.

ghost use Rattle.std.specs.Prelude.{◌≡◌, IfOk, map};
ghost use Rattle.input_values.specs.values.Coerced.{coerced_tree, named_tree};

use crate::values::coerced::{Coerced, CoercedField};
use counted_work::{Work, steps_of_text};
use gql_base::Text;
use std::alloc::{AllocError, Global};
use std::sync::Arc;

/// A copy of a text, whose length is counted.
fn copy_text(alloc: Global, work: Work<'_>, text: &Text) -> Result<Text, AllocError>
    ensures { IfOk result (λ copy. copy ≡ text.now) }
{
    work.take(steps_of_text(text.as_str().len()))?;
    Text::copy_of(alloc, text.as_str())
}

/// A copy of a coerced value, where what is shared is shared again. It fails for want of memory or of steps alone.
#[cycle(copies)]
pub fn copy_value(alloc: Global, work: Work<'_>, value: &Coerced) -> Result<Coerced, AllocError>
    ensures { IfOk result (λ copy. coerced_tree copy ≡ coerced_tree value.now) }
{
    work.take(1)?;
    match value {
        Coerced::Null => Ok(Coerced::Null),
        Coerced::Int(number) => Ok(Coerced::Int(*number)),
        Coerced::Float(bits) => Ok(Coerced::Float(*bits)),
        Coerced::Str(text) => Ok(Coerced::Str(copy_text(alloc, work, text)?)),
        Coerced::Bool(truth) => Ok(Coerced::Bool(*truth)),
        Coerced::EnumName(name) => Ok(Coerced::EnumName(copy_text(alloc, work, name)?)),
        Coerced::List(items) => Ok(Coerced::List(copy_items(alloc, work, items.as_slice())?)),
        Coerced::Object(fields) => Ok(Coerced::Object(copy_fields(
            alloc,
            work,
            fields.as_slice(),
        )?)),
        Coerced::Shared(held) => Ok(Coerced::Shared(Arc::try_clone(held)?)),
    }
}

#[cycle(copies)]
fn copy_items(alloc: Global, work: Work<'_>, items: &[Coerced]) -> Result<Vec<Coerced>, AllocError>
    ensures { IfOk result (λ copies. map coerced_tree copies.items ≡ map coerced_tree items.now) }
{
    let mut copies = Vec::new(alloc);
    'items: for item in items {
        copies.push(copy_value(alloc, work, item)?)?;
    }
    Ok(copies)
}

#[cycle(copies)]
fn copy_fields(
    alloc: Global,
    work: Work<'_>,
    fields: &[CoercedField],
) -> Result<Vec<CoercedField>, AllocError>
    ensures { IfOk result (λ copies. map named_tree copies.items ≡ map named_tree fields.now) }
{
    let mut copies = Vec::new(alloc);
    'fields: for field in fields {
        copies.push(copy_field(alloc, work, field)?)?;
    }
    Ok(copies)
}

/// A copy of a field. It fails for want of memory or of steps alone.
#[cycle(copies)]
pub fn copy_field(
    alloc: Global,
    work: Work<'_>,
    field: &CoercedField,
) -> Result<CoercedField, AllocError>
    ensures { IfOk result (λ copy. named_tree copy ≡ named_tree field.now) }
{
    let name = copy_text(alloc, work, &field.name)?;
    let value = copy_value(alloc, work, &field.value)?;
    Ok(CoercedField { name, value })
}
