//! Fields that look like one another.

ghost use Rattle.std.specs.Prelude.{◌≡◌, IsTrue, IfOk, None, map};
ghost use Rattle.schema_model.specs.SchemaViews.{schema_data};
ghost use Rattle.plan_model.specs.Likeness.{LooksLike, HasLike, AreLike};
ghost use Rattle.collected_fields.specs.Views.{collected_field, written_field, asks_in};

use crate::collected::Collected;
use crate::lookups::asks;
use crate::steps::key_of;
use counted_work::{Work, steps_of_text};
use distinct_selections::alike_arguments;
use document_reader::Field;
use schema_model::Schema;
use std::alloc::{AllocError, Global};

/// A field is compared with no more others than this.
const MANY: usize = 16;

/// Whether both of two fields ask for the names of the types below them, or neither.
fn ask_alike(schema: &Schema, field: &Collected<'_>, other: &Collected<'_>) -> bool
    ensures { IsTrue result → asks_in (schema_data schema.now) (collected_field field.now) ≡ asks_in (schema_data schema.now) (collected_field other.now) }
{
    if asks(schema, field) {
        asks(schema, other)
    } else {
        !asks(schema, other)
    }
}

fn same_key(field: &Field, other: &Field) -> bool
    ensures { IsTrue result → (written_field None field.now).key ≡ (written_field None other.now).key }
{
    key_of(field) == key_of(other)
}

fn same_name(field: &Field, other: &Field) -> bool
    ensures { IsTrue result → field.now.name.text ≡ other.now.name.text }
{
    field.name.text == other.name.text
}

/// Whether two fields have one response key, one name, and arguments that are written alike, and both ask for the names of types or
/// neither. Most that differ do so by their hashes.
fn looks_like(schema: &Schema, work: Work<'_>, field: &Collected<'_>, other: &Collected<'_>) -> bool
    ensures { IsTrue result → LooksLike (schema_data schema.now) (collected_field field.now) (collected_field other.now) }
{
    if field.written != other.written {
        return false;
    }
    work.count(steps_of_text(key_of(field.field).len()).wrapping_add(1));
    if !same_key(field.field, other.field) {
        return false;
    }
    if !same_name(field.field, other.field) {
        return false;
    }
    if !ask_alike(schema, field, other) {
        return false;
    }
    let arguments = field.field.arguments.as_slice();
    let others = other.field.arguments.as_slice();
    alike_arguments(work, arguments, others)
}

/// Whether one of the first fields is like this one.
fn has_like(
    schema: &Schema,
    work: Work<'_>,
    fields: &[Collected<'_>],
    field: &Collected<'_>,
) -> bool
    ensures { IsTrue result → HasLike (LooksLike (schema_data schema.now)) (map collected_field fields.now) (collected_field field.now) }
{
    let mut at = 0;
    while at < fields.len() && at < MANY {
        if looks_like(schema, work, field, &fields[at]) {
            return true;
        }
        at += 1;
    }
    false
}

/// Fields, where some may be left out that look like one before them. Each was counted as it was collected.
pub fn unlike_fields<'a>(
    alloc: Global,
    schema: &Schema,
    work: Work<'_>,
    fields: &[Collected<'a>],
) -> Result<Vec<Collected<'a>>, AllocError>
    ensures { IfOk result (λ unlike. AreLike (schema_data schema.now) (map collected_field fields.now) (map collected_field unlike.items)) }
{
    let mut unlike = Vec::new(alloc);
    for field in fields {
        if !has_like(schema, work, unlike.as_slice(), field) {
            unlike.push(*field)?;
        }
    }
    Ok(unlike)
}
