//! The texts of numbers, and of where sizes come from.

ghost use Rattle.std.specs.Prelude.{◌≡◌, IfOk, string_bytes};
ghost use Rattle.schema_model.specs.SchemaViews.{schema_data};
ghost use Rattle.cost_tables.specs.Cells.{told_amount, told_count, told_counts, argument_name, source_text, size_text};

use aligned_lines::Cell;
use cost_directives::SizeSource;
use cost_num::{CAP, amount_bytes};
use schema_model::{FieldId, Schema};
use std::alloc::{AllocError, Global};

/// An amount of millionths.
pub fn amount_cell(alloc: Global, amount: u64) -> Result<Cell, AllocError>
    ensures { IfOk result (λ cell. cell ≡ told_amount amount) }
{
    if amount > CAP {
        return Cell::copy_of(alloc, b"over 1000000000000");
    }
    let mut buffer = [0u8; 24];
    let length = amount_bytes(amount, &mut buffer);
    Cell::copy_of(alloc, &buffer[..length])
}

fn count_text(alloc: Global, count: u64) -> Result<String, AllocError>
    ensures { IfOk result (λ text. string_bytes text ≡ told_count count) }
{
    if count > CAP {
        "over 1000000000000000000".to_string(alloc)
    } else {
        format!(in alloc; "{count}")
    }
}

fn counts_text(alloc: Global, types: u64, fields: u64) -> Result<String, AllocError>
    ensures { IfOk result (λ text. string_bytes text ≡ told_counts types fields) }
{
    let of_types = count_text(alloc, types)?;
    if types == fields {
        return Ok(of_types);
    }
    let of_fields = count_text(alloc, fields)?;
    let (first, second) = (of_types.as_str(), of_fields.as_str());
    format!(in alloc; "{first}/{second}")
}

/// A count for each part of the cost.
pub fn counts_cell(alloc: Global, types: u64, fields: u64) -> Result<Cell, AllocError>
    ensures { IfOk result (λ cell. cell ≡ told_counts types fields) }
{
    Ok(Cell::new(counts_text(alloc, types, fields)?.into_bytes()))
}

/// The name of the argument at this place of a field.
fn argument_name(schema: &Schema, field: Option<FieldId>, place: usize) -> &str
    ensures { result.now ≡ argument_name (schema_data schema.now) field place }
{
    match field {
        Some(field) => match schema.arguments(field).get(place) {
            Some(argument) => argument.name.as_str(),
            None => "",
        },
        None => "",
    }
}

fn source_text(
    alloc: Global,
    above: &str,
    schema: &Schema,
    field: Option<FieldId>,
    source: SizeSource,
) -> Result<String, AllocError>
    ensures { IfOk result (λ text. string_bytes text ≡ source_text above.now (argument_name (schema_data schema.now) field) source) }
{
    match source {
        SizeSource::Handed(size) => format!(in alloc; "handed by {above}: {size}"),
        SizeSource::Sliced(place, value) => {
            let name = argument_name(schema, field, place);
            let size = value.unsigned_abs();
            format!(in alloc; "{name}: {size}")
        }
        SizeSource::Assumed(value) => {
            let size = value.unsigned_abs();
            format!(in alloc; "assumedSize: {size}")
        }
        SizeSource::Free => "any".to_string(alloc),
        SizeSource::Undeclared(size) => format!(in alloc; "default: {size}"),
    }
}

/// Where the size of a list comes from, where the field of this name stands above it; nothing where there is no list.
pub fn size_cell(
    alloc: Global,
    above: &str,
    schema: &Schema,
    field: Option<FieldId>,
    source: Option<SizeSource>,
) -> Result<Cell, AllocError>
    ensures { IfOk result (λ cell. cell ≡ size_text above.now (argument_name (schema_data schema.now) field) source) }
{
    match source {
        Some(source) => {
            let text = source_text(alloc, above, schema, field, source)?;
            Ok(Cell::new(text.into_bytes()))
        }
        None => Cell::copy_of(alloc, b""),
    }
}
