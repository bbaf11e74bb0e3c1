//! An `assumedSize` is 0 or more.

ghost use Rattle.std.specs.Prelude.{◌≡◌, map};
ghost use Rattle.schema_rules.specs.First.{first_of};
ghost use Rattle.schema_model.specs.SchemaData.{field_at};
ghost use Rattle.schema_model.specs.SchemaViews.{schema_data};
ghost use Rattle.schema_model.specs.Entries.{field_number};
ghost use Rattle.cost_directives.specs.NegativeSize.{is_below_zero, is_negative};
ghost use Rattle.cost_directives.specs.FieldPlaces.{field_told};
ghost use Rattle.cost_directives.specs.TestViews.{found_place};

use schema_model::{FieldId, Schema};

fn is_below_zero(number: Option<i32>) -> bool
    ensures { result ≡ is_below_zero number }
{
    match number {
        Some(number) => number < 0,
        None => false,
    }
}

fn is_negative(schema: &Schema, field: FieldId) -> bool
    ensures { result ≡ is_negative (field_at (schema_data schema.now) field.number) }
{
    match schema.list_size(field) {
        Some(size) => is_below_zero(size.assumed),
        None => false,
    }
}

/// The first field that assumes less.
pub fn first_negative(schema: &Schema, fields: &[FieldId]) -> Option<FieldId>
    ensures { found_place (schema_data schema.now) result ≡ first_of (field_told (schema_data schema.now) is_negative) (map field_number fields.now) }
{
    for field in fields {
        if is_negative(schema, *field) {
            return Some(*field);
        }
    }
    None
}
