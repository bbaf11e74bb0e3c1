//! A field with `@listSize` that hands no size down is a list.

ghost use Rattle.std.specs.Prelude.{◌≡◌, map};
ghost use Rattle.schema_rules.specs.First.{first_of};
ghost use Rattle.schema_model.specs.SchemaData.{field_at};
ghost use Rattle.schema_model.specs.SchemaViews.{schema_data};
ghost use Rattle.schema_model.specs.Entries.{field_number};
ghost use Rattle.cost_directives.specs.NotAList.{is_no_list};
ghost use Rattle.cost_directives.specs.FieldPlaces.{field_told};
ghost use Rattle.cost_directives.specs.TestViews.{found_place};

use crate::rules::is_list;
use schema_model::{FieldId, Schema};

fn is_no_list(schema: &Schema, field: FieldId) -> bool
    ensures { result ≡ is_no_list (field_at (schema_data schema.now) field.number) }
{
    match schema.list_size(field) {
        Some(size) => size.sized.is_empty() && !is_list(schema.field_shape(field)),
        None => false,
    }
}

/// The first such field that is none.
pub fn first_no_list(schema: &Schema, fields: &[FieldId]) -> Option<FieldId>
    ensures { found_place (schema_data schema.now) result ≡ first_of (field_told (schema_data schema.now) is_no_list) (map field_number fields.now) }
{
    for field in fields {
        if is_no_list(schema, *field) {
            return Some(*field);
        }
    }
    None
}
