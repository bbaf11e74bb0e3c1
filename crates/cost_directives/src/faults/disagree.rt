//! The interfaces of an object type agree on what its fields take from them: on the weight of a field that has none of its own,
//! as a number; and likewise on its `@listSize`.

ghost use Rattle.std.specs.Prelude.{◌≡◌, map};
ghost use Rattle.schema_rules.specs.First.{first_of};
ghost use Rattle.schema_model.specs.SchemaData.{field_at};
ghost use Rattle.schema_model.specs.SchemaViews.{schema_data};
ghost use Rattle.schema_model.specs.Entries.{field_number};
ghost use Rattle.cost_directives.specs.Disagree.{is_unclear};
ghost use Rattle.cost_directives.specs.FieldPlaces.{field_told};
ghost use Rattle.cost_directives.specs.TestViews.{found_place};

use crate::above::{is_size_clear, is_weight_clear};
use schema_model::{FieldId, Schema};

fn is_unclear(schema: &Schema, field: FieldId) -> bool
    ensures { result ≡ is_unclear (schema_data schema.now) (field_at (schema_data schema.now) field.number) }
{
    if !schema.kind(schema.owner(field)).is_object() {
        return false;
    }
    if is_weight_clear(schema, field) {
        !is_size_clear(schema, field)
    } else {
        true
    }
}

/// The first field of an object type about which they disagree.
pub fn first_unclear(schema: &Schema, fields: &[FieldId]) -> Option<FieldId>
    ensures { found_place (schema_data schema.now) result ≡ first_of (field_told (schema_data schema.now) (is_unclear (schema_data schema.now))) (map field_number fields.now) }
{
    for field in fields {
        if is_unclear(schema, *field) {
            return Some(*field);
        }
    }
    None
}
