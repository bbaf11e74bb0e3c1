//! A name in `slicingArguments` or `sizedFields` is one name: paths with dots aren't taken.

ghost use Rattle.std.specs.Prelude.{◌≡◌, map};
ghost use Rattle.schema_rules.specs.First.{first_of};
ghost use Rattle.schema_model.specs.SchemaData.{field_at};
ghost use Rattle.schema_model.specs.SchemaViews.{schema_data};
ghost use Rattle.schema_model.specs.Entries.{field_number};
ghost use Rattle.std.specs.List.{list_any};
ghost use Rattle.cost_directives.specs.Dotted.{is_dot, has_dot, any_dotted, is_dotted};
ghost use Rattle.cost_directives.specs.FieldPlaces.{field_told};
ghost use Rattle.cost_directives.specs.TestViews.{found_place};

use gql_base::Text;
use schema_model::{FieldId, Schema};

fn has_dot(name: &str) -> bool
    ensures { result ≡ has_dot name.now }
{
    let bytes = name.as_bytes();
    for byte in bytes {
        if *byte == b'.' {
            return true;
        }
    }
    false
}

fn any_dotted(names: &[Text]) -> bool
    ensures { result ≡ any_dotted names.now }
{
    for name in names {
        if has_dot(name.as_str()) {
            return true;
        }
    }
    false
}

fn is_dotted(schema: &Schema, field: FieldId) -> bool
    ensures { result ≡ is_dotted (field_at (schema_data schema.now) field.number) }
{
    match schema.list_size(field) {
        Some(size) => {
            if any_dotted(&size.slicing) {
                true
            } else {
                any_dotted(&size.sized)
            }
        }
        None => false,
    }
}

/// The first field that names a path.
pub fn first_dotted(schema: &Schema, fields: &[FieldId]) -> Option<FieldId>
    ensures { found_place (schema_data schema.now) result ≡ first_of (field_told (schema_data schema.now) is_dotted) (map field_number fields.now) }
{
    for field in fields {
        if is_dotted(schema, *field) {
            return Some(*field);
        }
    }
    None
}
