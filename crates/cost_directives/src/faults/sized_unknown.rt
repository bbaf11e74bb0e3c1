//! Each name in `sizedFields` is that of a list field of the type that the field returns. A union has no fields.

ghost use Rattle.std.specs.Prelude.{◌≡◌, map, find, codes};
ghost use Rattle.schema_rules.specs.First.{first_of};
ghost use Rattle.schema_rules.specs.Views.{maybe_name};
ghost use Rattle.schema_model.specs.SchemaData.{field_at};
ghost use Rattle.schema_model.specs.SchemaViews.{schema_data};
ghost use Rattle.schema_model.specs.Entries.{field_number};
ghost use Rattle.cost_directives.specs.SizedUnknown.{is_no_list_field, unknown_sized};
ghost use Rattle.cost_directives.specs.FieldPlaces.{name_told};
ghost use Rattle.cost_directives.specs.TestViews.{maybe_found};

use crate::places::FoundName;
use crate::rules::{is_list, type_inside};
use gql_base::Text;
use input_values::TypeId;
use schema_model::{FieldId, Schema};

fn is_no_list_field(schema: &Schema, of: TypeId, name: &str) -> bool
    ensures { result ≡ is_no_list_field (schema_data schema.now) of.number name.now }
{
    match schema.field(of, name) {
        Some(field) => !is_list(schema.field_shape(field)),
        None => true,
    }
}

fn first_of_none<'a>(schema: &Schema, of: TypeId, names: &'a [Text]) -> Option<&'a str>
    ensures { maybe_name result ≡ find (is_no_list_field (schema_data schema.now) of.number) names.now }
{
    for name in names {
        if is_no_list_field(schema, of, name.as_str()) {
            return Some(name.as_str());
        }
    }
    None
}

fn unknown_sized(schema: &Schema, field: FieldId) -> Option<&str>
    ensures { maybe_name result ≡ unknown_sized (schema_data schema.now) (field_at (schema_data schema.now) field.number) }
{
    match schema.list_size(field) {
        Some(size) => first_of_none(schema, type_inside(schema.field_shape(field)), &size.sized),
        None => None,
    }
}

/// The first name that is none, with its field.
pub fn first_unknown_sized<'a>(schema: &'a Schema, fields: &[FieldId]) -> Option<FoundName<'a>>
    ensures { maybe_found (schema_data schema.now) result ≡ first_of (name_told (schema_data schema.now) (unknown_sized (schema_data schema.now))) (map field_number fields.now) }
{
    for field in fields {
        if let Some(name) = unknown_sized(schema, *field) {
            return Some(FoundName {
                field: *field,
                name,
            });
        }
    }
    None
}
