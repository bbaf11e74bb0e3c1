//! Each name in `slicingArguments` is that of an argument of the field.

ghost use Rattle.std.specs.Prelude.{◌≡◌, map, find, codes};
ghost use Rattle.schema_rules.specs.First.{first_of};
ghost use Rattle.schema_rules.specs.Views.{maybe_name};
ghost use Rattle.schema_model.specs.SchemaData.{field_at};
ghost use Rattle.schema_model.specs.SchemaViews.{schema_data};
ghost use Rattle.schema_model.specs.Entries.{field_number};
ghost use Rattle.input_values.specs.inputs.Definitions.{input_data};
ghost use Rattle.cost_directives.specs.SlicingUnknown.{is_no_argument, unknown_slicing};
ghost use Rattle.cost_directives.specs.FieldPlaces.{name_told};
ghost use Rattle.cost_directives.specs.TestViews.{maybe_found};

use crate::arguments::argument_named;
use crate::places::FoundName;
use gql_base::Text;
use input_values::InputDef;
use schema_model::{FieldId, Schema};

fn is_no_argument(arguments: &[InputDef], name: &str) -> bool
    ensures { result ≡ is_no_argument (map input_data arguments.now) name.now }
{
    match argument_named(arguments, name) {
        Some(_) => false,
        None => true,
    }
}

fn first_of_none<'a>(arguments: &[InputDef], names: &'a [Text]) -> Option<&'a str>
    ensures { maybe_name result ≡ find (is_no_argument (map input_data arguments.now)) names.now }
{
    for name in names {
        if is_no_argument(arguments, name.as_str()) {
            return Some(name.as_str());
        }
    }
    None
}

fn unknown_slicing(schema: &Schema, field: FieldId) -> Option<&str>
    ensures { maybe_name result ≡ unknown_slicing (field_at (schema_data schema.now) field.number) }
{
    match schema.list_size(field) {
        Some(size) => first_of_none(schema.arguments(field), &size.slicing),
        None => None,
    }
}

/// The first name that is none, with its field.
pub fn first_unknown_slicing<'a>(schema: &'a Schema, fields: &[FieldId]) -> Option<FoundName<'a>>
    ensures { maybe_found (schema_data schema.now) result ≡ first_of (name_told (schema_data schema.now) unknown_slicing) (map field_number fields.now) }
{
    for field in fields {
        if let Some(name) = unknown_slicing(schema, *field) {
            return Some(FoundName {
                field: *field,
                name,
            });
        }
    }
    None
}
