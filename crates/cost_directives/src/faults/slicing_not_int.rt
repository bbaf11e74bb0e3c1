//! Each argument in `slicingArguments` is of the type Int, where null may stand or not.

ghost use Rattle.std.specs.Prelude.{◌≡◌, map, find, codes};
ghost use Rattle.schema_rules.specs.First.{first_of};
ghost use Rattle.schema_rules.specs.Views.{maybe_name};
ghost use Rattle.schema_model.specs.SchemaData.{field_at};
ghost use Rattle.schema_model.specs.SchemaViews.{schema_data};
ghost use Rattle.schema_model.specs.Entries.{field_number};
ghost use Rattle.input_values.specs.inputs.Definitions.{input_data};
ghost use Rattle.input_values.specs.inputs.Shapes.{shape_tree};
ghost use Rattle.cost_directives.specs.SlicingNotInt.{is_int_shape, is_of_no_int, other_slicing};
ghost use Rattle.cost_directives.specs.FieldPlaces.{name_told};
ghost use Rattle.cost_directives.specs.TestViews.{maybe_found};

use crate::arguments::argument_named;
use crate::places::FoundName;
use gql_base::Text;
use input_values::{InputDef, Shape, ShapeLevel, shape_level};
use schema_model::{FieldId, Schema};

fn is_int_shape(schema: &Schema, shape: &Shape) -> bool
    ensures { result ≡ is_int_shape (schema_data schema.now) (shape_tree shape.now) }
{
    match shape_level(shape) {
        ShapeLevel::Named { of, nullable: _ } => schema.type_name(of).as_str() == "Int",
        ShapeLevel::ListOf {
            item: _,
            nullable: _,
        } => false,
    }
}

fn is_of_no_int(schema: &Schema, arguments: &[InputDef], name: &str) -> bool
    ensures { result ≡ is_of_no_int (schema_data schema.now) (map input_data arguments.now) name.now }
{
    match argument_named(arguments, name) {
        Some(argument) => !is_int_shape(schema, &argument.shape),
        None => false,
    }
}

fn first_of_no_int<'a>(
    schema: &Schema,
    arguments: &[InputDef],
    names: &'a [Text],
) -> Option<&'a str>
    ensures { maybe_name result ≡ find (is_of_no_int (schema_data schema.now) (map input_data arguments.now)) names.now }
{
    for name in names {
        if is_of_no_int(schema, arguments, name.as_str()) {
            return Some(name.as_str());
        }
    }
    None
}

fn other_slicing(schema: &Schema, field: FieldId) -> Option<&str>
    ensures { maybe_name result ≡ other_slicing (schema_data schema.now) (field_at (schema_data schema.now) field.number) }
{
    match schema.list_size(field) {
        Some(size) => first_of_no_int(schema, schema.arguments(field), &size.slicing),
        None => None,
    }
}

/// The first name of an argument of another type, with its field.
pub fn first_other_slicing<'a>(schema: &'a Schema, fields: &[FieldId]) -> Option<FoundName<'a>>
    ensures { maybe_found (schema_data schema.now) result ≡ first_of (name_told (schema_data schema.now) (other_slicing (schema_data schema.now))) (map field_number fields.now) }
{
    for field in fields {
        if let Some(name) = other_slicing(schema, *field) {
            return Some(FoundName {
                field: *field,
                name,
            });
        }
    }
    None
}
