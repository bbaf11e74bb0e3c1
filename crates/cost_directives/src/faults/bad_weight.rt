//! Each text of `@cost` spells a weight.

ghost use Rattle.std.specs.Prelude.{◌≡◌, map};
ghost use Rattle.input_values.specs.inputs.Definitions.{input_data};
ghost use Rattle.schema_rules.specs.First.{first_of};
ghost use Rattle.schema_rules.specs.Views.{place_tree};
ghost use Rattle.schema_model.specs.SchemaData.{field_at, type_at};
ghost use Rattle.schema_model.specs.SchemaViews.{schema_data};
ghost use Rattle.schema_model.specs.Numbers.{type_number};
ghost use Rattle.schema_model.specs.Entries.{field_number, maybe_text};
ghost use Rattle.cost_directives.specs.BadWeight.{bad_at, bad_argument, bad_in_field, bad_field_at, bad_input, bad_inside, bad_in_type, bad_type_at};
ghost use Rattle.cost_directives.specs.TestViews.{maybe_bad};

use crate::readings::reading;
use cost_num::WeightFault;
use gql_base::Text;
use input_values::{InputDef, TypeId};
use schema_model::{FieldId, Schema};
use schema_rules::Place;

/// A place with a text that is no weight, and the first fault of the text.
#[derive(Clone, Copy)]
pub struct BadWeight<'a> {
    pub place: Place<'a>,
    pub fault: WeightFault,
}

fn bad_at<'a>(place: Place<'a>, text: Option<&Text>) -> Option<BadWeight<'a>>
    ensures { maybe_bad result ≡ bad_at (place_tree place.entry) (maybe_text text.entry) }
{
    match text {
        Some(text) => match reading(text.as_str()) {
            Ok(_) => None,
            Err(fault) => Some(BadWeight { place, fault }),
        },
        None => None,
    }
}

fn bad_argument<'a>(of: &'a str, field: &'a str, argument: &'a InputDef) -> Option<BadWeight<'a>>
    ensures { maybe_bad result ≡ bad_argument of.now field.now (input_data argument.now) }
{
    let name = argument.name.as_str();
    bad_at(Place::Argument { of, field, name }, argument.cost.as_ref())
}

fn first_argument<'a>(
    of: &'a str,
    field: &'a str,
    arguments: &'a [InputDef],
) -> Option<BadWeight<'a>>
    ensures { maybe_bad result ≡ first_of (bad_argument of.now field.now) (map input_data arguments.now) }
{
    for argument in arguments {
        if let Some(bad) = bad_argument(of, field, argument) {
            return Some(bad);
        }
    }
    None
}

fn bad_in_field<'a>(schema: &'a Schema, of: &'a str, field: FieldId) -> Option<BadWeight<'a>>
    ensures { maybe_bad result ≡ bad_field_at (schema_data schema.now) of.now field.number }
{
    let name = schema.field_name(field).as_str();
    match first_argument(of, name, schema.arguments(field)) {
        Some(bad) => Some(bad),
        None => bad_at(Place::Field { of, name }, schema.field_cost(field)),
    }
}

fn first_field<'a>(schema: &'a Schema, of: &'a str, fields: &[FieldId]) -> Option<BadWeight<'a>>
    ensures { maybe_bad result ≡ first_of (bad_field_at (schema_data schema.now) of.now) (map field_number fields.now) }
{
    for field in fields {
        if let Some(bad) = bad_in_field(schema, of, *field) {
            return Some(bad);
        }
    }
    None
}

fn bad_input<'a>(of: &'a str, input: &'a InputDef) -> Option<BadWeight<'a>>
    ensures { maybe_bad result ≡ bad_input of.now (input_data input.now) }
{
    let name = input.name.as_str();
    bad_at(Place::Field { of, name }, input.cost.as_ref())
}

fn first_input<'a>(of: &'a str, inputs: &'a [InputDef]) -> Option<BadWeight<'a>>
    ensures { maybe_bad result ≡ first_of (bad_input of.now) (map input_data inputs.now) }
{
    for input in inputs {
        if let Some(bad) = bad_input(of, input) {
            return Some(bad);
        }
    }
    None
}

fn bad_inside<'a>(schema: &'a Schema, name: &'a str, of: TypeId) -> Option<BadWeight<'a>>
    requires { name.now ≡ (type_at (schema_data schema.now) of.number).name }
    ensures { maybe_bad result ≡ bad_inside (schema_data schema.now) (type_at (schema_data schema.now) of.number) }
{
    match first_field(schema, name, schema.fields(of)) {
        Some(bad) => Some(bad),
        None => first_input(name, schema.input_fields(of)),
    }
}

fn bad_in_type(schema: &Schema, of: TypeId) -> Option<BadWeight<'_>>
    ensures { maybe_bad result ≡ bad_type_at (schema_data schema.now) of.number }
{
    let name = schema.type_name(of).as_str();
    match bad_at(Place::Type { name }, schema.type_cost(of)) {
        Some(bad) => Some(bad),
        None => bad_inside(schema, name, of),
    }
}

/// The first text in these types that is no weight.
pub fn first_bad_weight<'a>(schema: &'a Schema, types: &[TypeId]) -> Option<BadWeight<'a>>
    ensures { maybe_bad result ≡ first_of (bad_type_at (schema_data schema.now)) (map type_number types.now) }
{
    for of in types {
        if let Some(bad) = bad_in_type(schema, *of) {
            return Some(bad);
        }
    }
    None
}
