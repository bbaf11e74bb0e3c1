//! The types of which a name is asked.

ghost use Rattle.std.specs.Prelude.{◌≡◌, option_map};
ghost use Rattle.schema_model.specs.Numbers.{type_number};
ghost use Rattle.schema_model.specs.SchemaViews.{schema_data};
ghost use Rattle.plan_model.specs.SelectedFields.{is_abstract};

use input_values::TypeId;
use schema_model::Schema;

/// Whether a type is an interface or a union.
pub fn is_abstract(schema: &Schema, of: Option<TypeId>) -> bool
    ensures { result ≡ is_abstract (schema_data schema.now) (option_map type_number of) }
{
    match of {
        None => false,
        Some(of) => schema.kind(of).is_output_only() && !schema.kind(of).is_object(),
    }
}
