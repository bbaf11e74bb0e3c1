//! Where fields stand, and the names that tests find at them.

ghost use Rattle.std.specs.Prelude.{◌≡◌, IfOk};
ghost use Rattle.schema_rules.specs.Places.{at_field};
ghost use Rattle.schema_rules.specs.Views.{place_tree};
ghost use Rattle.schema_model.specs.SchemaData.{type_at, field_at};
ghost use Rattle.schema_model.specs.SchemaViews.{schema_data};
ghost use Rattle.cost_directives.specs.FieldPlaces.{place_of_field};

use gql_base::Text;
use schema_model::{FieldId, Schema};
use schema_rules::{Place, place_text};
use std::alloc::{AllocError, Global};

/// A name of a list of `@listSize`, at its field.
#[derive(Clone, Copy)]
pub struct FoundName<'a> {
    pub field: FieldId,
    pub name: &'a str,
}

fn place_of_field(schema: &Schema, field: FieldId) -> Place<'_>
    ensures { place_tree result ≡ at_field (type_at (schema_data schema.now) (field_at (schema_data schema.now) field.number).owner).name (field_at (schema_data schema.now) field.number).name }
{
    Place::Field {
        of: schema.type_name(schema.owner(field)).as_str(),
        name: schema.field_name(field).as_str(),
    }
}

/// The text of the place of a field. It fails for want of memory alone.
pub fn field_place(alloc: Global, schema: &Schema, field: FieldId) -> Result<Text, AllocError>
    ensures { IfOk result (λ text. text ≡ place_of_field (schema_data schema.now) (field_at (schema_data schema.now) field.number)) }
{
    place_text(alloc, place_of_field(schema, field))
}
