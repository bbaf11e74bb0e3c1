//! What is looked up of a field in the schema and its weights.

ghost use Rattle.std.specs.Prelude.{◌≡◌, ◌∷◌, Some, map};
ghost use Rattle.std.specs.List.{list_any};
ghost use Rattle.std.specs.Str.{bytes_eq};
ghost use Rattle.schema_model.specs.Numbers.{type_number};
ghost use Rattle.schema_model.specs.SchemaViews.{schema_data};
ghost use Rattle.document_rules.specs.Sites.{known_field, meaning_on};
ghost use Rattle.plan_model.specs.SelectedFields.{form_of, handed_in, handed_to};
ghost use Rattle.collected_fields.specs.Views.{collected_field, asks_in};
ghost use Rattle.merged_selections.specs.NodeParts.{meaning_seen, has_lists, handed_data, types_below, lacks_types_below};

use collected_fields::{Collected, asks};
use document_rules::lookups::{is_composite, type_of_field};
use gql_base::Text;
use input_values::{ShapeLevel, TypeId, shape_level};
use schema_model::{FieldId, Schema};

/// What a field's name means for objects of a type.
#[derive(Clone, Copy)]
pub enum Meaning {
    /// `__typename`, the name of the object's type.
    NameOfType,
    Known(FieldId),
    /// The type has no such field.
    NoSuchField,
}

/// A size that is handed down to the fields of these names.
#[derive(Clone, Copy)]
pub struct Handed<'a> {
    pub sized: &'a [Text],
    pub size: u64,
}

/// The response key of a field: its alias, or else its name.
pub fn key_of<'a>(field: &Collected<'a>) -> &'a str
    ensures { result.now ≡ (collected_field field.now).key }
{
    match &field.field.alias {
        Some(alias) => alias.text.as_str(),
        None => field.field.name.text.as_str(),
    }
}

/// The name of a field.
pub fn name_of<'a>(field: &Collected<'a>) -> &'a str
    ensures { result.now ≡ (collected_field field.now).call.name }
{
    field.field.name.text.as_str()
}

/// What a field's name means for objects of a type, or on an interface or union type.
pub fn meaning_on(schema: &Schema, of: TypeId, name: &str) -> Meaning
    ensures { meaning_seen result ≡ meaning_on (schema_data schema.now) (Some of.number) name.now }
{
    if name == "__typename" {
        return Meaning::NameOfType;
    }
    match schema.field(of, name) {
        Some(field) => Meaning::Known(field),
        None => Meaning::NoSuchField,
    }
}

/// Whether a field is a list.
pub fn has_lists(schema: &Schema, field: FieldId) -> bool
    ensures { result ≡ has_lists (schema_data schema.now) field.number }
{
    match shape_level(schema.field_shape(field)) {
        ShapeLevel::Named { .. } => false,
        ShapeLevel::ListOf { .. } => true,
    }
}

/// The types of the objects that may stand at a field; none at a leaf.
pub fn types_below<'a>(schema: &'a Schema, field: FieldId) -> &'a [TypeId]
    ensures { map type_number result.now ≡ types_below (schema_data schema.now) field.number }
{
    let of = type_of_field(schema, field);
    if is_composite(schema, of) {
        schema.possible(of)
    } else {
        &[]
    }
}

/// Whether neither a leaf nor an object can stand at a field.
pub fn lacks_types(schema: &Schema, field: FieldId) -> bool
    ensures { result ≡ lacks_types_below (schema_data schema.now) field.number }
{
    let of = type_of_field(schema, field);
    is_composite(schema, of) && schema.possible(of).is_empty()
}

/// The size that is handed to the field of this name.
fn handed_to(handed: Option<Handed<'_>>, name: &str) -> Option<u64>
    ensures { result ≡ handed_to (handed_data handed.entry) name.now }
{
    match handed {
        Some(handed) => {
            if is_sized(handed.sized, name) {
                Some(handed.size)
            } else {
                None
            }
        }
        None => None,
    }
}

fn is_sized(sized: &[Text], name: &str) -> bool
    ensures { result ≡ list_any (bytes_eq name.now) sized.now }
{
    for other in sized {
        if name == other.as_str() {
            return true;
        }
    }
    false
}

/// The size that is handed to a field, if it is a list.
pub fn handed_in(
    schema: &Schema,
    field: FieldId,
    handed: Option<Handed<'_>>,
    name: &str,
) -> Option<u64>
    ensures { result ≡ handed_in (form_of (schema_data schema.now) (known_field field.number)) (handed_data handed.entry) name.now }
{
    match shape_level(schema.field_shape(field)) {
        ShapeLevel::Named { .. } => None,
        ShapeLevel::ListOf { .. } => handed_to(handed, name),
    }
}

fn one_asks(schema: &Schema, fields: &[Collected<'_>]) -> bool
    ensures { result ≡ list_any (asks_in (schema_data schema.now)) (map collected_field fields.now) }
{
    for field in fields {
        if asks(schema, field) {
            return true;
        }
    }
    false
}

/// Whether one of these fields asks for the names of the types below.
pub fn any_asks(schema: &Schema, first: &Collected<'_>, others: &[Collected<'_>]) -> bool
    ensures { result ≡ list_any (asks_in (schema_data schema.now)) (map collected_field (first.now ∷ others.now)) }
{
    asks(schema, first) || one_asks(schema, others)
}
