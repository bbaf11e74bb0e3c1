//! What names of types and of fields mean in a schema (GraphQL October 2021, 5.3 and 5.5).

ghost use Rattle.std.specs.Prelude.{◌≡◌, Some, option_map};
ghost use Rattle.document_reader.specs.Trees.{maybe_identifier};
ghost use Rattle.schema_model.specs.Entries.{maybe_input};
ghost use Rattle.schema_model.specs.Numbers.{type_number};
ghost use Rattle.schema_model.specs.SchemaViews.{schema_data};
ghost use Rattle.document_rules.specs.Sites.{is_composite, when_composite, composite_named, meaning_on, type_of_field, below_field, below_inline, type_of_kind};
ghost use Rattle.document_rules.specs.Views.{meaning_data, input_in};

use gql_base::{Name, OperationKind};
use input_values::places::innermost;
use input_values::{InputDef, TypeId};
use schema_model::{FieldId, Schema};

/// What the name of a field means where it is written.
#[derive(Clone, Copy)]
pub enum Meaning {
    /// It isn't written on an object, interface or union type that is known.
    NoPosition,
    /// The type has no such field.
    NoSuchField,
    /// `__typename`, the name of the object's type.
    NameOfType,
    Known(FieldId),
}

/// Where inputs are found by their names: the arguments of a field, or the fields of an input object.
#[derive(Clone, Copy)]
pub enum Inputs {
    Arguments(FieldId),
    Fields(TypeId),
}

/// The argument, or the field, of a name.
pub fn input_named<'s>(schema: &'s Schema, inputs: Inputs, name: &str) -> Option<&'s InputDef>
    ensures { maybe_input result ≡ input_in (schema_data schema.now) inputs name.now }
{
    match inputs {
        Inputs::Arguments(field) => schema.argument(field, name),
        Inputs::Fields(of) => schema.input_field(of, name),
    }
}

/// Whether a type is an object, interface or union type.
pub fn is_composite(schema: &Schema, of: TypeId) -> bool
    ensures { result ≡ is_composite (schema_data schema.now) of.number }
{
    schema.kind(of).is_output_only()
}

fn when_composite(schema: &Schema, of: TypeId) -> Option<TypeId>
    ensures { option_map type_number result ≡ when_composite (schema_data schema.now) (Some of.number) }
{
    if is_composite(schema, of) {
        Some(of)
    } else {
        None
    }
}

/// The object, interface or union type of this name.
pub fn composite_named(schema: &Schema, name: &str) -> Option<TypeId>
    ensures { option_map type_number result ≡ composite_named (schema_data schema.now) name.now }
{
    match schema.find(name) {
        Some(of) => when_composite(schema, of),
        None => None,
    }
}

/// What a field's name means on a type.
pub fn meaning_on(schema: &Schema, parent: Option<TypeId>, name: &str) -> Meaning
    ensures { meaning_data result ≡ meaning_on (schema_data schema.now) (option_map type_number parent) name.now }
{
    match parent {
        None => Meaning::NoPosition,
        Some(_) if name == "__typename" => Meaning::NameOfType,
        Some(parent) => match schema.field(parent, name) {
            Some(field) => Meaning::Known(field),
            None => Meaning::NoSuchField,
        },
    }
}

/// The named type of a field.
pub fn type_of_field(schema: &Schema, field: FieldId) -> TypeId
    ensures { result.number ≡ type_of_field (schema_data schema.now) field.number }
{
    innermost(schema.field_shape(field))
}

/// The type on which a field's selections are written, if it is an object, interface or union type.
pub fn below_field(schema: &Schema, meaning: Meaning) -> Option<TypeId>
    ensures { option_map type_number result ≡ below_field (schema_data schema.now) (meaning_data meaning) }
{
    match meaning {
        Meaning::NoPosition | Meaning::NoSuchField | Meaning::NameOfType => None,
        Meaning::Known(field) => when_composite(schema, type_of_field(schema, field)),
    }
}

/// The type on which the selections below a field of this name are written, if it is an object, interface or union type.
pub fn below_name(schema: &Schema, parent: Option<TypeId>, name: &str) -> Option<TypeId>
    ensures { option_map type_number result ≡ below_field (schema_data schema.now) (meaning_on (schema_data schema.now) (option_map type_number parent) name.now) }
{
    below_field(schema, meaning_on(schema, parent, name))
}

/// The type on which an inline fragment's selections are written.
pub fn below_inline(schema: &Schema, parent: Option<TypeId>, on: &Option<Name>) -> Option<TypeId>
    ensures { option_map type_number result ≡ below_inline (schema_data schema.now) (option_map type_number parent) (maybe_identifier on.now) }
{
    match parent {
        None => None,
        Some(parent) => match on {
            None => Some(parent),
            Some(on) => composite_named(schema, on.text.as_str()),
        },
    }
}

/// The type on which the selections of an operation of this kind are written; subscriptions aside.
pub fn type_of_kind(schema: &Schema, kind: OperationKind) -> Option<TypeId>
    ensures { option_map type_number result ≡ type_of_kind (schema_data schema.now) kind }
{
    match kind {
        OperationKind::Query => schema.root(false),
        OperationKind::Mutation => schema.root(true),
        OperationKind::Subscription => None,
    }
}
