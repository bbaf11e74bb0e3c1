//! The things of a schema.

ghost use Rattle.std.specs.Prelude.{◌≡◌};
ghost use Rattle.gql_base.specs.parts.Trees.{type_tree};
ghost use Rattle.schema_facts.specs.Facts.{number_named};
ghost use Rattle.schema_facts.specs.FactsViews.{facts_data};
ghost use Rattle.schema_facts.specs.Things.{thing_data, type_thing};

use crate::deprecable::{FieldThing, ValueThing};
use crate::facts::SchemaFacts;
use crate::types::number_in;
use gql_base::{TypeRef, Value};
use schema_reader::{InputValue, SchemaDef};

/// A thing of a schema: what stands where the schema of schemas has an object or a leaf.
#[derive(Clone, Copy)]
pub enum Thing<'f> {
    /// What the type of queries has beside its own fields.
    Root,
    Schema,
    /// A type by its number.
    TypeAt(usize),
    /// The list type, and the non-null type, of a type.
    ListOf(&'f TypeRef),
    NonNull(&'f TypeRef),
    Field(FieldThing<'f>),
    Input(&'f InputValue),
    EnumValue(ValueThing<'f>),
    Directive(&'f SchemaDef),
    Word(&'f str),
    Flag(bool),
    /// A default as it is printed.
    Default(&'f Value),
}

/// The number of the type of a name, or that of all types where none has it.
pub fn number_named(facts: &SchemaFacts, name: &str) -> usize
    ensures { result ≡ number_named (facts_data facts.now).types name.now }
{
    number_in(&facts.types, name)
}

/// The type to which a reference refers.
pub fn type_thing<'f>(facts: &'f SchemaFacts, of: &'f TypeRef) -> Thing<'f>
    ensures { thing_data result ≡ type_thing (facts_data facts.now) (type_tree of.now) }
{
    match of {
        TypeRef::Named(name) => Thing::TypeAt(number_named(facts, name.text.as_str())),
        TypeRef::ListOf(item) => Thing::ListOf(item),
        TypeRef::NonNull(inner) => Thing::NonNull(inner),
    }
}
