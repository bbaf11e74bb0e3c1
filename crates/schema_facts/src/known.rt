//! The types of a schema.

use gql_base::{Named, Text};
use schema_reader::SchemaDef;

/// A type of a schema.
#[derive(Drop)]
pub enum KnownType {
    /// A built-in scalar, by its name, that the schema's text doesn't define.
    BuiltIn(Text),
    /// One that a text defines.
    Defined(SchemaDef),
}

impl Named for KnownType {
    ghost use Rattle.schema_facts.specs.Facts.{known_name, known_type};

    ghost name_of = { λ known. known_name (known_type known) };

    fn name(&self) -> &str {
        match self {
            KnownType::BuiltIn(name) => name.as_str(),
            KnownType::Defined(definition) => definition.name.as_str(),
        }
    }
}
