//! What is known of a schema.

ghost use Rattle.schema_facts.specs.Facts.{KnowsPossible};
ghost use Rattle.schema_facts.specs.Places.{KnowsPlaces};
ghost use Rattle.schema_facts.specs.Shown.{KnowsShown};

use crate::known::KnownType;
use gql_base::{Indexed, Text};
use schema_reader::SchemaDef;

/// What is known of a schema, the types and directives that every schema has among it.
#[derive(Drop)]
pub struct SchemaFacts {
    pub(crate) description: Option<Text>,
    pub(crate) types: Indexed<KnownType>,
    /// The numbers of the possible types of each type.
    pub(crate) possible: Vec<Vec<usize>>,
    /// The numbers of the fields or values of each type that aren't deprecated.
    pub(crate) shown: Vec<Vec<usize>>,
    /// Of each type the places of `@deprecated` at its fields or values, or that of `@specifiedBy` at a scalar.
    pub(crate) places: Vec<Vec<usize>>,
    /// The name of the type of queries.
    pub(crate) query_name: Text,
    pub(crate) query: usize,
    pub(crate) mutation: Option<usize>,
    pub(crate) subscription: Option<usize>,
    pub(crate) directives: Vec<SchemaDef>,
    ghost knows: { KnowsPossible possible.items types.items.items },
    ghost shows: { KnowsShown shown.items types.items.items },
    ghost finds: { KnowsPlaces places.items types.items.items },
}
