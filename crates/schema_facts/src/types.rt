//! Types by their numbers.

ghost use Rattle.std.specs.Prelude.{◌≡◌, map, option_map, slice_get};
ghost use Rattle.schema_reader.specs.Trees.{definition_tree};
ghost use Rattle.schema_facts.specs.Facts.{known_type, number_named};
ghost use Rattle.schema_facts.specs.FactsViews.{facts_data};
ghost use Rattle.schema_facts.specs.Table.{known_at, definition_at, definition_in};

use crate::facts::SchemaFacts;
use crate::known::KnownType;
use gql_base::Indexed;
use schema_reader::SchemaDef;

/// The type of a number.
#[tactic(auto, using(crate::proofs::Lists::gotten))]
pub fn known_at(facts: &SchemaFacts, number: usize) -> Option<&KnownType>
    ensures { option_map (λ k. known_type k.now) result ≡ known_at (facts_data facts.now) number }
{
    facts.types.items().get(number)
}

fn definition_in<'f>(known: Option<&'f KnownType>) -> Option<&'f SchemaDef>
    ensures { option_map (λ d. definition_tree d.now) result ≡ definition_in (option_map (λ k. known_type k.now) known.entry) }
{
    match known {
        Some(KnownType::Defined(definition)) => Some(definition),
        Some(KnownType::BuiltIn(_)) => None,
        None => None,
    }
}

/// The definition of the type of a number.
pub fn definition_at(facts: &SchemaFacts, number: usize) -> Option<&SchemaDef>
    ensures { option_map (λ d. definition_tree d.now) result ≡ definition_at (facts_data facts.now) number }
{
    definition_in(known_at(facts, number))
}

/// The number of the type of a name, or that of all types where none has it.
pub fn number_in(types: &Indexed<KnownType>, name: &str) -> usize
    ensures { result ≡ number_named (map known_type types.now.items.items) name.now }
{
    match types.position(name) {
        Some(number) => number,
        None => types.items().len(),
    }
}

impl SchemaFacts {
    /// The types, by their numbers and their names.
    pub fn types(&self) -> &Indexed<KnownType>
        ensures { map known_type result.now.items.items ≡ (facts_data self.now).types }
    {
        &self.types
    }

    /// The name of the type of queries.
    pub fn query_name(&self) -> &str
        ensures { result.now ≡ (facts_data self.now).query_name }
    {
        self.query_name.as_str()
    }
}
