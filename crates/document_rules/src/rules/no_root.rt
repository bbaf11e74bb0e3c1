//! The schema has a type of mutations, where the operation is one (GraphQL October 2021, 3.3.1).

ghost use Rattle.std.specs.Prelude.{◌≡◌, is_some};
ghost use Rattle.schema_model.specs.SchemaViews.{schema_data};
ghost use Rattle.document_rules.specs.Rules.{no_root};

use crate::site_rule::fault_where;
use document_reader::Operation;
use gql_base::OperationKind;
use schema_model::Schema;

fn has_mutations(schema: &Schema) -> bool
    ensures { result ≡ is_some (schema_data schema.now).mutation }
{
    schema.root(true).is_some()
}

/// The offset of a mutation, where the schema has none.
pub fn no_root(schema: &Schema, operation: &Operation) -> Option<usize>
    ensures { result ≡ no_root (schema_data schema.now) operation.now }
{
    match operation.kind {
        OperationKind::Mutation => fault_where(!has_mutations(schema), operation.at),
        OperationKind::Query | OperationKind::Subscription => None,
    }
}
