//! Each argument of a field is one that the field has (GraphQL October 2021, 5.4.1).

ghost use Rattle.std.specs.Prelude.{◌≡◌, map};
ghost use Rattle.gql_base.specs.parts.Trees.{named_value};
ghost use Rattle.schema_rules.specs.First.{first_of};
ghost use Rattle.schema_model.specs.SchemaViews.{schema_data};
ghost use Rattle.document_rules.specs.Rules.{is_unknown_argument, unknown_argument_at};
ghost use Rattle.document_rules.specs.Views.{meaning_data};

use crate::lookups::Meaning;
use crate::site_rule::{SiteRule, fault_where};
use crate::sites::Site;
use gql_base::Argument;
use schema_model::Schema;
use std::alloc::{AllocError, Global};

fn is_unknown_argument(schema: &Schema, meaning: Meaning, name: &str) -> bool
    ensures { result ≡ is_unknown_argument (schema_data schema.now) (meaning_data meaning) name.now }
{
    match meaning {
        Meaning::NoPosition | Meaning::NoSuchField => false,
        Meaning::NameOfType => true,
        Meaning::Known(field) => schema.argument(field, name).is_none(),
    }
}

#[tactic(auto, using(crate::proofs::Opened::opened_arguments))]
fn unknown_argument_at(schema: &Schema, meaning: Meaning, argument: &Argument) -> Option<usize>
    ensures { result ≡ unknown_argument_at (schema_data schema.now) (meaning_data meaning) (named_value argument.now) }
{
    let unknown = is_unknown_argument(schema, meaning, argument.name.text.as_str());
    fault_where(unknown, argument.name.at)
}

fn first_unknown(schema: &Schema, meaning: Meaning, arguments: &[Argument]) -> Option<usize>
    ensures { result ≡ first_of (unknown_argument_at (schema_data schema.now) (meaning_data meaning)) (map named_value arguments.now) }
{
    for argument in arguments {
        if let Some(at) = unknown_argument_at(schema, meaning, argument) {
            return Some(at);
        }
    }
    None
}

/// Refuses an argument that the field doesn't have. `__typename` has none.
#[derive(Clone, Copy)]
pub struct UnknownArgument<'c> {
    pub schema: &'c Schema,
}

impl<'c> SiteRule for UnknownArgument<'c> {
    ghost use Rattle.schema_model.specs.SchemaViews.{schema_data};
    ghost use Rattle.document_rules.specs.Rules.{unknown_argument};

    ghost breaks = { λ rule. unknown_argument (schema_data rule.schema.now) };

    fn broken(&self, _alloc: Global, site: Site<'_>) -> Result<Option<usize>, AllocError> {
        match site {
            Site::Field { meaning, field } => {
                Ok(first_unknown(self.schema, meaning, field.arguments.as_slice()))
            }
            _ => Ok(None),
        }
    }
}
