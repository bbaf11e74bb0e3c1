//! No two variables of an operation share a name (GraphQL October 2021, 5.8.1).

ghost use Rattle.std.specs.Prelude.{◌≡◌, map, IfOk};
ghost use Rattle.document_reader.specs.Trees.{variable_tree};
ghost use Rattle.document_rules.specs.Parts.{repeated_at};
ghost use Rattle.document_rules.specs.Rules.{variable_identifier};
ghost use Rattle.document_rules.specs.Views.{declared_tree};

use crate::indexes::{Declared, declared_of};
use crate::site_rule::SiteRule;
use crate::sites::Site;
use document_reader::VariableDef;
use gql_base::first_repeated;
use std::alloc::{AllocError, Global};

fn repeated_at(alloc: Global, declared: &[Declared<'_>]) -> Result<Option<usize>, AllocError>
    ensures { IfOk result (λ at. at ≡ repeated_at (map variable_identifier (map declared_tree declared.now))) }
{
    match first_repeated(alloc, declared)? {
        Some(place) => Ok(Some(declared[place].variable.name.at)),
        None => Ok(None),
    }
}

fn first_repeated_variable(
    alloc: Global,
    variables: &[VariableDef],
) -> Result<Option<usize>, AllocError>
    ensures { IfOk result (λ at. at ≡ repeated_at (map variable_identifier (map variable_tree variables.now))) }
{
    let declared = declared_of(alloc, variables)?;
    repeated_at(alloc, declared.as_slice())
}

/// Refuses the second of two variables of one name.
#[derive(Clone, Copy)]
pub struct RepeatedVariable;

impl SiteRule for RepeatedVariable {
    ghost use Rattle.document_rules.specs.Rules.{repeated_variable};

    ghost breaks = { λ _. repeated_variable };

    fn broken(&self, alloc: Global, site: Site<'_>) -> Result<Option<usize>, AllocError> {
        match site {
            Site::Operation(operation) => {
                first_repeated_variable(alloc, operation.variables.as_slice())
            }
            _ => Ok(None),
        }
    }
}
