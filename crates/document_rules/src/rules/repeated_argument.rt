//! No argument of a field is written twice (GraphQL October 2021, 5.4.2).

ghost use Rattle.std.specs.Prelude.{◌≡◌, map, IfOk};
ghost use Rattle.gql_base.specs.parts.Trees.{named_value};
ghost use Rattle.document_rules.specs.Parts.{repeated_at};
ghost use Rattle.document_rules.specs.Rules.{argument_identifier};

use crate::site_rule::SiteRule;
use crate::sites::Site;
use gql_base::{Argument, first_repeated};
use std::alloc::{AllocError, Global};

fn first_repeated_argument(
    alloc: Global,
    arguments: &[Argument],
) -> Result<Option<usize>, AllocError>
    ensures { IfOk result (λ at. at ≡ repeated_at (map argument_identifier (map named_value arguments.now))) }
{
    match first_repeated(alloc, arguments)? {
        Some(place) => Ok(Some(arguments[place].name.at)),
        None => Ok(None),
    }
}

/// Refuses the second of two arguments of one name.
#[derive(Clone, Copy)]
pub struct RepeatedArgument;

impl SiteRule for RepeatedArgument {
    ghost use Rattle.document_rules.specs.Rules.{repeated_argument};

    ghost breaks = { λ _. repeated_argument };

    fn broken(&self, alloc: Global, site: Site<'_>) -> Result<Option<usize>, AllocError> {
        match site {
            Site::Field { field, .. } => {
                first_repeated_argument(alloc, field.arguments.as_slice())
            }
            _ => Ok(None),
        }
    }
}
