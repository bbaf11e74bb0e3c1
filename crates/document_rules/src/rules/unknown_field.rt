//! Each field is one of the type that it is written on (GraphQL October 2021, 5.3.1).

ghost use Rattle.std.specs.Prelude.{◌≡◌};
ghost use Rattle.document_rules.specs.Rules.{is_no_such_field};
ghost use Rattle.document_rules.specs.Views.{meaning_data};

use crate::lookups::Meaning;
use crate::site_rule::{SiteRule, fault_where};
use crate::sites::Site;
use std::alloc::{AllocError, Global};

fn is_no_such_field(meaning: Meaning) -> bool
    ensures { result ≡ is_no_such_field (meaning_data meaning) }
{
    match meaning {
        Meaning::NoSuchField => true,
        Meaning::NoPosition | Meaning::NameOfType | Meaning::Known(_) => false,
    }
}

/// Refuses a field that the type doesn't have.
#[derive(Clone, Copy)]
pub struct UnknownField;

impl SiteRule for UnknownField {
    ghost use Rattle.document_rules.specs.Rules.{unknown_field};

    ghost breaks = { λ _. unknown_field };

    fn broken(&self, _alloc: Global, site: Site<'_>) -> Result<Option<usize>, AllocError> {
        match site {
            Site::Field { meaning, field } => Ok(fault_where(
                is_no_such_field(meaning),
                field.name.at,
            )),
            _ => Ok(None),
        }
    }
}
