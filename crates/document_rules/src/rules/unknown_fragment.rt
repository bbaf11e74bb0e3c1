//! Each spread names a fragment of the document (GraphQL October 2021, 5.5.2.1).

use crate::indexes::{Defined, is_defined};
use crate::site_rule::{SiteRule, fault_where};
use crate::sites::Site;
use gql_base::Indexed;
use std::alloc::{AllocError, Global};

/// Refuses a spread that names no fragment.
#[derive(Clone, Copy)]
pub struct UnknownFragment<'c, 'a> {
    pub fragments: &'c Indexed<Defined<'a>>,
}

impl<'c, 'a> SiteRule for UnknownFragment<'c, 'a> {
    ghost use Rattle.std.specs.Prelude.{map};
    ghost use Rattle.document_rules.specs.Rules.{unknown_fragment};
    ghost use Rattle.document_rules.specs.Views.{defined_data};

    ghost breaks = { λ rule. unknown_fragment (map defined_data rule.fragments.now.items.items) };

    fn broken(&self, _alloc: Global, site: Site<'_>) -> Result<Option<usize>, AllocError> {
        match site {
            Site::Spread { name, .. } => {
                let known = is_defined(self.fragments, name.text.as_str());
                Ok(fault_where(!known, name.at))
            }
            _ => Ok(None),
        }
    }
}
