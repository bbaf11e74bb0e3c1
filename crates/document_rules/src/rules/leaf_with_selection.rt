//! A field of a scalar or enum type has no selections (GraphQL October 2021, 5.3.3).

ghost use Rattle.std.specs.Prelude.{◌≡◌};
ghost use Rattle.schema_model.specs.SchemaViews.{schema_data};
ghost use Rattle.document_rules.specs.Rules.{is_leaf};
ghost use Rattle.document_rules.specs.Views.{meaning_data};

use crate::lookups::{Meaning, is_composite, type_of_field};
use crate::site_rule::{SiteRule, fault_where};
use crate::sites::Site;
use schema_model::Schema;
use std::alloc::{AllocError, Global};

fn is_leaf(schema: &Schema, meaning: Meaning) -> bool
    ensures { result ≡ is_leaf (schema_data schema.now) (meaning_data meaning) }
{
    match meaning {
        Meaning::NoPosition | Meaning::NoSuchField => false,
        Meaning::NameOfType => true,
        Meaning::Known(field) => !is_composite(schema, type_of_field(schema, field)),
    }
}

/// Refuses a field of a scalar or enum type, and `__typename`, where it has selections.
#[derive(Clone, Copy)]
pub struct LeafWithSelection<'c> {
    pub schema: &'c Schema,
}

impl<'c> SiteRule for LeafWithSelection<'c> {
    ghost use Rattle.schema_model.specs.SchemaViews.{schema_data};
    ghost use Rattle.document_rules.specs.Rules.{leaf_with_selection};

    ghost breaks = { λ rule. leaf_with_selection (schema_data rule.schema.now) };

    fn broken(&self, _alloc: Global, site: Site<'_>) -> Result<Option<usize>, AllocError> {
        match site {
            Site::Field { meaning, field } => {
                let wrong = !field.selections.is_empty() && is_leaf(self.schema, meaning);
                Ok(fault_where(wrong, field.name.at))
            }
            _ => Ok(None),
        }
    }
}
