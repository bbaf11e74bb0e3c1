//! A field of an object, interface or union type has selections (GraphQL October 2021, 5.3.3).

ghost use Rattle.std.specs.Prelude.{◌≡◌};
ghost use Rattle.schema_model.specs.SchemaViews.{schema_data};
ghost use Rattle.document_rules.specs.Rules.{is_of_composite};
ghost use Rattle.document_rules.specs.Views.{meaning_data};

use crate::lookups::{Meaning, is_composite, type_of_field};
use crate::site_rule::{SiteRule, fault_where};
use crate::sites::Site;
use schema_model::Schema;
use std::alloc::{AllocError, Global};

fn is_of_composite(schema: &Schema, meaning: Meaning) -> bool
    ensures { result ≡ is_of_composite (schema_data schema.now) (meaning_data meaning) }
{
    match meaning {
        Meaning::NoPosition | Meaning::NoSuchField | Meaning::NameOfType => false,
        Meaning::Known(field) => is_composite(schema, type_of_field(schema, field)),
    }
}

/// Refuses a field of an object, interface or union type without selections.
#[derive(Clone, Copy)]
pub struct CompositeWithout<'c> {
    pub schema: &'c Schema,
}

impl<'c> SiteRule for CompositeWithout<'c> {
    ghost use Rattle.schema_model.specs.SchemaViews.{schema_data};
    ghost use Rattle.document_rules.specs.Rules.{composite_without};

    ghost breaks = { λ rule. composite_without (schema_data rule.schema.now) };

    fn broken(&self, _alloc: Global, site: Site<'_>) -> Result<Option<usize>, AllocError> {
        match site {
            Site::Field { meaning, field } => {
                let wrong = field.selections.is_empty() && is_of_composite(self.schema, meaning);
                Ok(fault_where(wrong, field.name.at))
            }
            _ => Ok(None),
        }
    }
}
