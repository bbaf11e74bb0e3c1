//! Introspection but for `__typename` is asked of the schema of schemas alone (GraphQL October 2021, 4).

ghost use Rattle.std.specs.Prelude.{◌≡◌};
ghost use Rattle.schema_model.specs.SchemaViews.{schema_data};
ghost use Rattle.document_rules.specs.Rules.{is_meta_schema};
ghost use Rattle.schema_rules.specs.Reserved.{begins_reserved};

use crate::site_rule::{SiteRule, fault_where};
use crate::sites::Site;
use schema_model::Schema;
use std::alloc::{AllocError, Global};

fn begins_reserved(name: &str) -> bool
    ensures { result ≡ begins_reserved name.now }
{
    match name.as_bytes() {
        [first, second, ..] => *first == b'_' && *second == b'_',
        _ => false,
    }
}

/// Whether the schema is that of schemas themselves.
fn is_meta_schema(schema: &Schema) -> bool
    ensures { result ≡ is_meta_schema (schema_data schema.now) }
{
    schema.find("__Schema").is_some()
}

/// Refuses a field other than `__typename` whose name begins with two underscores, unless the schema is that of schemas
/// themselves.
#[derive(Clone, Copy)]
pub struct Introspection<'c> {
    pub schema: &'c Schema,
}

impl<'c> SiteRule for Introspection<'c> {
    ghost use Rattle.schema_model.specs.SchemaViews.{schema_data};
    ghost use Rattle.document_rules.specs.Rules.{introspection};

    ghost breaks = { λ rule. introspection (schema_data rule.schema.now) };

    fn broken(&self, _alloc: Global, site: Site<'_>) -> Result<Option<usize>, AllocError> {
        match site {
            Site::Field { field, .. } => {
                let name = field.name.text.as_str();
                let asks = begins_reserved(name)
                    && !(name == "__typename")
                    && !is_meta_schema(self.schema);
                Ok(fault_where(asks, field.name.at))
            }
            _ => Ok(None),
        }
    }
}
