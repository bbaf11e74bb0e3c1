//! A fragment is on an object, interface or union type (GraphQL October 2021, 5.5.1.2 and 5.5.1.3).

ghost use Rattle.std.specs.Prelude.{◌≡◌};
ghost use Rattle.gql_base.specs.parts.Trees.{identifier_of};
ghost use Rattle.document_reader.specs.Trees.{maybe_identifier};
ghost use Rattle.schema_model.specs.SchemaViews.{schema_data};
ghost use Rattle.document_rules.specs.Rules.{no_composite, no_composite_if_there};

use crate::lookups::composite_named;
use crate::site_rule::{SiteRule, fault_where};
use crate::sites::Site;
use gql_base::Name;
use schema_model::Schema;
use std::alloc::{AllocError, Global};

fn no_composite(schema: &Schema, name: &Name) -> Option<usize>
    ensures { result ≡ no_composite (schema_data schema.now) (identifier_of name.now) }
{
    let known = composite_named(schema, name.text.as_str()).is_some();
    fault_where(!known, name.at)
}

fn no_composite_if_there(schema: &Schema, name: &Option<Name>) -> Option<usize>
    ensures { result ≡ no_composite_if_there (schema_data schema.now) (maybe_identifier name.now) }
{
    match name {
        Some(name) => no_composite(schema, name),
        None => None,
    }
}

/// Refuses a type condition that names no object, interface or union type.
#[derive(Clone, Copy)]
pub struct FragmentOn<'c> {
    pub schema: &'c Schema,
}

impl<'c> SiteRule for FragmentOn<'c> {
    ghost use Rattle.schema_model.specs.SchemaViews.{schema_data};
    ghost use Rattle.document_rules.specs.Rules.{fragment_on};

    ghost breaks = { λ rule. fragment_on (schema_data rule.schema.now) };

    fn broken(&self, _alloc: Global, site: Site<'_>) -> Result<Option<usize>, AllocError> {
        match site {
            Site::Fragment(fragment) => Ok(no_composite(self.schema, &fragment.on)),
            Site::Inline { on, .. } => Ok(no_composite_if_there(self.schema, on)),
            _ => Ok(None),
        }
    }
}
