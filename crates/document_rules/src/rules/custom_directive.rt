//! No directive but `@skip` and `@include` is answered here, though a schema may define others (GraphQL October 2021, 3.13).

ghost use Rattle.std.specs.Prelude.{◌≡◌, map};
ghost use Rattle.gql_base.specs.parts.Trees.{directive_tree};
ghost use Rattle.schema_rules.specs.First.{first_of};
ghost use Rattle.schema_model.specs.SchemaViews.{schema_data};
ghost use Rattle.document_rules.specs.Rules.{custom_at};

use crate::rules::unknown_directive::is_condition;
use crate::site_rule::{SiteRule, fault_where};
use crate::sites::Site;
use gql_base::Directive;
use schema_model::Schema;
use std::alloc::{AllocError, Global};

fn custom_at(schema: &Schema, directive: &Directive) -> Option<usize>
    ensures { result ≡ custom_at (schema_data schema.now) (directive_tree directive.now) }
{
    let name = directive.name.text.as_str();
    let custom = !is_condition(name) && schema.has_directive(name);
    fault_where(custom, directive.name.at)
}

fn first_custom(schema: &Schema, directives: &[Directive]) -> Option<usize>
    ensures { result ≡ first_of (custom_at (schema_data schema.now)) (map directive_tree directives.now) }
{
    for directive in directives {
        if let Some(at) = custom_at(schema, directive) {
            return Some(at);
        }
    }
    None
}

/// Refuses a directive other than `@skip` and `@include` that the schema defines.
#[derive(Clone, Copy)]
pub struct CustomDirective<'c> {
    pub schema: &'c Schema,
}

impl<'c> SiteRule for CustomDirective<'c> {
    ghost use Rattle.schema_model.specs.SchemaViews.{schema_data};
    ghost use Rattle.document_rules.specs.Rules.{custom_directive};

    ghost breaks = { λ rule. custom_directive (schema_data rule.schema.now) };

    fn broken(&self, _alloc: Global, site: Site<'_>) -> Result<Option<usize>, AllocError> {
        Ok(first_custom(self.schema, site.directives()))
    }
}
