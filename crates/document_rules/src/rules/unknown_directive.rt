//! Each directive is defined (GraphQL October 2021, 5.7.1).

ghost use Rattle.std.specs.Prelude.{◌≡◌, map};
ghost use Rattle.gql_base.specs.parts.Trees.{directive_tree};
ghost use Rattle.schema_rules.specs.First.{first_of};
ghost use Rattle.schema_model.specs.SchemaViews.{schema_data};
ghost use Rattle.document_rules.specs.Rules.{is_condition, unknown_at};

use crate::site_rule::{SiteRule, fault_where};
use crate::sites::Site;
use gql_base::Directive;
use schema_model::Schema;
use std::alloc::{AllocError, Global};

/// Whether a directive is `@skip` or `@include`.
pub fn is_condition(name: &str) -> bool
    ensures { result ≡ is_condition name.now }
{
    name == "skip" || name == "include"
}

fn unknown_at(schema: &Schema, directive: &Directive) -> Option<usize>
    ensures { result ≡ unknown_at (schema_data schema.now) (directive_tree directive.now) }
{
    let name = directive.name.text.as_str();
    let known = is_condition(name) || schema.has_directive(name);
    fault_where(!known, directive.name.at)
}

fn first_unknown(schema: &Schema, directives: &[Directive]) -> Option<usize>
    ensures { result ≡ first_of (unknown_at (schema_data schema.now)) (map directive_tree directives.now) }
{
    for directive in directives {
        if let Some(at) = unknown_at(schema, directive) {
            return Some(at);
        }
    }
    None
}

/// Refuses a directive that is neither `@skip` nor `@include`, and that the schema doesn't define.
#[derive(Clone, Copy)]
pub struct UnknownDirective<'c> {
    pub schema: &'c Schema,
}

impl<'c> SiteRule for UnknownDirective<'c> {
    ghost use Rattle.schema_model.specs.SchemaViews.{schema_data};
    ghost use Rattle.document_rules.specs.Rules.{unknown_directive};

    ghost breaks = { λ rule. unknown_directive (schema_data rule.schema.now) };

    fn broken(&self, _alloc: Global, site: Site<'_>) -> Result<Option<usize>, AllocError> {
        Ok(first_unknown(self.schema, site.directives()))
    }
}
