//! A variable has an input type (GraphQL October 2021, 5.8.2). Float is one where the schema lets it in.

ghost use Rattle.std.specs.Prelude.{◌≡◌, option_map};
ghost use Rattle.gql_base.specs.parts.Trees.{type_tree, identifier_of};
ghost use Rattle.schema_model.specs.Numbers.{type_number};
ghost use Rattle.schema_model.specs.SchemaViews.{schema_data};
ghost use Rattle.document_rules.specs.Rules.{named_in, is_input, no_input};

use crate::lookups::is_composite;
use crate::site_rule::{SiteRule, fault_where};
use crate::sites::Site;
use gql_base::{Name, TypeRef};
use input_values::TypeId;
use schema_model::Schema;
use std::alloc::{AllocError, Global};

/// The name inside of a type.
#[tactic(auto, using(crate::proofs::Opened::named_levels))]
fn named_in(of: &TypeRef) -> &Name
    ensures { identifier_of result.now ≡ named_in (type_tree of.now) }
{
    match of {
        TypeRef::Named(name) => name,
        TypeRef::ListOf(item) => named_in(&**item),
        TypeRef::NonNull(inner) => named_in(&**inner),
    }
}

fn is_input(schema: &Schema, of: Option<TypeId>) -> bool
    ensures { result ≡ is_input (schema_data schema.now) (option_map type_number of) }
{
    match of {
        Some(of) => !is_composite(schema, of),
        None => false,
    }
}

fn no_input(schema: &Schema, name: &Name) -> Option<usize>
    ensures { result ≡ no_input (schema_data schema.now) (identifier_of name.now) }
{
    let text = name.text.as_str();
    let wrong = (text == "Float" && !schema.takes_float()) || !is_input(schema, schema.find(text));
    fault_where(wrong, name.at)
}

/// Refuses a variable whose type names no scalar, enum or input object type, or names Float where the schema does not let it in.
#[derive(Clone, Copy)]
pub struct VariableType<'c> {
    pub schema: &'c Schema,
}

impl<'c> SiteRule for VariableType<'c> {
    ghost use Rattle.schema_model.specs.SchemaViews.{schema_data};
    ghost use Rattle.document_rules.specs.Rules.{variable_type};

    ghost breaks = { λ rule. variable_type (schema_data rule.schema.now) };

    fn broken(&self, _alloc: Global, site: Site<'_>) -> Result<Option<usize>, AllocError> {
        match site {
            Site::Variable(variable) => Ok(no_input(self.schema, named_in(&variable.of))),
            _ => Ok(None),
        }
    }
}
