//! `@skip` and `@include` stand at selections alone, each once, with one argument `if` that is a boolean or a variable
//! (GraphQL October 2021, 5.7.2, 5.7.3 and 5.4.2.1).

ghost use Rattle.std.specs.Prelude.{◌≡◌, [], ◌∷◌, map};
ghost use Rattle.gql_base.specs.names.Names.{has_name};
ghost use Rattle.gql_base.specs.parts.Trees.{named_value, directive_tree};
ghost use Rattle.schema_rules.specs.First.{first_of};
ghost use Rattle.schema_rules.specs.Views.{literal_tree};
ghost use Rattle.document_rules.specs.Rules.{condition_at, is_boolean_or_variable, is_if, directive_name, is_misused, first_misused};

use crate::rules::unknown_directive::is_condition;
use crate::site_rule::{SiteRule, fault_where};
use crate::sites::Site;
use gql_base::{Argument, Directive};
use schema_rules::{Literal, opened};
use std::alloc::{AllocError, Global};

fn condition_at(directive: &Directive) -> Option<usize>
    ensures { result ≡ condition_at (directive_tree directive.now) }
{
    fault_where(
        is_condition(directive.name.text.as_str()),
        directive.name.at,
    )
}

fn first_condition(directives: &[Directive]) -> Option<usize>
    ensures { result ≡ first_of condition_at (map directive_tree directives.now) }
{
    for directive in directives {
        if let Some(at) = condition_at(directive) {
            return Some(at);
        }
    }
    None
}

fn is_boolean_or_variable(literal: Literal<'_>) -> bool
    ensures { result ≡ is_boolean_or_variable (literal_tree literal.entry) }
{
    match literal {
        Literal::Var { .. } => true,
        Literal::Bool(_) => true,
        _ => false,
    }
}

#[tactic(auto, using(crate::proofs::Opened::opened_arguments))]
fn is_if_argument(argument: &Argument) -> bool
    ensures { result ≡ is_if (named_value argument.now ∷ []) }
{
    argument.name.text.as_str() == "if" && is_boolean_or_variable(opened(&argument.value))
}

/// Whether there is exactly one argument, which is `if` and is a boolean or a variable.
fn is_if(arguments: &[Argument]) -> bool
    ensures { result ≡ is_if (map named_value arguments.now) }
{
    match arguments {
        [argument] => is_if_argument(argument),
        _ => false,
    }
}

fn has_directive(directives: &[Directive], name: &str) -> bool
    ensures { result ≡ has_name directive_name (map directive_tree directives.now) name.now }
{
    for directive in directives {
        if directive.name.text.as_str() == name {
            return true;
        }
    }
    false
}

/// Whether a directive is used wrongly behind others.
fn is_misused(before: &[Directive], directive: &Directive) -> bool
    ensures { result ≡ is_misused (map directive_tree before.now) (directive_tree directive.now) }
{
    let name = directive.name.text.as_str();
    is_condition(name) && (has_directive(before, name) || !is_if(directive.arguments.as_slice()))
}

fn first_misused(directives: &[Directive]) -> Option<usize>
    ensures { result ≡ first_misused [] (map directive_tree directives.now) }
{
    for at in 0..directives.len() {
        let directive = &directives[at];
        if is_misused(&directives[..at], directive) {
            return Some(directive.name.at);
        }
    }
    None
}

/// Refuses `@skip` and `@include` where they may not stand, where one of them stands twice, and where it hasn't exactly
/// one argument `if` that is a boolean or a variable.
#[derive(Clone, Copy)]
pub struct DirectiveUse;

impl SiteRule for DirectiveUse {
    ghost use Rattle.document_rules.specs.Rules.{directive_use};

    ghost breaks = { λ _. directive_use };

    fn broken(&self, _alloc: Global, site: Site<'_>) -> Result<Option<usize>, AllocError> {
        match site {
            Site::Variable(variable) => Ok(first_condition(variable.directives.as_slice())),
            Site::Operation(operation) => Ok(first_condition(operation.directives.as_slice())),
            Site::Fragment(fragment) => Ok(first_condition(fragment.directives.as_slice())),
            Site::Field { field, .. } => Ok(first_misused(field.directives.as_slice())),
            Site::Spread { directives, .. } => Ok(first_misused(directives)),
            Site::Inline { directives, .. } => Ok(first_misused(directives)),
        }
    }
}
