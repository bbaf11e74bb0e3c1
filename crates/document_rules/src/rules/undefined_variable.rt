//! Each variable that is used is declared (GraphQL October 2021, 5.8.3).

ghost use Rattle.std.specs.Prelude.{◌≡◌, map};
ghost use Rattle.gql_base.specs.parts.Values.{values_from, fields_from};
ghost use Rattle.gql_base.specs.parts.Trees.{identifier_of, value_tree, named_value, directive_tree};
ghost use Rattle.schema_rules.specs.First.{first_of};
ghost use Rattle.document_rules.specs.VariablePlaces.{variables_in, variables_in_items, variables_in_fields};
ghost use Rattle.document_rules.specs.Rules.{undeclared, undefined_in, undefined_in_directive};
ghost use Rattle.document_rules.specs.Sites.{arguments_at};
ghost use Rattle.document_rules.specs.Views.{declared_tree, site_data};

use crate::indexes::{Declared, is_declared};
use crate::site_rule::{SiteRule, fault_where};
use crate::sites::Site;
use counted_work::Work;
use gql_base::{Argument, Directive, Indexed, Name, Value};
use std::alloc::{AllocError, Global};

fn undeclared(variables: &Indexed<Declared<'_>>, name: &Name) -> Option<usize>
    ensures { result ≡ undeclared (map declared_tree variables.now.items.items) (identifier_of name.now) }
{
    let known = is_declared(variables, name.text.as_str());
    fault_where(!known, name.at)
}

/// The first variable of a value that isn't declared.
#[cycle(undefined)]
fn undefined_in_value(
    work: Work<'_>,
    variables: &Indexed<Declared<'_>>,
    value: &Value,
) -> Option<usize>
    ensures { result ≡ first_of (undeclared (map declared_tree variables.now.items.items)) (variables_in (value_tree value.now)) }
{
    work.count(1);
    match value {
        Value::Var(name) => undeclared(variables, name),
        Value::List(items) => undefined_in_items(work, variables, items.as_slice()),
        Value::Object(fields) => undefined_in(work, variables, fields.as_slice()),
        Value::Int(_number) => None,
        Value::Float(_text) => None,
        Value::Str(_text) => None,
        Value::Bool(_truth) => None,
        Value::Null => None,
        Value::EnumName(_name) => None,
    }
}

#[cycle(undefined)]
fn undefined_in_items(
    work: Work<'_>,
    variables: &Indexed<Declared<'_>>,
    items: &[Value],
) -> Option<usize>
    ensures { result ≡ first_of (undeclared (map declared_tree variables.now.items.items)) (variables_in_items (values_from (map value_tree items.now))) }
{
    for item in items {
        match undefined_in_value(work, variables, item) {
            Some(at) => return Some(at),
            None => {}
        }
    }
    None
}

/// The first of arguments, or of the fields of an object.
#[cycle(undefined)]
fn undefined_in(
    work: Work<'_>,
    variables: &Indexed<Declared<'_>>,
    fields: &[Argument],
) -> Option<usize>
    ensures { result ≡ undefined_in (map declared_tree variables.now.items.items) (map named_value fields.now) }
{
    for field in fields {
        match undefined_in_argument(work, variables, field) {
            Some(at) => return Some(at),
            None => {}
        }
    }
    None
}

#[cycle(undefined)]
fn undefined_in_argument(
    work: Work<'_>,
    variables: &Indexed<Declared<'_>>,
    argument: &Argument,
) -> Option<usize>
    ensures { result ≡ first_of (undeclared (map declared_tree variables.now.items.items)) (variables_in (named_value argument.now).1) }
{
    undefined_in_value(work, variables, &argument.value)
}

fn undefined_in_directives(
    work: Work<'_>,
    variables: &Indexed<Declared<'_>>,
    directives: &[Directive],
) -> Option<usize>
    ensures { result ≡ first_of (undefined_in_directive (map declared_tree variables.now.items.items)) (map directive_tree directives.now) }
{
    for directive in directives {
        if let Some(at) = undefined_in(work, variables, directive.arguments.as_slice()) {
            return Some(at);
        }
    }
    None
}

/// The first variable of a field's arguments that isn't declared.
#[tactic(auto, unfolding(crate::specs::VariablePlaces::variables_in_fields))]
fn undefined_at_field(
    work: Work<'_>,
    variables: &Indexed<Declared<'_>>,
    site: Site<'_>,
) -> Option<usize>
    ensures { result ≡ undefined_in (map declared_tree variables.now.items.items) (arguments_at (site_data site.entry)) }
{
    match site {
        Site::Field { field, .. } => undefined_in(work, variables, field.arguments.as_slice()),
        _ => None,
    }
}

/// Refuses a variable that the operation doesn't declare.
#[derive(Clone, Copy)]
pub struct UndefinedVariable<'c, 'a> {
    pub variables: &'c Indexed<Declared<'a>>,
    pub work: Work<'c>,
}

impl<'c, 'a> SiteRule for UndefinedVariable<'c, 'a> {
    ghost use Rattle.std.specs.Prelude.{map};
    ghost use Rattle.document_rules.specs.Rules.{undefined_variable};
    ghost use Rattle.document_rules.specs.Views.{declared_tree};

    ghost breaks = { λ rule. undefined_variable (map declared_tree rule.variables.now.items.items) };

    fn broken(&self, _alloc: Global, site: Site<'_>) -> Result<Option<usize>, AllocError> {
        match undefined_at_field(self.work, self.variables, site) {
            Some(at) => Ok(Some(at)),
            None => Ok(undefined_in_directives(self.work, self.variables, site.directives())),
        }
    }
}
