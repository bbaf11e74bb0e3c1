//! The classes of operations.

ghost use Rattle.std.specs.Prelude.{◌≡◌, map};
ghost use Rattle.document_rules.specs.Views.{seen_name};
ghost use Rattle.operation_class.specs.Classes.{is_meta_field, is_further_field, has_meta_field, first_further_field, class_by_fields};

use gql_base::Name;

/// Where an operation is answered.
#[derive(Clone, Copy, Debug, PartialEq, Eq)]
pub enum Class {
    /// By the upstream server.
    Upstream,
    /// By the gateway, from its own schema (GraphQL October 2021, 4).
    Local,
    /// By neither: beside a field that the gateway answers stands one that it can't, whose name begins at this offset.
    Mixed { at: usize },
}

fn is_meta_field(name: &str) -> bool
    ensures { result ≡ is_meta_field name.now }
{
    name == "__schema" || name == "__type"
}

fn is_further_field(name: &str) -> bool
    ensures { result ≡ is_further_field name.now }
{
    !is_meta_field(name) && !(name == "__typename")
}

fn has_meta_field(fields: &[&Name]) -> bool
    ensures { result ≡ has_meta_field (map seen_name fields.now) }
{
    'fields: for field in fields {
        if is_meta_field(field.text.as_str()) {
            return true;
        }
    }
    false
}

fn first_further_field(fields: &[&Name]) -> Option<usize>
    ensures { result ≡ first_further_field (map seen_name fields.now) }
{
    'fields: for field in fields {
        if is_further_field(field.text.as_str()) {
            return Some(field.at);
        }
    }
    None
}

/// The class of a query with these fields at its root.
pub fn class_by_fields(fields: &[&Name]) -> Class
    ensures { result ≡ class_by_fields (map seen_name fields.now) }
{
    if !has_meta_field(fields) {
        return Class::Upstream;
    }
    match first_further_field(fields) {
        Some(at) => Class::Mixed { at },
        None => Class::Local,
    }
}
