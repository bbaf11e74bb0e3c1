//! The types of the three kinds of operations (GraphQL October 2021, 3.3.1).

ghost use Rattle.std.specs.Prelude.{◌≡◌, map, codes};
ghost use Rattle.std.specs.List.{list_any};
ghost use Rattle.gql_base.specs.names.Names.{has_name};
ghost use Rattle.schema_rules.specs.First.{first_of, fault_where};
ghost use Rattle.schema_rules.specs.Roots.{is_schema, has_schema, is_same_kind, root_told, usual_name, root_name};
ghost use Rattle.schema_rules.specs.TypeNames.{name_of};
ghost use Rattle.schema_rules.specs.Views.{item_tree, named_kind, maybe_name};

use crate::items::Item;
use crate::type_names::{TypeName, has_type};
use gql_base::{NameIndex, OperationKind};

fn is_schema(item: Item<'_>) -> bool
    ensures { result ≡ is_schema (item_tree item.entry) }
{
    match item {
        Item::Schema { directives: _ } => true,
        _ => false,
    }
}

/// Whether a text has a schema definition.
pub fn has_schema(items: &[Item<'_>]) -> bool
    ensures { result ≡ has_schema (map item_tree items.now) }
{
    for item in items {
        if is_schema(*item) {
            return true;
        }
    }
    false
}

fn is_same_kind(a: OperationKind, b: OperationKind) -> bool
    ensures { result ≡ is_same_kind a b }
{
    match a {
        OperationKind::Query => match b {
            OperationKind::Query => true,
            OperationKind::Mutation | OperationKind::Subscription => false,
        },
        OperationKind::Mutation => match b {
            OperationKind::Mutation => true,
            OperationKind::Query | OperationKind::Subscription => false,
        },
        OperationKind::Subscription => match b {
            OperationKind::Subscription => true,
            OperationKind::Query | OperationKind::Mutation => false,
        },
    }
}

fn fault_where<'a>(holds: bool, name: &'a str) -> Option<&'a str>
    ensures { maybe_name result ≡ fault_where holds name.now }
{
    if holds { Some(name) } else { None }
}

fn root_told<'a>(wanted: OperationKind, item: Item<'a>) -> Option<&'a str>
    ensures { maybe_name result ≡ root_told wanted (item_tree item.entry) }
{
    match item {
        Item::Root { kind, name } => fault_where(is_same_kind(wanted, kind), name),
        _ => None,
    }
}

fn first_root<'a>(wanted: OperationKind, items: &[Item<'a>]) -> Option<&'a str>
    ensures { maybe_name result ≡ first_of (root_told wanted) (map item_tree items.now) }
{
    for item in items {
        match root_told(wanted, *item) {
            Some(name) => return Some(name),
            None => {}
        }
    }
    None
}

fn usual_name(kind: OperationKind) -> &'static str
    ensures { result.now ≡ usual_name kind }
{
    match kind {
        OperationKind::Query => "Query",
        OperationKind::Mutation => "Mutation",
        OperationKind::Subscription => "Subscription",
    }
}

fn usual_root<'a>(types: &NameIndex<'_, TypeName<'_>>, kind: OperationKind) -> Option<&'a str>
    ensures { maybe_name result ≡ fault_where (has_name name_of (map named_kind types.now.items.now) (usual_name kind)) (usual_name kind) }
{
    let name = usual_name(kind);
    fault_where(has_type(types, name), name)
}

/// The name of the type of a kind of operations: the one that the schema definition names, or without one the usual name,
/// where a type has it.
pub fn root_name<'a>(
    items: &[Item<'a>],
    types: &NameIndex<'_, TypeName<'_>>,
    kind: OperationKind,
) -> Option<&'a str>
    ensures { maybe_name result ≡ root_name (map item_tree items.now) (map named_kind types.now.items.now) kind }
{
    if has_schema(items) {
        first_root(kind, items)
    } else {
        usual_root(types, kind)
    }
}
