//! No field has a list of lists: `@listSize` declares one size.

ghost use Rattle.std.specs.Prelude.{◌≡◌, map};
ghost use Rattle.gql_base.specs.parts.Trees.{type_tree};
ghost use Rattle.schema_rules.specs.First.{first_of};
ghost use Rattle.schema_rules.specs.NestedList.{is_list, is_nested, has_nested, nested_at, nested_list};
ghost use Rattle.schema_rules.specs.Views.{item_tree, maybe_place};

use crate::items::{Item, place_of};
use crate::place::Place;
use gql_base::TypeRef;

#[tactic(auto, using(crate::proofs::OpenedTrees::list_levels))]
fn is_list(of: &TypeRef) -> bool
    ensures { result ≡ is_list (type_tree of.now) }
{
    match of {
        TypeRef::Named(_) => false,
        TypeRef::ListOf(_) => true,
        TypeRef::NonNull(inner) => is_list(inner),
    }
}

#[tactic(auto, using(crate::proofs::OpenedTrees::nested_levels))]
fn is_nested(of: &TypeRef) -> bool
    ensures { result ≡ is_nested (type_tree of.now) }
{
    match of {
        TypeRef::Named(_) => false,
        TypeRef::ListOf(item) => is_list(item),
        TypeRef::NonNull(inner) => is_nested(inner),
    }
}

fn has_nested(item: Item<'_>) -> bool
    ensures { result ≡ has_nested (item_tree item.entry) }
{
    match item {
        Item::FieldType { of: _, field } => is_nested(&field.of),
        _ => false,
    }
}

/// The place of the first list of lists.
pub fn first_nested_list<'a>(items: &[Item<'a>]) -> Option<Place<'a>>
    ensures { maybe_place result ≡ nested_list (map item_tree items.now) }
{
    for item in items {
        if has_nested(*item) {
            return Some(place_of(*item));
        }
    }
    None
}
