//! Each type has a field, a value or a member, but for scalars.

ghost use Rattle.std.specs.Prelude.{◌≡◌, map};
ghost use Rattle.schema_rules.specs.First.{first_of, fault_where};
ghost use Rattle.schema_rules.specs.EmptyType.{empty_at, empty_type};
ghost use Rattle.schema_rules.specs.Views.{item_tree, maybe_name};

use crate::items::Item;

fn empty_at<'a>(item: Item<'a>) -> Option<&'a str>
    ensures { maybe_name result ≡ empty_at (item_tree item.entry) }
{
    match item {
        Item::Type {
            name,
            kind: _,
            is_empty,
            directives: _,
        } => { if is_empty { Some(name) } else { None } }
        _ => None,
    }
}

/// The name of the first empty type.
pub fn first_empty_type<'a>(items: &[Item<'a>]) -> Option<&'a str>
    ensures { maybe_name result ≡ empty_type (map item_tree items.now) }
{
    for item in items {
        match empty_at(*item) {
            Some(name) => return Some(name),
            None => {}
        }
    }
    None
}
