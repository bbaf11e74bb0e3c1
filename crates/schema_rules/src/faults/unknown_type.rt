//! Each name of a type is that of a type of the text or of a built-in scalar.

ghost use Rattle.std.specs.Prelude.{◌≡◌, map};
ghost use Rattle.schema_rules.specs.First.{first_of, fault_where};
ghost use Rattle.schema_rules.specs.UnknownType.{unless_known, unknown_at, unknown_type};
ghost use Rattle.schema_rules.specs.Views.{item_tree, named_kind, maybe_name};

use crate::items::{Item, type_mentioned};
use crate::type_names::{TypeName, has_type};
use gql_base::NameIndex;

fn unknown_at<'a>(types: &NameIndex<'_, TypeName<'_>>, item: Item<'a>) -> Option<&'a str>
    ensures { maybe_name result ≡ unknown_at (map named_kind types.now.items.now) (item_tree item.entry) }
{
    match type_mentioned(item) {
        Some(name) => {
            if has_type(types, name) {
                None
            } else {
                Some(name)
            }
        }
        None => None,
    }
}

/// The first name that no type has.
pub fn first_unknown_type<'a>(
    types: &NameIndex<'_, TypeName<'_>>,
    items: &[Item<'a>],
) -> Option<&'a str>
    ensures { maybe_name result ≡ unknown_type (map named_kind types.now.items.now) (map item_tree items.now) }
{
    for item in items {
        match unknown_at(types, *item) {
            Some(name) => return Some(name),
            None => {}
        }
    }
    None
}
