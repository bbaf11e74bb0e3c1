//! No type, field, argument or input field has a name that begins with two underscores (GraphQL October 2021, 2.1.9).

ghost use Rattle.std.specs.Prelude.{◌≡◌, map};
ghost use Rattle.schema_rules.specs.First.{first_of};
ghost use Rattle.schema_rules.specs.Reserved.{begins_reserved, is_reserved, reserved_at, reserved, reserved_if};
ghost use Rattle.schema_rules.specs.Views.{item_tree, maybe_place};

use crate::items::{Item, place_of};
use crate::place::Place;

fn begins_reserved(name: &str) -> bool
    ensures { result ≡ begins_reserved name.now }
{
    match name.as_bytes() {
        [first, second, ..] => *first == b'_' && *second == b'_',
        _ => false,
    }
}

fn is_reserved(item: Item<'_>) -> bool
    ensures { result ≡ is_reserved (item_tree item.entry) }
{
    match item {
        Item::Type {
            name,
            kind: _,
            is_empty: _,
            directives: _,
        } => begins_reserved(name),
        Item::Field { of: _, name } => begins_reserved(name),
        Item::Argument {
            of: _,
            field: _,
            input,
        } => begins_reserved(input.name.as_str()),
        Item::InputField { of: _, input } => begins_reserved(input.name.as_str()),
        Item::DirectiveArgument {
            directive: _,
            input,
        } => begins_reserved(input.name.as_str()),
        _ => false,
    }
}

/// The place of the first reserved name.
pub fn first_reserved<'a>(items: &[Item<'a>]) -> Option<Place<'a>>
    ensures { maybe_place result ≡ reserved (map item_tree items.now) }
{
    for item in items {
        if is_reserved(*item) {
            return Some(place_of(*item));
        }
    }
    None
}

/// The place of the first reserved name, where these are refused.
pub fn first_reserved_if<'a>(refused: bool, items: &[Item<'a>]) -> Option<Place<'a>>
    ensures { maybe_place result ≡ reserved_if refused (map item_tree items.now) }
{
    if refused { first_reserved(items) } else { None }
}
