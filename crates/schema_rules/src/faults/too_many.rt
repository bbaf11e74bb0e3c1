//! A schema has at most 5,000 types and 50,000 fields of object and interface types.

ghost use Rattle.std.specs.Prelude.{◌≡◌, map, length};
ghost use Rattle.std.specs.List.{filter};
ghost use Rattle.schema_rules.specs.TooMany.{is_type, is_field, type_count, field_count, above, too_many};
ghost use Rattle.schema_rules.specs.Views.{item_tree};

use crate::items::Item;

fn is_type(item: Item<'_>) -> bool
    ensures { result ≡ is_type (item_tree item.entry) }
{
    match item {
        Item::Type {
            name: _,
            kind: _,
            is_empty: _,
            directives: _,
        } => true,
        _ => false,
    }
}

fn is_field(item: Item<'_>) -> bool
    ensures { result ≡ is_field (item_tree item.entry) }
{
    match item {
        Item::Field { of: _, name: _ } => true,
        _ => false,
    }
}

/// The number of types that a text defines.
pub fn type_count(items: &[Item<'_>]) -> usize
    ensures { result ≡ type_count (map item_tree items.now) }
{
    let mut count = 0;
    for at in 0..items.len() {
        if is_type(items[at]) {
            count += 1;
        }
    }
    count
}

/// The number of fields of object and interface types.
pub fn field_count(items: &[Item<'_>]) -> usize
    ensures { result ≡ field_count (map item_tree items.now) }
{
    let mut count = 0;
    for at in 0..items.len() {
        if is_field(items[at]) {
            count += 1;
        }
    }
    count
}

fn above(limit: usize, number: usize) -> Option<usize>
    ensures { result ≡ above limit number }
{
    if limit < number { Some(number) } else { None }
}

/// The number that is too great.
pub fn too_many(items: &[Item<'_>]) -> Option<usize>
    ensures { result ≡ too_many (map item_tree items.now) }
{
    match above(5000, type_count(items)) {
        Some(types) => Some(types),
        None => above(50000, field_count(items)),
    }
}
