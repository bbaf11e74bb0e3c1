//! No field, argument or input field has the type Float, and no scalar is named so, unless the text lets floats in: by a definition
//! of the scalar Float with `@floats`.

ghost use Rattle.std.specs.Prelude.{◌≡◌, map, codes};
ghost use Rattle.schema_rules.specs.First.{first_of};
ghost use Rattle.schema_rules.specs.FloatScalar.{is_float_name, is_float, float_at, lets_floats_in, allows_floats, float_scalar};
ghost use Rattle.schema_rules.specs.Views.{item_tree, maybe_place};

use crate::directive_uses::is_lax;
use crate::items::{Item, innermost, place_of};
use crate::place::Place;

fn is_float_name(name: &str) -> bool
    ensures { result ≡ is_float_name name.now }
{
    name == "Float"
}

fn is_float(item: Item<'_>) -> bool
    ensures { result ≡ is_float (item_tree item.entry) }
{
    match item {
        Item::Type {
            name,
            kind,
            is_empty: _,
            directives: _,
        } => kind.is_scalar() && is_float_name(name),
        Item::Argument {
            of: _,
            field: _,
            input,
        } => is_float_name(innermost(&input.of)),
        Item::FieldType { of: _, field } => is_float_name(innermost(&field.of)),
        Item::InputField { of: _, input } => is_float_name(innermost(&input.of)),
        Item::DirectiveArgument {
            directive: _,
            input,
        } => is_float_name(innermost(&input.of)),
        _ => false,
    }
}

fn lets_floats_in(item: Item<'_>) -> bool
    ensures { result ≡ lets_floats_in (item_tree item.entry) }
{
    match item {
        Item::Type {
            name,
            kind,
            is_empty: _,
            directives,
        } => kind.is_scalar() && (is_float_name(name) && is_lax(directives)),
        _ => false,
    }
}

/// Whether the text defines the scalar Float with `@floats`.
fn allows_floats(items: &[Item<'_>]) -> bool
    ensures { result ≡ allows_floats (map item_tree items.now) }
{
    for item in items {
        if lets_floats_in(*item) {
            return true;
        }
    }
    false
}

/// The place of the first Float.
fn first_float<'a>(items: &[Item<'a>]) -> Option<Place<'a>>
    ensures { maybe_place result ≡ first_of float_at (map item_tree items.now) }
{
    for item in items {
        if is_float(*item) {
            return Some(place_of(*item));
        }
    }
    None
}

/// The place of the first Float, where the text doesn't let floats in.
pub fn first_float_scalar<'a>(items: &[Item<'a>]) -> Option<Place<'a>>
    ensures { maybe_place result ≡ float_scalar (map item_tree items.now) }
{
    if allows_floats(items) {
        None
    } else {
        first_float(items)
    }
}
