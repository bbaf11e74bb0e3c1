//! `@cost`, `@listSize` and `@floats` stand at their locations alone, each once at a place, and with the arguments that they have.

ghost use Rattle.std.specs.Prelude.{◌≡◌, map};
ghost use Rattle.schema_rules.specs.First.{first_of};
ghost use Rattle.schema_rules.specs.DirectiveUses.{are_right};
ghost use Rattle.schema_rules.specs.BadDirective.{may_weigh, may_be_lax, is_bad_use, bad_use_at, bad_directive};
ghost use Rattle.schema_rules.specs.Views.{item_tree, maybe_place};

use crate::directive_uses::are_right;
use crate::items::{Item, place_of};
use crate::kind::Kind;
use crate::place::Place;
use crate::type_names::is_built_in;

fn may_weigh(kind: Kind) -> bool
    ensures { result ≡ may_weigh kind }
{
    matches!(kind, Kind::Scalar | Kind::Object | Kind::Enum)
}

/// Whether a type of this name and kind may hold numbers that aren't whole. Int, String, Boolean and ID hold none (GraphQL
/// October 2021, 3.5).
fn may_be_lax(name: &str, kind: Kind) -> bool
    ensures { result ≡ may_be_lax name.now kind }
{
    kind.is_scalar() && (name == "Float" || !is_built_in(name))
}

fn is_bad_use(item: Item<'_>) -> bool
    ensures { result ≡ is_bad_use (item_tree item.entry) }
{
    match item {
        Item::Schema { directives } => !are_right(false, false, false, directives),
        Item::Type {
            name,
            kind,
            is_empty: _,
            directives,
        } => !are_right(may_weigh(kind), false, may_be_lax(name, kind), directives),
        Item::Argument {
            of: _,
            field: _,
            input,
        } => !are_right(true, false, false, &input.directives),
        Item::FieldType { of: _, field } => !are_right(true, true, false, &field.directives),
        Item::EnumValue { of: _, value } => !are_right(false, false, false, &value.directives),
        Item::InputField { of: _, input } => !are_right(true, false, false, &input.directives),
        Item::DirectiveArgument {
            directive: _,
            input,
        } => !are_right(true, false, false, &input.directives),
        _ => false,
    }
}

/// The place of the first directive that is wrong.
pub fn first_bad_directive<'a>(items: &[Item<'a>]) -> Option<Place<'a>>
    ensures { maybe_place result ≡ bad_directive (map item_tree items.now) }
{
    for item in items {
        if is_bad_use(*item) {
            return Some(place_of(*item));
        }
    }
    None
}
