//! Fields have output types, arguments and input fields have input types; the types of operations and the members of unions
//! are object types; a type implements interfaces, and none itself (GraphQL October 2021, 3.3.1, 3.6, 3.7, 3.8 and 3.10).

ghost use Rattle.std.specs.Prelude.{◌≡◌, map, codes};
ghost use Rattle.schema_rules.specs.First.{first_of};
ghost use Rattle.schema_rules.specs.Roots.{has_schema};
ghost use Rattle.schema_rules.specs.WrongKind.{is_usual_root, is_wrong, wrong_at, wrong_kind};
ghost use Rattle.schema_rules.specs.Views.{item_tree, named_kind, maybe_place};

use crate::items::{Item, innermost, place_of};
use crate::place::Place;
use crate::roots::has_schema;
use crate::type_names::{TypeName, kind_named};
use gql_base::NameIndex;

fn is_usual_root(name: &str) -> bool
    ensures { result ≡ is_usual_root name.now }
{
    name == "Query" || name == "Mutation" || name == "Subscription"
}

fn is_wrong(types: &NameIndex<'_, TypeName<'_>>, has_schema: bool, item: Item<'_>) -> bool
    ensures { result ≡ is_wrong (map named_kind types.now.items.now) has_schema (item_tree item.entry) }
{
    match item {
        Item::Root { kind: _, name } => !kind_named(types, name).is_object(),
        Item::Type {
            name,
            kind,
            is_empty: _,
            directives: _,
        } => {
            let usual = is_usual_root(name);
            let object = kind.is_object();
            !has_schema & usual & !object
        }
        Item::Interface { of, name } => {
            let interface = kind_named(types, name).is_interface();
            let same = name == of;
            !interface | same
        }
        Item::Member { of: _, name } => !kind_named(types, name).is_object(),
        Item::Argument {
            of: _,
            field: _,
            input,
        } => kind_named(types, innermost(&input.of)).is_output_only(),
        Item::FieldType { of: _, field } => kind_named(types, innermost(&field.of)).is_input_only(),
        Item::InputField { of: _, input } => kind_named(
            types,
            innermost(&input.of),
        ).is_output_only(),
        Item::DirectiveArgument {
            directive: _,
            input,
        } => kind_named(types, innermost(&input.of)).is_output_only(),
        _ => false,
    }
}

fn first_wrong<'a>(
    types: &NameIndex<'_, TypeName<'_>>,
    has_schema: bool,
    items: &[Item<'a>],
) -> Option<Place<'a>>
    ensures { maybe_place result ≡ first_of (wrong_at (map named_kind types.now.items.now) has_schema) (map item_tree items.now) }
{
    for item in items {
        if is_wrong(types, has_schema, *item) {
            return Some(place_of(*item));
        }
    }
    None
}

/// The place of the first type of a wrong kind.
pub fn first_wrong_kind<'a>(
    types: &NameIndex<'_, TypeName<'_>>,
    items: &[Item<'a>],
) -> Option<Place<'a>>
    ensures { maybe_place result ≡ wrong_kind (map named_kind types.now.items.now) (map item_tree items.now) }
{
    first_wrong(types, has_schema(items), items)
}
