//! The built-in scalars that a schema has without defining them.

ghost use Rattle.std.specs.Prelude.{◌≡◌, ◌∷◌, ◌++◌, [], map, IfOk};
ghost use Rattle.gql_base.specs.names.Names.{has_name};
ghost use Rattle.schema_rules.specs.Views.{item_tree};
ghost use Rattle.schema_facts.specs.Facts.{known_type, known_name, mentions, is_mentioned, with_scalar, with_scalars};

use crate::known::KnownType;
use gql_base::{Named, Text};
use schema_rules::{Item, innermost};
use std::alloc::{AllocError, Global};

fn mentions(name: &str, item: Item<'_>) -> bool
    ensures { result ≡ mentions name.now (item_tree item.entry) }
{
    match item {
        Item::Argument {
            of: _,
            field: _,
            input,
        } => innermost(&input.of) == name,
        Item::FieldType { of: _, field } => innermost(&field.of) == name,
        Item::InputField { of: _, input } => innermost(&input.of) == name,
        Item::DirectiveArgument {
            directive: _,
            input,
        } => innermost(&input.of) == name,
        _ => false,
    }
}

/// Whether a field, an argument or an input field is of the type of a name.
pub fn is_mentioned(name: &str, items: &[Item<'_>]) -> bool
    ensures { result ≡ is_mentioned name.now (map item_tree items.now) }
{
    'items: for item in items {
        if mentions(name, *item) {
            return true;
        }
    }
    false
}

fn has_type(types: &[KnownType], name: &str) -> bool
    ensures { result ≡ has_name known_name (map known_type types.now) name.now }
{
    'types: for known in types {
        if known.name() == name {
            return true;
        }
    }
    false
}

/// Adds a built-in scalar, where it is due and no type has its name.
pub fn add_scalar(
    alloc: Global,
    is_due: bool,
    name: &str,
    types: &mut Vec<KnownType>,
) -> Result<(), AllocError>
    ensures { IfOk result (λ _. map known_type types.new.items ≡ with_scalar is_due name.now (map known_type types.old.items)) }
{
    if is_due && !has_type(types, name) {
        types.push(KnownType::BuiltIn(Text::copy_of(alloc, name)?))?;
    }
    Ok(())
}
