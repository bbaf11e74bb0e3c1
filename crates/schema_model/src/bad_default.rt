//! Each default has a value: it is one of its type, and has at most 1,000 nodes with what is filled in. A default that is
//! filled with one that comes back to it has none.

ghost use Rattle.std.specs.Prelude.{◌≡◌, map, IfOk, option_map};
ghost use Rattle.input_values.specs.values.Coerced.{coerced_tree};
ghost use Rattle.input_values.specs.defaults.Filling.{literal_seen};
ghost use Rattle.schema_reader.specs.Trees.{input_tree};
ghost use Rattle.schema_rules.specs.Views.{item_tree, named_kind, maybe_place};
ghost use Rattle.schema_model.specs.BadDefault.{lacks_value, is_bad_input, has_bad_default, bad_default};

use crate::asked::default_of;
use crate::draft::literal_of;
use crate::shapes::shape_of;
use gql_base::{NameIndex, Value};
use input_values::{Coerced, InputTypes};
use schema_reader::InputValue;
use schema_rules::{Item, Place, TypeName, place_of};
use std::alloc::{AllocError, Global};

fn lacks_value(literal: Option<&Value>, value: &Option<Coerced>) -> bool
    ensures { result ≡ lacks_value (literal_seen literal.entry) (option_map coerced_tree value.now) }
{
    match literal {
        None => false,
        Some(_) => match value {
            None => true,
            Some(_) => false,
        },
    }
}

fn is_bad_input<T: InputTypes>(
    alloc: Global,
    forms: &T,
    types: &NameIndex<'_, TypeName<'_>>,
    input: &InputValue,
) -> Result<bool, AllocError>
    ensures { IfOk result (λ bad. bad ≡ is_bad_input (T.forms forms.now) (map named_kind types.now.items.now) (input_tree input.now)) }
{
    let shape = shape_of(alloc, types, &input.of)?;
    let literal = literal_of(&input.default);
    let value = default_of(alloc, forms, &shape, literal)?;
    Ok(lacks_value(literal, &value))
}

fn has_bad_default<T: InputTypes>(
    alloc: Global,
    forms: &T,
    types: &NameIndex<'_, TypeName<'_>>,
    item: Item<'_>,
) -> Result<bool, AllocError>
    ensures { IfOk result (λ bad. bad ≡ has_bad_default (T.forms forms.now) (map named_kind types.now.items.now) (item_tree item.entry)) }
{
    match item {
        Item::Argument {
            of: _,
            field: _,
            input,
        } => is_bad_input(alloc, forms, types, input),
        Item::InputField { of: _, input } => is_bad_input(alloc, forms, types, input),
        Item::DirectiveArgument {
            directive: _,
            input,
        } => is_bad_input(alloc, forms, types, input),
        _ => Ok(false),
    }
}

/// The place of the first default that has no value. It fails for want of memory alone.
pub fn first_bad_default<'a, T: InputTypes>(
    alloc: Global,
    forms: &T,
    types: &NameIndex<'_, TypeName<'_>>,
    items: &[Item<'a>],
) -> Result<Option<Place<'a>>, AllocError>
    ensures { IfOk result (λ place. maybe_place place ≡ bad_default (T.forms forms.now) (map named_kind types.now.items.now) (map item_tree items.now)) }
{
    for item in items {
        if has_bad_default(alloc, forms, types, *item)? {
            return Ok(Some(place_of(*item)));
        }
    }
    Ok(None)
}
