//! No second type, directive, schema definition, root of one kind, field, argument, enum value, union member, interface or
//! input field has the name of one before it in its scope; and no type but a scalar has the name of a built-in scalar.

ghost use Rattle.std.specs.Prelude.{◌≡◌, ◌++◌, [], map, IfOk, string_bytes, codes};
ghost use Rattle.std.specs.List.{position_from};
ghost use Rattle.schema_rules.specs.Places.{place_text};
ghost use Rattle.schema_rules.specs.Items.{place_of};
ghost use Rattle.schema_rules.specs.Repeated.{kind_key, paired, key_of, takes_built_in, earlier, place_at, repeated};
ghost use Rattle.schema_rules.specs.Views.{item_tree, place_tree, maybe_place};

use crate::items::{Item, place_of};
use crate::place::{Place, place_text};
use crate::type_names::is_built_in;
use gql_base::{Named, OperationKind, Text, first_repeated};
use std::alloc::{AllocError, Global};

// The scope and the name of a thing as one text.
#[derive(Drop)]
struct Key {
    text: Text,
}

impl Named for Key {
    ghost name_of = { λ key. key.text };

    fn name(&self) -> &str {
        self.text.as_str()
    }
}

fn kind_key(kind: OperationKind) -> &'static str
    ensures { result.now ≡ kind_key kind }
{
    match kind {
        OperationKind::Query => "schema query",
        OperationKind::Mutation => "schema mutation",
        OperationKind::Subscription => "schema subscription",
    }
}

fn joined(alloc: Global, first: &str, mark: &str, second: &str) -> Result<Text, AllocError>
    ensures { IfOk result (λ text. text ≡ first.now ++ (mark.now ++ second.now)) }
{
    let mut text = first.to_string(alloc)?;
    text.push_str(mark)?;
    text.push_str(second)?;
    Ok(Text::from(text))
}

fn type_key(alloc: Global, place: Place<'_>) -> Result<Text, AllocError>
    ensures { IfOk result (λ text. text ≡ paired (place_text (place_tree place.entry)) 58 []) }
{
    let text = place_text(alloc, place)?;
    joined(alloc, text.as_str(), ":", "")
}

fn key_of(alloc: Global, item: Item<'_>) -> Result<Text, AllocError>
    ensures { IfOk result (λ text. text ≡ key_of (item_tree item.entry)) }
{
    match item {
        Item::Schema { directives: _ } => Text::copy_of(alloc, " schema"),
        Item::Root { kind, name: _ } => Text::copy_of(alloc, kind_key(kind)),
        Item::Interface { of, name } => joined(alloc, of, "&", name),
        Item::Member { of, name } => joined(alloc, of, "|", name),
        Item::FieldType { of: _, field: _ } => type_key(alloc, place_of(item)),
        _ => place_text(alloc, place_of(item)),
    }
}

fn keys_of(alloc: Global, items: &[Item<'_>]) -> Result<Vec<Key>, AllocError>
    ensures { IfOk result (λ keys. map (λ key. key.text) keys.items ≡ map key_of (map item_tree items.now)) }
{
    let mut keys = Vec::new(alloc);
    for item in items {
        let text = key_of(alloc, *item)?;
        keys.push(Key { text })?;
    }
    Ok(keys)
}

fn takes_built_in(item: Item<'_>) -> bool
    ensures { result ≡ takes_built_in (item_tree item.entry) }
{
    match item {
        Item::Type {
            name,
            kind,
            is_empty: _,
            directives: _,
        } => !kind.is_scalar() && is_built_in(name),
        _ => false,
    }
}

fn first_built_in(items: &[Item<'_>]) -> Option<usize>
    ensures { result ≡ position_from takes_built_in 0 (map item_tree items.now) }
{
    for at in 0..items.len() {
        if takes_built_in(items[at]) {
            return Some(at);
        }
    }
    None
}

fn earlier(first: Option<usize>, second: Option<usize>) -> Option<usize>
    ensures { result ≡ earlier first second }
{
    match first {
        None => second,
        Some(a) => match second {
            None => Some(a),
            Some(b) => Some(a.min(b)),
        },
    }
}

#[tactic(auto, using(crate::proofs::Namings::placements))]
fn place_at<'a>(items: &[Item<'a>], at: Option<usize>) -> Option<Place<'a>>
    ensures { maybe_place result ≡ place_at (map item_tree items.now) at }
{
    match at {
        None => None,
        Some(at) => {
            if at < items.len() {
                Some(place_of(items[at]))
            } else {
                None
            }
        }
    }
}

/// The place of the first thing that repeats a name. It fails for want of memory alone.
pub fn first_repeated_place<'a>(
    alloc: Global,
    items: &[Item<'a>],
) -> Result<Option<Place<'a>>, AllocError>
    ensures { IfOk result (λ place. maybe_place place ≡ repeated (map item_tree items.now)) }
{
    let keys = keys_of(alloc, items)?;
    let repeated = first_repeated(alloc, &keys)?;
    Ok(place_at(items, earlier(repeated, first_built_in(items))))
}
