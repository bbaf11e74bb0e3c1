//! Coerced values that are made, and the trees that they stand for.

ghost use Rattle.std.specs.Prelude.{◌≡◌, IfOk, map};
ghost use Rattle.input_values.specs.values.Coerced.{coerced_tree, named_tree, coerced_null, coerced_integer, coerced_float, coerced_string, coerced_boolean, coerced_enum, coerced_list, coerced_object, trees_from, named_trees_from};

use crate::values::coerced::{Coerced, CoercedField};
use gql_base::Text;
use std::alloc::{AllocError, Global};
use std::sync::Arc;

/// Null.
#[tactic(auto, unfolding(crate::specs::values::Coerced::coerced_tree))]
pub fn null() -> Coerced
    ensures { coerced_tree result ≡ coerced_null }
{
    Coerced::Null
}

/// A whole number.
#[tactic(auto, unfolding(crate::specs::values::Coerced::coerced_tree))]
pub fn integer(number: i128) -> Coerced
    ensures { coerced_tree result ≡ coerced_integer number }
{
    Coerced::Int(number)
}

/// A number that isn't held as a whole one.
#[tactic(auto, unfolding(crate::specs::values::Coerced::coerced_tree))]
pub fn float(bits: u64) -> Coerced
    ensures { coerced_tree result ≡ coerced_float bits }
{
    Coerced::Float(bits)
}

/// A string.
#[tactic(auto, unfolding(crate::specs::values::Coerced::coerced_tree))]
pub fn string(text: Text) -> Coerced
    ensures { coerced_tree result ≡ coerced_string text }
{
    Coerced::Str(text)
}

/// A truth value.
#[tactic(auto, unfolding(crate::specs::values::Coerced::coerced_tree))]
pub fn boolean(truth: bool) -> Coerced
    ensures { coerced_tree result ≡ coerced_boolean truth }
{
    Coerced::Bool(truth)
}

/// The value of an enum that has this name.
#[tactic(auto, unfolding(crate::specs::values::Coerced::coerced_tree))]
pub fn enum_value(name: Text) -> Coerced
    ensures { coerced_tree result ≡ coerced_enum name }
{
    Coerced::EnumName(name)
}

/// A list of these items.
#[tactic(auto, using(crate::proofs::CoercedTrees::list_made))]
pub fn list(items: Vec<Coerced>) -> Coerced
    ensures { coerced_tree result ≡ coerced_list (trees_from (map coerced_tree items.items)) }
{
    Coerced::List(items)
}

/// An object of these fields.
#[tactic(auto, using(crate::proofs::CoercedTrees::object_made))]
pub fn object(fields: Vec<CoercedField>) -> Coerced
    ensures { coerced_tree result ≡ coerced_object (named_trees_from (map named_tree fields.items)) }
{
    Coerced::Object(fields)
}

// A value that is held once for all places where it stands.
#[tactic(auto, using(crate::proofs::CoercedTrees::shared_made))]
fn held_once(alloc: Global, value: Coerced) -> Result<Coerced, AllocError>
    ensures { IfOk result (λ v. coerced_tree v ≡ coerced_tree value) }
{
    Ok(Coerced::Shared(Arc::new(alloc, value)?))
}

// Strings of so many bytes are held once.
const LONG: usize = 64;

// Whether a value holds others, or a long string, so that a copy of it takes much.
fn is_large(value: &Coerced) -> bool {
    match value {
        Coerced::List(_) | Coerced::Object(_) => true,
        Coerced::Str(text) => text.as_str().len() >= LONG,
        Coerced::Null
        | Coerced::Int(_)
        | Coerced::Float(_)
        | Coerced::Bool(_)
        | Coerced::EnumName(_)
        | Coerced::Shared(_) => false,
    }
}

/// The same value, whose copies share it where it is a list, an object or a long string. It fails for want of memory alone.
pub fn shared(alloc: Global, value: Coerced) -> Result<Coerced, AllocError>
    ensures { IfOk result (λ v. coerced_tree v ≡ coerced_tree value) }
{
    if is_large(&value) {
        held_once(alloc, value)
    } else {
        Ok(value)
    }
}

/// A field of an object.
#[tactic(auto, using(crate::proofs::CoercedTrees::field_made))]
pub fn field(name: Text, value: Coerced) -> CoercedField
    ensures { named_tree result ≡ (name, coerced_tree value) }
{
    CoercedField { name, value }
}
