//! Whether two values that are built are the same.

ghost use Rattle.std.specs.Prelude.{◌≡◌, map, IsTrue};
ghost use Rattle.input_values.specs.values.Coerced.{coerced_tree, named_tree};

use counted_work::{Work, steps_of_text};
use input_values::{Coerced, CoercedField};

/// How many steps it is to compare a value, less those of what stands inside of it.
fn steps_of(value: &Coerced) -> usize {
    match value {
        Coerced::Str(text) => steps_of_text(text.as_str().len()).saturating_add(1),
        Coerced::EnumName(name) => steps_of_text(name.as_str().len()).saturating_add(1),
        _ => 1,
    }
}

/// How many steps it is to compare the name of a field with so many.
pub(crate) fn steps_of_name(field: &CoercedField, names: usize) -> usize {
    steps_of_text(field.name.as_str().len()).saturating_mul(names)
}

/// Whether two values are the same that are neither lists nor objects; of values that are shared it says no.
#[tactic(auto, using(crate::proofs::OpenedTrees::opened_values))]
fn same_leaf_value(value: &Coerced, other: &Coerced) -> bool
    ensures { IsTrue result → coerced_tree value.now ≡ coerced_tree other.now }
{
    match value {
        Coerced::Null => match other {
            Coerced::Null => true,
            _ => false,
        },
        Coerced::Int(number) => match other {
            Coerced::Int(same) => *number == *same,
            _ => false,
        },
        Coerced::Float(bits) => match other {
            Coerced::Float(same) => *bits == *same,
            _ => false,
        },
        Coerced::Str(text) => match other {
            Coerced::Str(same) => text.as_str() == same.as_str(),
            _ => false,
        },
        Coerced::Bool(truth) => match other {
            Coerced::Bool(same) => *truth == *same,
            _ => false,
        },
        Coerced::EnumName(name) => match other {
            Coerced::EnumName(same) => name.as_str() == same.as_str(),
            _ => false,
        },
        _ => false,
    }
}

/// A value behind all that share it.
#[tactic(auto, using(crate::proofs::OpenedTrees::opened_coerced))]
fn opened(value: &Coerced) -> &Coerced
    ensures { coerced_tree result.now ≡ coerced_tree value.now }
{
    match value {
        Coerced::Shared(held) => opened(held),
        _ => value,
    }
}

/// Whether two values are the same.
#[cycle(same)]
#[tactic(auto, using(crate::proofs::OpenedTrees::opened_coerced))]
pub fn same_value(work: Work<'_>, value: &Coerced, other: &Coerced) -> bool
    ensures { IsTrue result → coerced_tree value.now ≡ coerced_tree other.now }
{
    work.count(steps_of(value));
    match value {
        Coerced::Shared(held) => same_value(work, held, other),
        Coerced::List(items) => match opened(other) {
            Coerced::List(others) => same_items(work, items.as_slice(), others.as_slice()),
            _ => false,
        },
        Coerced::Object(fields) => match opened(other) {
            Coerced::Object(others) => same_fields(work, fields.as_slice(), others.as_slice()),
            _ => false,
        },
        _ => same_leaf_value(value, opened(other)),
    }
}

/// Whether as many items are.
#[cycle(same)]
fn same_items(work: Work<'_>, items: &[Coerced], others: &[Coerced]) -> bool
    ensures { IsTrue result → map coerced_tree items.now ≡ map coerced_tree others.now }
{
    if items.len() != others.len() {
        return false;
    }
    'items: for at in (0..items.len()).rev() {
        if !same_value(work, &items[at], &others[at]) {
            return false;
        }
    }
    true
}

/// Whether as many fields are, in the same order.
#[cycle(same)]
fn same_fields(work: Work<'_>, fields: &[CoercedField], others: &[CoercedField]) -> bool
    ensures { IsTrue result → map named_tree fields.now ≡ map named_tree others.now }
{
    if fields.len() != others.len() {
        return false;
    }
    'fields: for at in (0..fields.len()).rev() {
        if !same_field(work, &fields[at], &others[at]) {
            return false;
        }
    }
    true
}

/// Whether two fields have one name and the same value.
#[cycle(same)]
fn same_field(work: Work<'_>, field: &CoercedField, other: &CoercedField) -> bool
    ensures { IsTrue result → named_tree field.now ≡ named_tree other.now }
{
    work.count(steps_of_name(field, 1));
    if field.name.as_str() == other.name.as_str() {
        same_value(work, &field.value, &other.value)
    } else {
        false
    }
}
