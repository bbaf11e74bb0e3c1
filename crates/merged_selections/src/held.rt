//! How much memory calls hold, about. Nothing but memory rests on it.

use input_values::{Coerced, CoercedField};
use schema_model::Args;

/// What one value takes, besides its text and what stands inside of it.
const NODE: usize = 48;

/// What a call takes, besides its arguments.
const CALL: usize = 208;

#[cycle(held)]
fn value_bytes(value: &Coerced) -> usize {
    match value {
        Coerced::Null => NODE,
        Coerced::Int(_) => NODE,
        Coerced::Float(_) => NODE,
        Coerced::Str(text) => NODE.saturating_add(text.as_str().len()),
        Coerced::Bool(_) => NODE,
        Coerced::EnumName(name) => NODE.saturating_add(name.as_str().len()),
        Coerced::List(items) => NODE.saturating_add(items_bytes(items.as_slice())),
        Coerced::Object(fields) => NODE.saturating_add(fields_bytes(fields.as_slice())),
        Coerced::Shared(_) => NODE,
    }
}

#[cycle(held)]
fn items_bytes(items: &[Coerced]) -> usize {
    let mut sum: usize = 0;
    'items: for item in items {
        sum = sum.saturating_add(value_bytes(item));
    }
    sum
}

#[cycle(held)]
fn fields_bytes(fields: &[CoercedField]) -> usize {
    let mut sum: usize = 0;
    'fields: for field in fields {
        sum = sum.saturating_add(NODE);
        sum = sum.saturating_add(field.name.as_str().len());
        sum = sum.saturating_add(value_bytes(&field.value));
    }
    sum
}

/// The bytes that a call with these arguments holds, about.
pub(crate) fn bytes_of(args: &Args) -> usize {
    let mut sum: usize = CALL;
    for arg in args.list.as_slice() {
        sum = sum.saturating_add(NODE);
        match &arg.value {
            Some(value) => sum = sum.saturating_add(value_bytes(value)),
            None => (),
        }
    }
    sum
}
