//! How many steps responses take. No promise rests on it.

use counted_work::steps_of_text;
use plan_table::{Entry, Tree};
use serde_json::Value;

/// How many steps it is to copy a leaf.
fn leaf_steps(value: &Value) -> usize {
    match value {
        Value::String(text) => steps_of_text(text.len()).saturating_add(1),
        _ => 1,
    }
}

/// How many steps it is to copy a response: one for each value, and those of the texts.
#[cycle(steps)]
pub(crate) fn steps_of(tree: &Tree) -> usize {
    match tree {
        Tree::Null => 1,
        Tree::Leaf(value) => leaf_steps(value),
        Tree::List(items) => items_steps(items.as_slice()),
        Tree::Object(_, entries) => entries_steps(entries.as_slice()),
    }
}

#[cycle(steps)]
fn items_steps(items: &[Tree]) -> usize {
    let mut sum: usize = 1;
    'items: for item in items {
        sum = sum.saturating_add(steps_of(item));
    }
    sum
}

#[cycle(steps)]
fn entries_steps(entries: &[Entry]) -> usize {
    let mut sum: usize = 1;
    'entries: for entry in entries {
        sum = sum.saturating_add(steps_of_text(entry.key.as_str().len()));
        sum = sum.saturating_add(steps_of(&entry.value));
    }
    sum
}
