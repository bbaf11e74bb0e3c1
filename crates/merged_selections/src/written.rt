//! How much arguments write. No promise rests on it.

use gql_base::{Argument, Value};

/// Whether some arguments write more values than so many.
pub(crate) fn are_more(arguments: &[Argument], most: usize) -> bool {
    arguments_left(arguments, most).is_none()
}

/// How many values may still be written behind some arguments where so many may; none where they write more.
#[cycle(written)]
fn arguments_left(arguments: &[Argument], most: usize) -> Option<usize> {
    let mut left = most;
    'arguments: for argument in arguments {
        match value_left(&argument.value, left) {
            Some(more) => left = more,
            None => return None,
        }
    }
    Some(left)
}

#[cycle(written)]
fn items_left(items: &[Value], most: usize) -> Option<usize> {
    let mut left = most;
    'items: for item in items {
        match value_left(item, left) {
            Some(more) => left = more,
            None => return None,
        }
    }
    Some(left)
}

#[cycle(written)]
fn value_left(value: &Value, most: usize) -> Option<usize> {
    if most == 0 {
        return None;
    }
    let left = most - 1;
    match value {
        Value::List(items) => items_left(items.as_slice(), left),
        Value::Object(fields) => arguments_left(fields.as_slice(), left),
        Value::Var(_) => Some(left),
        Value::Int(_) => Some(left),
        Value::Float(_) => Some(left),
        Value::Str(_) => Some(left),
        Value::Bool(_) => Some(left),
        Value::Null => Some(left),
        Value::EnumName(_) => Some(left),
    }
}
