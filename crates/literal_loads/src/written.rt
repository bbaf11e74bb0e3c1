//! How much a literal writes. No promise rests on it.

use counted_work::steps_of_text;
use gql_base::{Argument, Value};

/// So many names, about, are compared with that of a variable that is looked for.
const LOOKED_AT: usize = 4;

/// How many steps it is to look at a literal, less those of what stands inside of it.
pub(crate) fn steps_of(literal: &Value) -> usize {
    match literal {
        Value::Var(name) => steps_of_text(name.text.as_str().len()).saturating_add(LOOKED_AT),
        Value::Float(text) => steps_of_text(text.as_str().len()).saturating_add(1),
        _ => 1,
    }
}

/// How many steps it is to look for what an argument is given for.
pub(crate) fn steps_of_name(argument: &Argument) -> usize {
    steps_of_text(argument.name.text.as_str().len()).saturating_add(1)
}

/// Whether a literal writes more values than so many.
pub(crate) fn writes_more(literal: &Value, most: usize) -> bool {
    literal_left(literal, most).is_none()
}

/// How many of so many values are left behind a literal; none where it writes more. It ends there.
#[cycle(words)]
fn literal_left(literal: &Value, most: usize) -> Option<usize> {
    let left = most.checked_sub(1)?;
    match literal {
        Value::List(items) => items_left(items.as_slice(), left),
        Value::Object(fields) => fields_left(fields.as_slice(), left),
        _ => Some(left),
    }
}

#[cycle(words)]
fn items_left(items: &[Value], most: usize) -> Option<usize> {
    let mut left = most;
    'items: for item in items {
        left = literal_left(item, left)?;
    }
    Some(left)
}

#[cycle(words)]
fn fields_left(fields: &[Argument], most: usize) -> Option<usize> {
    let mut left = most;
    'fields: for field in fields {
        left = literal_left(&field.value, left)?;
    }
    Some(left)
}
