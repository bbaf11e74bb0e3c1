//! Hashes of fields' arguments as they are written, and by what they and lists are hashed. They say what may be equal, and nothing rests on
//! them.

use crate::planning::Planning;
use crate::steps::key_of;
use counted_work::{Work, steps_of_text};
use document_reader::Selection;
use gql_base::{Argument, Value};
use std::hash::{DefaultHasher, Hasher};

/// Puts a text, which is a step, or more where it is long.
fn put_text(work: Work<'_>, kind: u8, text: &str, into: &mut DefaultHasher) {
    work.count(steps_of_text(text.len()).wrapping_add(1));
    into.write_u8(kind);
    into.write_usize(text.len());
    into.write(text.as_bytes());
}

/// Puts a value, which is counted with the name before it or with the list around it.
#[cycle(hashes)]
fn put_value(work: Work<'_>, value: &Value, into: &mut DefaultHasher) {
    match value {
        Value::Var(name) => put_text(work, 1, name.text.as_str(), into),
        Value::Int(number) => {
            into.write_u8(2);
            into.write_i128(*number);
        }
        Value::Float(text) => put_text(work, 11, text.as_str(), into),
        Value::Str(text) => put_text(work, 3, text.as_str(), into),
        Value::Bool(truth) => into.write_u8(if *truth { 4 } else { 5 }),
        Value::Null => into.write_u8(6),
        Value::EnumName(name) => put_text(work, 7, name.text.as_str(), into),
        Value::List(items) => put_items(work, items.as_slice(), into),
        Value::Object(fields) => put_arguments(work, fields.as_slice(), into),
    }
}

#[cycle(hashes)]
fn put_items(work: Work<'_>, items: &[Value], into: &mut DefaultHasher) {
    work.count(items.len());
    into.write_usize(items.len());
    'items: for item in items {
        put_value(work, item, into);
    }
}

#[cycle(hashes)]
fn put_arguments(work: Work<'_>, arguments: &[Argument], into: &mut DefaultHasher) {
    into.write_usize(arguments.len());
    'arguments: for argument in arguments {
        put_text(work, 8, argument.name.text.as_str(), into);
        put_value(work, &argument.value, into);
    }
}

#[cycle(begins)]
fn put_selection(work: Work<'_>, selection: &Selection, into: &mut DefaultHasher) {
    match selection {
        Selection::Field(field) => {
            put_text(work, 9, key_of(field), into);
            put_arguments(work, field.arguments.as_slice(), into);
            put_selections(work, field.selections.as_slice(), into);
        }
        Selection::Spread { name, .. } => put_text(work, 10, name.text.as_str(), into),
        Selection::Inline { selections, .. } => {
            work.count(1);
            put_selections(work, selections.as_slice(), into)
        }
    }
}

#[cycle(begins)]
fn put_selections(work: Work<'_>, selections: &[Selection], into: &mut DefaultHasher) {
    'selections: for selection in selections {
        put_selection(work, selection, into);
    }
}

/// A hasher that has taken in the response keys and arguments of an operation and its fragments. What a hash comes to depends on all of
/// them, so that who writes them can't choose some that collide: the others that he writes, and these themselves, would make them come
/// to something else.
pub(crate) fn begun_with(planning: &Planning<'_>, selections: &[Selection]) -> DefaultHasher {
    let mut begun = DefaultHasher::new();
    let work = planning.work;
    put_selections(work, selections, &mut begun);
    for fragment in planning.fragments {
        put_selections(work, fragment.selections.as_slice(), &mut begun);
    }
    begun
}

/// The hash of these arguments, by a hasher that is begun.
pub(crate) fn hash_of(work: Work<'_>, begun: DefaultHasher, arguments: &[Argument]) -> u64 {
    let mut hasher = begun;
    put_arguments(work, arguments, &mut hasher);
    hasher.finish()
}
