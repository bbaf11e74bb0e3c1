//! The steps of an answer. They are taken while it is counted, also those that it will take to measure and to write it: each text is looked at
//! for either, and a default is printed for either before.

use counted_work::{Work, steps_of_text};
use gql_base::{Argument, Value};
use meta_schema::AskedNode;
use schema_facts::Thing;
use schema_reader::{DefBody, SchemaDef};
use std::alloc::AllocError;

// A location is compared with each that GraphQL knows, when it is counted, measured and written.
const LOCATION_STEPS: usize = 6;

// The steps of so many bytes that are looked at so often.
fn steps_of(bytes: usize, times: usize) -> usize {
    steps_of_text(bytes.saturating_mul(times))
}

#[cycle(values)]
fn count_value(work: Work<'_>, value: &Value) {
    work.count(2);
    match value {
        Value::Var(name) => work.count(steps_of(name.text.as_str().len(), 4)),
        Value::Float(text) => work.count(steps_of(text.as_str().len(), 4)),
        Value::Str(text) => work.count(steps_of(text.as_str().len(), 4)),
        Value::EnumName(name) => work.count(steps_of(name.text.as_str().len(), 4)),
        Value::List(items) => count_items(work, items.as_slice()),
        Value::Object(fields) => count_fields(work, fields.as_slice()),
        Value::Int(_) | Value::Bool(_) | Value::Null => {}
    }
}

#[cycle(values)]
fn count_items(work: Work<'_>, items: &[Value]) {
    'items: for item in items {
        count_value(work, item);
    }
}

#[cycle(values)]
fn count_fields(work: Work<'_>, fields: &[Argument]) {
    'fields: for field in fields {
        work.count(steps_of(field.name.text.as_str().len(), 4));
        count_value(work, &field.value);
    }
}

/// Takes the steps of a value of an answer: it is counted, and then written.
pub(crate) fn take_thing(work: Work<'_>, thing: Thing<'_>) -> Result<(), AllocError> {
    match thing {
        Thing::Word(text) => work.count(steps_of(text.len(), 2)),
        Thing::Default(value) => count_value(work, value),
        _ => {}
    }
    work.take(2)
}

// Takes the steps of going through the locations of a directive, those that GraphQL doesn't know too, of which the answer has none.
fn count_locations(work: Work<'_>, directive: &SchemaDef) {
    if let DefBody::Directive { locations, .. } = &directive.body {
        work.count(locations.len().saturating_mul(LOCATION_STEPS));
    }
}

/// Takes the steps of an entry: it is looked up to be counted, and again to be written, with its key.
pub(crate) fn take_entry(
    work: Work<'_>,
    thing: Thing<'_>,
    node: &AskedNode,
) -> Result<(), AllocError> {
    match thing {
        Thing::Directive(directive) if node.name.as_str() == "locations" => {
            count_locations(work, directive);
        }
        _ => {}
    }
    work.take(2)?;
    work.take(steps_of(node.key.as_str().len(), 2))
}
