//! The errors of a reply (GraphQL October 2021, 7.1.2).

ghost use Rattle.std.specs.Prelude.{◌≡◌, [], is_some, option_map, option_and_then, string_bytes};
ghost use Rattle.serde_json.specs.View.{view, items_view};
ghost use Rattle.response_model.specs.Errors.{errors_of, errors_in, error_of, path_of, segments_of, segment_of};
ghost use Rattle.response_meter.specs.Walks.{WritesErrors, Writes};
ghost use Rattle.response_model.specs.ResponseText.{errors_text, error_text, path_text};
ghost use Rattle.serde_json.specs.Find.{as_array};

use crate::fault::{MeterFault, Why, not_response};
use response_model::write_value;
use serde_json::Value;
use std::alloc::Global;

/// Tests the errors of a reply, given by its entry `errors`, and appends their part of the answer. The
/// result says whether there are any.
pub(crate) fn write_errors(
    alloc: Global,
    errors: Option<&Value>,
    into: &mut String,
) -> Result<bool, MeterFault>
    ensures { WritesErrors (string_bytes into.old) (string_bytes into.new) result (errors_of (option_map (λ v. view v.now) errors.entry)) }
{
    let Some(errors) = errors else {
        return Ok(false);
    };
    match errors {
        Value::Null => Ok(false),
        Value::Array(items) => {
            let items = items.as_slice();
            if items.is_empty() {
                return Ok(false);
            }
            into.push_str("\"errors\":[")?;
            write_items(alloc, items, into)?;
            Ok(true)
        }
        _ => Err(not_response(alloc, Why::BadErrors)),
    }
}

/// Tests a list of errors, and appends them and a closing bracket.
fn write_items(alloc: Global, items: &[Value], into: &mut String) -> Result<(), MeterFault>
    ensures { Writes (string_bytes into.old) (string_bytes into.new) result (errors_in (items_view items.now)) (errors_text []) }
{
    let mut front = "";
    for item in items {
        into.push_str(front)?;
        write_error(alloc, item, into)?;
        front = ",";
    }
    into.push_str("]")?;
    Ok(())
}

/// Tests an error, and appends its message and its path.
fn write_error(alloc: Global, error: &Value, into: &mut String) -> Result<(), MeterFault>
    ensures { Writes (string_bytes into.old) (string_bytes into.new) result (error_of (view error.now)) error_text }
{
    let message = match error.get("message") {
        Some(message) if message.is_string() => message,
        _ => return Err(not_response(alloc, Why::BadErrors)),
    };
    into.push_str("{\"message\":")?;
    write_value(alloc, message, into)?;
    write_path(alloc, error.get("path"), into)?;
    into.push_str("}")?;
    Ok(())
}

/// Tests an error's path, and appends it where there is one.
fn write_path(alloc: Global, path: Option<&Value>, into: &mut String) -> Result<(), MeterFault>
    ensures { Writes (string_bytes into.old) (string_bytes into.new) result (path_of (option_map (λ v. view v.now) path.entry)) path_text }
{
    match path {
        None | Some(Value::Null) => Ok(()),
        Some(path) => {
            if !is_path(path) {
                return Err(not_response(alloc, Why::BadErrors));
            }
            into.push_str(",\"path\":")?;
            write_value(alloc, path, into)?;
            Ok(())
        }
    }
}

/// Whether a value is a list of strings and whole numbers of at least 0.
fn is_path(path: &Value) -> bool
    ensures { result ≡ is_some (option_and_then segments_of (as_array (view path.now))) }
{
    match path {
        Value::Array(segments) => are_segments(segments),
        _ => false,
    }
}

/// Whether each value is a string or a whole number of at least 0.
fn are_segments(segments: &[Value]) -> bool
    ensures { result ≡ is_some (segments_of (items_view segments.now)) }
{
    'segments: for segment in segments {
        if !is_segment(segment) {
            return false;
        }
    }
    true
}

/// Whether a value is a string or a whole number of at least 0.
fn is_segment(segment: &Value) -> bool
    ensures { result ≡ is_some (segment_of (view segment.now)) }
{
    match segment {
        Value::String(_) => true,
        Value::Number(number) => number.is_u64(),
        _ => false,
    }
}
