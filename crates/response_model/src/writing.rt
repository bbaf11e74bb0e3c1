//! Writing the pieces of a response's text.

ghost use Rattle.std.specs.Prelude.{◌≡◌, ◌≤◌, ◌++◌, ◌∷◌, [], false, None, OnOk, string_bytes};
ghost use Rattle.serde_json.specs.Data.{depth, string};
ghost use Rattle.serde_json.specs.Read.{max_depth};
ghost use Rattle.serde_json.specs.View.{view};
ghost use Rattle.serde_json.specs.Written.{has_float, compact_text};
ghost use Rattle.response_model.specs.Errors.{pathless};
ghost use Rattle.response_model.specs.ResponseText.{key_text, response_text};
ghost use Rattle.response_model.specs.WrittenJson.{IsValueText, Appends};
ghost use Rattle.response_model.specs.AnswerTexts.{IsLeafText};

use serde_json::Value;
use std::alloc::{AllocError, Global};

/// Appends a JSON value as serde_json writes it compactly. Which digits a float has isn't said, but that they read as it.
///
/// # Errors
///
/// `AllocError` where there was not enough memory; then some part of it may have been appended.
pub fn write_value(alloc: Global, value: &Value, into: &mut String) -> Result<(), AllocError>
    ensures written { OnOk result (depth (view value.now) ≤ max_depth → Appends (IsValueText (view value.now)) (string_bytes into.old) (string_bytes into.new)) }
    ensures leaf { OnOk result (Appends (IsLeafText (view value.now)) (string_bytes into.old) (string_bytes into.new)) }
    ensures text { OnOk result (has_float (view value.now) ≡ false → string_bytes into.new ≡ string_bytes into.old ++ compact_text (view value.now)) }
{
    let text = value.to_string(alloc)?;
    into.push_str(text.as_str())
}

/// Appends a text as a JSON string.
///
/// # Errors
///
/// `AllocError` where there was not enough memory; then some part of it may have been appended.
pub fn write_string(alloc: Global, text: &str, into: &mut String) -> Result<(), AllocError>
    ensures { OnOk result (string_bytes into.new ≡ string_bytes into.old ++ compact_text (string text.now)) }
{
    let quoted = Value::String(String::from_str(alloc, text)?);
    write_value(alloc, &quoted, into)
}

/// Appends a response key as a JSON string, and a colon.
///
/// # Errors
///
/// `AllocError` where there was not enough memory; then some part of it may have been appended.
pub fn write_key(alloc: Global, key: &str, into: &mut String) -> Result<(), AllocError>
    ensures { OnOk result (string_bytes into.new ≡ string_bytes into.old ++ key_text key.now) }
{
    write_string(alloc, key, into)?;
    into.push_str(":")
}

/// Appends the text of a response that has no data and one error, with this message and no path.
///
/// # Errors
///
/// `AllocError` where there was not enough memory; then some part of it may have been appended.
pub fn write_error_response(
    alloc: Global,
    message: &str,
    into: &mut String,
) -> Result<(), AllocError>
    ensures { OnOk result (string_bytes into.new ≡ string_bytes into.old ++ response_text None (pathless message.now ∷ [])) }
{
    into.push_str("{\"errors\":[{\"message\":")?;
    write_string(alloc, message, into)?;
    into.push_str("}]}")?;
    Ok(())
}
