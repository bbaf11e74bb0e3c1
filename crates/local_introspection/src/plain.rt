//! Strings of JSON. Most texts need no escape, and are written as they stand.

ghost use Rattle.std.specs.Prelude.{◌≡◌, ◌++◌, OnOk, string_bytes};
ghost use Rattle.serde_json.specs.Data.{string};
ghost use Rattle.serde_json.specs.Written.{compact_text};
ghost use Rattle.response_model.specs.ResponseText.{key_text};
ghost use Rattle.local_introspection.specs.PlainTexts.{is_plain_byte, is_plain};

use response_model::write_string;
use std::alloc::{AllocError, Global};

fn is_plain_byte(byte: u8) -> bool
    ensures { result ≡ is_plain_byte byte }
{
    byte >= 32 && byte != 34 && byte != 92
}

/// Whether a text stands in JSON as it is.
pub(crate) fn is_plain(text: &str) -> bool
    ensures { result ≡ is_plain text.now }
{
    text.as_bytes().iter().all(|byte| is_plain_byte(*byte))
}

/// Appends a text as a string of JSON.
pub fn write_text(alloc: Global, text: &str, into: &mut String) -> Result<(), AllocError>
    ensures { OnOk result (string_bytes into.new ≡ string_bytes into.old ++ compact_text (string text.now)) }
{
    if is_plain(text) {
        into.push_str("\"")?;
        into.push_str(text)?;
        into.push_str("\"")?;
        Ok(())
    } else {
        write_string(alloc, text, into)
    }
}

/// Appends a response key as a string of JSON, and a colon.
pub fn write_key(alloc: Global, key: &str, into: &mut String) -> Result<(), AllocError>
    ensures { OnOk result (string_bytes into.new ≡ string_bytes into.old ++ key_text key.now) }
{
    write_text(alloc, key, into)?;
    into.push_str(":")
}
