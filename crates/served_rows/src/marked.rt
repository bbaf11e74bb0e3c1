//! Bytes in a transcript: on one line, behind a mark.

use std::alloc::AllocError;

/// How many bytes are written whole.
const WHOLE: usize = 4096;

/// How many bytes of more than that are written, of their front and of their end.
const SHOWN: usize = 200;

// Adds a byte, as it is or by what stands for it.
fn push_byte(into: &mut String, byte: u8) -> Result<(), AllocError> {
    match byte {
        b'\r' => into.push_str("\\r"),
        b'\n' => into.push_str("\\n"),
        b'\\' => into.push_str("\\\\"),
        32..=126 => into.push(char::from(byte)),
        _ => write!(into, "\\x{byte:02x}"),
    }
}

fn push_bytes(into: &mut String, bytes: &[u8]) -> Result<(), AllocError> {
    for byte in bytes {
        push_byte(into, *byte)?;
    }
    Ok(())
}

// Adds the front and the end of bytes, and how many stand between.
fn push_ends(into: &mut String, bytes: &[u8]) -> Result<(), AllocError> {
    let shown = SHOWN.min(bytes.len());
    let between = bytes.len().saturating_sub(2 * SHOWN);
    push_bytes(into, &bytes[..shown])?;
    write!(into, " .. {between} bytes .. ")?;
    push_bytes(into, &bytes[bytes.len() - shown..])
}

/// Adds a line of bytes behind a mark, if there are any.
pub(crate) fn push_marked(into: &mut String, mark: &str, bytes: &[u8]) -> Result<(), AllocError> {
    if bytes.is_empty() {
        return Ok(());
    }
    into.push_str(mark)?;
    if bytes.len() <= WHOLE {
        push_bytes(into, bytes)?;
    } else {
        push_ends(into, bytes)?;
    }
    into.push('\n')
}
