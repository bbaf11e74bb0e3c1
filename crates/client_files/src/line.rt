//! The lines of a text, and the words of a line.

ghost use Rattle.std.specs.Prelude.{◌≡◌, ◌<◌, ◌≤◌, ◌==◌, length, take, IfOk, map};
ghost use Rattle.std.specs.List.{slice_split};
ghost use Rattle.client_files.specs.Lines.{but_an_empty_last};

use std::alloc::{AllocError, Global};

/// The parts of a text between the places of a separator, an ASCII character. It fails for want of memory alone.
pub fn parts_of(alloc: Global, text: &str, separator: char) -> Result<Vec<&str>, AllocError>
    requires { separator < 128 }
    ensures { IfOk result (λ parts. map (λ part. part.now) parts.items ≡ slice_split (λ byte. byte == separator) text.now) }
{
    text.split(separator).collect(alloc)
}

/// How many of the parts between line feeds are lines: all but an empty last one.
pub fn line_count(parts: &[&str]) -> usize
    ensures within { result ≤ length parts.now }
    ensures lines { take result (map (λ part. part.now) parts.now) ≡ but_an_empty_last (map (λ part. part.now) parts.now) }
{
    let Some((last, front)) = parts.split_last() else {
        return 0;
    };
    if last.is_empty() {
        front.len()
    } else {
        parts.len()
    }
}
