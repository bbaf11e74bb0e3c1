//! The fields of a head as spans of the bytes that it stands in.

ghost use Rattle.std.specs.Prelude.{length, All};
ghost use Rattle.httparse.specs.Spans.{IsHeaderWithin};

use httparse::spans::HeaderSpan;

/// The fields of a head, and the bytes that it stands in.
#[derive(Clone, Copy)]
pub struct Fields<'a> {
    pub bytes: &'a [u8],
    pub headers: &'a [HeaderSpan],
    ghost within: { All (IsHeaderWithin (length bytes.now)) headers.now },
}
