//! What the fields of a head say.

ghost use Rattle.std.specs.Prelude.{◌≡◌};
ghost use Rattle.http_fields.specs.Fields.{pairs_of, values_of, values_left, is_coded, has_transfer_coding, length_in};

use crate::fields::Fields;
use crate::lengths::{BadLength, is_length, is_length_of, number_of};
use crate::values::{Values, is_same};

impl<'a> Fields<'a> {
    /// The values of the fields with this name, in any case.
    pub fn named(self, name: &'a [u8]) -> Values<'a>
        ensures { values_left result ≡ values_of name.now (pairs_of self.entry) }
    {
        Values {
            fields: self,
            at: 0,
            name,
        }
    }

    /// Whether the body has a coding other than `identity`.
    pub fn is_coded(self) -> bool
        ensures { result ≡ is_coded (pairs_of self.entry) }
    {
        !self
            .named(b"content-encoding")
            .all(|value| is_same(value, b"identity"))
    }

    /// Whether a transfer coding stands.
    pub fn has_transfer_coding(self) -> bool
        ensures { result ≡ has_transfer_coding (pairs_of self.entry) }
    {
        self.named(b"transfer-encoding").next().is_some()
    }

    /// The length of the body that the fields say, where they say one.
    pub fn length(self) -> Result<Option<u64>, BadLength>
        ensures { result ≡ length_in (pairs_of self.entry) }
    {
        let mut values = self.named(b"content-length");
        let Some(first) = values.next() else {
            return Ok(None);
        };
        if !is_length(first) {
            return Err(BadLength);
        }
        let length = number_of(first);
        if values.all(|value| is_length_of(length, value)) {
            Ok(Some(length))
        } else {
            Err(BadLength)
        }
    }
}
