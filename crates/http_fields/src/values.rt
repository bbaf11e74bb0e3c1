//! The values of fields.

ghost use Rattle.std.specs.Prelude.{◌≡◌};
ghost use Rattle.std.specs.Iterator.{YieldsFirstRef, item_count};
ghost use Rattle.http_fields.specs.Fields.{same_in_any_case, values_left};

use crate::fields::Fields;

/// Whether two texts are the same but for the case of their ASCII letters.
pub fn is_same(a: &[u8], b: &[u8]) -> bool
    ensures { result ≡ same_in_any_case a.now b.now }
{
    a.eq_ignore_ascii_case(b)
}

/// The values of the fields with one name that are still to come.
#[derive(Drop)]
pub struct Values<'a> {
    pub fields: Fields<'a>,
    pub at: usize,
    pub name: &'a [u8],
}

impl<'a> Iterator for Values<'a> {
    type Item = &'a [u8];

    ghost next_gives = { YieldsFirstRef values_left };

    ghost remaining = { item_count values_left };

    fn next(&mut self) -> Option<&'a [u8]> {
        while self.at < self.fields.headers.len() {
            let header = self.fields.headers[self.at];
            self.at += 1;
            if is_same(header.name.of(self.fields.bytes), self.name) {
                return Some(header.value.of(self.fields.bytes));
            }
        }
        None
    }
}
