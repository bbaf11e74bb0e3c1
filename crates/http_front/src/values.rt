//! The elements of a value.

ghost use Rattle.std.specs.Prelude.{◌≡◌, reverse};
ghost use Rattle.std.specs.Iterator.{YieldsFirstRef, item_count};
ghost use Rattle.httparse.specs.Grammar.{trim_ows, skip_ows};
ghost use Rattle.http_front.specs.Fields.{elements, elements_left, has_element};

use http_fields::is_same;
use httparse::is_space_or_tab;

fn without_start(mut text: &[u8]) -> &[u8]
    ensures { result.now ≡ skip_ows text.now }
{
    while let [first, rest @ ..] = text
        && is_space_or_tab(*first)
    {
        text = rest;
    }
    text
}

fn without_end(mut text: &[u8]) -> &[u8]
    ensures { result.now ≡ reverse (skip_ows (reverse text.now)) }
{
    while let [rest @ .., last] = text
        && is_space_or_tab(*last)
    {
        text = rest;
    }
    text
}

/// A text without spaces and tabs at its ends.
fn trimmed(text: &[u8]) -> &[u8]
    ensures { result.now ≡ trim_ows text.now }
{
    without_end(without_start(text))
}

/// The elements of a value that are still to come, between the bytes `mark`.
#[derive(Drop)]
pub(crate) struct Elements<'a> {
    mark: u8,
    rest: Option<&'a [u8]>,
}

impl<'a> Elements<'a> {
    /// The elements of this value.
    pub(crate) fn of(mark: u8, value: &'a [u8]) -> Elements<'a>
        ensures { elements_left result ≡ elements mark value.now }
    {
        Elements {
            mark,
            rest: Some(value),
        }
    }
}

impl<'a> Iterator for Elements<'a> {
    type Item = &'a [u8];

    ghost next_gives = { YieldsFirstRef elements_left };

    ghost remaining = { item_count elements_left };

    fn next(&mut self) -> Option<&'a [u8]> {
        let mark = self.mark;
        let rest = self.rest?;
        match rest.iter().position(|byte| *byte == mark) {
            Some(place) => {
                self.rest = Some(&rest[place + 1..]);
                Some(trimmed(&rest[..place]))
            }
            None => {
                self.rest = None;
                Some(trimmed(rest))
            }
        }
    }
}

/// Whether an element of this value, a list between `,`, is the wanted one.
pub(crate) fn has_element(wanted: &[u8], value: &[u8]) -> bool
    ensures { result ≡ has_element wanted.now value.now }
{
    Elements::of(b',', value).any(|element| is_same(element, wanted))
}
