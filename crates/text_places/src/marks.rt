//! A line with a mark below one of its characters.

ghost use Rattle.std.specs.Prelude.{◌≡◌, ◌+◌, ◌++◌, ◌≤◌, ◌∷◌, [], IfOk, OnOk, length, take, drop, map, min, string_bytes};
ghost use Rattle.std.specs.Str.{chars, encode_utf8_all};
ghost use Rattle.text_places.specs.Places.{line_of, line_before, characters};
ghost use Rattle.text_places.specs.Marks.{first_shown, shown_characters, shown_front, shown, blank_below, marked, marked_line};

use crate::places::place_in;
use std::alloc::{AllocError, Global};

/// How many characters of a line are shown at most.
pub const SHOWN: usize = 120;

fn first_shown(length: usize, front: usize) -> usize
    ensures first { result ≡ first_shown length front }
    ensures within { result ≤ length }
{
    front
        .saturating_sub(SHOWN / 2)
        .min(length.saturating_sub(SHOWN))
}

/// The characters of a text.
fn characters_of(alloc: Global, text: &str) -> Result<Vec<char>, AllocError>
    ensures { IfOk result (λ all. all.items ≡ chars text.now) }
{
    let mut all = Vec::new(alloc);
    for character in text.chars() {
        all.push(character)?;
    }
    Ok(all)
}

/// How a character is shown.
fn shown(character: char) -> char
    ensures { result ≡ shown character }
{
    if character.is_control() && character != '\t' {
        '\u{fffd}'
    } else {
        character
    }
}

fn push_shown(all: &[char], into: &mut String) -> Result<(), AllocError>
    ensures { OnOk result (string_bytes into.new ≡ string_bytes into.old ++ encode_utf8_all (map shown all.now)) }
{
    for character in all {
        into.push(shown(*character))?;
    }
    Ok(())
}

fn push_blank(below: char, into: &mut String) -> Result<(), AllocError>
    ensures { OnOk result (string_bytes into.new ≡ string_bytes into.old ++ blank_below below ∷ []) }
{
    if below == '\t' {
        into.push_str("\t")
    } else {
        into.push_str(" ")
    }
}

/// What stands below these characters, in front of the mark.
fn push_blanks(all: &[char], into: &mut String) -> Result<(), AllocError>
    ensures { OnOk result (string_bytes into.new ≡ string_bytes into.old ++ map blank_below all.now) }
{
    for character in all {
        push_blank(*character, into)?;
    }
    Ok(())
}

/// The first of these characters, up to this many.
fn first_of(all: &[char], count: usize) -> &[char]
    ensures { result.now ≡ take count all.now }
{
    &all[..count.min(all.len())]
}

/// Writes the characters of a line that are shown, and the mark below the one that stands after `front` others.
fn push_marked(all: &[char], front: usize, into: &mut String) -> Result<(), AllocError>
    ensures { OnOk result (string_bytes into.new ≡ string_bytes into.old ++ marked front all.now) }
{
    let first = first_shown(all.len(), front);
    let part = first_of(&all[first..], SHOWN);
    push_shown(part, into)?;
    into.push_str("\n")?;
    push_blanks(first_of(part, front.saturating_sub(first)), into)?;
    into.push_str("^")
}

/// Appends the line of the text in which an offset is, and below it a mark under the character that stands there: `^`. In front of
/// the mark a tab stands below a tab, and a space below each other character. Of a line of more than `SHOWN` characters those around the
/// mark are shown. A control character other than a tab is shown as U+FFFD. An offset past the end of the text is that of its end.
///
/// # Errors
///
/// `AllocError` where there was not enough memory.
pub fn write_marked(
    alloc: Global,
    text: &str,
    offset: usize,
    into: &mut String,
) -> Result<(), AllocError>
    ensures { OnOk result (string_bytes into.new ≡ string_bytes into.old ++ marked_line text.now (min offset (length text.now))) }
{
    let place = place_in(text, offset);
    let all = characters_of(alloc, &text[place.start..place.end])?;
    push_marked(&all, place.column - 1, into)
}
