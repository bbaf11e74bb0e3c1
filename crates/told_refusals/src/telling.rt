//! How a refusal is told.

ghost use Rattle.std.specs.Prelude.{◌≡◌, ◌++◌, IfOk, OnOk, string_bytes};
ghost use Rattle.told_refusals.specs.Told.{spot_of, spot_seen, spot_text, where_there, Tells};

use crate::matching::{Fields, advice_on};
use std::alloc::{AllocError, Global};
use text_places::{place_in, write_marked};

/// Where a refusal is.
#[derive(Clone, Copy)]
pub struct Place<'a> {
    /// The text that is refused.
    pub text: &'a str,
    /// The byte that the refusal names.
    pub offset: usize,
}

/// The name that stands at a place, with the `$` or the `@` in front of it; that the text ends there, where it does; the empty text where
/// neither is so.
fn name_at<'a>(place: Place<'a>) -> &'a str {
    let Some(rest) = place.text.get(place.offset..) else {
        return "";
    };
    if rest.is_empty() {
        return "The end of the text";
    }
    match rest.split_once(|c: char| !(c.is_ascii_alphanumeric()
        || c == '_'
        || c == '$'
        || c == '@'))
    {
        Some((name, _)) => name,
        None => rest,
    }
}

/// What stands for a mark in a sentence.
fn filling<'a>(mark: &str, fields: Fields<'a>, name: &'a str) -> &'a str {
    match mark {
        "1" => fields.first,
        "2" => fields.others,
        "*" => fields.all,
        "@" => {
            if name.is_empty() {
                "What stands at the mark"
            } else {
                name
            }
        }
        "(" => "{",
        ")" => "}",
        _ => "",
    }
}

/// Appends a sentence whose marks are filled.
fn push_sentence(
    sentence: &str,
    fields: Fields<'_>,
    name: &str,
    into: &mut String,
) -> Result<(), AllocError> {
    into.push('\n')?;
    for part in sentence.split('{') {
        match part.split_once('}') {
            Some((mark, rest)) => {
                into.push_str(filling(mark, fields, name))?;
                into.push_str(rest)?;
            }
            None => into.push_str(part)?,
        }
    }
    Ok(())
}

/// What is wrong and what helps, each on a line of its own with a line end in front; nothing where nothing is said of such a refusal.
fn sentences(alloc: Global, refusal: &str, name: &str) -> Result<String, AllocError> {
    let mut said = String::new(alloc);
    if let Some((advice, fields)) = advice_on(refusal) {
        push_sentence(advice.wrong, fields, name, &mut said)?;
        push_sentence(advice.helps, fields, name, &mut said)?;
    }
    Ok(said)
}

/// Appends where a refusal is.
fn push_place(alloc: Global, place: Place<'_>, into: &mut String) -> Result<(), AllocError>
    ensures { OnOk result (string_bytes into.new ≡ string_bytes into.old ++ spot_text (spot_of place.entry)) }
{
    let found = place_in(place.text, place.offset);
    let (line, column) = (found.line, found.column);
    let numbers = format!(in alloc; "\nline {line}, column {column}:\n")?;
    into.push_str(numbers.as_str())?;
    write_marked(alloc, place.text, place.offset, into)
}

/// Appends where a refusal is, if that is known.
fn push_where(alloc: Global, place: Option<Place<'_>>, into: &mut String) -> Result<(), AllocError>
    ensures { OnOk result (string_bytes into.new ≡ string_bytes into.old ++ where_there (spot_seen place.entry)) }
{
    match place {
        Some(place) => push_place(alloc, place, into),
        None => Ok(()),
    }
}

/// What is told of a refusal: its line; where it names a byte of a text, the numbers of the line and the column there, the line
/// itself, and a mark below the character; and then a sentence that says what is wrong, and one that says what helps. Each
/// stands on lines of its own, without a line end behind the last.
///
/// # Errors
///
/// `AllocError` where there was not enough memory.
pub fn told_refusal(
    alloc: Global,
    refusal: &str,
    place: Option<Place<'_>>,
) -> Result<String, AllocError>
    ensures { IfOk result (λ told. Tells refusal.now (spot_seen place.entry) (string_bytes told)) }
{
    let name = match place {
        Some(place) => name_at(place),
        None => "",
    };
    let said = sentences(alloc, refusal, name)?;
    let mut told = refusal.to_string(alloc)?;
    push_where(alloc, place, &mut told)?;
    told.push_str(said.as_str())?;
    Ok(told)
}
