//! Texts from elsewhere, as they are shown within a line.

ghost use Rattle.std.specs.Prelude.{◌≡◌, ◌<◌, ◌++◌, ◌∷◌, [], ℕ, List, IfOk, OnOk, string_bytes, true};
ghost use Rattle.std.specs.Char.{digit_char, encode_utf8};
ghost use Rattle.gql_base.specs.printing.OneLine.{control_number, shown_in_line, is_one_line};

use crate::lexical::text::Text;
use std::alloc::{AllocError, Global};

/// Appends a digit of base 16, in lower case.
fn push_digit(into: &mut String, digit: u32) -> Result<(), AllocError>
    requires { digit < 16 }
    ensures { OnOk result (string_bytes into.new ≡ string_bytes into.old ++ digit_char digit ∷ []) }
{
    match char::from_digit(digit, 16) {
        Some(character) => into.push(character),
        None => Ok(()),
    }
}

/// Appends the number of a control character.
fn push_number(into: &mut String, control: u32) -> Result<(), AllocError>
    requires { control < 128 }
    ensures { OnOk result (string_bytes into.new ≡ string_bytes into.old ++ control_number control) }
{
    into.push_str("\\u00")?;
    push_digit(into, control / 16)?;
    push_digit(into, control % 16)
}

/// Appends a character as it is shown within a line.
fn push_character(into: &mut String, character: char) -> Result<(), AllocError>
    ensures { OnOk result (string_bytes into.new ≡ string_bytes into.old ++ shown_in_line (encode_utf8 character)) }
{
    if character.is_ascii_control() {
        push_number(into, u32::from(character))
    } else {
        into.push(character)
    }
}

/// Appends a text with each character below U+0020, and U+007F, as `\u00` and two digits of base 16 in lower case, so
/// that a line that it is written into stays one line.
pub fn push_shown(into: &mut String, text: &str) -> Result<(), AllocError>
    ensures { OnOk result (string_bytes into.new ≡ string_bytes into.old ++ shown_in_line text.now) }
{
    for character in text.chars() {
        push_character(into, character)?;
    }
    Ok(())
}

/// A text as it is shown within a line.
pub fn shown_in_line(alloc: Global, text: &str) -> Result<Text, AllocError>
    ensures { IfOk result (λ shown. shown ≡ shown_in_line text.now) }
{
    let mut shown = String::new(alloc);
    push_shown(&mut shown, text)?;
    Ok(Text::from(shown))
}

/// What is shown is one line, and a text that is one line is shown as it is. Texts side by side are one line where each
/// is. This function does nothing: its contract is the law.
pub fn what_is_shown_is_one_line()
    ensures shown { (text : List ℕ) → is_one_line (shown_in_line text) ≡ true }
    ensures kept { (text : List ℕ) → is_one_line text ≡ true → shown_in_line text ≡ text }
    ensures joined { (front back : List ℕ) → is_one_line front ≡ true → is_one_line back ≡ true → is_one_line (front ++ back) ≡ true }
{}
