//! Printing of symbols in their one form: one space between two of them, but none after `$` and `@`.

ghost use Rattle.std.specs.Prelude.{◌≡◌, ◌<◌, ◌++◌, ◌∷◌, [], ℕ, IfOk, OnOk, IsUtf8, string_bytes, false};
ghost use Rattle.gql_base.specs.lexical.Pieces.{mark_bytes};
ghost use Rattle.gql_base.specs.ways.Symbols.{punctuator, integer, decimal, string, identifier};
ghost use Rattle.gql_base.specs.printing.Printing.{upper_digit, escape_number, numbered, escaped, all_escaped, is_tight, put, put_text, with_space};
ghost use Rattle.gql_base.specs.printing.Printers.{printed_by};

use crate::lexical::text::Text;
use crate::lexical::token::TokenKind;
use std::alloc::{AllocError, Global};

/// What was printed, and whether a space stands before what comes next.
#[derive(Drop)]
pub struct Printer {
    text: String,
    space: bool,
}

/// The text of a punctuator.
fn mark_text(kind: TokenKind) -> &'static str
    ensures { result.now ≡ mark_bytes kind }
{
    match kind {
        TokenKind::Bang => "!",
        TokenKind::Dollar => "$",
        TokenKind::Amp => "&",
        TokenKind::OpenParen => "(",
        TokenKind::CloseParen => ")",
        TokenKind::Spread => "...",
        TokenKind::Colon => ":",
        TokenKind::Equals => "=",
        TokenKind::At => "@",
        TokenKind::OpenBracket => "[",
        TokenKind::CloseBracket => "]",
        TokenKind::OpenBrace => "{",
        TokenKind::Pipe => "|",
        TokenKind::CloseBrace => "}",
        _ => "",
    }
}

/// Whether no space stands after this kind.
fn is_tight(kind: TokenKind) -> bool
    ensures { result ≡ is_tight kind }
{
    matches!(kind, TokenKind::Dollar | TokenKind::At)
}

/// One character of a string, escaped.
fn push_escaped(into: &mut String, character: char) -> Result<(), AllocError>
    ensures { OnOk result (string_bytes into.new ≡ string_bytes into.old ++ escaped character) }
{
    match character {
        '"' => into.push_str("\\\""),
        '\\' => into.push_str("\\\\"),
        '\n' => into.push_str("\\n"),
        '\r' => into.push_str("\\r"),
        '\t' => into.push_str("\\t"),
        '\u{8}' => into.push_str("\\b"),
        '\u{c}' => into.push_str("\\f"),
        other => push_other(into, other),
    }
}

/// Appends a digit of base 16, in upper case.
fn push_digit(into: &mut String, digit: u32) -> Result<(), AllocError>
    requires { digit < 16 }
    ensures { OnOk result (string_bytes into.new ≡ string_bytes into.old ++ upper_digit digit ∷ []) }
{
    match char::from_digit(digit, 16) {
        Some(character) => into.push(character.to_ascii_uppercase()),
        None => Ok(()),
    }
}

/// Appends the escape of a control character by its number.
fn push_control(into: &mut String, control: u32) -> Result<(), AllocError>
    requires { control < 128 }
    ensures { OnOk result (string_bytes into.new ≡ string_bytes into.old ++ escape_number control) }
{
    into.push_str("\\u00")?;
    push_digit(into, control / 16)?;
    push_digit(into, control % 16)
}

/// A character that has no escape by a letter: a control character by its number, and any other as it is.
fn push_other(into: &mut String, character: char) -> Result<(), AllocError>
    ensures { OnOk result (string_bytes into.new ≡ string_bytes into.old ++ numbered character) }
{
    if character.is_ascii_control() {
        push_control(into, u32::from(character))
    } else {
        into.push(character)
    }
}

/// The characters of a string, escaped.
fn push_all_escaped(into: &mut String, text: &str) -> Result<(), AllocError>
    ensures { OnOk result (string_bytes into.new ≡ string_bytes into.old ++ all_escaped text.now) }
{
    for character in text.chars() {
        push_escaped(into, character)?;
    }
    Ok(())
}

impl Printer {
    /// Nothing is printed yet.
    pub fn new(alloc: Global) -> Printer
        ensures { printed_by result ≡ ([], false) }
    {
        Printer {
            text: String::new(alloc),
            space: false,
        }
    }

    /// What was printed.
    pub fn finish(self) -> Text
        ensures { result ≡ (printed_by self).0 }
    {
        Text::from(self.text)
    }

    /// The space before what comes next.
    fn gap(&mut self) -> Result<(), AllocError>
        ensures { OnOk result (string_bytes self.new.text ≡ with_space (printed_by self.old)) }
    {
        if self.space {
            self.text.push(' ')?;
        }
        Ok(())
    }

    /// One more text, after which a space stands or not.
    fn piece(&mut self, text: &str, tight: bool) -> Result<(), AllocError>
        ensures { OnOk result (printed_by self.new ≡ put_text (printed_by self.old) text.now tight) }
    {
        self.gap()?;
        self.text.push_str(text)?;
        self.space = !tight;
        Ok(())
    }

    /// One more punctuator.
    pub fn mark(&mut self, kind: TokenKind) -> Result<(), AllocError>
        ensures { OnOk result (printed_by self.new ≡ put (printed_by self.old) (punctuator kind)) }
    {
        self.piece(mark_text(kind), is_tight(kind))
    }

    /// One more name.
    pub fn word(&mut self, name: &str) -> Result<(), AllocError>
        ensures { OnOk result (printed_by self.new ≡ put (printed_by self.old) (identifier name.now 0)) }
    {
        self.piece(name, false)
    }

    /// One more integer.
    pub fn integer(&mut self, value: &i128) -> Result<(), AllocError>
        ensures { OnOk result (printed_by self.new ≡ put (printed_by self.old) (integer value.now)) }
    {
        self.gap()?;
        write!(self.text, "{value}")?;
        self.space = true;
        Ok(())
    }

    /// One more float, as it is written.
    pub fn decimal(&mut self, digits: &str) -> Result<(), AllocError>
        ensures { OnOk result (printed_by self.new ≡ put (printed_by self.old) (decimal digits.now)) }
    {
        self.piece(digits, false)
    }

    /// One more string.
    pub fn string(&mut self, value: &str) -> Result<(), AllocError>
        ensures { OnOk result (printed_by self.new ≡ put (printed_by self.old) (string value.now)) }
    {
        self.gap()?;
        self.text.push('"')?;
        push_all_escaped(&mut self.text, value)?;
        self.text.push('"')?;
        self.space = true;
        Ok(())
    }
}
