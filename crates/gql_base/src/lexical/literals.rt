//! The values of number and string tokens.

ghost use Rattle.std.specs.Prelude.{◌≡◌, ◌+◌, ◌≤◌, List, length, drop, IfOk};
ghost use Rattle.std.specs.List.{prefix_len};
ghost use Rattle.std.specs.Char.{InScalarRange};
ghost use Rattle.gql_base.specs.lexical.Strings.{StringCharacter, IsBody, characters_value};
ghost use Rattle.gql_base.specs.lexical.Scans.{text_value, is_plain_byte};
ghost use Rattle.gql_base.specs.lexical.Literals.{integer_of, integer_value, inner_span, mark_length, marked_value, string_of};

use crate::lexical::blocks::block_value;
use crate::lexical::strings::{after, escape_at};
use crate::lexical::text::Text;
use crate::lexical::token::{Span, Token, TokenKind};
use std::alloc::{AllocError, Global};

/// The number that a sign and digits write, 0 where they write none of 128 bits.
fn integer_value(digits: &str) -> i128
    ensures { result ≡ integer_value digits.now }
{
    match digits.parse::<i128>() {
        Ok(number) => number,
        Err(_) => 0,
    }
}

/// The value of an integer token of `text`.
#[tactic(auto, unfolding(crate::specs::lexical::Literals::integer_of))]
pub fn integer_at(text: &str, token: Token) -> i128
    ensures { result ≡ integer_of text.now token }
{
    integer_value(token.text(text))
}

/// The place of the next `\` from a place on, or the end.
pub fn plain_end(bytes: &[u8], at: usize) -> usize
    requires { at ≤ length bytes.now }
    ensures { result ≡ at + prefix_len is_plain_byte (drop at bytes.now) }
{
    at + plain_length(after(bytes, at))
}

/// The number of bytes before the first `\`.
fn plain_length(bytes: &[u8]) -> usize
    ensures longest { result ≡ prefix_len is_plain_byte bytes.now }
    ensures within { result ≤ length bytes.now }
{
    bytes.iter().take_while(|byte| **byte != b'\\').count()
}

/// The character that has this number.
fn character_of(number: u32) -> char
    requires { InScalarRange number }
    ensures { result ≡ number }
{
    match char::from_u32(number) {
        Some(character) => character,
        None => '\u{fffd}',
    }
}

/// What stands between the marks of a string, with the character of each escape in its place (GraphQL October
/// 2021, 2.9.4). It fails for want of memory alone.
pub fn string_value(alloc: Global, body: &str) -> Result<Text, AllocError>
    ensures value { IfOk result (λ value. value ≡ text_value 0 body.now) }
    ensures characters { IfOk result (λ value. (characters : List StringCharacter) → IsBody characters body.now → value ≡ characters_value characters) }
{
    let mut value = String::new(alloc);
    let mut at = 0;
    while at < body.len() {
        match escape_at(after(body.as_bytes(), at)) {
            Some(escape) => {
                value.push(character_of(escape.character))?;
                at += escape.length;
            }
            None => {
                let end = plain_end(body.as_bytes(), at + 1);
                value.push_str(&body[at..end])?;
                at = end;
            }
        }
    }
    Ok(Text::from(value))
}

/// How many bytes the marks on each side of a string have.
fn mark_length(kind: TokenKind) -> usize
    ensures value { result ≡ mark_length kind }
    ensures small { result ≤ 3 }
{
    match kind {
        TokenKind::BlockStr => 3,
        _ => 1,
    }
}

/// The span without so many bytes at each end.
fn inner_span(length: usize, span: Span) -> Span
    requires { length ≤ 3 }
    ensures { result ≡ inner_span length span }
{
    if length + length <= span.end.saturating_sub(span.start) {
        Span {
            start: span.start + length,
            end: span.end - length,
        }
    } else {
        Span { start: 0, end: 0 }
    }
}

/// The value of what stands between the marks of a string of this kind.
fn marked_value(alloc: Global, kind: TokenKind, body: &str) -> Result<Text, AllocError>
    ensures { IfOk result (λ value. value ≡ marked_value kind body.now) }
{
    match kind {
        TokenKind::BlockStr => block_value(alloc, body),
        _ => string_value(alloc, body),
    }
}

/// The value of a string or block string token of `text` (GraphQL October 2021, 2.9.4). It fails for want of
/// memory alone.
#[tactic(auto, unfolding(crate::specs::lexical::Literals::string_of))]
pub fn string_at(alloc: Global, text: &str, token: Token) -> Result<Text, AllocError>
    ensures { IfOk result (λ value. value ≡ string_of text.now token) }
{
    let inner = Token {
        kind: token.kind,
        span: inner_span(mark_length(token.kind), token.span),
    };
    marked_value(alloc, token.kind, inner.text(text))
}
