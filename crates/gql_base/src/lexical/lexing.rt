//! Reading a text as tokens.

ghost use Rattle.std.specs.Prelude.{◌≡◌, ℕ, ◌+◌, ◌-◌, ◌<◌, ◌≤◌, ◌==◌, ◌&&◌, List, length, map, IfOk, IfErr};
ghost use Rattle.std.specs.List.{prefix_len};
ghost use Rattle.std.specs.Bool.{OnTrue};
ghost use Rattle.gql_base.specs.declared.lexical.token.Token.{Token};
ghost use Rattle.gql_base.specs.lexical.Characters.{is_name_continue, is_comment_byte};
ghost use Rattle.gql_base.specs.lexical.Strings.{begins_with_marks};
ghost use Rattle.gql_base.specs.lexical.Faults.{HasFault, moved};
ghost use Rattle.gql_base.specs.declared.lexical.lexing.LexFault.TheVariants.{BadChar};
ghost use Rattle.gql_base.specs.lexical.Fronts.{IsWithin, front_with, front_of, piece_from, mark_of, is_byte_order_mark, is_spread, begins_with_two, number_found, float_front, found_front, text_kind, mark_size, sound_text, closed_text, text_front, integer_fits};
ghost use Rattle.std.specs.Option.{IfSome};
ghost use Rattle.gql_base.specs.lexical.Pieces.{Lexeme};
ghost use Rattle.gql_base.specs.lexical.Tokens.{Lexes, HasLexemes, AreInOrder, IsFaultOf, Gives, GivesLexemes, Refuses, lexeme_of};

use crate::lexical::characters::{is_blank, is_comment_byte, is_name_continue, is_name_start};
use crate::lexical::numbers::{integer_fits, is_number_start, number_found};
use crate::lexical::strings::{begins_with_marks, closing_of, fault_before};
use crate::lexical::token::{Span, Token, TokenKind};
use std::alloc::{AllocFailed, Global};
use thiserror::Error;

/// Why a text has no tokens. Places are bytes, counted from the start of the text. All before the fault is
/// tokens and what is ignored between them.
#[derive(Clone, Copy, Debug, PartialEq, Eq, Error)]
pub enum LexFault {
    /// The character whose first byte is at `at` begins no token and isn't ignored, or it is a control
    /// character inside a string. `.` and `..` begin no token.
    #[error("no token begins with the character at byte {at}")]
    BadChar { at: usize },
    /// A digit or `-` at `at` begins neither an integer nor a float, or an integer outside the range of 128
    /// bits.
    #[error("the number at byte {at} is neither an integer of 128 bits nor a float")]
    BadNumber { at: usize },
    /// The string or block string that begins at `at` isn't closed.
    #[error("the string at byte {at} isn't closed")]
    OpenText { at: usize },
    /// The `\` at `at`, inside a string, begins no escape, or it begins that of a surrogate without its other
    /// half.
    #[error("the escape at byte {at} stands for no character")]
    BadEscape { at: usize },
    /// A float begins at `at`.
    #[error("a float stands at byte {at}")]
    FloatValue { at: usize },
    /// There was no memory for the tokens.
    #[error("there was not enough memory for the tokens")]
    Memory,
}

impl<T: Drop> From<AllocFailed<T>> for LexFault {
    ghost use Rattle.gql_base.specs.declared.lexical.lexing.LexFault.TheVariants.{Memory};

    ghost from_gives = { λ _ fault. fault ≡ Memory };

    fn from(_failed: AllocFailed<T>) -> LexFault {
        LexFault::Memory
    }
}

/// A fault whose places are counted from a place on, counted from the text's start.
fn moved(by: usize, fault: LexFault) -> LexFault
    requires { IsWithin (18446744073709551615 - by) fault }
    ensures { result ≡ moved by fault }
{
    match fault {
        LexFault::BadChar { at } => LexFault::BadChar { at: by + at },
        LexFault::BadNumber { at } => LexFault::BadNumber { at: by + at },
        LexFault::OpenText { at } => LexFault::OpenText { at: by + at },
        LexFault::BadEscape { at } => LexFault::BadEscape { at: by + at },
        LexFault::FloatValue { at } => LexFault::FloatValue { at: by + at },
        LexFault::Memory => LexFault::Memory,
    }
}

/// The tokens of `text` by the lexical grammar of GraphQL October 2021 (2.1 and 2.9), or its first fault. Each
/// is as long as possible. Between them stand byte order marks, tabs, spaces, line ends, commas and comments.
/// Unless `floats` says that they may stand there, floats are refused; so are integers outside the range of 128 bits. Strings may hold any character from U+0020
/// on and tabs, also those above U+FFFF; an escaped surrogate pair is one character.
pub fn lex(alloc: Global, text: &str, floats: bool) -> Result<Vec<Token>, LexFault>
    ensures found { IfOk result (λ tokens. Lexes floats text.now tokens.items) }
    ensures only { (tokens : List Token) → Lexes floats text.now tokens → Gives tokens result }
    ensures fault { IfErr result (λ fault. IsFaultOf floats text.now fault) }
    ensures refused { (fault : LexFault) → HasFault floats text.now fault → Refuses fault result }
    ensures lexemes { IfOk result (λ tokens. HasLexemes floats text.now (map (lexeme_of text.now) tokens.items)) }
    ensures only_lexemes { (lexemes : List Lexeme) → HasLexemes floats text.now lexemes → GivesLexemes text.now lexemes result }
    ensures in_order { IfOk result (λ tokens. AreInOrder 0 (length text.now) tokens.items) }
{
    let bytes = text.as_bytes();
    let mut tokens = Vec::new(alloc);
    let mut at = 0;
    while at < bytes.len() {
        let front = match front_piece(&bytes[at..], floats) {
            Ok(front) => front,
            Err(fault) => return Err(moved(at, fault)),
        };
        let end = at + front.length;
        if let Some(kind) = front.kind {
            tokens.push(Token {
                kind,
                span: Span { start: at, end },
            })?;
        }
        at = end;
    }
    Ok(tokens)
}

/// The piece at the front of a text: the kind of a token, none for what is ignored, and its length.
#[derive(Clone, Copy)]
pub struct Front {
    pub kind: Option<TokenKind>,
    pub length: usize,
}

/// The number of name characters at the front.
fn name_length(bytes: &[u8]) -> usize
    ensures longest { result ≡ prefix_len is_name_continue bytes.now }
    ensures within { result ≤ length bytes.now }
{
    bytes
        .iter()
        .take_while(|byte| is_name_continue(**byte))
        .count()
}

/// The number of bytes at the front that a comment may hold.
fn comment_length(bytes: &[u8]) -> usize
    ensures longest { result ≡ prefix_len is_comment_byte bytes.now }
    ensures within { result ≤ length bytes.now }
{
    bytes
        .iter()
        .take_while(|byte| is_comment_byte(**byte))
        .count()
}

/// Whether these two bytes stand at the front.
fn begins_with_two(second: u8, third: u8, bytes: &[u8]) -> bool
    ensures test { result ≡ begins_with_two second third bytes.now }
    ensures within { OnTrue result (2 ≤ length bytes.now) }
{
    match bytes {
        [first, next, ..] => *first == second && *next == third,
        _ => false,
    }
}

/// Whether a byte order mark stands at the front: this byte, and then two of the rest.
fn is_byte_order_mark(first: u8, rest: &[u8]) -> bool
    ensures test { result ≡ is_byte_order_mark first rest.now }
    ensures within { OnTrue result (2 ≤ length rest.now) }
{
    first == 0xef && begins_with_two(0xbb, 0xbf, rest)
}

/// Whether three dots stand at the front: this byte, and then two of the rest.
fn is_spread(first: u8, rest: &[u8]) -> bool
    ensures test { result ≡ is_spread first rest.now }
    ensures within { OnTrue result (2 ≤ length rest.now) }
{
    first == b'.' && begins_with_two(b'.', b'.', rest)
}

/// The punctuator of one byte.
fn mark_of(byte: u8) -> Option<TokenKind>
    ensures { result ≡ mark_of byte }
{
    match byte {
        b'!' => Some(TokenKind::Bang),
        b'$' => Some(TokenKind::Dollar),
        b'&' => Some(TokenKind::Amp),
        b'(' => Some(TokenKind::OpenParen),
        b')' => Some(TokenKind::CloseParen),
        b':' => Some(TokenKind::Colon),
        b'=' => Some(TokenKind::Equals),
        b'@' => Some(TokenKind::At),
        b'[' => Some(TokenKind::OpenBracket),
        b']' => Some(TokenKind::CloseBracket),
        b'{' => Some(TokenKind::OpenBrace),
        b'|' => Some(TokenKind::Pipe),
        b'}' => Some(TokenKind::CloseBrace),
        _ => None,
    }
}

/// A piece of one byte: the kind of a token, none for what is ignored.
fn one_byte(kind: Option<TokenKind>) -> Front
    ensures { result ≡ front_with kind 1 }
{
    Front { kind, length: 1 }
}

/// A float at the front that ends at a place.
fn float_front(end: usize, floats: bool) -> Result<Front, LexFault>
    ensures { result ≡ float_front floats end }
{
    if floats {
        Ok(Front {
            kind: Some(TokenKind::Float),
            length: end,
        })
    } else {
        Err(LexFault::FloatValue { at: 0 })
    }
}

/// The number at the front of bytes that begin as a number.
fn number_front(bytes: &[u8], floats: bool) -> Result<Front, LexFault>
    ensures front { result ≡ found_front floats bytes.now (number_found bytes.now) }
    ensures within { IfOk result (λ front. (0 < front.length) × (front.length ≤ length bytes.now)) }
    ensures place { IfErr result (λ fault. IsWithin (length bytes.now) fault) }
{
    let Some(found) = number_found(bytes) else {
        return Err(LexFault::BadNumber { at: 0 });
    };
    if found.is_float {
        return float_front(found.end, floats);
    }
    if integer_fits(&bytes[..found.end]) {
        Ok(Front {
            kind: Some(TokenKind::Int),
            length: found.end,
        })
    } else {
        Err(LexFault::BadNumber { at: 0 })
    }
}

fn text_kind(bytes: &[u8]) -> TokenKind
    ensures { result ≡ text_kind bytes.now }
{
    if begins_with_marks(bytes) {
        TokenKind::BlockStr
    } else {
        TokenKind::Str
    }
}

/// How many bytes each of the marks around a string or block string at the front has.
fn mark_size(bytes: &[u8]) -> usize
    ensures size { result ≡ mark_size bytes.now }
    ensures some { 0 < result }
{
    if begins_with_marks(bytes) { 3 } else { 1 }
}

/// The string or block string at the front that is closed at a place, with the fault in it, if it has one.
fn sound_text(bytes: &[u8], closing: usize, fault: Option<LexFault>) -> Result<Front, LexFault>
    requires closed { closing + mark_size bytes.now ≤ length bytes.now }
    requires within { IfSome fault (λ fault. IsWithin (length bytes.now) fault) }
    ensures front { result ≡ sound_text bytes.now closing fault }
    ensures within { IfOk result (λ front. (0 < front.length) × (front.length ≤ length bytes.now)) }
    ensures place { IfErr result (λ fault. IsWithin (length bytes.now) fault) }
{
    match fault {
        Some(fault) => Err(fault),
        None => Ok(Front {
            kind: Some(text_kind(bytes)),
            length: closing + mark_size(bytes),
        }),
    }
}

/// The string or block string at the front of bytes that begin with a mark.
#[tactic(auto, unfolding(crate::specs::lexical::Fronts::text_front))]
fn text_front(bytes: &[u8]) -> Result<Front, LexFault>
    ensures front { result ≡ text_front bytes.now }
    ensures within { IfOk result (λ front. (0 < front.length) × (front.length ≤ length bytes.now)) }
    ensures place { IfErr result (λ fault. IsWithin (length bytes.now) fault) }
{
    match closing_of(bytes) {
        Some(closing) => sound_text(bytes, closing, fault_before(closing, bytes)),
        None => Err(LexFault::OpenText { at: 0 }),
    }
}

/// The piece that begins with this byte and goes on in the rest, if one does.
fn piece_from(first: u8, rest: &[u8]) -> Result<Front, LexFault>
    ensures piece { result ≡ piece_from first rest.now }
    ensures within { IfOk result (λ front. (0 < front.length) × (front.length ≤ 1 + length rest.now)) }
    ensures place { IfErr result (λ fault. fault ≡ BadChar 0) }
{
    if is_name_start(first) {
        Ok(Front {
            kind: Some(TokenKind::Name),
            length: 1 + name_length(rest),
        })
    } else if is_blank(first) {
        Ok(one_byte(None))
    } else if first == b'#' {
        Ok(Front {
            kind: None,
            length: 1 + comment_length(rest),
        })
    } else if is_byte_order_mark(first, rest) {
        Ok(Front {
            kind: None,
            length: 3,
        })
    } else if is_spread(first, rest) {
        Ok(Front {
            kind: Some(TokenKind::Spread),
            length: 3,
        })
    } else {
        match mark_of(first) {
            Some(kind) => Ok(one_byte(Some(kind))),
            None => Err(LexFault::BadChar { at: 0 }),
        }
    }
}

/// The piece at the front of `bytes`, or the fault there.
pub fn front_piece(bytes: &[u8], floats: bool) -> Result<Front, LexFault>
    ensures piece { result ≡ front_of floats bytes.now }
    ensures within { IfOk result (λ front. (0 < front.length) × (front.length ≤ length bytes.now)) }
    ensures place { IfErr result (λ fault. IsWithin (length bytes.now) fault) }
{
    match bytes {
        [first, rest @ ..] => {
            if is_number_start(*first) {
                number_front(bytes, floats)
            } else if *first == b'"' {
                text_front(bytes)
            } else {
                piece_from(*first, rest)
            }
        }
        [] => Err(LexFault::BadChar { at: 0 }),
    }
}
