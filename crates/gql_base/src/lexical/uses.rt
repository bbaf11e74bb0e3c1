//! Whether a directive is applied in a text.

ghost use Rattle.std.specs.Prelude.{◌≡◌, ◌&&◌};
ghost use Rattle.gql_base.specs.lexical.Tokens.{lexeme_with};
ghost use Rattle.gql_base.specs.lexical.Uses.{is_mark_at, is_named, IsUsed};

use crate::lexical::lexing::front_piece;
use crate::lexical::token::TokenKind;

/// Whether a token of this kind is `@`.
fn is_mark_at(kind: TokenKind, bytes: &[u8]) -> bool
    ensures { result ≡ is_mark_at (lexeme_with kind bytes.now) }
{
    matches!(kind, TokenKind::At)
}

/// Whether a token of this kind is this name, behind `@`.
fn is_use(marked: bool, kind: TokenKind, bytes: &[u8], name: &str) -> bool
    ensures { result ≡ (marked && is_named name.now (lexeme_with kind bytes.now)) }
{
    match kind {
        TokenKind::Name => marked && bytes == name.as_bytes(),
        _ => false,
    }
}

/// Whether `@` and this name stand one behind the other among the tokens of a text, up to its first fault, where floats
/// may stand in it.
pub fn uses_directive(text: &str, name: &str) -> bool
    ensures { IsUsed name.now text.now result }
{
    let bytes = text.as_bytes();
    let mut at = 0;
    let mut marked = false;
    while at < bytes.len() {
        let rest = &bytes[at..];
        let Ok(front) = front_piece(rest, true) else {
            return false;
        };
        let end = at + front.length;
        if let Some(kind) = front.kind {
            let written = &rest[..front.length];
            if is_use(marked, kind, written, name) {
                return true;
            }
            marked = is_mark_at(kind, written);
        }
        at = end;
    }
    false
}
