//! The tokens of GraphQL texts.

ghost use Rattle.std.specs.Prelude.{◌≡◌};
ghost use Rattle.gql_base.specs.lexical.Tokens.{bytes_at};

/// The bytes of a text from `start` up to before `end`, counted from the text's first byte.
#[derive(Clone, Copy, Debug, PartialEq, Eq)]
pub struct Span {
    pub start: usize,
    pub end: usize,
}

/// What a token is (GraphQL October 2021, 2.1).
#[derive(Clone, Copy, Debug, PartialEq, Eq)]
pub enum TokenKind {
    Name,
    /// An integer.
    Int,
    /// A float: a number with a fraction, an exponent or both.
    Float,
    /// A string between quotation marks.
    Str,
    /// A string between three quotation marks on each side.
    BlockStr,
    /// `!`
    Bang,
    /// `$`
    Dollar,
    /// `&`
    Amp,
    /// `(`
    OpenParen,
    /// `)`
    CloseParen,
    /// `...`
    Spread,
    /// `:`
    Colon,
    /// `=`
    Equals,
    /// `@`
    At,
    /// `[`
    OpenBracket,
    /// `]`
    CloseBracket,
    /// `{`
    OpenBrace,
    /// `|`
    Pipe,
    /// `}`
    CloseBrace,
}

/// A token of a text: what it is, and where it stands.
#[derive(Clone, Copy, Debug, PartialEq, Eq)]
pub struct Token {
    pub kind: TokenKind,
    pub span: Span,
}

impl Token {
    /// The token as it is written in `text`, the text that it was read from. At another text, where its
    /// span may not lie at the borders of characters, it is empty then.
    pub fn text<'a>(&self, text: &'a str) -> &'a str
        ensures { result.now ≡ bytes_at text.now self.now.span }
    {
        let start = self.span.start;
        let end = self.span.end;
        if start <= end && text.is_char_boundary(start) && text.is_char_boundary(end) {
            &text[start..end]
        } else {
            ""
        }
    }
}
