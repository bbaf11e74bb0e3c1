//! The tokens of a text, as readers of all grammars look at them.

ghost use Rattle.std.specs.Prelude.{◌≡◌, ◌==◌, ◌+◌, ◌≤◌, ◌<◌, length, IfOk, IfErr, IfSome, false};
ghost use Rattle.gql_base.specs.lexical.Tokens.{bytes_at};
ghost use Rattle.gql_base.specs.ways.Symbols.{kind_number};
ghost use Rattle.gql_base.specs.ways.Reading.{single, takes, next, opener, exact, any_name, keyword, any_string, is_there, up_to};
ghost use Rattle.gql_base.specs.ways.Sources.{ahead, ahead_with, Reads, offset_of};

use crate::lexical::literals::string_at;
use crate::lexical::text::Text;
use crate::lexical::token::{Token, TokenKind};
use crate::parts::trees::Name;
use std::alloc::{AllocError, AllocFailed, Global};

/// Why reading halts, and at which token.
#[derive(Clone, Copy, Debug, PartialEq, Eq)]
pub enum Halt {
    /// The token with this number can't stand there; none has it where the tokens end too early.
    Unexpected(usize),
    /// The token with this number opens a level too many.
    TooDeep(usize),
    Memory,
}

impl From<AllocError> for Halt {
    ghost use Rattle.gql_base.specs.declared.ways.source.Halt.TheVariants.{Memory};

    ghost from_gives = { λ _ halt. halt ≡ Memory };

    fn from(_error: AllocError) -> Halt {
        Halt::Memory
    }
}

impl<T: Drop> From<AllocFailed<T>> for Halt {
    ghost use Rattle.gql_base.specs.declared.ways.source.Halt.TheVariants.{Memory};

    ghost from_gives = { λ _ halt. halt ≡ Memory };

    fn from(_failed: AllocFailed<T>) -> Halt {
        Halt::Memory
    }
}

/// A text and its tokens.
#[derive(Drop)]
pub struct Source<'a> {
    pub text: &'a str,
    pub tokens: &'a [Token],
}

/// The number of a kind; both kinds of strings have one.
fn number_of(kind: TokenKind) -> u8
    ensures { result ≡ kind_number kind }
{
    match kind {
        TokenKind::BlockStr => TokenKind::Str as u8,
        _ => kind as u8,
    }
}

fn is_kind(kind: TokenKind, found: TokenKind) -> bool
    ensures { result ≡ (kind_number kind == kind_number found) }
{
    number_of(kind) == number_of(found)
}

impl<'a> Source<'a> {
    /// The token with this number.
    pub fn token(&self, at: usize) -> Option<Token>
        ensures ahead { ahead self.now at ≡ ahead_with self.now at result }
        ensures within { IfSome result (λ t. at < length self.now.tokens.now) }
    {
        if at < self.tokens.len() {
            Some(self.tokens[at])
        } else {
            None
        }
    }

    /// Whether the token with this number is of this kind; a string is of both kinds of strings.
    pub fn is(&self, at: usize, kind: TokenKind) -> bool
        ensures { result ≡ takes (exact kind) (next (ahead self.now at)) }
    {
        match self.token(at) {
            Some(token) => is_kind(kind, token.kind),
            None => false,
        }
    }

    /// Whether there is a token with this number and it is of another kind.
    pub fn is_other(&self, at: usize, kind: TokenKind) -> bool
        ensures { result ≡ up_to kind (next (ahead self.now at)) }
    {
        match self.token(at) {
            Some(token) => !is_kind(kind, token.kind),
            None => false,
        }
    }

    /// The token after this one, which must be of this kind.
    pub fn wants(&self, at: usize, kind: TokenKind) -> Result<usize, Halt>
        ensures read { Reads self.now (λ end. (tt, end)) result (single (exact kind) (ahead self.now at)) }
        ensures within { IfOk result (λ end. (end ≡ at + 1) × (end ≤ length self.now.tokens.now)) }
    {
        match self.token(at) {
            Some(token) => {
                if is_kind(kind, token.kind) {
                    Ok(at + 1)
                } else {
                    Err(Halt::Unexpected(at))
                }
            }
            None => Err(Halt::Unexpected(at)),
        }
    }

    /// The token after this one, which must be of this kind and opens a level.
    pub fn opens(&self, at: usize, kind: TokenKind, levels: usize) -> Result<usize, Halt>
        ensures read { Reads self.now (λ end. (tt, end)) result (opener (exact kind) levels (ahead self.now at)) }
        ensures within { IfOk result (λ end. (0 < levels) × (end ≡ at + 1) × (end ≤ length self.now.tokens.now)) }
    {
        if !self.is(at, kind) {
            return Err(Halt::Unexpected(at));
        }
        if levels == 0 {
            return Err(Halt::TooDeep(at));
        }
        self.wants(at, kind)
    }

    /// The name that the token with this number is, and the number of the token after it.
    pub fn name(&self, alloc: Global, at: usize) -> Result<(Name, usize), Halt>
        ensures read { Reads self.now (λ x. ((x.0.text, x.0.at), x.1)) result (single any_name (ahead self.now at)) }
        ensures within { IfOk result (λ x. (x.1 ≡ at + 1) × (x.1 ≤ length self.now.tokens.now)) }
    {
        match self.token(at) {
            Some(token) => match token.kind {
                TokenKind::Name => {
                    let text = Text::copy_of(alloc, token.text(self.text))?;
                    let name = Name {
                        text,
                        at: token.span.start,
                    };
                    Ok((name, at + 1))
                }
                _ => Err(Halt::Unexpected(at)),
            },
            None => Err(Halt::Unexpected(at)),
        }
    }

    /// Whether there is a token with this number.
    pub fn is_there(&self, at: usize) -> bool
        ensures there { result ≡ is_there (next (ahead self.now at)) }
        ensures end { result ≡ false → length self.now.tokens.now ≤ at }
    {
        if at < self.tokens.len() {
            return true;
        }
        false
    }

    /// Whether the token with this number is this name.
    pub fn is_word(&self, at: usize, word: &str) -> bool
        ensures { result ≡ takes (keyword word.now) (next (ahead self.now at)) }
    {
        match self.token(at) {
            Some(token) => match token.kind {
                TokenKind::Name => token.text(self.text).as_bytes() == word.as_bytes(),
                _ => false,
            },
            None => false,
        }
    }

    /// The token after this one, which must be this name.
    pub fn wants_word(&self, at: usize, word: &str) -> Result<usize, Halt>
        ensures read { Reads self.now (λ end. (tt, end)) result (single (keyword word.now) (ahead self.now at)) }
        ensures within { IfOk result (λ end. (end ≡ at + 1) × (end ≤ length self.now.tokens.now)) }
    {
        match self.token(at) {
            Some(token) => match token.kind {
                TokenKind::Name => {
                    if token.text(self.text).as_bytes() == word.as_bytes() {
                        Ok(at + 1)
                    } else {
                        Err(Halt::Unexpected(at))
                    }
                }
                _ => Err(Halt::Unexpected(at)),
            },
            None => Err(Halt::Unexpected(at)),
        }
    }

    /// Whether the token with this number is a string or a block string.
    pub fn is_string(&self, at: usize) -> bool
        ensures { result ≡ takes any_string (next (ahead self.now at)) }
    {
        match self.token(at) {
            Some(token) => match token.kind {
                TokenKind::Str => true,
                TokenKind::BlockStr => true,
                _ => false,
            },
            None => false,
        }
    }

    /// What the string or block string that the token with this number is stands for, and the number of the token after
    /// it.
    pub fn string(&self, alloc: Global, at: usize) -> Result<(Text, usize), Halt>
        ensures read { Reads self.now (λ x. (x.0, x.1)) result (single any_string (ahead self.now at)) }
        ensures within { IfOk result (λ x. (x.1 ≡ at + 1) × (x.1 ≤ length self.now.tokens.now)) }
    {
        match self.token(at) {
            Some(token) => match token.kind {
                TokenKind::Str => Ok((string_at(alloc, self.text, token)?, at + 1)),
                TokenKind::BlockStr => Ok((string_at(alloc, self.text, token)?, at + 1)),
                _ => Err(Halt::Unexpected(at)),
            },
            None => Err(Halt::Unexpected(at)),
        }
    }

    /// The offset of the token with this number, or the text's length where there is none.
    pub fn offset(&self, at: usize) -> usize
        ensures { result ≡ offset_of self.now.text.now self.now.tokens.now at }
    {
        match self.tokens.get(at) {
            Some(token) => token.span.start,
            None => self.text.len(),
        }
    }
}
