//! Reading type references.

ghost use Rattle.std.specs.Prelude.{◌≡◌, ◌+◌, ◌<◌, ◌≤◌, length, IfOk};
ghost use Rattle.gql_base.specs.ways.Reading.{single};
ghost use Rattle.gql_base.specs.ways.Sources.{ahead, Reads};
ghost use Rattle.gql_base.specs.parts.TypeReferences.{type_at, nullable_at, list_type_at, type_name, bang_at, list_type};
ghost use Rattle.gql_base.specs.parts.Trees.{type_tree};

use crate::lexical::text::Text;
use crate::lexical::token::TokenKind;
use crate::parts::trees::{Name, TypeRef};
use crate::ways::source::{Halt, Source};
use std::alloc::Global;

/// Whether there is a `!`, and the number of the token after it.
fn bang(source: &Source, at: usize) -> Result<(bool, usize), Halt>
    ensures read { Reads source.now (λ x. x) result (bang_at (ahead source.now at)) }
    ensures within { IfOk result (λ x. (at ≤ x.1) × (at ≤ length source.now.tokens.now → x.1 ≤ length source.now.tokens.now)) }
{
    if source.is(at, TokenKind::Bang) {
        let end = source.wants(at, TokenKind::Bang)?;
        return Ok((true, end));
    }
    Ok((false, at))
}

/// A type that is a name.
#[tactic(auto, unfolding(crate::specs::parts::Trees::type_tree))]
fn named(alloc: Global, source: &Source, at: usize) -> Result<(TypeRef, usize), Halt>
    ensures read { Reads source.now (λ x. (type_tree x.0, x.1)) result (single type_name (ahead source.now at)) }
    ensures within { IfOk result (λ x. (at < x.1) × (x.1 ≤ length source.now.tokens.now)) }
{
    match source.token(at) {
        Some(token) => match token.kind {
            TokenKind::Name => {
                let text = Text::copy_of(alloc, token.text(source.text))?;
                let name = Name {
                    text,
                    at: token.span.start,
                };
                Ok((TypeRef::Named(name), at + 1))
            }
            _ => Err(Halt::Unexpected(at)),
        },
        None => Err(Halt::Unexpected(at)),
    }
}

/// The type from token `at` on, and the number of the token after it. So many levels may still be opened.
#[cycle(types)]
pub fn type_reference(
    alloc: Global,
    source: &Source,
    at: usize,
    levels: usize,
) -> Result<(TypeRef, usize), Halt>
    ensures read { Reads source.now (λ x. (type_tree x.0, x.1)) result (type_at levels (ahead source.now at)) }
    ensures within { IfOk result (λ x. (at < x.1) × (x.1 ≤ length source.now.tokens.now)) }
{
    let (of, end) = nullable(alloc, source, at, levels)?;
    let (bang, end) = bang(source, end)?;
    if bang {
        let of = Box::new(alloc, of)?;
        return Ok((TypeRef::NonNull(of), end));
    }
    Ok((of, end))
}

/// A type up to its `!`.
#[cycle(types)]
fn nullable(
    alloc: Global,
    source: &Source,
    at: usize,
    levels: usize,
) -> Result<(TypeRef, usize), Halt>
    ensures read { Reads source.now (λ x. (type_tree x.0, x.1)) result (nullable_at levels (ahead source.now at)) }
    ensures within { IfOk result (λ x. (at < x.1) × (x.1 ≤ length source.now.tokens.now)) }
{
    if source.is(at, TokenKind::OpenBracket) {
        let (of, end) = list_type(alloc, source, at, levels)?;
        let of = Box::new(alloc, of)?;
        return Ok((TypeRef::ListOf(of), end));
    }
    named(alloc, source, at)
}

/// The item type of a list type.
#[cycle(types)]
#[tactic(auto, unfolding(crate::specs::parts::TypeReferences::list_type_at))]
fn list_type(
    alloc: Global,
    source: &Source,
    at: usize,
    levels: usize,
) -> Result<(TypeRef, usize), Halt>
    ensures read { Reads source.now (λ x. (list_type (type_tree x.0), x.1)) result (list_type_at levels (ahead source.now at)) }
    ensures within { IfOk result (λ x. (at < x.1) × (x.1 ≤ length source.now.tokens.now)) }
{
    let start = source.opens(at, TokenKind::OpenBracket, levels)?;
    let (of, close) = type_reference(alloc, source, start, levels - 1)?;
    let end = source.wants(close, TokenKind::CloseBracket)?;
    Ok((of, end))
}
