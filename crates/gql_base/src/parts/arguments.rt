//! Reading arguments, directives, defaults and kinds of operations (GraphQL October 2021, 2.3, 2.6, 2.10 and 2.12).

ghost use Rattle.std.specs.Prelude.{◌≡◌, ◌<◌, ◌≤◌, length, map, IfOk, Some};
ghost use Rattle.gql_base.specs.declared.lexical.token.TokenKind.TheVariants.{CloseParen};
ghost use Rattle.gql_base.specs.ways.Reading.{single, one_or_more, up_to};
ghost use Rattle.gql_base.specs.ways.Sources.{ahead, Reads};
ghost use Rattle.gql_base.specs.parts.Values.{value_at, named_value_at};
ghost use Rattle.gql_base.specs.parts.Arguments.{arguments_at, maybe_arguments_at, directive_at, directives_at, default_at, maybe_default_at};
ghost use Rattle.gql_base.specs.parts.OperationKinds.{kind_named, kind_word};
ghost use Rattle.gql_base.specs.parts.Trees.{value_tree, named_value, directive_tree, maybe_value};

use crate::lexical::token::TokenKind;
use crate::parts::trees::{Argument, Directive, OperationKind, Value};
use crate::parts::values::{argument, value};
use crate::ways::source::{Halt, Source};
use std::alloc::Global;

/// One argument or more, up to a `)`.
fn some_arguments(
    alloc: Global,
    source: &Source,
    start: usize,
    constant: bool,
    levels: usize,
) -> Result<(Vec<Argument>, usize), Halt>
    ensures read { Reads source.now (λ x. (map named_value x.0.items, x.1)) result (one_or_more (up_to CloseParen) (named_value_at (value_at constant levels)) (ahead source.now start)) }
    ensures within { IfOk result (λ x. start < x.1) }
{
    let mut arguments = Vec::new(alloc);
    let (first, end) = argument(alloc, source, start, constant, levels)?;
    arguments.push(first)?;
    let mut at = end;
    'rest: while source.is_other(at, TokenKind::CloseParen) {
        let (argument, end) = argument(alloc, source, at, constant, levels)?;
        arguments.push(argument)?;
        at = end;
    }
    Ok((arguments, at))
}

/// Arguments in parentheses.
fn arguments(
    alloc: Global,
    source: &Source,
    at: usize,
    constant: bool,
    levels: usize,
) -> Result<(Vec<Argument>, usize), Halt>
    ensures read { Reads source.now (λ x. (map named_value x.0.items, x.1)) result (arguments_at constant levels (ahead source.now at)) }
    ensures within { IfOk result (λ x. (at < x.1) × (x.1 ≤ length source.now.tokens.now)) }
{
    let start = source.wants(at, TokenKind::OpenParen)?;
    let (arguments, close) = some_arguments(alloc, source, start, constant, levels)?;
    let end = source.wants(close, TokenKind::CloseParen)?;
    Ok((arguments, end))
}

/// Arguments in parentheses, or none.
pub fn maybe_arguments(
    alloc: Global,
    source: &Source,
    at: usize,
    constant: bool,
    levels: usize,
) -> Result<(Vec<Argument>, usize), Halt>
    ensures read { Reads source.now (λ x. (map named_value x.0.items, x.1)) result (maybe_arguments_at constant levels (ahead source.now at)) }
    ensures within { IfOk result (λ x. (at ≤ x.1) × (at ≤ length source.now.tokens.now → x.1 ≤ length source.now.tokens.now)) }
{
    if source.is(at, TokenKind::OpenParen) {
        return arguments(alloc, source, at, constant, levels);
    }
    Ok((Vec::new(alloc), at))
}

fn directive(
    alloc: Global,
    source: &Source,
    at: usize,
    constant: bool,
    levels: usize,
) -> Result<(Directive, usize), Halt>
    ensures read { Reads source.now (λ x. (directive_tree x.0, x.1)) result (directive_at constant levels (ahead source.now at)) }
    ensures within { IfOk result (λ x. (at < x.1) × (x.1 ≤ length source.now.tokens.now)) }
{
    let start = source.wants(at, TokenKind::At)?;
    let (name, after) = source.name(alloc, start)?;
    let (arguments, end) = maybe_arguments(alloc, source, after, constant, levels)?;
    Ok((Directive { name, arguments }, end))
}

/// Directives, or none.
pub fn directives(
    alloc: Global,
    source: &Source,
    start: usize,
    constant: bool,
    levels: usize,
) -> Result<(Vec<Directive>, usize), Halt>
    ensures read { Reads source.now (λ x. (map directive_tree x.0.items, x.1)) result (directives_at constant levels (ahead source.now start)) }
    ensures within { IfOk result (λ x. (start ≤ x.1) × (start ≤ length source.now.tokens.now → x.1 ≤ length source.now.tokens.now)) }
{
    let mut directives = Vec::new(alloc);
    let mut at = start;
    'rest: while source.is(at, TokenKind::At) {
        let (directive, end) = directive(alloc, source, at, constant, levels)?;
        directives.push(directive)?;
        at = end;
    }
    Ok((directives, at))
}

/// The value after a `=`.
fn default_value(
    alloc: Global,
    source: &Source,
    at: usize,
    levels: usize,
) -> Result<(Value, usize), Halt>
    ensures read { Reads source.now (λ x. (Some (value_tree x.0), x.1)) result (default_at levels (ahead source.now at)) }
    ensures within { IfOk result (λ x. (at < x.1) × (x.1 ≤ length source.now.tokens.now)) }
{
    let start = source.wants(at, TokenKind::Equals)?;
    let (value, end) = value(alloc, source, start, true, levels)?;
    Ok((value, end))
}

/// A default value, or none.
pub fn maybe_default(
    alloc: Global,
    source: &Source,
    at: usize,
    levels: usize,
) -> Result<(Option<Value>, usize), Halt>
    ensures read { Reads source.now (λ x. (maybe_value x.0, x.1)) result (maybe_default_at levels (ahead source.now at)) }
    ensures within { IfOk result (λ x. (at ≤ x.1) × (at ≤ length source.now.tokens.now → x.1 ≤ length source.now.tokens.now)) }
{
    if source.is(at, TokenKind::Equals) {
        let (value, end) = default_value(alloc, source, at, levels)?;
        return Ok((Some(value), end));
    }
    Ok((None, at))
}

/// The kind of operation that a name is.
fn kind_named(word: &str) -> Option<OperationKind>
    ensures { result ≡ kind_named word.now }
{
    let bytes = word.as_bytes();
    if bytes == "query".as_bytes() {
        Some(OperationKind::Query)
    } else if bytes == "mutation".as_bytes() {
        Some(OperationKind::Mutation)
    } else if bytes == "subscription".as_bytes() {
        Some(OperationKind::Subscription)
    } else {
        None
    }
}

/// The kind of operation that the token with this number names, and the number of the token after it.
pub fn operation_kind(source: &Source, at: usize) -> Result<(OperationKind, usize), Halt>
    ensures read { Reads source.now (λ x. x) result (single kind_word (ahead source.now at)) }
    ensures within { IfOk result (λ x. (at < x.1) × (x.1 ≤ length source.now.tokens.now)) }
{
    match source.token(at) {
        Some(token) => match token.kind {
            TokenKind::Name => match kind_named(token.text(source.text)) {
                Some(kind) => Ok((kind, at + 1)),
                None => Err(Halt::Unexpected(at)),
            },
            _ => Err(Halt::Unexpected(at)),
        },
        None => Err(Halt::Unexpected(at)),
    }
}
