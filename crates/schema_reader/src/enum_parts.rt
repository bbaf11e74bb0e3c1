//! Reading the values of enum types (GraphQL October 2021, 3.9).

ghost use Rattle.std.specs.Prelude.{◌≡◌, ◌<◌, ◌≤◌, ◌||◌, length, map, IfOk, codes};
ghost use Rattle.std.specs.Str.{bytes_eq};
ghost use Rattle.gql_base.specs.declared.lexical.token.TokenKind.TheVariants.{CloseBrace};
ghost use Rattle.gql_base.specs.ways.Reading.{single, one_or_more, up_to};
ghost use Rattle.gql_base.specs.ways.Sources.{ahead, Reads};
ghost use Rattle.schema_reader.specs.Schemas.{enum_name};
ghost use Rattle.schema_reader.specs.SchemaReading.{enum_value_at, enum_values_at, maybe_enum_values_at};
ghost use Rattle.schema_reader.specs.Trees.{enum_value_tree};

use crate::parts::description;
use crate::trees::EnumValueDef;
use gql_base::{Halt, Source, Text, TokenKind, directives};
use std::alloc::Global;

/// Whether a name is `true`, `false` or `null`, which are no enum values.
fn is_literal(name: &str) -> bool
    ensures { result ≡ (bytes_eq name.now (codes "true") || (bytes_eq name.now (codes "false") || bytes_eq name.now (codes "null"))) }
{
    let bytes = name.as_bytes();
    bytes == "true".as_bytes() || bytes == "false".as_bytes() || bytes == "null".as_bytes()
}

/// The name of an enum value.
fn enum_name(alloc: Global, source: &Source, at: usize) -> Result<(Text, usize), Halt>
    ensures read { Reads source.now (λ x. (x.0, x.1)) result (single enum_name (ahead source.now at)) }
    ensures within { IfOk result (λ x. (at < x.1) × (x.1 ≤ length source.now.tokens.now)) }
{
    match source.token(at) {
        Some(token) => match token.kind {
            TokenKind::Name => {
                if is_literal(token.text(source.text)) {
                    return Err(Halt::Unexpected(at));
                }
                Ok((Text::copy_of(alloc, token.text(source.text))?, at + 1))
            }
            _ => Err(Halt::Unexpected(at)),
        },
        None => Err(Halt::Unexpected(at)),
    }
}

fn enum_value(
    alloc: Global,
    source: &Source,
    at: usize,
    levels: usize,
) -> Result<(EnumValueDef, usize), Halt>
    ensures read { Reads source.now (λ x. (enum_value_tree x.0, x.1)) result (enum_value_at levels (ahead source.now at)) }
    ensures within { IfOk result (λ x. (at < x.1) × (x.1 ≤ length source.now.tokens.now)) }
{
    let (description, end) = description(alloc, source, at)?;
    let (name, end) = enum_name(alloc, source, end)?;
    let (directives, end) = directives(alloc, source, end, true, levels)?;
    Ok((
        EnumValueDef {
            description,
            name,
            directives,
        },
        end,
    ))
}

/// One enum value or more, up to a `}`.
fn some_enum_values(
    alloc: Global,
    source: &Source,
    start: usize,
    levels: usize,
) -> Result<(Vec<EnumValueDef>, usize), Halt>
    ensures read { Reads source.now (λ x. (map enum_value_tree x.0.items, x.1)) result (one_or_more (up_to CloseBrace) (enum_value_at levels) (ahead source.now start)) }
    ensures within { IfOk result (λ x. start < x.1) }
{
    let mut values = Vec::new(alloc);
    let (first, end) = enum_value(alloc, source, start, levels)?;
    values.push(first)?;
    let mut at = end;
    'rest: while source.is_other(at, TokenKind::CloseBrace) {
        let (value, end) = enum_value(alloc, source, at, levels)?;
        values.push(value)?;
        at = end;
    }
    Ok((values, at))
}

/// Enum values in braces.
fn enum_values(
    alloc: Global,
    source: &Source,
    at: usize,
    levels: usize,
) -> Result<(Vec<EnumValueDef>, usize), Halt>
    ensures read { Reads source.now (λ x. (map enum_value_tree x.0.items, x.1)) result (enum_values_at levels (ahead source.now at)) }
    ensures within { IfOk result (λ x. (at < x.1) × (x.1 ≤ length source.now.tokens.now)) }
{
    let start = source.wants(at, TokenKind::OpenBrace)?;
    let (values, close) = some_enum_values(alloc, source, start, levels)?;
    let end = source.wants(close, TokenKind::CloseBrace)?;
    Ok((values, end))
}

/// Enum values in braces, or none.
pub fn maybe_enum_values(
    alloc: Global,
    source: &Source,
    at: usize,
    levels: usize,
) -> Result<(Vec<EnumValueDef>, usize), Halt>
    ensures read { Reads source.now (λ x. (map enum_value_tree x.0.items, x.1)) result (maybe_enum_values_at levels (ahead source.now at)) }
    ensures within { IfOk result (λ x. (at ≤ x.1) × (at ≤ length source.now.tokens.now → x.1 ≤ length source.now.tokens.now)) }
{
    if source.is(at, TokenKind::OpenBrace) {
        return enum_values(alloc, source, at, levels);
    }
    Ok((Vec::new(alloc), at))
}
