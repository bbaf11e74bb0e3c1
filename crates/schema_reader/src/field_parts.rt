//! Reading the definitions of arguments, fields and input fields (GraphQL October 2021, 3.6 and 3.10).

ghost use Rattle.std.specs.Prelude.{◌<◌, ◌≤◌, length, map, IfOk};
ghost use Rattle.gql_base.specs.declared.lexical.token.TokenKind.TheVariants.{CloseBrace};
ghost use Rattle.gql_base.specs.ways.Reading.{one_or_more, up_to};
ghost use Rattle.gql_base.specs.ways.Sources.{ahead, Reads};
ghost use Rattle.schema_reader.specs.SchemaReading.{input_at, arguments_at, maybe_arguments_at, input_fields_at, maybe_input_fields_at, field_definition_at, fields_at, maybe_fields_at};
ghost use Rattle.schema_reader.specs.Trees.{input_tree, field_tree};

use crate::parts::{description, name};
use crate::trees::{FieldDef, InputValue};
use gql_base::{Halt, Source, TokenKind, directives, maybe_default, type_reference};
use std::alloc::Global;

fn input(
    alloc: Global,
    source: &Source,
    at: usize,
    levels: usize,
) -> Result<(InputValue, usize), Halt>
    ensures read { Reads source.now (λ x. (input_tree x.0, x.1)) result (input_at levels (ahead source.now at)) }
    ensures within { IfOk result (λ x. (at < x.1) × (x.1 ≤ length source.now.tokens.now)) }
{
    let (description, end) = description(alloc, source, at)?;
    let (name, end) = name(alloc, source, end)?;
    let end = source.wants(end, TokenKind::Colon)?;
    let (of, end) = type_reference(alloc, source, end, levels)?;
    let (default, end) = maybe_default(alloc, source, end, levels)?;
    let (directives, end) = directives(alloc, source, end, true, levels)?;
    Ok((
        InputValue {
            description,
            name,
            of,
            default,
            directives,
        },
        end,
    ))
}

/// One argument or input field or more, up to this kind of token.
fn some_inputs(
    alloc: Global,
    source: &Source,
    start: usize,
    close: TokenKind,
    levels: usize,
) -> Result<(Vec<InputValue>, usize), Halt>
    ensures read { Reads source.now (λ x. (map input_tree x.0.items, x.1)) result (one_or_more (up_to close) (input_at levels) (ahead source.now start)) }
    ensures within { IfOk result (λ x. start < x.1) }
{
    let mut inputs = Vec::new(alloc);
    let (first, end) = input(alloc, source, start, levels)?;
    inputs.push(first)?;
    let mut at = end;
    'rest: while source.is_other(at, close) {
        let (input, end) = input(alloc, source, at, levels)?;
        inputs.push(input)?;
        at = end;
    }
    Ok((inputs, at))
}

/// The definitions of arguments, in parentheses.
fn arguments(
    alloc: Global,
    source: &Source,
    at: usize,
    levels: usize,
) -> Result<(Vec<InputValue>, usize), Halt>
    ensures read { Reads source.now (λ x. (map input_tree x.0.items, x.1)) result (arguments_at levels (ahead source.now at)) }
    ensures within { IfOk result (λ x. (at < x.1) × (x.1 ≤ length source.now.tokens.now)) }
{
    let start = source.wants(at, TokenKind::OpenParen)?;
    let (arguments, close) = some_inputs(alloc, source, start, TokenKind::CloseParen, levels)?;
    let end = source.wants(close, TokenKind::CloseParen)?;
    Ok((arguments, end))
}

/// The definitions of arguments, in parentheses, or none.
pub fn maybe_arguments(
    alloc: Global,
    source: &Source,
    at: usize,
    levels: usize,
) -> Result<(Vec<InputValue>, usize), Halt>
    ensures read { Reads source.now (λ x. (map input_tree x.0.items, x.1)) result (maybe_arguments_at levels (ahead source.now at)) }
    ensures within { IfOk result (λ x. (at ≤ x.1) × (at ≤ length source.now.tokens.now → x.1 ≤ length source.now.tokens.now)) }
{
    if source.is(at, TokenKind::OpenParen) {
        return arguments(alloc, source, at, levels);
    }
    Ok((Vec::new(alloc), at))
}

/// Input fields in braces.
fn input_fields(
    alloc: Global,
    source: &Source,
    at: usize,
    levels: usize,
) -> Result<(Vec<InputValue>, usize), Halt>
    ensures read { Reads source.now (λ x. (map input_tree x.0.items, x.1)) result (input_fields_at levels (ahead source.now at)) }
    ensures within { IfOk result (λ x. (at < x.1) × (x.1 ≤ length source.now.tokens.now)) }
{
    let start = source.wants(at, TokenKind::OpenBrace)?;
    let (fields, close) = some_inputs(alloc, source, start, TokenKind::CloseBrace, levels)?;
    let end = source.wants(close, TokenKind::CloseBrace)?;
    Ok((fields, end))
}

/// Input fields in braces, or none.
pub fn maybe_input_fields(
    alloc: Global,
    source: &Source,
    at: usize,
    levels: usize,
) -> Result<(Vec<InputValue>, usize), Halt>
    ensures read { Reads source.now (λ x. (map input_tree x.0.items, x.1)) result (maybe_input_fields_at levels (ahead source.now at)) }
    ensures within { IfOk result (λ x. (at ≤ x.1) × (at ≤ length source.now.tokens.now → x.1 ≤ length source.now.tokens.now)) }
{
    if source.is(at, TokenKind::OpenBrace) {
        return input_fields(alloc, source, at, levels);
    }
    Ok((Vec::new(alloc), at))
}

fn field(
    alloc: Global,
    source: &Source,
    at: usize,
    levels: usize,
) -> Result<(FieldDef, usize), Halt>
    ensures read { Reads source.now (λ x. (field_tree x.0, x.1)) result (field_definition_at levels (ahead source.now at)) }
    ensures within { IfOk result (λ x. (at < x.1) × (x.1 ≤ length source.now.tokens.now)) }
{
    let (description, end) = description(alloc, source, at)?;
    let (name, end) = name(alloc, source, end)?;
    let (arguments, end) = maybe_arguments(alloc, source, end, levels)?;
    let end = source.wants(end, TokenKind::Colon)?;
    let (of, end) = type_reference(alloc, source, end, levels)?;
    let (directives, end) = directives(alloc, source, end, true, levels)?;
    Ok((
        FieldDef {
            description,
            name,
            arguments,
            of,
            directives,
        },
        end,
    ))
}

/// One field or more, up to a `}`.
fn some_fields(
    alloc: Global,
    source: &Source,
    start: usize,
    levels: usize,
) -> Result<(Vec<FieldDef>, usize), Halt>
    ensures read { Reads source.now (λ x. (map field_tree x.0.items, x.1)) result (one_or_more (up_to CloseBrace) (field_definition_at levels) (ahead source.now start)) }
    ensures within { IfOk result (λ x. start < x.1) }
{
    let mut fields = Vec::new(alloc);
    let (first, end) = field(alloc, source, start, levels)?;
    fields.push(first)?;
    let mut at = end;
    'rest: while source.is_other(at, TokenKind::CloseBrace) {
        let (field, end) = field(alloc, source, at, levels)?;
        fields.push(field)?;
        at = end;
    }
    Ok((fields, at))
}

/// Fields in braces.
fn fields(
    alloc: Global,
    source: &Source,
    at: usize,
    levels: usize,
) -> Result<(Vec<FieldDef>, usize), Halt>
    ensures read { Reads source.now (λ x. (map field_tree x.0.items, x.1)) result (fields_at levels (ahead source.now at)) }
    ensures within { IfOk result (λ x. (at < x.1) × (x.1 ≤ length source.now.tokens.now)) }
{
    let start = source.wants(at, TokenKind::OpenBrace)?;
    let (fields, close) = some_fields(alloc, source, start, levels)?;
    let end = source.wants(close, TokenKind::CloseBrace)?;
    Ok((fields, end))
}

/// Fields in braces, or none.
pub fn maybe_fields(
    alloc: Global,
    source: &Source,
    at: usize,
    levels: usize,
) -> Result<(Vec<FieldDef>, usize), Halt>
    ensures read { Reads source.now (λ x. (map field_tree x.0.items, x.1)) result (maybe_fields_at levels (ahead source.now at)) }
    ensures within { IfOk result (λ x. (at ≤ x.1) × (at ≤ length source.now.tokens.now → x.1 ≤ length source.now.tokens.now)) }
{
    if source.is(at, TokenKind::OpenBrace) {
        return fields(alloc, source, at, levels);
    }
    Ok((Vec::new(alloc), at))
}
