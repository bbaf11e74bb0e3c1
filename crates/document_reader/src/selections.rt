//! Reading selection sets (GraphQL October 2021, 2.4, 2.5 and 2.8).

ghost use Rattle.std.specs.Prelude.{◌≡◌, ◌<◌, ◌≤◌, length, map, IfOk, None, Some};
ghost use Rattle.std.specs.Str.{bytes_eq};
ghost use Rattle.gql_base.specs.declared.lexical.token.TokenKind.TheVariants.{CloseBrace};
ghost use Rattle.gql_base.specs.ways.Reading.{single, takes, next, one_or_more, up_to, keyword};
ghost use Rattle.gql_base.specs.ways.Sources.{ahead, Reads};
ghost use Rattle.gql_base.specs.parts.Trees.{identifier_of, named_value, directive_tree};
ghost use Rattle.document_reader.specs.Documents.{fragment_name, inline_fragment};
ghost use Rattle.document_reader.specs.DocumentReading.{field_names_at, field_head_at, type_condition_at, maybe_condition_at, spread_at, inline_head_at, inline_with, after_dots_with, dots_with, field_with, selection_with, maybe_set_with, set_at, opened_set_at};
ghost use Rattle.document_reader.specs.Trees.{maybe_identifier, names_of, selection_tree, field_tree, set_tree};

use crate::trees::{Field, Selection};
use gql_base::{Argument, Directive, Halt, Name, Source, TokenKind, directives, maybe_arguments};
use std::alloc::Global;

/// Whether the token with this number is a name other than `on`.
fn is_fragment_name(source: &Source, at: usize) -> bool
    ensures { result ≡ takes fragment_name (next (ahead source.now at)) }
{
    match source.token(at) {
        Some(token) => match token.kind {
            TokenKind::Name => !(token.text(source.text).as_bytes() == "on".as_bytes()),
            _ => false,
        },
        None => false,
    }
}

/// The name of a fragment: any name but `on`.
pub fn fragment_name(alloc: Global, source: &Source, at: usize) -> Result<(Name, usize), Halt>
    ensures read { Reads source.now (λ x. (identifier_of x.0, x.1)) result (single fragment_name (ahead source.now at)) }
    ensures within { IfOk result (λ x. (at < x.1) × (x.1 ≤ length source.now.tokens.now)) }
{
    if is_fragment_name(source, at) {
        return source.name(alloc, at);
    }
    Err(Halt::Unexpected(at))
}

/// The names of a field.
#[derive(Drop)]
struct FieldNames {
    alias: Option<Name>,
    name: Name,
}

/// A name, with an alias before it or without.
fn names(alloc: Global, source: &Source, at: usize) -> Result<(FieldNames, usize), Halt>
    ensures read { Reads source.now (λ x. (names_of x.0.alias x.0.name, x.1)) result (field_names_at (ahead source.now at)) }
    ensures within { IfOk result (λ x. (at < x.1) × (x.1 ≤ length source.now.tokens.now)) }
{
    let (first, end) = source.name(alloc, at)?;
    if source.is(end, TokenKind::Colon) {
        let after = source.wants(end, TokenKind::Colon)?;
        let (name, end) = source.name(alloc, after)?;
        let alias = Some(first);
        return Ok((FieldNames { alias, name }, end));
    }
    Ok((
        FieldNames {
            alias: None,
            name: first,
        },
        end,
    ))
}

/// What a field has before its selections.
#[derive(Drop)]
struct FieldHead {
    names: FieldNames,
    arguments: Vec<Argument>,
    directives: Vec<Directive>,
}

fn head(
    alloc: Global,
    source: &Source,
    at: usize,
    levels: usize,
) -> Result<(FieldHead, usize), Halt>
    ensures read { Reads source.now (λ x. ((names_of x.0.names.alias x.0.names.name, (map named_value x.0.arguments.items, map directive_tree x.0.directives.items)), x.1)) result (field_head_at levels (ahead source.now at)) }
    ensures within { IfOk result (λ x. (at < x.1) × (x.1 ≤ length source.now.tokens.now)) }
{
    let (names, end) = names(alloc, source, at)?;
    let (arguments, end) = maybe_arguments(alloc, source, end, false, levels)?;
    let (directives, end) = directives(alloc, source, end, false, levels)?;
    Ok((
        FieldHead {
            names,
            arguments,
            directives,
        },
        end,
    ))
}

/// The type after `on`.
fn condition(alloc: Global, source: &Source, at: usize) -> Result<(Name, usize), Halt>
    ensures read { Reads source.now (λ x. (Some (identifier_of x.0), x.1)) result (type_condition_at (ahead source.now at)) }
    ensures within { IfOk result (λ x. (at < x.1) × (x.1 ≤ length source.now.tokens.now)) }
{
    let start = source.wants_word(at, "on")?;
    let (name, end) = source.name(alloc, start)?;
    Ok((name, end))
}

fn maybe_condition(alloc: Global, source: &Source, at: usize) -> Result<(Option<Name>, usize), Halt>
    ensures read { Reads source.now (λ x. (maybe_identifier x.0, x.1)) result (maybe_condition_at (ahead source.now at)) }
    ensures within { IfOk result (λ x. (at ≤ x.1) × (at ≤ length source.now.tokens.now → x.1 ≤ length source.now.tokens.now)) }
{
    if source.is_word(at, "on") {
        let (name, end) = condition(alloc, source, at)?;
        return Ok((Some(name), end));
    }
    Ok((None, at))
}

/// What a fragment spread has after its `...`.
#[tactic(auto, unfolding(crate::specs::Trees::selection_tree))]
fn spread(
    alloc: Global,
    source: &Source,
    at: usize,
    levels: usize,
) -> Result<(Selection, usize), Halt>
    ensures read { Reads source.now (λ x. (selection_tree x.0, x.1)) result (spread_at levels (ahead source.now at)) }
    ensures within { IfOk result (λ x. (at < x.1) × (x.1 ≤ length source.now.tokens.now)) }
{
    let (name, end) = fragment_name(alloc, source, at)?;
    let (directives, end) = directives(alloc, source, end, false, levels)?;
    Ok((Selection::Spread { name, directives }, end))
}

/// What an inline fragment has between its `...` and its selections.
#[derive(Drop)]
struct InlineHead {
    on: Option<Name>,
    directives: Vec<Directive>,
}

fn inline_head(
    alloc: Global,
    source: &Source,
    at: usize,
    levels: usize,
) -> Result<(InlineHead, usize), Halt>
    ensures read { Reads source.now (λ x. ((maybe_identifier x.0.on, map directive_tree x.0.directives.items), x.1)) result (inline_head_at levels (ahead source.now at)) }
    ensures within { IfOk result (λ x. (at ≤ x.1) × (at ≤ length source.now.tokens.now → x.1 ≤ length source.now.tokens.now)) }
{
    let (on, end) = maybe_condition(alloc, source, at)?;
    let (directives, end) = directives(alloc, source, end, false, levels)?;
    Ok((InlineHead { on, directives }, end))
}

/// An inline fragment.
#[derive(Drop)]
struct InlineParts {
    on: Option<Name>,
    directives: Vec<Directive>,
    selections: Vec<Selection>,
}

fn selection_of(from: InlineParts) -> Selection
    ensures { selection_tree result ≡ inline_fragment (maybe_identifier from.on) (map directive_tree from.directives.items) (set_tree from.selections.items) }
{
    Selection::Inline {
        on: from.on,
        directives: from.directives,
        selections: from.selections,
    }
}

#[cycle(sets)]
fn inline(
    alloc: Global,
    source: &Source,
    at: usize,
    levels: usize,
) -> Result<(InlineParts, usize), Halt>
    ensures read { Reads source.now (λ x. (inline_fragment (maybe_identifier x.0.on) (map directive_tree x.0.directives.items) (set_tree x.0.selections.items), x.1)) result (inline_with levels (set_at levels) (ahead source.now at)) }
    ensures within { IfOk result (λ x. (at < x.1) × (x.1 ≤ length source.now.tokens.now)) }
{
    let (head, end) = inline_head(alloc, source, at, levels)?;
    let (selections, end) = selection_set(alloc, source, end, levels)?;
    Ok((
        InlineParts {
            on: head.on,
            directives: head.directives,
            selections,
        },
        end,
    ))
}

/// A fragment spread or an inline fragment, after its `...`.
#[cycle(sets)]
fn after_dots(
    alloc: Global,
    source: &Source,
    at: usize,
    levels: usize,
) -> Result<(Selection, usize), Halt>
    ensures read { Reads source.now (λ x. (selection_tree x.0, x.1)) result (after_dots_with levels (set_at levels) (ahead source.now at)) }
    ensures within { IfOk result (λ x. (at < x.1) × (x.1 ≤ length source.now.tokens.now)) }
{
    if is_fragment_name(source, at) {
        return spread(alloc, source, at, levels);
    }
    let (inline, end) = inline(alloc, source, at, levels)?;
    Ok((selection_of(inline), end))
}

#[cycle(sets)]
fn dots(
    alloc: Global,
    source: &Source,
    at: usize,
    levels: usize,
) -> Result<(Selection, usize), Halt>
    ensures read { Reads source.now (λ x. (selection_tree x.0, x.1)) result (dots_with levels (set_at levels) (ahead source.now at)) }
    ensures within { IfOk result (λ x. (at < x.1) × (x.1 ≤ length source.now.tokens.now)) }
{
    let start = source.wants(at, TokenKind::Spread)?;
    let (selection, end) = after_dots(alloc, source, start, levels)?;
    Ok((selection, end))
}

#[cycle(sets)]
#[tactic(auto, unfolding(crate::specs::Trees::selection_tree, crate::specs::Trees::field_tree))]
fn field(alloc: Global, source: &Source, at: usize, levels: usize) -> Result<(Field, usize), Halt>
    ensures read { Reads source.now (λ x. (field_tree x.0, x.1)) result (field_with levels (set_at levels) (ahead source.now at)) }
    ensures within { IfOk result (λ x. (at < x.1) × (x.1 ≤ length source.now.tokens.now)) }
{
    let (head, end) = head(alloc, source, at, levels)?;
    let (selections, end) = maybe_set(alloc, source, end, levels)?;
    Ok((
        Field {
            alias: head.names.alias,
            name: head.names.name,
            arguments: head.arguments,
            directives: head.directives,
            selections,
        },
        end,
    ))
}

#[cycle(sets)]
fn selection(
    alloc: Global,
    source: &Source,
    at: usize,
    levels: usize,
) -> Result<(Selection, usize), Halt>
    ensures read { Reads source.now (λ x. (selection_tree x.0, x.1)) result (selection_with levels (set_at levels) (ahead source.now at)) }
    ensures within { IfOk result (λ x. (at < x.1) × (x.1 ≤ length source.now.tokens.now)) }
{
    if source.is(at, TokenKind::Spread) {
        return dots(alloc, source, at, levels);
    }
    let (field, end) = field(alloc, source, at, levels)?;
    Ok((Selection::Field(field), end))
}

/// A selection set, or no selections.
#[cycle(sets)]
fn maybe_set(
    alloc: Global,
    source: &Source,
    at: usize,
    levels: usize,
) -> Result<(Vec<Selection>, usize), Halt>
    ensures read { Reads source.now (λ x. (set_tree x.0.items, x.1)) result (maybe_set_with (set_at levels) (ahead source.now at)) }
    ensures within { IfOk result (λ x. (at ≤ x.1) × (at ≤ length source.now.tokens.now → x.1 ≤ length source.now.tokens.now)) }
{
    if source.is(at, TokenKind::OpenBrace) {
        return selection_set(alloc, source, at, levels);
    }
    Ok((Vec::new(alloc), at))
}

/// A selection set, where so many levels may still be opened.
#[cycle(sets)]
pub fn selection_set(
    alloc: Global,
    source: &Source,
    at: usize,
    levels: usize,
) -> Result<(Vec<Selection>, usize), Halt>
    ensures read { Reads source.now (λ x. (set_tree x.0.items, x.1)) result (set_at levels (ahead source.now at)) }
    ensures within { IfOk result (λ x. (at < x.1) × (x.1 ≤ length source.now.tokens.now)) }
{
    opened_set(alloc, source, at, levels)
}

#[cycle(sets)]
#[tactic(auto, unfolding(crate::specs::DocumentReading::opened_set_at))]
fn opened_set(
    alloc: Global,
    source: &Source,
    at: usize,
    levels: usize,
) -> Result<(Vec<Selection>, usize), Halt>
    ensures read { Reads source.now (λ x. (set_tree x.0.items, x.1)) result (opened_set_at levels (ahead source.now at)) }
    ensures within { IfOk result (λ x. (at < x.1) × (x.1 ≤ length source.now.tokens.now)) }
{
    let start = source.opens(at, TokenKind::OpenBrace, levels)?;
    let (selections, close) = some_selections(alloc, source, start, levels - 1)?;
    let end = source.wants(close, TokenKind::CloseBrace)?;
    Ok((selections, end))
}

/// One selection or more, up to a `}`.
#[cycle(sets)]
fn some_selections(
    alloc: Global,
    source: &Source,
    start: usize,
    levels: usize,
) -> Result<(Vec<Selection>, usize), Halt>
    ensures read { Reads source.now (λ x. (map selection_tree x.0.items, x.1)) result (one_or_more (up_to CloseBrace) (selection_with levels (set_at levels)) (ahead source.now start)) }
    ensures within { IfOk result (λ x. start < x.1) }
{
    let mut selections = Vec::new(alloc);
    let (first, end) = selection(alloc, source, start, levels)?;
    selections.push(first)?;
    let mut at = end;
    'rest: while source.is_other(at, TokenKind::CloseBrace) {
        let (selection, end) = selection(alloc, source, at, levels)?;
        selections.push(selection)?;
        at = end;
    }
    Ok((selections, at))
}
