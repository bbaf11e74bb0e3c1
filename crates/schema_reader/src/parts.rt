//! Reading names, descriptions and lists of names.

ghost use Rattle.std.specs.Prelude.{◌≡◌, ◌<◌, ◌≤◌, length, IfOk};
ghost use Rattle.gql_base.specs.ways.Sources.{ahead, Reads};
ghost use Rattle.schema_reader.specs.SchemaReading.{name_at, description_at, other_name_at, some_names_at, maybe_mark_at, names_at};

use gql_base::{Halt, Name, Source, Text, TokenKind};
use std::alloc::Global;

fn text_of(name: Name) -> Text
    ensures { result ≡ name.text }
{
    name.text
}

/// A name without its offset.
pub fn name(alloc: Global, source: &Source, at: usize) -> Result<(Text, usize), Halt>
    ensures read { Reads source.now (λ x. (x.0, x.1)) result (name_at (ahead source.now at)) }
    ensures within { IfOk result (λ x. (at < x.1) × (x.1 ≤ length source.now.tokens.now)) }
{
    let (name, end) = source.name(alloc, at)?;
    Ok((text_of(name), end))
}

/// A description, or none.
pub fn description(alloc: Global, source: &Source, at: usize) -> Result<(Option<Text>, usize), Halt>
    ensures read { Reads source.now (λ x. (x.0, x.1)) result (description_at (ahead source.now at)) }
    ensures within { IfOk result (λ x. (at ≤ x.1) × (at ≤ length source.now.tokens.now → x.1 ≤ length source.now.tokens.now)) }
{
    if source.is_string(at) {
        let (text, end) = source.string(alloc, at)?;
        return Ok((Some(text), end));
    }
    Ok((None, at))
}

/// A punctuator, or none.
fn maybe_mark(source: &Source, at: usize, mark: TokenKind) -> Result<usize, Halt>
    ensures read { Reads source.now (λ end. (tt, end)) result (maybe_mark_at mark (ahead source.now at)) }
    ensures within { IfOk result (λ end. (at ≤ end) × (at ≤ length source.now.tokens.now → end ≤ length source.now.tokens.now)) }
{
    if source.is(at, mark) {
        return source.wants(at, mark);
    }
    Ok(at)
}

/// A name after a punctuator.
fn other_name(
    alloc: Global,
    source: &Source,
    at: usize,
    mark: TokenKind,
) -> Result<(Text, usize), Halt>
    ensures read { Reads source.now (λ x. (x.0, x.1)) result (other_name_at mark (ahead source.now at)) }
    ensures within { IfOk result (λ x. (at < x.1) × (x.1 ≤ length source.now.tokens.now)) }
{
    let start = source.wants(at, mark)?;
    let (name, end) = name(alloc, source, start)?;
    Ok((name, end))
}

/// One name or more, with a punctuator between two of them.
fn some_names(
    alloc: Global,
    source: &Source,
    start: usize,
    mark: TokenKind,
) -> Result<(Vec<Text>, usize), Halt>
    ensures read { Reads source.now (λ x. (x.0.items, x.1)) result (some_names_at mark (ahead source.now start)) }
    ensures within { IfOk result (λ x. (start < x.1) × (x.1 ≤ length source.now.tokens.now)) }
{
    let mut names = Vec::new(alloc);
    let (first, end) = name(alloc, source, start)?;
    names.push(first)?;
    let mut at = end;
    'rest: while source.is(at, mark) {
        let (name, end) = other_name(alloc, source, at, mark)?;
        names.push(name)?;
        at = end;
    }
    Ok((names, at))
}

/// One name or more, with a punctuator between two of them, and before the first or not.
pub fn names(
    alloc: Global,
    source: &Source,
    at: usize,
    mark: TokenKind,
) -> Result<(Vec<Text>, usize), Halt>
    ensures read { Reads source.now (λ x. (x.0.items, x.1)) result (names_at mark (ahead source.now at)) }
    ensures within { IfOk result (λ x. (at < x.1) × (x.1 ≤ length source.now.tokens.now)) }
{
    let start = maybe_mark(source, at, mark)?;
    let (names, end) = some_names(alloc, source, start, mark)?;
    Ok((names, end))
}
