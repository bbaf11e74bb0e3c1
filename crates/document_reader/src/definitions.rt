//! Reading operations and fragments (GraphQL October 2021, 2.2, 2.3, 2.8 and 2.10).

ghost use Rattle.std.specs.Prelude.{◌≡◌, ◌<◌, ◌≤◌, length, map, IfOk, None, Some};
ghost use Rattle.gql_base.specs.declared.lexical.token.TokenKind.TheVariants.{CloseParen};
ghost use Rattle.gql_base.specs.ways.Reading.{single, one_or_more, up_to};
ghost use Rattle.gql_base.specs.ways.Sources.{ahead, Reads, offset_of};
ghost use Rattle.gql_base.specs.parts.Trees.{identifier_of, value_tree, maybe_value, directive_tree};
ghost use Rattle.gql_base.specs.parts.OperationKinds.{kind_word, kind_named};
ghost use Rattle.gql_base.specs.parts.Arguments.{default_at, maybe_default_at};
ghost use Rattle.document_reader.specs.DocumentReading.{variable_at, variables_at, maybe_variables_at, maybe_name_at, operation_head_at, bare_at, operation_at, fragment_head_at, fragment_at, definition_at};
ghost use Rattle.document_reader.specs.Trees.{maybe_identifier, variable_tree, tree_of_operation, tree_of_fragment, definition_tree};
ghost use Rattle.document_reader.specs.Places.{BeginsAt};

use crate::selections::{fragment_name, selection_set};
use crate::trees::{Definition, Fragment, Operation, VariableDef};
use gql_base::{
    Directive, Halt, Name, OperationKind, Source, TokenKind, TypeRef, Value, directives,
    maybe_default, operation_kind, type_reference,
};
use std::alloc::Global;

/// A variable with its type, its default and its directives.
fn variable(
    alloc: Global,
    source: &Source,
    at: usize,
    levels: usize,
) -> Result<(VariableDef, usize), Halt>
    ensures read { Reads source.now (λ x. (variable_tree x.0, x.1)) result (variable_at levels (ahead source.now at)) }
    ensures within { IfOk result (λ x. (at < x.1) × (x.1 ≤ length source.now.tokens.now)) }
{
    let start = source.wants(at, TokenKind::Dollar)?;
    let (name, end) = source.name(alloc, start)?;
    let end = source.wants(end, TokenKind::Colon)?;
    let (of, end) = type_reference(alloc, source, end, levels)?;
    let (default, end) = maybe_default(alloc, source, end, levels)?;
    let (directives, end) = directives(alloc, source, end, true, levels)?;
    Ok((
        VariableDef {
            name,
            of,
            default,
            directives,
        },
        end,
    ))
}

/// One variable or more, up to a `)`.
fn some_variables(
    alloc: Global,
    source: &Source,
    start: usize,
    levels: usize,
) -> Result<(Vec<VariableDef>, usize), Halt>
    ensures read { Reads source.now (λ x. (map variable_tree x.0.items, x.1)) result (one_or_more (up_to CloseParen) (variable_at levels) (ahead source.now start)) }
    ensures within { IfOk result (λ x. start < x.1) }
{
    let mut variables = Vec::new(alloc);
    let (first, end) = variable(alloc, source, start, levels)?;
    variables.push(first)?;
    let mut at = end;
    'rest: while source.is_other(at, TokenKind::CloseParen) {
        let (variable, end) = variable(alloc, source, at, levels)?;
        variables.push(variable)?;
        at = end;
    }
    Ok((variables, at))
}

/// Variables in parentheses.
fn variables(
    alloc: Global,
    source: &Source,
    at: usize,
    levels: usize,
) -> Result<(Vec<VariableDef>, usize), Halt>
    ensures read { Reads source.now (λ x. (map variable_tree x.0.items, x.1)) result (variables_at levels (ahead source.now at)) }
    ensures within { IfOk result (λ x. (at < x.1) × (x.1 ≤ length source.now.tokens.now)) }
{
    let start = source.wants(at, TokenKind::OpenParen)?;
    let (variables, close) = some_variables(alloc, source, start, levels)?;
    let end = source.wants(close, TokenKind::CloseParen)?;
    Ok((variables, end))
}

/// Variables in parentheses, or none.
fn maybe_variables(
    alloc: Global,
    source: &Source,
    at: usize,
    levels: usize,
) -> Result<(Vec<VariableDef>, usize), Halt>
    ensures read { Reads source.now (λ x. (map variable_tree x.0.items, x.1)) result (maybe_variables_at levels (ahead source.now at)) }
    ensures within { IfOk result (λ x. (at ≤ x.1) × (at ≤ length source.now.tokens.now → x.1 ≤ length source.now.tokens.now)) }
{
    if source.is(at, TokenKind::OpenParen) {
        return variables(alloc, source, at, levels);
    }
    Ok((Vec::new(alloc), at))
}

/// A name, or none.
fn maybe_name(alloc: Global, source: &Source, at: usize) -> Result<(Option<Name>, usize), Halt>
    ensures read { Reads source.now (λ x. (maybe_identifier x.0, x.1)) result (maybe_name_at (ahead source.now at)) }
    ensures within { IfOk result (λ x. (at ≤ x.1) × (at ≤ length source.now.tokens.now → x.1 ≤ length source.now.tokens.now)) }
{
    match source.token(at) {
        Some(token) => match token.kind {
            TokenKind::Name => {
                let (name, end) = source.name(alloc, at)?;
                Ok((Some(name), end))
            }
            _ => Ok((None, at)),
        },
        None => Ok((None, at)),
    }
}

/// What an operation has after its kind and before its selections.
#[derive(Drop)]
struct OperationHead {
    name: Option<Name>,
    variables: Vec<VariableDef>,
    directives: Vec<Directive>,
}

fn operation_head(
    alloc: Global,
    source: &Source,
    at: usize,
    levels: usize,
) -> Result<(OperationHead, usize), Halt>
    ensures read { Reads source.now (λ x. ((maybe_identifier x.0.name, (map variable_tree x.0.variables.items, map directive_tree x.0.directives.items)), x.1)) result (operation_head_at levels (ahead source.now at)) }
    ensures within { IfOk result (λ x. (at ≤ x.1) × (at ≤ length source.now.tokens.now → x.1 ≤ length source.now.tokens.now)) }
{
    let (name, end) = maybe_name(alloc, source, at)?;
    let (variables, end) = maybe_variables(alloc, source, end, levels)?;
    let (directives, end) = directives(alloc, source, end, false, levels)?;
    Ok((
        OperationHead {
            name,
            variables,
            directives,
        },
        end,
    ))
}

/// A selection set alone.
fn bare_operation(
    alloc: Global,
    source: &Source,
    at: usize,
    levels: usize,
) -> Result<(Operation, usize), Halt>
    ensures read { Reads source.now (λ x. (tree_of_operation x.0, x.1)) result (bare_at levels (ahead source.now at)) }
    ensures within { IfOk result (λ x. (at < x.1) × (x.1 ≤ length source.now.tokens.now)) }
    ensures place { IfOk result (λ x. x.0.at ≡ offset_of source.now.text.now source.now.tokens.now at) }
{
    let (selections, end) = selection_set(alloc, source, at, levels)?;
    Ok((
        Operation {
            at: source.offset(at),
            kind: OperationKind::Query,
            name: None,
            variables: Vec::new(alloc),
            directives: Vec::new(alloc),
            selections,
        },
        end,
    ))
}

/// An operation that begins with its kind.
fn operation(
    alloc: Global,
    source: &Source,
    at: usize,
    levels: usize,
) -> Result<(Operation, usize), Halt>
    ensures read { Reads source.now (λ x. (tree_of_operation x.0, x.1)) result (operation_at levels (ahead source.now at)) }
    ensures within { IfOk result (λ x. (at < x.1) × (x.1 ≤ length source.now.tokens.now)) }
    ensures place { IfOk result (λ x. x.0.at ≡ offset_of source.now.text.now source.now.tokens.now at) }
{
    let (kind, end) = operation_kind(source, at)?;
    let (head, end) = operation_head(alloc, source, end, levels)?;
    let (selections, end) = selection_set(alloc, source, end, levels)?;
    Ok((
        Operation {
            at: source.offset(at),
            kind,
            name: head.name,
            variables: head.variables,
            directives: head.directives,
            selections,
        },
        end,
    ))
}

/// What a fragment has before its selections.
#[derive(Drop)]
struct FragmentHead {
    name: Name,
    on: Name,
    directives: Vec<Directive>,
}

fn fragment_head(
    alloc: Global,
    source: &Source,
    at: usize,
    levels: usize,
) -> Result<(FragmentHead, usize), Halt>
    ensures read { Reads source.now (λ x. ((identifier_of x.0.name, (identifier_of x.0.on, map directive_tree x.0.directives.items)), x.1)) result (fragment_head_at levels (ahead source.now at)) }
    ensures within { IfOk result (λ x. (at < x.1) × (x.1 ≤ length source.now.tokens.now)) }
{
    let end = source.wants_word(at, "fragment")?;
    let (name, end) = fragment_name(alloc, source, end)?;
    let end = source.wants_word(end, "on")?;
    let (on, end) = source.name(alloc, end)?;
    let (directives, end) = directives(alloc, source, end, false, levels)?;
    Ok((
        FragmentHead {
            name,
            on,
            directives,
        },
        end,
    ))
}

fn fragment(
    alloc: Global,
    source: &Source,
    at: usize,
    levels: usize,
) -> Result<(Fragment, usize), Halt>
    ensures read { Reads source.now (λ x. (tree_of_fragment x.0, x.1)) result (fragment_at levels (ahead source.now at)) }
    ensures within { IfOk result (λ x. (at < x.1) × (x.1 ≤ length source.now.tokens.now)) }
{
    let (head, end) = fragment_head(alloc, source, at, levels)?;
    let (selections, end) = selection_set(alloc, source, end, levels)?;
    Ok((
        Fragment {
            name: head.name,
            on: head.on,
            directives: head.directives,
            selections,
        },
        end,
    ))
}

/// The definition that begins with this token, and the number of the token after it.
#[tactic(auto, unfolding(crate::specs::DocumentReading::definition_at))]
pub fn definition(
    alloc: Global,
    source: &Source,
    at: usize,
    levels: usize,
) -> Result<(Definition, usize), Halt>
    ensures read { Reads source.now (λ x. (definition_tree x.0, x.1)) result (definition_at levels (ahead source.now at)) }
    ensures within { IfOk result (λ x. (at < x.1) × (x.1 ≤ length source.now.tokens.now)) }
    ensures place { IfOk result (λ x. BeginsAt (offset_of source.now.text.now source.now.tokens.now at) x.0) }
{
    if source.is(at, TokenKind::OpenBrace) {
        let (operation, end) = bare_operation(alloc, source, at, levels)?;
        return Ok((Definition::Op(operation), end));
    }
    if source.is_word(at, "fragment") {
        let (fragment, end) = fragment(alloc, source, at, levels)?;
        return Ok((Definition::Frag(fragment), end));
    }
    let (operation, end) = operation(alloc, source, at, levels)?;
    Ok((Definition::Op(operation), end))
}
