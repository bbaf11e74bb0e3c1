//! Reading values.

ghost use Rattle.std.specs.Prelude.{◌≡◌, ◌+◌, ◌<◌, ◌≤◌, length, map, IfOk};
ghost use Rattle.std.specs.Str.{bytes_eq};
ghost use Rattle.gql_base.specs.declared.lexical.token.TokenKind.TheVariants.{CloseBracket, CloseBrace};
ghost use Rattle.gql_base.specs.ways.Reading.{single, repeated, up_to};
ghost use Rattle.gql_base.specs.ways.Sources.{ahead, Reads};
ghost use Rattle.gql_base.specs.parts.Values.{value_at, list_at, object_at, named_value_at, variable_at, simple_at, literal, value_of_name, list_value, object_value, values_from, fields_from};
ghost use Rattle.gql_base.specs.parts.Trees.{value_tree, named_value};

use crate::lexical::literals::{integer_at, string_at};
use crate::lexical::text::Text;
use crate::lexical::token::TokenKind;
use crate::parts::trees::{Argument, Name, Value};
use crate::ways::source::{Halt, Source};
use std::alloc::Global;

fn is_text(text: &Text, other: &str) -> bool
    ensures { result ≡ bytes_eq text.now other.now }
{
    text.as_bytes() == other.as_bytes()
}

/// The value that a name is.
#[tactic(auto, unfolding(crate::specs::parts::Trees::value_tree))]
fn value_of_name(name: Name) -> Value
    ensures { value_tree result ≡ value_of_name name.text name.at }
{
    if is_text(&name.text, "true") {
        return Value::Bool(true);
    }
    if is_text(&name.text, "false") {
        return Value::Bool(false);
    }
    if is_text(&name.text, "null") {
        return Value::Null;
    }
    Value::EnumName(name)
}

/// The value that the token with this number is.
#[tactic(auto, unfolding(crate::specs::parts::Trees::value_tree))]
fn literal_at(alloc: Global, source: &Source, at: usize) -> Result<(Value, usize), Halt>
    ensures read { Reads source.now (λ x. (value_tree x.0, x.1)) result (single literal (ahead source.now at)) }
    ensures within { IfOk result (λ x. (x.1 ≡ at + 1) × (x.1 ≤ length source.now.tokens.now)) }
{
    match source.token(at) {
        Some(token) => match token.kind {
            TokenKind::Name => {
                let text = Text::copy_of(alloc, token.text(source.text))?;
                let name = Name {
                    text,
                    at: token.span.start,
                };
                Ok((value_of_name(name), at + 1))
            }
            TokenKind::Int => Ok((Value::Int(integer_at(source.text, token)), at + 1)),
            TokenKind::Float => {
                let text = Text::copy_of(alloc, token.text(source.text))?;
                Ok((Value::Float(text), at + 1))
            }
            TokenKind::Str => Ok((Value::Str(string_at(alloc, source.text, token)?), at + 1)),
            TokenKind::BlockStr => Ok((Value::Str(string_at(alloc, source.text, token)?), at + 1)),
            _ => Err(Halt::Unexpected(at)),
        },
        None => Err(Halt::Unexpected(at)),
    }
}

/// A variable.
#[tactic(auto, unfolding(crate::specs::parts::Trees::value_tree))]
fn variable(alloc: Global, source: &Source, at: usize) -> Result<(Value, usize), Halt>
    ensures read { Reads source.now (λ x. (value_tree x.0, x.1)) result (variable_at (ahead source.now at)) }
    ensures within { IfOk result (λ x. (at < x.1) × (x.1 ≤ length source.now.tokens.now)) }
{
    let start = source.wants(at, TokenKind::Dollar)?;
    let (name, end) = source.name(alloc, start)?;
    Ok((Value::Var(name), end))
}

/// A value without brackets; a constant is no variable.
fn simple(alloc: Global, source: &Source, at: usize, constant: bool) -> Result<(Value, usize), Halt>
    ensures read { Reads source.now (λ x. (value_tree x.0, x.1)) result (simple_at constant (ahead source.now at)) }
    ensures within { IfOk result (λ x. (at < x.1) × (x.1 ≤ length source.now.tokens.now)) }
{
    if !constant {
        if source.is(at, TokenKind::Dollar) {
            return variable(alloc, source, at);
        }
    }
    literal_at(alloc, source, at)
}

/// The value from token `at` on, and the number of the token after it. In a constant no variable may stand. So many
/// levels may still be opened.
#[cycle(values)]
pub fn value(
    alloc: Global,
    source: &Source,
    at: usize,
    constant: bool,
    levels: usize,
) -> Result<(Value, usize), Halt>
    ensures read { Reads source.now (λ x. (value_tree x.0, x.1)) result (value_at constant levels (ahead source.now at)) }
    ensures within { IfOk result (λ x. (at < x.1) × (x.1 ≤ length source.now.tokens.now)) }
{
    if source.is(at, TokenKind::OpenBracket) {
        let (items, end) = list(alloc, source, at, constant, levels)?;
        return Ok((Value::List(items), end));
    }
    if source.is(at, TokenKind::OpenBrace) {
        let (fields, end) = object(alloc, source, at, constant, levels)?;
        return Ok((Value::Object(fields), end));
    }
    simple(alloc, source, at, constant)
}

#[cycle(values)]
#[tactic(auto, unfolding(crate::specs::parts::Values::list_at))]
fn list(
    alloc: Global,
    source: &Source,
    at: usize,
    constant: bool,
    levels: usize,
) -> Result<(Vec<Value>, usize), Halt>
    ensures read { Reads source.now (λ x. (list_value (values_from (map value_tree x.0.items)), x.1)) result (list_at constant levels (ahead source.now at)) }
    ensures within { IfOk result (λ x. (at < x.1) × (x.1 ≤ length source.now.tokens.now)) }
{
    let start = source.opens(at, TokenKind::OpenBracket, levels)?;
    let (items, close) = items(alloc, source, start, constant, levels - 1)?;
    let end = source.wants(close, TokenKind::CloseBracket)?;
    Ok((items, end))
}

#[cycle(values)]
#[tactic(auto, unfolding(crate::specs::parts::Values::object_at))]
fn object(
    alloc: Global,
    source: &Source,
    at: usize,
    constant: bool,
    levels: usize,
) -> Result<(Vec<Argument>, usize), Halt>
    ensures read { Reads source.now (λ x. (object_value (fields_from (map named_value x.0.items)), x.1)) result (object_at constant levels (ahead source.now at)) }
    ensures within { IfOk result (λ x. (at < x.1) × (x.1 ≤ length source.now.tokens.now)) }
{
    let start = source.opens(at, TokenKind::OpenBrace, levels)?;
    let (fields, close) = fields(alloc, source, start, constant, levels - 1)?;
    let end = source.wants(close, TokenKind::CloseBrace)?;
    Ok((fields, end))
}

/// Values up to a `]`.
#[cycle(values)]
fn items(
    alloc: Global,
    source: &Source,
    start: usize,
    constant: bool,
    levels: usize,
) -> Result<(Vec<Value>, usize), Halt>
    ensures read { Reads source.now (λ x. (map value_tree x.0.items, x.1)) result (repeated (up_to CloseBracket) (value_at constant levels) (ahead source.now start)) }
    ensures within { IfOk result (λ x. start ≤ x.1) }
{
    let mut items = Vec::new(alloc);
    let mut at = start;
    'items: while source.is_other(at, TokenKind::CloseBracket) {
        let (item, end) = value(alloc, source, at, constant, levels)?;
        items.push(item)?;
        at = end;
    }
    Ok((items, at))
}

/// Fields up to a `}`.
#[cycle(values)]
fn fields(
    alloc: Global,
    source: &Source,
    start: usize,
    constant: bool,
    levels: usize,
) -> Result<(Vec<Argument>, usize), Halt>
    ensures read { Reads source.now (λ x. (map named_value x.0.items, x.1)) result (repeated (up_to CloseBrace) (named_value_at (value_at constant levels)) (ahead source.now start)) }
    ensures within { IfOk result (λ x. start ≤ x.1) }
{
    let mut fields = Vec::new(alloc);
    let mut at = start;
    'fields: while source.is_other(at, TokenKind::CloseBrace) {
        let (field, end) = argument(alloc, source, at, constant, levels)?;
        fields.push(field)?;
        at = end;
    }
    Ok((fields, at))
}

/// A name, a colon and a value: an argument or a field of an object.
#[cycle(values)]
#[tactic(auto, unfolding(crate::specs::parts::Trees::value_tree, crate::specs::parts::Trees::named_value))]
pub fn argument(
    alloc: Global,
    source: &Source,
    at: usize,
    constant: bool,
    levels: usize,
) -> Result<(Argument, usize), Halt>
    ensures read { Reads source.now (λ x. (named_value x.0, x.1)) result (named_value_at (value_at constant levels) (ahead source.now at)) }
    ensures within { IfOk result (λ x. (at < x.1) × (x.1 ≤ length source.now.tokens.now)) }
{
    let (name, end) = source.name(alloc, at)?;
    let end = source.wants(end, TokenKind::Colon)?;
    let (value, end) = value(alloc, source, end, constant, levels)?;
    Ok((Argument { name, value }, end))
}
