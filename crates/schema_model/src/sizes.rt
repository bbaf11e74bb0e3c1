//! What `@listSize` says.

ghost use Rattle.std.specs.Prelude.{◌≡◌, ◌++◌, ◌∷◌, [], map, IfOk, option_map, codes};
ghost use Rattle.gql_base.specs.parts.Trees.{named_value, value_tree};
ghost use Rattle.gql_base.specs.parts.Values.{values_from};
ghost use Rattle.std.specs.Str.{bytes_eq};
ghost use Rattle.schema_rules.specs.DirectiveUses.{argument_name};
ghost use Rattle.schema_rules.specs.Views.{maybe_arguments, literal_tree};
ghost use Rattle.schema_model.specs.Entries.{size_data};
ghost use Rattle.schema_model.specs.Schemas.{as_int, value_named, integer_in, before_texts, texts_of, texts_in, boolean_in, size_of};

use crate::entries::ListSize;
use gql_base::{Argument, Text, Value, is_int};
use schema_rules::{Literal, opened};
use std::alloc::{AllocError, Global};

#[tactic(auto, using(crate::proofs::Arguments::opened_arguments))]
fn has_name(argument: &Argument, name: &str) -> bool
    ensures { result ≡ bytes_eq (argument_name (named_value argument.now)) name.now }
{
    argument.name.text.as_str() == name
}

#[tactic(auto, using(crate::proofs::Arguments::opened_arguments))]
fn value_of(argument: &Argument) -> Literal<'_>
    ensures { literal_tree result ≡ (named_value argument.now).1 }
{
    opened(&argument.value)
}

// What an argument has, if it stands there.
fn value_named<'a>(name: &str, arguments: &'a [Argument]) -> Literal<'a>
    ensures { literal_tree result ≡ value_named name.now (map named_value arguments.now) }
{
    for argument in arguments {
        if has_name(argument, name) {
            return value_of(argument);
        }
    }
    Literal::Null
}

fn as_int(number: i128) -> Option<i32>
    ensures { result ≡ as_int number }
{
    if is_int(number) {
        Some(number as i32)
    } else {
        None
    }
}

fn integer_in(literal: Literal<'_>) -> Option<i32>
    ensures { result ≡ integer_in (literal_tree literal.entry) }
{
    match literal {
        Literal::Int(number) => as_int(number),
        _ => None,
    }
}

fn add_text(alloc: Global, texts: &mut Vec<Text>, literal: Literal<'_>) -> Result<(), AllocError>
    ensures { IfOk result (λ _. texts.new.items ≡ texts.old.items ++ before_texts (literal_tree literal.entry) []) }
{
    match literal {
        Literal::Str(text) => {
            texts.push(Text::copy_of(alloc, text)?)?;
            Ok(())
        }
        _ => Ok(()),
    }
}

#[tactic(auto, unfolding(crate::specs::Schemas::texts_of))]
fn texts_of(alloc: Global, values: &[Value]) -> Result<Vec<Text>, AllocError>
    ensures { IfOk result (λ texts. texts.items ≡ texts_of (values_from (map value_tree values.now))) }
{
    let mut texts = Vec::new(alloc);
    for value in values {
        add_text(alloc, &mut texts, opened(value))?;
    }
    Ok(texts)
}

fn one_text(alloc: Global, text: &str) -> Result<Vec<Text>, AllocError>
    ensures { IfOk result (λ texts. texts.items ≡ text.now ∷ []) }
{
    let mut texts = Vec::new(alloc);
    texts.push(Text::copy_of(alloc, text)?)?;
    Ok(texts)
}

fn texts_in(alloc: Global, literal: Literal<'_>) -> Result<Vec<Text>, AllocError>
    ensures { IfOk result (λ texts. texts.items ≡ texts_in (literal_tree literal.entry)) }
{
    match literal {
        Literal::List(values) => texts_of(alloc, values),
        Literal::Str(text) => one_text(alloc, text),
        _ => Ok(Vec::new(alloc)),
    }
}

fn boolean_in(literal: Literal<'_>) -> bool
    ensures { result ≡ boolean_in (literal_tree literal.entry) }
{
    match literal {
        Literal::Bool(value) => value,
        _ => true,
    }
}

fn size_of(alloc: Global, arguments: &[Argument]) -> Result<ListSize, AllocError>
    ensures { IfOk result (λ s. size_data s ≡ size_of (map named_value arguments.now)) }
{
    Ok(ListSize {
        assumed: integer_in(value_named("assumedSize", arguments)),
        slicing: texts_in(alloc, value_named("slicingArguments", arguments))?,
        sized: texts_in(alloc, value_named("sizedFields", arguments))?,
        require_one: boolean_in(value_named("requireOneSlicingArgument", arguments)),
    })
}

/// What `@listSize` says by its arguments, if it stands there. It fails for want of memory alone.
pub fn maybe_size(
    alloc: Global,
    arguments: Option<&[Argument]>,
) -> Result<Option<ListSize>, AllocError>
    ensures { IfOk result (λ s. option_map size_data s ≡ option_map size_of (maybe_arguments arguments.entry)) }
{
    match arguments {
        Some(arguments) => Ok(Some(size_of(alloc, arguments)?)),
        None => Ok(None),
    }
}
