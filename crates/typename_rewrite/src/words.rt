//! The names of values, types, arguments and directives.

ghost use Rattle.std.specs.Prelude.{◌≡◌, ◌∷◌, ◌++◌, [], map, OnOk};
ghost use Rattle.gql_base.specs.printing.PrintedTrees.{boolean_name, value_symbols, values_symbols, fields_symbols, type_symbols};
ghost use Rattle.gql_base.specs.parts.Values.{values_from, fields_from};
ghost use Rattle.gql_base.specs.parts.Trees.{value_tree, named_value, type_tree, directive_tree};
ghost use Rattle.document_reader.specs.PrintedDocuments.{argument_symbols, directive_symbols, directives_symbols};
ghost use Rattle.typename_rewrite.specs.AddedNames.{names_in};
ghost use Rattle.typename_rewrite.specs.Views.{word_text};

use gql_base::{Argument, Directive, Name, Named, TypeRef, Value};
use std::alloc::AllocError;

/// A name that a document is written with.
#[derive(Clone, Copy)]
pub struct Word<'a> {
    pub text: &'a str,
}

impl<'a> Named for Word<'a> {
    ghost name_of = { λ word. word.text.now };

    fn name(&self) -> &str {
        self.text
    }
}

/// One more word. It fails for want of memory alone, as all calls that follow.
pub fn add_word<'a>(words: &mut Vec<Word<'a>>, text: &'a str) -> Result<(), AllocError>
    ensures { OnOk result (map word_text words.new.items ≡ map word_text words.old.items ++ (text.now ∷ [])) }
{
    words.push(Word { text })?;
    Ok(())
}

/// One more name.
pub fn add_name<'a>(words: &mut Vec<Word<'a>>, name: &'a Name) -> Result<(), AllocError>
    ensures { OnOk result (map word_text words.new.items ≡ map word_text words.old.items ++ (name.now.text ∷ [])) }
{
    add_word(words, name.text.as_str())
}

fn boolean_name(value: bool) -> &'static str
    ensures { result.now ≡ boolean_name value }
{
    if value { "true" } else { "false" }
}

/// The names of a value.
#[cycle(words)]
#[tactic(auto, using(crate::proofs::WordSteps::value_steps))]
pub fn add_value<'a>(words: &mut Vec<Word<'a>>, value: &'a Value) -> Result<(), AllocError>
    ensures { OnOk result (map word_text words.new.items ≡ map word_text words.old.items ++ names_in (value_symbols (value_tree value.now))) }
{
    match value {
        Value::Var(name) => add_name(words, name),
        Value::Int(_) => Ok(()),
        Value::Float(_) => Ok(()),
        Value::Str(_) => Ok(()),
        Value::Bool(value) => add_word(words, boolean_name(*value)),
        Value::Null => add_word(words, "null"),
        Value::EnumName(name) => add_name(words, name),
        Value::List(items) => add_values(words, items.as_slice()),
        Value::Object(fields) => add_arguments(words, fields.as_slice()),
    }
}

#[cycle(words)]
fn add_values<'a>(words: &mut Vec<Word<'a>>, items: &'a [Value]) -> Result<(), AllocError>
    ensures { OnOk result (map word_text words.new.items ≡ map word_text words.old.items ++ names_in (values_symbols (values_from (map value_tree items.now)))) }
{
    for item in items {
        add_value(words, item)?;
    }
    Ok(())
}

/// The names of arguments, or of the fields of an object, and of their values.
#[cycle(words)]
pub fn add_arguments<'a>(
    words: &mut Vec<Word<'a>>,
    arguments: &'a [Argument],
) -> Result<(), AllocError>
    ensures { OnOk result (map word_text words.new.items ≡ map word_text words.old.items ++ names_in (fields_symbols (fields_from (map named_value arguments.now)))) }
{
    for argument in arguments {
        add_argument(words, argument)?;
    }
    Ok(())
}

#[cycle(words)]
#[tactic(auto, using(crate::proofs::WordSteps::value_steps))]
fn add_argument<'a>(words: &mut Vec<Word<'a>>, argument: &'a Argument) -> Result<(), AllocError>
    ensures { OnOk result (map word_text words.new.items ≡ map word_text words.old.items ++ names_in (argument_symbols (named_value argument.now))) }
{
    add_name(words, &argument.name)?;
    add_value(words, &argument.value)
}

/// The name of a type.
#[tactic(auto, using(crate::proofs::WordSteps::type_steps))]
pub fn add_type<'a>(words: &mut Vec<Word<'a>>, of: &'a TypeRef) -> Result<(), AllocError>
    ensures { OnOk result (map word_text words.new.items ≡ map word_text words.old.items ++ names_in (type_symbols (type_tree of.now))) }
{
    match of {
        TypeRef::Named(name) => add_name(words, name),
        TypeRef::ListOf(item) => add_type(words, item),
        TypeRef::NonNull(of) => add_type(words, of),
    }
}

#[tactic(auto, using(crate::proofs::WordSteps::part_steps))]
fn add_directive<'a>(words: &mut Vec<Word<'a>>, directive: &'a Directive) -> Result<(), AllocError>
    ensures { OnOk result (map word_text words.new.items ≡ map word_text words.old.items ++ names_in (directive_symbols (directive_tree directive.now))) }
{
    add_name(words, &directive.name)?;
    add_arguments(words, directive.arguments.as_slice())
}

/// The names of directives.
pub fn add_directives<'a>(
    words: &mut Vec<Word<'a>>,
    directives: &'a [Directive],
) -> Result<(), AllocError>
    ensures { OnOk result (map word_text words.new.items ≡ map word_text words.old.items ++ names_in (directives_symbols (map directive_tree directives.now))) }
{
    for directive in directives {
        add_directive(words, directive)?;
    }
    Ok(())
}
