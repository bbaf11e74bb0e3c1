//! The names of a document.

ghost use Rattle.std.specs.Prelude.{◌≡◌, ◌++◌, map, OnOk, IfOk};
ghost use Rattle.std.specs.List.{flat_map};
ghost use Rattle.gql_base.specs.parts.Trees.{maybe_value};
ghost use Rattle.document_reader.specs.Trees.{maybe_identifier, names_of, selection_tree, field_tree, set_tree, variable_tree, tree_of_operation, tree_of_fragment, definition_tree};
ghost use Rattle.document_reader.specs.PrintedDocuments.{names_symbols, condition_symbols, selection_symbols, set_symbols, default_symbols, variable_symbols, variables_symbols, maybe_name_symbols, definition_symbols, document_symbols};
ghost use Rattle.typename_rewrite.specs.AddedNames.{names_in, names_of_document};
ghost use Rattle.typename_rewrite.specs.Views.{word_text};

use crate::words::{Word, add_arguments, add_directives, add_name, add_type, add_value, add_word};
use document_reader::{Definition, Field, Fragment, Operation, Selection, VariableDef, kind_name};
use gql_base::{Name, Value};
use std::alloc::{AllocError, Global};

/// A field's name, after its alias if it has one.
#[tactic(auto, using(crate::proofs::NameSteps::name_steps))]
fn add_names<'a>(
    words: &mut Vec<Word<'a>>,
    alias: &'a Option<Name>,
    name: &'a Name,
) -> Result<(), AllocError>
    ensures { OnOk result (map word_text words.new.items ≡ map word_text words.old.items ++ names_in (names_symbols (names_of alias.now name.now))) }
{
    match alias {
        Some(alias) => {
            add_name(words, alias)?;
            add_name(words, name)
        }
        None => add_name(words, name),
    }
}

#[tactic(auto, using(crate::proofs::NameSteps::name_steps))]
fn add_condition<'a>(words: &mut Vec<Word<'a>>, on: &'a Option<Name>) -> Result<(), AllocError>
    ensures { OnOk result (map word_text words.new.items ≡ map word_text words.old.items ++ names_in (condition_symbols (maybe_identifier on.now))) }
{
    match on {
        Some(on) => {
            add_word(words, "on")?;
            add_name(words, on)
        }
        None => Ok(()),
    }
}

#[cycle(names)]
#[tactic(auto, using(crate::proofs::NameSteps::selection_steps))]
fn add_selection<'a>(words: &mut Vec<Word<'a>>, selection: &'a Selection) -> Result<(), AllocError>
    ensures { OnOk result (map word_text words.new.items ≡ map word_text words.old.items ++ names_in (selection_symbols (selection_tree selection.now))) }
{
    match selection {
        Selection::Field(field) => add_field(words, field),
        Selection::Spread { name, directives } => {
            add_name(words, name)?;
            add_directives(words, directives.as_slice())
        }
        Selection::Inline {
            on,
            directives,
            selections,
        } => {
            add_condition(words, on)?;
            add_directives(words, directives.as_slice())?;
            add_set(words, selections.as_slice())
        }
    }
}

#[cycle(names)]
#[tactic(auto, using(crate::proofs::NameSteps::selection_steps))]
fn add_field<'a>(words: &mut Vec<Word<'a>>, field: &'a Field) -> Result<(), AllocError>
    ensures { OnOk result (map word_text words.new.items ≡ map word_text words.old.items ++ names_in (selection_symbols (field_tree field.now))) }
{
    add_names(words, &field.alias, &field.name)?;
    add_arguments(words, field.arguments.as_slice())?;
    add_directives(words, field.directives.as_slice())?;
    add_set(words, field.selections.as_slice())
}

#[cycle(names)]
fn add_set<'a>(words: &mut Vec<Word<'a>>, selections: &'a [Selection]) -> Result<(), AllocError>
    ensures { OnOk result (map word_text words.new.items ≡ map word_text words.old.items ++ names_in (set_symbols (set_tree selections.now))) }
{
    for selection in selections {
        add_selection(words, selection)?;
    }
    Ok(())
}

#[tactic(auto, using(crate::proofs::NameSteps::name_steps))]
fn add_default<'a>(words: &mut Vec<Word<'a>>, default: &'a Option<Value>) -> Result<(), AllocError>
    ensures { OnOk result (map word_text words.new.items ≡ map word_text words.old.items ++ names_in (default_symbols (maybe_value default.now))) }
{
    match default {
        Some(value) => add_value(words, value),
        None => Ok(()),
    }
}

#[tactic(auto, using(crate::proofs::NameSteps::name_steps))]
fn add_variable<'a>(words: &mut Vec<Word<'a>>, variable: &'a VariableDef) -> Result<(), AllocError>
    ensures { OnOk result (map word_text words.new.items ≡ map word_text words.old.items ++ names_in (variable_symbols (variable_tree variable.now))) }
{
    add_name(words, &variable.name)?;
    add_type(words, &variable.of)?;
    add_default(words, &variable.default)?;
    add_directives(words, variable.directives.as_slice())
}

fn add_variables<'a>(
    words: &mut Vec<Word<'a>>,
    variables: &'a [VariableDef],
) -> Result<(), AllocError>
    ensures { OnOk result (map word_text words.new.items ≡ map word_text words.old.items ++ names_in (variables_symbols (map variable_tree variables.now))) }
{
    for variable in variables {
        add_variable(words, variable)?;
    }
    Ok(())
}

#[tactic(auto, using(crate::proofs::NameSteps::name_steps))]
fn add_maybe_name<'a>(words: &mut Vec<Word<'a>>, name: &'a Option<Name>) -> Result<(), AllocError>
    ensures { OnOk result (map word_text words.new.items ≡ map word_text words.old.items ++ names_in (maybe_name_symbols (maybe_identifier name.now))) }
{
    match name {
        Some(name) => add_name(words, name),
        None => Ok(()),
    }
}

#[tactic(auto, using(crate::proofs::NameSteps::name_steps))]
fn add_operation<'a>(words: &mut Vec<Word<'a>>, operation: &'a Operation) -> Result<(), AllocError>
    ensures { OnOk result (map word_text words.new.items ≡ map word_text words.old.items ++ names_in (definition_symbols (tree_of_operation operation.now))) }
{
    add_word(words, kind_name(operation.kind))?;
    add_maybe_name(words, &operation.name)?;
    add_variables(words, operation.variables.as_slice())?;
    add_directives(words, operation.directives.as_slice())?;
    add_set(words, operation.selections.as_slice())
}

#[tactic(auto, using(crate::proofs::NameSteps::name_steps))]
fn add_fragment<'a>(words: &mut Vec<Word<'a>>, fragment: &'a Fragment) -> Result<(), AllocError>
    ensures { OnOk result (map word_text words.new.items ≡ map word_text words.old.items ++ names_in (definition_symbols (tree_of_fragment fragment.now))) }
{
    add_word(words, "fragment")?;
    add_name(words, &fragment.name)?;
    add_word(words, "on")?;
    add_name(words, &fragment.on)?;
    add_directives(words, fragment.directives.as_slice())?;
    add_set(words, fragment.selections.as_slice())
}

fn add_definition<'a>(
    words: &mut Vec<Word<'a>>,
    definition: &'a Definition,
) -> Result<(), AllocError>
    ensures { OnOk result (map word_text words.new.items ≡ map word_text words.old.items ++ names_in (definition_symbols (definition_tree definition.now))) }
{
    match definition {
        Definition::Op(operation) => add_operation(words, operation),
        Definition::Frag(fragment) => add_fragment(words, fragment),
    }
}

/// The names that a document is written with, the words of the language among them. It fails for want of memory alone.
pub fn names_of(alloc: Global, definitions: &[Definition]) -> Result<Vec<Word<'_>>, AllocError>
    ensures { IfOk result (λ words. map word_text words.items ≡ names_of_document (map definition_tree definitions.now)) }
{
    let mut words = Vec::new(alloc);
    for definition in definitions {
        add_definition(&mut words, definition)?;
    }
    Ok(words)
}
