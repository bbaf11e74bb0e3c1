//! Printing of documents (GraphQL October 2021, 2.2 to 2.12).

ghost use Rattle.std.specs.Prelude.{◌≡◌, ◌∷◌, map, codes, IfOk, OnOk, None, Some};
ghost use Rattle.std.specs.List.{flat_map};
ghost use Rattle.gql_base.specs.declared.lexical.token.TokenKind.TheVariants.{Spread};
ghost use Rattle.gql_base.specs.ways.Symbols.{punctuator};
ghost use Rattle.gql_base.specs.printing.Printing.{put_all, printed};
ghost use Rattle.gql_base.specs.printing.Printers.{printed_by};
ghost use Rattle.gql_base.specs.printing.PrintedTrees.{printed_name};
ghost use Rattle.gql_base.specs.parts.Trees.{identifier_of, named_value, directive_tree, maybe_value};
ghost use Rattle.document_reader.specs.Trees.{maybe_identifier, names_of, selection_tree, field_tree, set_tree, variable_tree, tree_of_operation, tree_of_fragment, definition_tree};
ghost use Rattle.document_reader.specs.PrintedDocuments.{arguments_symbols, directive_symbols, directives_symbols, names_symbols, condition_symbols, selection_symbols, set_symbols, default_symbols, variable_symbols, variables_symbols, kind_name, maybe_name_symbols, definition_symbols, document_symbols};

use crate::trees::{Definition, Document, Field, Fragment, Operation, Selection, VariableDef};
use gql_base::{
    Argument, Directive, Name, OperationKind, Printer, Text, TokenKind, Value, write_arguments,
    write_type, write_value,
};
use std::alloc::{AllocError, Global};

/// Writes arguments in parentheses, or nothing where there are none (GraphQL October 2021, 2.6). It fails for want of memory
/// alone.
#[tactic(auto, using(crate::proofs::PrintingSteps::list_steps))]
pub fn write_argument_list(printer: &mut Printer, arguments: &[Argument]) -> Result<(), AllocError>
    ensures { OnOk result (printed_by printer.new ≡ put_all (printed_by printer.old) (arguments_symbols (map named_value arguments.now))) }
{
    if arguments.is_empty() {
        return Ok(());
    }
    printer.mark(TokenKind::OpenParen)?;
    write_arguments(printer, arguments)?;
    printer.mark(TokenKind::CloseParen)
}

#[tactic(auto, using(crate::proofs::PrintingSteps::printing_steps))]
fn write_directive(printer: &mut Printer, directive: &Directive) -> Result<(), AllocError>
    ensures { OnOk result (printed_by printer.new ≡ put_all (printed_by printer.old) (directive_symbols (directive_tree directive.now))) }
{
    printer.mark(TokenKind::At)?;
    printer.word(directive.name.text.as_str())?;
    write_argument_list(printer, directive.arguments.as_slice())
}

/// Writes directives, one after the other (GraphQL October 2021, 2.12). It fails for want of memory alone.
pub fn write_directives(printer: &mut Printer, directives: &[Directive]) -> Result<(), AllocError>
    ensures { OnOk result (printed_by printer.new ≡ put_all (printed_by printer.old) (directives_symbols (map directive_tree directives.now))) }
{
    for directive in directives {
        write_directive(printer, directive)?;
    }
    Ok(())
}

/// Writes the name of a field, after its alias if it has one (GraphQL October 2021, 2.7). It fails for want of memory alone.
#[tactic(auto, using(crate::proofs::PrintingSteps::printing_steps))]
pub fn write_names(
    printer: &mut Printer,
    alias: &Option<Name>,
    name: &Name,
) -> Result<(), AllocError>
    ensures { OnOk result (printed_by printer.new ≡ put_all (printed_by printer.old) (names_symbols (names_of alias.now name.now))) }
{
    match alias {
        Some(alias) => {
            printer.word(alias.text.as_str())?;
            printer.mark(TokenKind::Colon)?;
            printer.word(name.text.as_str())
        }
        None => printer.word(name.text.as_str()),
    }
}

/// Writes the type of an inline fragment, after `on`, or nothing (GraphQL October 2021, 2.8.2). It fails for want of memory
/// alone.
#[tactic(auto, using(crate::proofs::PrintingSteps::printing_steps))]
pub fn write_condition(printer: &mut Printer, on: &Option<Name>) -> Result<(), AllocError>
    ensures { OnOk result (printed_by printer.new ≡ put_all (printed_by printer.old) (condition_symbols (maybe_identifier on.now))) }
{
    match on {
        Some(on) => {
            printer.word("on")?;
            printer.word(on.text.as_str())
        }
        None => Ok(()),
    }
}

#[cycle(printing)]
#[tactic(auto, using(crate::proofs::PrintingSteps::selection_steps))]
fn write_selection(printer: &mut Printer, selection: &Selection) -> Result<(), AllocError>
    ensures { OnOk result (printed_by printer.new ≡ put_all (printed_by printer.old) (selection_symbols (selection_tree selection.now))) }
{
    match selection {
        Selection::Field(field) => write_field(printer, field),
        Selection::Spread { name, directives } => {
            printer.mark(TokenKind::Spread)?;
            printer.word(name.text.as_str())?;
            write_directives(printer, directives.as_slice())
        }
        Selection::Inline {
            on,
            directives,
            selections,
        } => {
            printer.mark(TokenKind::Spread)?;
            write_condition(printer, on)?;
            write_directives(printer, directives.as_slice())?;
            write_set(printer, selections.as_slice())
        }
    }
}

#[cycle(printing)]
#[tactic(auto, using(crate::proofs::PrintingSteps::selection_steps))]
fn write_field(printer: &mut Printer, field: &Field) -> Result<(), AllocError>
    ensures { OnOk result (printed_by printer.new ≡ put_all (printed_by printer.old) (selection_symbols (field_tree field.now))) }
{
    write_names(printer, &field.alias, &field.name)?;
    write_argument_list(printer, field.arguments.as_slice())?;
    write_directives(printer, field.directives.as_slice())?;
    write_set(printer, field.selections.as_slice())
}

/// Selections in braces, or nothing where there are none.
#[cycle(printing)]
#[tactic(auto, using(crate::proofs::PrintingSteps::selection_steps))]
fn write_set(printer: &mut Printer, selections: &[Selection]) -> Result<(), AllocError>
    ensures { OnOk result (printed_by printer.new ≡ put_all (printed_by printer.old) (set_symbols (set_tree selections.now))) }
{
    if selections.is_empty() {
        return Ok(());
    }
    printer.mark(TokenKind::OpenBrace)?;
    write_selections(printer, selections)?;
    printer.mark(TokenKind::CloseBrace)
}

/// Selections, one after the other.
#[cycle(printing)]
fn write_selections(printer: &mut Printer, selections: &[Selection]) -> Result<(), AllocError>
    ensures { OnOk result (printed_by printer.new ≡ put_all (printed_by printer.old) (flat_map selection_symbols (map selection_tree selections.now))) }
{
    for selection in selections {
        write_selection(printer, selection)?;
    }
    Ok(())
}

/// The default of a variable, after `=`, or nothing.
#[tactic(auto, using(crate::proofs::PrintingSteps::printing_steps))]
fn write_default(printer: &mut Printer, default: &Option<Value>) -> Result<(), AllocError>
    ensures { OnOk result (printed_by printer.new ≡ put_all (printed_by printer.old) (default_symbols (maybe_value default.now))) }
{
    match default {
        Some(value) => {
            printer.mark(TokenKind::Equals)?;
            write_value(printer, value)
        }
        None => Ok(()),
    }
}

#[tactic(auto, using(crate::proofs::PrintingSteps::printing_steps))]
fn write_variable(printer: &mut Printer, variable: &VariableDef) -> Result<(), AllocError>
    ensures { OnOk result (printed_by printer.new ≡ put_all (printed_by printer.old) (variable_symbols (variable_tree variable.now))) }
{
    printer.mark(TokenKind::Dollar)?;
    printer.word(variable.name.text.as_str())?;
    printer.mark(TokenKind::Colon)?;
    write_type(printer, &variable.of)?;
    write_default(printer, &variable.default)?;
    write_directives(printer, variable.directives.as_slice())
}

/// Variables, one after the other.
fn write_variables(printer: &mut Printer, variables: &[VariableDef]) -> Result<(), AllocError>
    ensures { OnOk result (printed_by printer.new ≡ put_all (printed_by printer.old) (flat_map variable_symbols (map variable_tree variables.now))) }
{
    for variable in variables {
        write_variable(printer, variable)?;
    }
    Ok(())
}

/// Writes the definitions of variables in parentheses, or nothing where there are none (GraphQL October 2021, 2.10). It fails
/// for want of memory alone.
#[tactic(auto, using(crate::proofs::PrintingSteps::list_steps))]
pub fn write_variable_list(
    printer: &mut Printer,
    variables: &[VariableDef],
) -> Result<(), AllocError>
    ensures { OnOk result (printed_by printer.new ≡ put_all (printed_by printer.old) (variables_symbols (map variable_tree variables.now))) }
{
    if variables.is_empty() {
        return Ok(());
    }
    printer.mark(TokenKind::OpenParen)?;
    write_variables(printer, variables)?;
    printer.mark(TokenKind::CloseParen)
}

/// The word with which an operation of this kind begins (GraphQL October 2021, 2.3).
pub fn kind_name(kind: OperationKind) -> &'static str
    ensures { result.now ≡ kind_name kind }
{
    match kind {
        OperationKind::Query => "query",
        OperationKind::Mutation => "mutation",
        OperationKind::Subscription => "subscription",
    }
}

/// Writes the name of an operation, or nothing. It fails for want of memory alone.
#[tactic(auto, using(crate::proofs::PrintingSteps::printing_steps))]
pub fn write_maybe_name(printer: &mut Printer, name: &Option<Name>) -> Result<(), AllocError>
    ensures { OnOk result (printed_by printer.new ≡ put_all (printed_by printer.old) (maybe_name_symbols (maybe_identifier name.now))) }
{
    match name {
        Some(name) => printer.word(name.text.as_str()),
        None => Ok(()),
    }
}

#[tactic(auto, using(crate::proofs::PrintingSteps::printing_steps))]
fn write_operation(printer: &mut Printer, operation: &Operation) -> Result<(), AllocError>
    ensures { OnOk result (printed_by printer.new ≡ put_all (printed_by printer.old) (definition_symbols (tree_of_operation operation.now))) }
{
    printer.word(kind_name(operation.kind))?;
    write_maybe_name(printer, &operation.name)?;
    write_variable_list(printer, operation.variables.as_slice())?;
    write_directives(printer, operation.directives.as_slice())?;
    write_set(printer, operation.selections.as_slice())
}

#[tactic(auto, using(crate::proofs::PrintingSteps::printing_steps))]
fn write_fragment(printer: &mut Printer, fragment: &Fragment) -> Result<(), AllocError>
    ensures { OnOk result (printed_by printer.new ≡ put_all (printed_by printer.old) (definition_symbols (tree_of_fragment fragment.now))) }
{
    printer.word("fragment")?;
    printer.word(fragment.name.text.as_str())?;
    printer.word("on")?;
    printer.word(fragment.on.text.as_str())?;
    write_directives(printer, fragment.directives.as_slice())?;
    write_set(printer, fragment.selections.as_slice())
}

fn write_definition(printer: &mut Printer, definition: &Definition) -> Result<(), AllocError>
    ensures { OnOk result (printed_by printer.new ≡ put_all (printed_by printer.old) (definition_symbols (definition_tree definition.now))) }
{
    match definition {
        Definition::Op(operation) => write_operation(printer, operation),
        Definition::Frag(fragment) => write_fragment(printer, fragment),
    }
}

/// Definitions, one after the other.
fn write_definitions(printer: &mut Printer, definitions: &[Definition]) -> Result<(), AllocError>
    ensures { OnOk result (printed_by printer.new ≡ put_all (printed_by printer.old) (document_symbols (map definition_tree definitions.now))) }
{
    for definition in definitions {
        write_definition(printer, definition)?;
    }
    Ok(())
}

/// The printed form of a document: the tokens of its definitions in the order of the grammar (GraphQL October 2021, 2.2
/// to 2.12), with one space between two of them, but none after `$` and `@`. A selection set alone is printed as an
/// operation that begins with `query`, and strings stand between `"`. It fails for want of memory alone.
pub fn print_document(alloc: Global, of: &Document) -> Result<Text, AllocError>
    ensures { IfOk result (λ text. text ≡ printed (document_symbols (map definition_tree of.now.definitions.items))) }
{
    let mut printer = Printer::new(alloc);
    write_definitions(&mut printer, of.definitions.as_slice())?;
    Ok(printer.finish())
}
