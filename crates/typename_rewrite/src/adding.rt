//! Printing of selections with the names of types added.

ghost use Rattle.std.specs.Prelude.{◌≡◌, map, OnOk};
ghost use Rattle.std.specs.List.{flat_map};
ghost use Rattle.gql_base.specs.printing.Printing.{put_all};
ghost use Rattle.gql_base.specs.printing.Printers.{printed_by};
ghost use Rattle.document_reader.specs.PrintedDocuments.{selection_symbols, set_symbols};
ghost use Rattle.typename_rewrite.specs.Rewriting.{ended};
ghost use Rattle.typename_rewrite.specs.Views.{selection_by, field_by, set_by};
ghost use Rattle.typename_rewrite.specs.Endings.{end_symbols};

use crate::lookups::is_abstract;
use document_reader::{
    Field, Selection, write_argument_list, write_condition, write_directives, write_names,
};
use document_rules::lookups::{below_inline, below_name};
use gql_base::{Printer, TokenKind};
use input_values::TypeId;
use schema_model::Schema;
use std::alloc::AllocError;

/// What is added by: the types of fields, and the alias of the added names.
#[derive(Clone, Copy)]
pub struct Adding<'a> {
    pub schema: &'a Schema,
    pub alias: &'a str,
}

#[cycle(adding)]
#[tactic(auto, using(crate::proofs::AddingSteps::adding_steps))]
fn write_selection(
    printer: &mut Printer,
    by: Adding<'_>,
    parent: Option<TypeId>,
    selection: &Selection,
) -> Result<(), AllocError>
    ensures { OnOk result (printed_by printer.new ≡ put_all (printed_by printer.old) (selection_symbols (selection_by by.entry parent selection.now))) }
{
    match selection {
        Selection::Field(field) => write_field(printer, by, parent, field),
        Selection::Spread { name, directives } => {
            printer.mark(TokenKind::Spread)?;
            printer.word(name.text.as_str())?;
            write_directives(printer, directives.as_slice())
        }
        Selection::Inline {
            on,
            directives,
            selections,
        } => {
            printer.mark(TokenKind::Spread)?;
            write_condition(printer, on)?;
            write_directives(printer, directives.as_slice())?;
            let below = below_inline(by.schema, parent, on);
            write_set(printer, by, below, false, selections.as_slice())
        }
    }
}

#[cycle(adding)]
#[tactic(auto, using(crate::proofs::AddingSteps::adding_steps))]
fn write_field(
    printer: &mut Printer,
    by: Adding<'_>,
    parent: Option<TypeId>,
    field: &Field,
) -> Result<(), AllocError>
    ensures { OnOk result (printed_by printer.new ≡ put_all (printed_by printer.old) (selection_symbols (field_by by.entry parent field.now))) }
{
    write_names(printer, &field.alias, &field.name)?;
    write_argument_list(printer, field.arguments.as_slice())?;
    write_directives(printer, field.directives.as_slice())?;
    let below = below_name(by.schema, parent, field.name.text.as_str());
    let asked = is_abstract(by.schema, below);
    write_set(printer, by, below, asked, field.selections.as_slice())
}

/// Selections in braces, or nothing where there are none. The name of the object's type stands at their end where it is asked
/// for. It fails for want of memory alone.
#[cycle(adding)]
#[tactic(auto, using(crate::proofs::AddingSteps::adding_steps))]
pub fn write_set(
    printer: &mut Printer,
    by: Adding<'_>,
    parent: Option<TypeId>,
    asked: bool,
    selections: &[Selection],
) -> Result<(), AllocError>
    ensures { OnOk result (printed_by printer.new ≡ put_all (printed_by printer.old) (set_symbols (ended by.entry.alias.now asked (set_by by.entry parent selections.now)))) }
{
    if selections.is_empty() {
        return Ok(());
    }
    printer.mark(TokenKind::OpenBrace)?;
    write_selections(printer, by, parent, selections)?;
    write_end(printer, by, asked)?;
    printer.mark(TokenKind::CloseBrace)
}

/// The name of the object's type under the alias, where it is asked for.
#[tactic(auto, using(crate::proofs::AddingSteps::end_steps))]
fn write_end(printer: &mut Printer, by: Adding<'_>, asked: bool) -> Result<(), AllocError>
    ensures { OnOk result (printed_by printer.new ≡ put_all (printed_by printer.old) (end_symbols by.entry.alias.now asked)) }
{
    if asked {
        printer.word(by.alias)?;
        printer.mark(TokenKind::Colon)?;
        printer.word("__typename")
    } else {
        Ok(())
    }
}

/// Selections, one after the other.
#[cycle(adding)]
fn write_selections(
    printer: &mut Printer,
    by: Adding<'_>,
    parent: Option<TypeId>,
    selections: &[Selection],
) -> Result<(), AllocError>
    ensures { OnOk result (printed_by printer.new ≡ put_all (printed_by printer.old) (flat_map selection_symbols (map (selection_by by.entry parent) selections.now))) }
{
    for selection in selections {
        write_selection(printer, by, parent, selection)?;
    }
    Ok(())
}
