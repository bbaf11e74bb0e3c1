//! The document that is sent in place of an operation's own.

ghost use Rattle.std.specs.Prelude.{◌≡◌, map, IfOk, OnOk};
ghost use Rattle.gql_base.specs.printing.Printing.{put_all, printed};
ghost use Rattle.gql_base.specs.printing.Printers.{printed_by};
ghost use Rattle.document_reader.specs.PrintedDocuments.{definition_symbols, document_symbols};
ghost use Rattle.document_reader.specs.Trees.{definition_tree};
ghost use Rattle.schema_model.specs.SchemaViews.{schema_data};
ghost use Rattle.typename_rewrite.specs.AddedNames.{names_of_document, IsAlias};
ghost use Rattle.typename_rewrite.specs.Views.{operation_by, fragment_by, fragments_by, rewritten_of};

use crate::adding::{Adding, write_set};
use crate::alias::alias_for;
use document_reader::{
    Fragment, Operation, kind_name, write_directives, write_maybe_name, write_variable_list,
};
use document_rules::Checked;
use document_rules::lookups::composite_named;
use gql_base::{Printer, Text};
use input_values::TypeId;
use schema_model::Schema;
use std::alloc::{AllocError, Global};

/// The document that is sent in place of an operation's own.
#[derive(Drop)]
pub struct Rewritten {
    pub text: Text,
    /// The alias under which the names of types are added. It is no name of the client's document.
    pub alias: Text,
}

/// An operation whose selections are written on a type.
#[tactic(auto, using(crate::proofs::AddingSteps::definition_steps))]
fn write_operation(
    printer: &mut Printer,
    by: Adding<'_>,
    root: TypeId,
    operation: &Operation,
) -> Result<(), AllocError>
    ensures { OnOk result (printed_by printer.new ≡ put_all (printed_by printer.old) (definition_symbols (operation_by by.entry root.number operation.now))) }
{
    printer.word(kind_name(operation.kind))?;
    write_maybe_name(printer, &operation.name)?;
    write_variable_list(printer, operation.variables.as_slice())?;
    write_directives(printer, operation.directives.as_slice())?;
    write_set(
        printer,
        by,
        Some(root),
        false,
        operation.selections.as_slice(),
    )
}

#[tactic(auto, using(crate::proofs::AddingSteps::definition_steps))]
fn write_fragment(
    printer: &mut Printer,
    by: Adding<'_>,
    fragment: &Fragment,
) -> Result<(), AllocError>
    ensures { OnOk result (printed_by printer.new ≡ put_all (printed_by printer.old) (definition_symbols (fragment_by by.entry fragment.now))) }
{
    printer.word("fragment")?;
    printer.word(fragment.name.text.as_str())?;
    printer.word("on")?;
    printer.word(fragment.on.text.as_str())?;
    write_directives(printer, fragment.directives.as_slice())?;
    let on = composite_named(by.schema, fragment.on.text.as_str());
    write_set(printer, by, on, false, fragment.selections.as_slice())
}

/// Fragments, one after the other.
fn write_fragments(
    printer: &mut Printer,
    by: Adding<'_>,
    fragments: &[&Fragment],
) -> Result<(), AllocError>
    ensures { OnOk result (printed_by printer.new ≡ put_all (printed_by printer.old) (document_symbols (fragments_by by.entry fragments.now))) }
{
    for fragment in fragments {
        write_fragment(printer, by, fragment)?;
    }
    Ok(())
}

/// The text of the rewritten document, where the names of types are added under this alias.
fn text_with(
    alloc: Global,
    schema: &Schema,
    alias: &str,
    checked: &Checked<'_>,
) -> Result<Text, AllocError>
    ensures { IfOk result (λ text. text ≡ printed (document_symbols (rewritten_of (schema_data schema.now) alias.now checked.now))) }
{
    let by = Adding { schema, alias };
    let mut printer = Printer::new(alloc);
    write_operation(&mut printer, by, checked.root(), checked.operation())?;
    write_fragments(&mut printer, by, checked.fragments())?;
    Ok(printer.finish())
}

/// The document that is sent in place of a checked operation's own: the operation, and behind it the fragments that it
/// reaches, in the order in which they are first met. Each selection set of a field whose type is an interface or a union
/// ends with `__typename` under an alias: `gateway_typename`, with the fewest underscores that make it differ from every
/// name in the client's document. It fails for want of memory alone.
pub fn rewrite(
    alloc: Global,
    schema: &Schema,
    checked: &Checked<'_>,
) -> Result<Rewritten, AllocError>
    ensures alias { IfOk result (λ r. IsAlias (names_of_document (map definition_tree checked.now.document.now.definitions.items)) r.alias) }
    ensures text { IfOk result (λ r. r.text ≡ printed (document_symbols (rewritten_of (schema_data schema.now) r.alias checked.now))) }
{
    let alias = alias_for(alloc, checked.document())?;
    let text = text_with(alloc, schema, alias.as_str(), checked)?;
    Ok(Rewritten { text, alias })
}
