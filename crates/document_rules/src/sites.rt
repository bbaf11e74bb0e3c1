//! The parts of an operation and of the fragments that it reaches, which rules look at one at a time.

ghost use Rattle.std.specs.Prelude.{◌≡◌, ◌++◌, map, option_map, Some, OnOk, IfOk};
ghost use Rattle.document_reader.specs.Trees.{variable_tree, selection_tree, field_tree, set_tree};
ghost use Rattle.gql_base.specs.parts.Trees.{directive_tree};
ghost use Rattle.schema_model.specs.Numbers.{type_number};
ghost use Rattle.schema_model.specs.SchemaViews.{schema_data};
ghost use Rattle.document_rules.specs.Sites.{variable_site, sites_in, sites_in_one, sites_of_operation, sites_of_fragment, sites_of_met, all_sites, directives_at};
ghost use Rattle.document_rules.specs.Parts.{fragment_data};
ghost use Rattle.document_rules.specs.Views.{site_data, met_data, defined_data};

use crate::counting::count_parts;
use crate::indexes::{Defined, fragment_of};
use crate::lookups::{Meaning, below_field, below_inline, composite_named, meaning_on};
use crate::met::Met;
use counted_work::Work;
use document_reader::{Field, Fragment, Operation, Selection, VariableDef};
use gql_base::{Directive, Name};
use input_values::TypeId;
use schema_model::Schema;
use std::alloc::{AllocError, Global};

/// A part that rules look at. The selections below it are parts of their own.
#[derive(Clone, Copy)]
pub enum Site<'a> {
    Variable(&'a VariableDef),
    /// An operation, after its variables.
    Operation(&'a Operation),
    Fragment(&'a Fragment),
    Field {
        meaning: Meaning,
        field: &'a Field,
    },
    Spread {
        /// The place, among the fragments that were met, of the one in which the spread stands.
        within: Option<usize>,
        name: &'a Name,
        directives: &'a [Directive],
    },
    Inline {
        on: &'a Option<Name>,
        directives: &'a [Directive],
    },
}

impl<'a> Site<'a> {
    /// The directives that stand there.
    pub fn directives(self) -> &'a [Directive]
        ensures { map directive_tree result.now ≡ directives_at (site_data self.entry) }
    {
        match self {
            Site::Variable(variable) => variable.directives.as_slice(),
            Site::Operation(operation) => operation.directives.as_slice(),
            Site::Fragment(fragment) => fragment.directives.as_slice(),
            Site::Field { field, .. } => field.directives.as_slice(),
            Site::Spread { directives, .. } => directives,
            Site::Inline { directives, .. } => directives,
        }
    }
}

/// The parts of selections that are written on a type, each before what stands below it.
#[cycle(sites)]
fn add_selections<'a>(
    schema: &Schema,
    within: Option<usize>,
    parent: Option<TypeId>,
    selections: &'a [Selection],
    into: &mut Vec<Site<'a>>,
) -> Result<(), AllocError>
    ensures { OnOk result (map site_data into.new.items ≡ map site_data into.old.items ++ sites_in (schema_data schema.now) within (option_map type_number parent) (set_tree selections.now)) }
{
    for selection in selections {
        add_selection(schema, within, parent, selection, into)?;
    }
    Ok(())
}

#[cycle(sites)]
fn add_selection<'a>(
    schema: &Schema,
    within: Option<usize>,
    parent: Option<TypeId>,
    selection: &'a Selection,
    into: &mut Vec<Site<'a>>,
) -> Result<(), AllocError>
    ensures { OnOk result (map site_data into.new.items ≡ map site_data into.old.items ++ sites_in_one (schema_data schema.now) within (option_map type_number parent) (selection_tree selection.now)) }
{
    match selection {
        Selection::Field(field) => add_field(schema, within, parent, field, into),
        Selection::Spread { name, directives } => {
            into.push(Site::Spread {
                within,
                name,
                directives: directives.as_slice(),
            })?;
            Ok(())
        }
        Selection::Inline {
            on,
            directives,
            selections,
        } => {
            into.push(Site::Inline {
                on,
                directives: directives.as_slice(),
            })?;
            let below = below_inline(schema, parent, on);
            add_selections(schema, within, below, selections.as_slice(), into)
        }
    }
}

#[cycle(sites)]
fn add_field<'a>(
    schema: &Schema,
    within: Option<usize>,
    parent: Option<TypeId>,
    field: &'a Field,
    into: &mut Vec<Site<'a>>,
) -> Result<(), AllocError>
    ensures { OnOk result (map site_data into.new.items ≡ map site_data into.old.items ++ sites_in_one (schema_data schema.now) within (option_map type_number parent) (field_tree field.now)) }
{
    let meaning = meaning_on(schema, parent, field.name.text.as_str());
    into.push(Site::Field { meaning, field })?;
    let below = below_field(schema, meaning);
    add_selections(schema, within, below, field.selections.as_slice(), into)
}

/// The variables of an operation.
fn add_variables<'a>(
    variables: &'a [VariableDef],
    into: &mut Vec<Site<'a>>,
) -> Result<(), AllocError>
    ensures { OnOk result (map site_data into.new.items ≡ map site_data into.old.items ++ map variable_site (map variable_tree variables.now)) }
{
    for variable in variables {
        into.push(Site::Variable(variable))?;
    }
    Ok(())
}

/// The parts of an operation whose selections are written on a type.
fn add_operation<'a>(
    schema: &Schema,
    operation: &'a Operation,
    root: TypeId,
    into: &mut Vec<Site<'a>>,
) -> Result<(), AllocError>
    ensures { OnOk result (map site_data into.new.items ≡ map site_data into.old.items ++ sites_of_operation (schema_data schema.now) (Some root.number) operation.now) }
{
    add_variables(operation.variables.as_slice(), into)?;
    into.push(Site::Operation(operation))?;
    add_selections(
        schema,
        None,
        Some(root),
        operation.selections.as_slice(),
        into,
    )
}

/// The parts of a fragment that stands at a place among those that were met.
fn add_fragment<'a>(
    schema: &Schema,
    place: usize,
    fragment: Option<&'a Fragment>,
    into: &mut Vec<Site<'a>>,
) -> Result<(), AllocError>
    ensures { OnOk result (map site_data into.new.items ≡ map site_data into.old.items ++ sites_of_fragment (schema_data schema.now) place (option_map (λ f. fragment_data f.now) fragment.entry)) }
{
    match fragment {
        Some(fragment) => {
            into.push(Site::Fragment(fragment))?;
            let on = composite_named(schema, fragment.on.text.as_str());
            add_selections(
                schema,
                Some(place),
                on,
                fragment.selections.as_slice(),
                into,
            )
        }
        None => Ok(()),
    }
}

/// The parts of the fragments that were met.
fn add_fragments<'a>(
    schema: &Schema,
    defined: &[Defined<'a>],
    met: &[Met],
    into: &mut Vec<Site<'a>>,
) -> Result<(), AllocError>
    ensures { OnOk result (map site_data into.new.items ≡ map site_data into.old.items ++ sites_of_met (schema_data schema.now) (map defined_data defined.now) 0 (map met_data met.now)) }
{
    for place in 0..met.len() {
        let fragment = fragment_of(defined, met[place].number);
        add_fragment(schema, place, fragment, into)?;
    }
    Ok(())
}

/// All parts, in the order of the text: those of the operation, and then those of each fragment that was met. It fails for
/// want of memory alone.
pub fn sites_of<'a>(
    alloc: Global,
    work: Work<'_>,
    schema: &Schema,
    operation: &'a Operation,
    root: TypeId,
    defined: &[Defined<'a>],
    met: &[Met],
) -> Result<Vec<Site<'a>>, AllocError>
    ensures { IfOk result (λ sites. map site_data sites.items ≡ all_sites (schema_data schema.now) (Some root.number) (map defined_data defined.now) (map met_data met.now) operation.now) }
{
    let mut sites = Vec::new(alloc);
    add_operation(schema, operation, root, &mut sites)?;
    add_fragments(schema, defined, met, &mut sites)?;
    count_parts(work, sites.as_slice())?;
    Ok(sites)
}
