//! Selections without repeats, and without what is left out.

ghost use Rattle.std.specs.Prelude.{◌≡◌, [], IfOk, OnOk, map};
ghost use Rattle.gql_base.specs.parts.Trees.{identifier_of, named_value};
ghost use Rattle.document_reader.specs.Trees.{names_of, maybe_identifier, selection_tree, field_tree, set_tree};
ghost use Rattle.document_rules.specs.Parts.{fragment_data};
ghost use Rattle.variable_coercion.specs.Calls.{environment};
ghost use Rattle.plan_model.specs.Shortening.{AreShortened, IsShortenedFragment, AreShortenedFragments};
ghost use Rattle.distinct_selections.specs.Adding.{fragment_seen, IsFieldWith, AddsOne, AddsIncluded, AddsSpread, AddsInline};
ghost use Rattle.distinct_selections.specs.SameVariables.{AreRight};

use crate::copying::{copy_arguments, copy_maybe_name, copy_name};
use crate::included::is_included;
use crate::kept::Kept;
use crate::numbers::Numbers;
use crate::stand_ins::StandIns;
use counted_work::{Work, steps_of_text};
use document_reader::{Field, Fragment, Selection};
use gql_base::Name;
use std::alloc::{AllocError, Global};
use variable_coercion::Variables;

/// The selections of an operation and the fragments that it reaches, without repeats.
#[derive(Drop)]
pub struct Distinct {
    pub selections: Vec<Selection>,
    pub fragments: Vec<Fragment>,
}

/// A selection set without repeats, and its number.
#[derive(Drop)]
struct Shortened {
    selections: Vec<Selection>,
    number: usize,
}

#[cycle(shorten)]
fn shorten_set<'a>(
    alloc: Global,
    stand_ins: &StandIns<'a>,
    selections: &'a [Selection],
    numbers: &mut Numbers<'a>,
) -> Result<Shortened, AllocError>
    ensures { AreRight stand_ins.now → IfOk result (λ set. AreShortened (environment stand_ins.now.variables.now) (set_tree selections.now) (set_tree set.selections.items)) }
{
    let mut kept = Kept::new(alloc);
    'set: for selection in selections {
        add_selection(alloc, stand_ins, selection, numbers, &mut kept)?;
    }
    let Kept {
        selections: shortened,
        numbers: words,
        ..
    } = kept;
    let number = numbers.of_words(words, 0)?;
    Ok(Shortened {
        selections: shortened,
        number,
    })
}

#[cycle(shorten)]
fn add_selection<'a>(
    alloc: Global,
    stand_ins: &StandIns<'a>,
    selection: &'a Selection,
    numbers: &mut Numbers<'a>,
    kept: &mut Kept,
) -> Result<(), AllocError>
    ensures { AreRight stand_ins.now → OnOk result (AddsOne (environment stand_ins.now.variables.now) (selection_tree selection.now) (map selection_tree kept.old.selections.items) (map selection_tree kept.new.selections.items)) }
{
    match selection {
        Selection::Field(field) => {
            stand_ins.work.take(field.directives.len().wrapping_add(1))?;
            if is_included(stand_ins.variables, field.directives.as_slice()) {
                add_field(alloc, stand_ins, field, numbers, kept)
            } else {
                Ok(())
            }
        }
        Selection::Spread { name, directives } => {
            stand_ins.work.take(directives.len().wrapping_add(1))?;
            if is_included(stand_ins.variables, directives.as_slice()) {
                add_spread(alloc, stand_ins.work, name, numbers, kept)
            } else {
                Ok(())
            }
        }
        Selection::Inline {
            on,
            directives,
            selections,
        } => {
            stand_ins.work.take(directives.len().wrapping_add(1))?;
            if is_included(stand_ins.variables, directives.as_slice()) {
                add_inline(alloc, stand_ins, on, selections.as_slice(), numbers, kept)
            } else {
                Ok(())
            }
        }
    }
}

/// A field without directives, with these selections.
#[tactic(auto, using(crate::proofs::Opened::selection_parts))]
fn field_with<'a>(
    alloc: Global,
    stand_ins: &StandIns<'a>,
    field: &'a Field,
    selections: Vec<Selection>,
) -> Result<Field, AllocError>
    ensures { AreRight stand_ins.now → IfOk result (λ f. IsFieldWith (environment stand_ins.now.variables.now) field.now (set_tree selections.items) (field_tree f)) }
{
    Ok(Field {
        alias: copy_maybe_name(alloc, &field.alias)?,
        name: copy_name(alloc, &field.name)?,
        arguments: copy_arguments(alloc, stand_ins, field.arguments.as_slice())?,
        directives: Vec::new(alloc),
        selections,
    })
}

#[cycle(shorten)]
fn add_field<'a>(
    alloc: Global,
    stand_ins: &StandIns<'a>,
    field: &'a Field,
    numbers: &mut Numbers<'a>,
    kept: &mut Kept,
) -> Result<(), AllocError>
    ensures { AreRight stand_ins.now → OnOk result (AddsIncluded (environment stand_ins.now.variables.now) (field_tree field.now) (map selection_tree kept.old.selections.items) (map selection_tree kept.new.selections.items)) }
{
    let below = shorten_set(alloc, stand_ins, field.selections.as_slice(), numbers)?;
    let number = numbers.of_field(alloc, stand_ins, field, below.number)?;
    let Shortened { selections, .. } = below;
    kept.keep(
        stand_ins.work,
        number,
        Selection::Field(field_with(alloc, stand_ins, field, selections)?),
    )
}

fn add_spread<'a>(
    alloc: Global,
    work: Work<'_>,
    name: &'a Name,
    numbers: &mut Numbers<'a>,
    kept: &mut Kept,
) -> Result<(), AllocError>
    ensures { OnOk result (AddsSpread (identifier_of name.now) (map selection_tree kept.old.selections.items) (map selection_tree kept.new.selections.items)) }
{
    let number = numbers.of_spread(alloc, name)?;
    kept.keep(
        work,
        number,
        Selection::Spread {
            name: copy_name(alloc, name)?,
            directives: Vec::new(alloc),
        },
    )
}

#[cycle(shorten)]
fn add_inline<'a>(
    alloc: Global,
    stand_ins: &StandIns<'a>,
    on: &'a Option<Name>,
    selections: &'a [Selection],
    numbers: &mut Numbers<'a>,
    kept: &mut Kept,
) -> Result<(), AllocError>
    ensures { AreRight stand_ins.now → OnOk result (AddsInline (environment stand_ins.now.variables.now) (maybe_identifier on.now) (set_tree selections.now) (map selection_tree kept.old.selections.items) (map selection_tree kept.new.selections.items)) }
{
    let below = shorten_set(alloc, stand_ins, selections, numbers)?;
    let number = numbers.of_inline(alloc, on, below.number)?;
    let Shortened {
        selections: shortened,
        ..
    } = below;
    kept.keep(
        stand_ins.work,
        number,
        Selection::Inline {
            on: copy_maybe_name(alloc, on)?,
            directives: Vec::new(alloc),
            selections: shortened,
        },
    )
}

/// How many steps it is to copy the names of a fragment.
fn steps_of(fragment: &Fragment) -> usize {
    let name = fragment.name.text.as_str();
    let on = fragment.on.text.as_str();
    steps_of_text(name.len().wrapping_add(on.len())).wrapping_add(1)
}

fn shorten_fragment<'a>(
    alloc: Global,
    stand_ins: &StandIns<'a>,
    fragment: &'a Fragment,
    numbers: &mut Numbers<'a>,
) -> Result<Fragment, AllocError>
    ensures { AreRight stand_ins.now → IfOk result (λ f. IsShortenedFragment (environment stand_ins.now.variables.now) (fragment_data fragment.now) (fragment_data f)) }
{
    stand_ins.work.take(steps_of(fragment))?;
    let below = shorten_set(alloc, stand_ins, fragment.selections.as_slice(), numbers)?;
    let Shortened { selections, .. } = below;
    Ok(Fragment {
        name: copy_name(alloc, &fragment.name)?,
        on: copy_name(alloc, &fragment.on)?,
        directives: Vec::new(alloc),
        selections,
    })
}

fn shorten_fragments<'a>(
    alloc: Global,
    stand_ins: &StandIns<'a>,
    fragments: &[&'a Fragment],
    numbers: &mut Numbers<'a>,
) -> Result<Vec<Fragment>, AllocError>
    ensures { AreRight stand_ins.now → IfOk result (λ fs. AreShortenedFragments (environment stand_ins.now.variables.now) (map fragment_seen fragments.now) (map fragment_data fs.items)) }
{
    let mut shortened = Vec::new(alloc);
    for fragment in fragments {
        shortened.push(shorten_fragment(alloc, stand_ins, fragment, numbers)?)?;
    }
    Ok(shortened)
}

/// The selections of an operation and the fragments that it reaches, without repeats and without what these values of variables
/// leave out. Of variables that have the same value one stands in the place of all, so that calls that are given them are written alike.
/// It fails for want of memory alone, or of steps where they are counted.
pub fn distinct_of<'a>(
    alloc: Global,
    work: Work<'a>,
    variables: &'a Variables,
    selections: &'a [Selection],
    fragments: &[&'a Fragment],
) -> Result<Distinct, AllocError>
    ensures selections { IfOk result (λ d. AreShortened (environment variables.now) (set_tree selections.now) (set_tree d.selections.items)) }
    ensures fragments { IfOk result (λ d. AreShortenedFragments (environment variables.now) (map fragment_seen fragments.now) (map fragment_data d.fragments.items)) }
{
    let stand_ins = StandIns::of(alloc, work, variables)?;
    let mut numbers = Numbers::new(alloc, work);
    let shortened = shorten_fragments(alloc, &stand_ins, fragments, &mut numbers)?;
    let set = shorten_set(alloc, &stand_ins, selections, &mut numbers)?;
    let Shortened {
        selections: kept,
        ..
    } = set;
    Ok(Distinct {
        selections: kept,
        fragments: shortened,
    })
}
