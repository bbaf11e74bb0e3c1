//! Making selection sets ready to be walked.

ghost use Rattle.std.specs.Prelude.{◌≡◌, IsTrue, None, [], ◌∷◌, ◌++◌, map, length, Some, IfOk, OnOk, IfSome, option_map, slice_get};
ghost use Rattle.document_reader.specs.Trees.{selection_tree, field_tree, set_tree, maybe_identifier};
ghost use Rattle.schema_model.specs.Numbers.{type_number};
ghost use Rattle.schema_model.specs.SchemaViews.{schema_data};
ghost use Rattle.document_rules.specs.Parts.{fragment_data};
ghost use Rattle.collected_fields.specs.Views.{setting_of_planning, fragment_seen};
ghost use Rattle.collected_fields.specs.Steps.{step_data};
ghost use Rattle.collected_fields.specs.Drafts.{source_setting, AddsTo, AddsInlineTo, Knows};
ghost use Rattle.collected_fields.specs.Prepared.{list_data, entry_data, Prepares, Grows, AreSound, Lists, IsListed, AreEntries, EntersFragment, steps_of_spread, steps_where, reached_fragment};

use crate::hashes::hash_of;
use crate::lookups::below_field;
use crate::planning::Planning;
use crate::source::{Reached, Source};
use crate::steps::{Draft, Step, key_of};
use crate::tables::{Entry, SelectionList, Tables};
use counted_work::steps_of_text;
use distinct_selections::is_included;
use document_reader::{Field, Fragment, Selection};
use document_rules::lookups::{below_inline, composite_named};
use gql_base::{Name, index_owned};
use input_values::TypeId;
use std::alloc::{AllocError, Global};
use std::hash::DefaultHasher;

/// The steps of selections that are written on a type. What stands below their fields is listed.
#[cycle(prepare)]
fn steps_of<'a>(
    alloc: Global,
    source: &Source<'_, 'a>,
    parent: Option<TypeId>,
    selections: &'a [Selection],
    lists: &mut Vec<SelectionList<'a>>,
) -> Result<Vec<Step<'a>>, AllocError>
    ensures { IfOk result (λ steps. Prepares (source_setting source.now) (option_map type_number parent) (map selection_tree selections.now) (map list_data lists.old.items) (map list_data lists.new.items) (map step_data steps.items)) }
{
    let mut draft = Draft::new(alloc, parent);
    for selection in selections {
        add_selection(alloc, source, selection, lists, &mut draft)?;
    }
    Ok(draft.steps)
}

#[cycle(prepare)]
fn add_selection<'a>(
    alloc: Global,
    source: &Source<'_, 'a>,
    selection: &'a Selection,
    lists: &mut Vec<SelectionList<'a>>,
    draft: &mut Draft<'a>,
) -> Result<(), AllocError>
    ensures parent { draft.new.parent ≡ draft.old.parent }
    ensures adds { OnOk result (AddsTo (source_setting source.now) (selection_tree selection.now) (map list_data lists.old.items) (map list_data lists.new.items) draft.old draft.new) }
{
    match selection {
        Selection::Field(field) => add_field(alloc, source, field, lists, draft),
        Selection::Spread { name, directives } => {
            source.planning.work.take(directives.len().wrapping_add(1))?;
            if is_included(source.planning.variables, directives.as_slice()) {
                add_spread(source, name.text.as_str(), draft)
            } else {
                Ok(())
            }
        }
        Selection::Inline {
            on,
            directives,
            selections,
        } => {
            source.planning.work.take(directives.len().wrapping_add(1))?;
            if is_included(source.planning.variables, directives.as_slice()) {
                add_inline(alloc, source, on, selections.as_slice(), lists, draft)
            } else {
                Ok(())
            }
        }
    }
}

/// How many steps it is to look at a field and its directives, and to look for its response key.
fn steps_of_field(field: &Field) -> usize {
    let key = steps_of_text(key_of(field).len());
    key.wrapping_add(field.directives.len()).wrapping_add(1)
}

#[cycle(prepare)]
fn add_field<'a>(
    alloc: Global,
    source: &Source<'_, 'a>,
    field: &'a Field,
    lists: &mut Vec<SelectionList<'a>>,
    draft: &mut Draft<'a>,
) -> Result<(), AllocError>
    ensures parent { draft.new.parent ≡ draft.old.parent }
    ensures adds { OnOk result (AddsTo (source_setting source.now) (field_tree field.now) (map list_data lists.old.items) (map list_data lists.new.items) draft.old draft.new) }
{
    let work = source.planning.work;
    work.take(steps_of_field(field))?;
    if !is_included(source.planning.variables, field.directives.as_slice()) {
        return Ok(());
    }
    if draft.repeats(field) {
        return Ok(());
    }
    let parent = below_field(source.planning.schema, draft.parent, field);
    let below = list_below(alloc, source, parent, field.selections.as_slice(), lists)?;
    let written = hash_of(work, source.begun, field.arguments.as_slice());
    draft.keep(field, below, written)
}

/// Whether these are no selections, below a type that has none.
fn are_none(parent: Option<TypeId>, selections: &[Selection]) -> bool
    ensures { IsTrue result → (parent ≡ None) × (selections.now ≡ []) }
{
    parent.is_none() && selections.is_empty()
}

/// The number of the list that has no selections, if the first list is such a one and these are none.
fn listed_none(
    parent: Option<TypeId>,
    selections: &[Selection],
    lists: &[SelectionList<'_>],
) -> Option<usize>
    ensures { IfSome result (λ number. IsListed (map list_data lists.now) (option_map type_number parent, set_tree selections.now) number) }
{
    match lists.get(0) {
        Some(list) => {
            if are_none(parent, selections) && are_none(list.parent, list.written) {
                Some(0)
            } else {
                None
            }
        }
        None => None,
    }
}

/// Lists what stands below a field. All leaves share one number.
#[cycle(prepare)]
fn list_below<'a>(
    alloc: Global,
    source: &Source<'_, 'a>,
    parent: Option<TypeId>,
    selections: &'a [Selection],
    lists: &mut Vec<SelectionList<'a>>,
) -> Result<usize, AllocError>
    ensures { IfOk result (λ number. Lists (source_setting source.now) (option_map type_number parent, set_tree selections.now) (map list_data lists.old.items) (map list_data lists.new.items) number) }
{
    match listed_none(parent, selections, lists.as_slice()) {
        Some(number) => Ok(number),
        None => add_list(alloc, source, parent, selections, lists),
    }
}

/// The fragment of a name; a name of none gives nothing.
fn add_spread<'a>(
    source: &Source<'_, 'a>,
    name: &str,
    draft: &mut Draft<'a>,
) -> Result<(), AllocError>
    ensures leaves { draft.new.leaves ≡ draft.old.leaves }
    ensures parent { draft.new.parent ≡ draft.old.parent }
    ensures adds { OnOk result (map step_data draft.new.steps.items ≡ map step_data draft.old.steps.items ++ steps_of_spread (source_setting source.now) name.now) }
{
    match source.fragments.position(name) {
        Some(number) => draft.spread(number),
        None => Ok(()),
    }
}

#[cycle(prepare)]
fn add_inline<'a>(
    alloc: Global,
    source: &Source<'_, 'a>,
    on: &Option<Name>,
    selections: &'a [Selection],
    lists: &mut Vec<SelectionList<'a>>,
    draft: &mut Draft<'a>,
) -> Result<(), AllocError>
    ensures parent { draft.new.parent ≡ draft.old.parent }
    ensures adds { OnOk result (AddsInlineTo (source_setting source.now) (maybe_identifier on.now) (map selection_tree selections.now) (map list_data lists.old.items) (map list_data lists.new.items) draft.old draft.new) }
{
    let parent = below_inline(source.planning.schema, draft.parent, on);
    let steps = steps_of(alloc, source, parent, selections, lists)?;
    source.planning.work.take(steps.len())?;
    match on {
        None => draft.append(steps.as_slice()),
        Some(name) => add_condition(source, name, steps.as_slice(), draft),
    }
}

/// Steps for the objects alone to which the type of a name applies; a name of none applies to no object.
fn add_condition<'a>(
    source: &Source<'_, 'a>,
    name: &Name,
    steps: &[Step<'a>],
    draft: &mut Draft<'a>,
) -> Result<(), AllocError>
    ensures leaves { draft.new.leaves ≡ draft.old.leaves }
    ensures parent { draft.new.parent ≡ draft.old.parent }
    ensures adds { OnOk result (map step_data draft.new.steps.items ≡ map step_data draft.old.steps.items ++ steps_where (schema_data source.now.planning.schema.now) name.now.text (map step_data steps.now)) }
{
    match source.planning.schema.find(name.text.as_str()) {
        Some(on) => draft.append_on(on, steps),
        None => Ok(()),
    }
}

/// Lists a selection set that is written on a type, and gives its number.
#[cycle(prepare)]
fn add_list<'a>(
    alloc: Global,
    source: &Source<'_, 'a>,
    parent: Option<TypeId>,
    selections: &'a [Selection],
    lists: &mut Vec<SelectionList<'a>>,
) -> Result<usize, AllocError>
    ensures { IfOk result (λ number. Lists (source_setting source.now) (option_map type_number parent, set_tree selections.now) (map list_data lists.old.items) (map list_data lists.new.items) number) }
{
    let steps = steps_of(alloc, source, parent, selections, lists)?;
    let number = lists.as_slice().len();
    lists.push(SelectionList {
        parent,
        written: selections,
        steps,
    })?;
    Ok(number)
}

/// Lists the selections of a fragment.
fn add_entry<'a>(
    alloc: Global,
    source: &Source<'_, 'a>,
    fragment: &'a Fragment,
    lists: &mut Vec<SelectionList<'a>>,
) -> Result<Entry, AllocError>
    ensures { IfOk result (λ entry. EntersFragment (source_setting source.now) (fragment_data fragment.now) (map list_data lists.old.items) (map list_data lists.new.items) (entry_data entry)) }
{
    let schema = source.planning.schema;
    let parent = composite_named(schema, fragment.on.text.as_str());
    let list = add_list(alloc, source, parent, fragment.selections.as_slice(), lists)?;
    Ok(Entry {
        on: schema.find(fragment.on.text.as_str()),
        list,
    })
}

/// Lists the selections of each fragment.
fn entries_of<'a>(
    alloc: Global,
    source: &Source<'_, 'a>,
    lists: &mut Vec<SelectionList<'a>>,
) -> Result<Vec<Entry>, AllocError>
    requires { Grows (source_setting source.now) [] (map list_data lists.old.items) }
    ensures lists { IfOk result (λ _. Grows (source_setting source.now) [] (map list_data lists.new.items)) }
    ensures entries { IfOk result (λ entries. AreEntries (source_setting source.now).schema (map list_data lists.new.items) (map entry_data entries.items) (source_setting source.now).fragments) }
{
    let mut entries = Vec::new(alloc);
    for reached in source.fragments.items() {
        let entry = add_entry(alloc, source, reached.fragment, lists)?;
        entries.push(entry)?;
    }
    Ok(entries)
}

fn reached_of<'a>(alloc: Global, fragments: &[&'a Fragment]) -> Result<Vec<Reached<'a>>, AllocError>
    ensures { IfOk result (λ reached. map reached_fragment reached.items ≡ map fragment_seen fragments.now) }
{
    let mut reached = Vec::new(alloc);
    for fragment in fragments {
        reached.push(Reached { fragment })?;
    }
    Ok(reached)
}

/// Lists the selections of an operation and of its fragments, and gives the number of the first. Arguments are hashed by a hasher that is
/// begun.
pub fn tables_of<'a>(
    alloc: Global,
    planning: Planning<'a>,
    root: TypeId,
    selections: &'a [Selection],
    begun: DefaultHasher,
) -> Result<(Tables<'a>, usize), AllocError>
    ensures planning { IfOk result (λ made. made.0.planning ≡ planning.entry) }
    ensures sound { IfOk result (λ made. AreSound (setting_of_planning planning.entry) (map list_data made.0.lists.items) (map entry_data made.0.entries.items)) }
    ensures root { IfOk result (λ made. IsListed (map list_data made.0.lists.items) (Some root.number, set_tree selections.now) made.1) }
{
    planning.work.take(planning.fragments.len())?;
    let fragments = index_owned(alloc, reached_of(alloc, planning.fragments)?)?;
    let source = Source {
        planning,
        fragments: &fragments,
        begun,
    };
    let mut lists = Vec::new(alloc);
    add_list(alloc, &source, None, &[], &mut lists)?;
    let entries = entries_of(alloc, &source, &mut lists)?;
    let number = add_list(alloc, &source, Some(root), selections, &mut lists)?;
    let tables = Tables {
        planning,
        lists,
        entries,
    };
    Ok((tables, number))
}
