//! The fragments that an operation reaches (GraphQL October 2021, 2.8).

ghost use Rattle.std.specs.Prelude.{◌≡◌, ◌<◌, ◌+◌, ◌++◌, [], ◌∷◌, true, false, length, map, replicate, slice_get, slice_set, option_map, IfOk, OnOk};
ghost use Rattle.document_reader.specs.Trees.{selection_tree, set_tree};
ghost use Rattle.document_rules.specs.Met.{is_met, spreads_within, spreads_within_one, spreads_of_data, reached, before_reached, fragments_met};
ghost use Rattle.document_rules.specs.Steps.{to_come, AreSeen, KeepsToCome, EntersOrPasses, FollowsSpread, SpreadsBefore};
ghost use Rattle.document_rules.specs.Views.{defined_data, defined_fragment, met_data, spread_data};

use crate::indexes::{Defined, fragment_number, fragment_of};
use counted_work::{Work, steps_of_text};
use document_reader::{Fragment, Selection};
use gql_base::Indexed;
use std::alloc::{AllocError, Global};

/// A fragment that an operation reaches, by its number among the document's fragments, and the place among the fragments
/// that were met of the one in which its spread stands; none where that is the operation.
#[derive(Clone, Copy)]
pub struct Met {
    pub number: usize,
    pub within: Option<usize>,
}

/// A spread that is still to be looked at.
#[derive(Clone, Copy)]
pub struct Spread<'a> {
    name: &'a str,
    within: Option<usize>,
}

/// The spreads of selections, so that the first of them stands last.
#[cycle(spreads)]
fn add_spreads<'a>(
    work: Work<'_>,
    selections: &'a [Selection],
    within: Option<usize>,
    into: &mut Vec<Spread<'a>>,
) -> Result<(), AllocError>
    ensures { OnOk result (to_come into.new.items ≡ spreads_within within (set_tree selections.now) ++ to_come into.old.items) }
{
    work.take(selections.len())?;
    for at in (0..selections.len()).rev() {
        add_spreads_of(work, &selections[at], within, into)?;
    }
    Ok(())
}

#[cycle(spreads)]
fn add_spreads_of<'a>(
    work: Work<'_>,
    selection: &'a Selection,
    within: Option<usize>,
    into: &mut Vec<Spread<'a>>,
) -> Result<(), AllocError>
    ensures { OnOk result (to_come into.new.items ≡ spreads_within_one within (selection_tree selection.now) ++ to_come into.old.items) }
{
    match selection {
        Selection::Field(field) => add_spreads(work, field.selections.as_slice(), within, into),
        Selection::Spread { name, .. } => {
            into.push(Spread {
                name: name.text.as_str(),
                within,
            })?;
            Ok(())
        }
        Selection::Inline { selections, .. } => add_spreads(
            work,
            selections.as_slice(),
            within,
            into,
        ),
    }
}

/// So many places without a mark.
fn blanks(alloc: Global, count: usize) -> Result<Vec<bool>, AllocError>
    ensures { IfOk result (λ marks. marks.items ≡ replicate count false) }
{
    let mut marks = Vec::new(alloc);
    for _at in 0..count {
        marks.push(false)?;
    }
    Ok(marks)
}

fn mark(marks: &mut Vec<bool>, at: usize)
    requires { at < length marks.old.items }
    ensures { marks.new.items ≡ slice_set marks.old.items at true }
{
    marks[at] = true;
}

/// A fragment that wasn't met is met, and its spreads are to be looked at before the others.
fn enter<'a>(
    work: Work<'_>,
    fragments: &Indexed<Defined<'a>>,
    one: Met,
    met: &mut Vec<Met>,
    seen: &mut Vec<bool>,
    spreads: &mut Vec<Spread<'a>>,
) -> Result<(), AllocError>
    requires seen { AreSeen (map defined_data fragments.now.items.items) met.old.items seen.old.items }
    requires there { one.number < length fragments.now.items.items }
    requires unmet { is_met (map met_data met.old.items) one.number ≡ false }
    ensures seen { OnOk result (AreSeen (map defined_data fragments.now.items.items) met.new.items seen.new.items) }
    ensures left { OnOk result (KeepsToCome fragments.now.items.items seen.old.items spreads.old.items seen.new.items spreads.new.items) }
    ensures met { OnOk result (map met_data met.new.items ≡ map met_data met.old.items ++ (met_data one ∷ [])) }
    ensures spreads { OnOk result (SpreadsBefore fragments.now.items.items (length met.old.items) one.number spreads.old.items spreads.new.items) }
{
    let place = met.len();
    met.push(one)?;
    mark(seen, one.number);
    match fragment_of(fragments.items(), one.number) {
        Some(fragment) => add_spreads(work, fragment.selections.as_slice(), Some(place), spreads),
        None => Ok(()),
    }
}

/// The walk comes to a fragment, which it enters where it wasn't met.
fn come_to<'a>(
    work: Work<'_>,
    fragments: &Indexed<Defined<'a>>,
    one: Met,
    met: &mut Vec<Met>,
    seen: &mut Vec<bool>,
    spreads: &mut Vec<Spread<'a>>,
) -> Result<(), AllocError>
    requires seen { AreSeen (map defined_data fragments.now.items.items) met.old.items seen.old.items }
    requires there { one.number < length fragments.now.items.items }
    ensures seen { OnOk result (AreSeen (map defined_data fragments.now.items.items) met.new.items seen.new.items) }
    ensures left { OnOk result (KeepsToCome fragments.now.items.items seen.old.items spreads.old.items seen.new.items spreads.new.items) }
    ensures goes { OnOk result (EntersOrPasses fragments.now.items.items met.old.items one spreads.old.items met.new.items spreads.new.items) }
{
    if seen[one.number] {
        return Ok(());
    }
    enter(work, fragments, one, met, seen, spreads)
}

/// One step of the walk: a spread is passed over, or its fragment is entered.
fn look_at<'a>(
    work: Work<'_>,
    fragments: &Indexed<Defined<'a>>,
    spread: Spread<'a>,
    met: &mut Vec<Met>,
    seen: &mut Vec<bool>,
    spreads: &mut Vec<Spread<'a>>,
) -> Result<(), AllocError>
    requires { AreSeen (map defined_data fragments.now.items.items) met.old.items seen.old.items }
    ensures seen { OnOk result (AreSeen (map defined_data fragments.now.items.items) met.new.items seen.new.items) }
    ensures left { OnOk result (KeepsToCome fragments.now.items.items seen.old.items spreads.old.items seen.new.items spreads.new.items) }
    ensures goes { OnOk result (FollowsSpread fragments.now.items.items met.old.items spread.entry spreads.old.items met.new.items spreads.new.items) }
{
    work.take(steps_of_text(spread.name.len()))?;
    match fragment_number(fragments, spread.name) {
        Some(number) => {
            let one = Met {
                number,
                within: spread.within,
            };
            come_to(work, fragments, one, met, seen, spreads)
        }
        None => Ok(()),
    }
}

/// The fragments that selections reach, in the order in which they are first met. It fails for want of memory alone.
pub fn reach<'a>(
    alloc: Global,
    work: Work<'_>,
    fragments: &Indexed<Defined<'a>>,
    below: &'a [Selection],
) -> Result<Vec<Met>, AllocError>
    ensures { IfOk result (λ met. map met_data met.items ≡ reached (map defined_data fragments.now.items.items) (set_tree below.now)) }
{
    let mut met = Vec::new(alloc);
    let mut seen = blanks(alloc, fragments.items().len())?;
    let mut spreads = Vec::new(alloc);
    add_spreads(work, below, None, &mut spreads)?;
    while let Some(spread) = spreads.pop() {
        look_at(work, fragments, spread, &mut met, &mut seen, &mut spreads)?;
    }
    Ok(met)
}

/// A fragment, if there is one, behind others.
fn add_fragment<'a>(
    fragment: Option<&'a Fragment>,
    into: &mut Vec<&'a Fragment>,
) -> Result<(), AllocError>
    ensures { OnOk result (map (λ f. f.now) into.new.items ≡ map (λ f. f.now) into.old.items ++ before_reached (option_map (λ f. f.now) fragment.entry) []) }
{
    if let Some(fragment) = fragment {
        into.push(fragment)?;
    }
    Ok(())
}

/// The fragments of these numbers.
pub fn fragments_met<'a>(
    alloc: Global,
    defined: &[Defined<'a>],
    met: &[Met],
) -> Result<Vec<&'a Fragment>, AllocError>
    ensures { IfOk result (λ fragments. map (λ f. f.now) fragments.items ≡ fragments_met (map defined_fragment defined.now) (map met_data met.now)) }
{
    let mut fragments = Vec::new(alloc);
    for one in met {
        add_fragment(fragment_of(defined, one.number), &mut fragments)?;
    }
    Ok(fragments)
}
