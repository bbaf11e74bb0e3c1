//! Selections without directives that are written alike, but for where they stand.

ghost use Rattle.std.specs.Prelude.{◌≡◌, List, IsTrue, map};
ghost use Rattle.gql_base.specs.parts.Arguments.{DirectiveTree};
ghost use Rattle.gql_base.specs.parts.Trees.{identifier_of, named_value};
ghost use Rattle.document_reader.specs.Documents.{fragment_spread, inline_fragment};
ghost use Rattle.document_reader.specs.Trees.{names_of, maybe_identifier, selection_tree, field_tree, set_tree};
ghost use Rattle.plan_model.specs.GivenAlike.{AreGivenAlike};
ghost use Rattle.plan_model.specs.Shortening.{AreSameNames, IsSameType};
ghost use Rattle.distinct_selections.specs.Alike.{IsAlike, AreAlike};

use crate::written::{alike_arguments, same_text, same_words};
use counted_work::Work;
use document_reader::{Field, Selection};
use gql_base::{Directive, Name};

/// The response key of a field.
fn key_of(field: &Field) -> &str
    ensures { result.now ≡ (names_of field.now.alias field.now.name).0.0 }
{
    match &field.alias {
        Some(alias) => alias.text.as_str(),
        None => field.name.text.as_str(),
    }
}

fn same_type(work: Work<'_>, on: &Option<Name>, other: &Option<Name>) -> bool
    ensures { IsTrue result → IsSameType (maybe_identifier on.now) (maybe_identifier other.now) }
{
    match on {
        Some(on) => match other {
            Some(other) => same_text(work, &on.text, &other.text),
            None => false,
        },
        None => match other {
            Some(_) => false,
            None => true,
        },
    }
}

/// Whether a selection is written as another one, without directives. It isn't said to be where no step is left.
#[cycle(alike)]
#[tactic(auto, using(crate::proofs::Opened::selection_parts))]
pub fn alike(work: Work<'_>, selection: &Selection, other: &Selection) -> bool
    ensures { IsTrue result → IsAlike (selection_tree selection.now) (selection_tree other.now) }
{
    if work.take(1).is_err() {
        return false;
    }
    match selection {
        Selection::Field(field) => alike_field(work, field, other),
        Selection::Spread { name, .. } => alike_spread(work, name, other),
        Selection::Inline { on, selections, .. } => alike_inline(
            work,
            on,
            selections.as_slice(),
            other,
        ),
    }
}

#[cycle(alike)]
#[tactic(auto, using(crate::proofs::Opened::selection_parts))]
fn alike_field(work: Work<'_>, field: &Field, selection: &Selection) -> bool
    ensures { IsTrue result → IsAlike (field_tree field.now) (selection_tree selection.now) }
{
    match selection {
        Selection::Field(other) => alike_fields(work, field, other),
        Selection::Spread { .. } => false,
        Selection::Inline { .. } => false,
    }
}

fn same_names(work: Work<'_>, field: &Field, other: &Field) -> bool
    ensures { IsTrue result → AreSameNames (names_of field.now.alias field.now.name) (names_of other.now.alias other.now.name) }
{
    same_words(work, key_of(field), key_of(other))
        && same_text(work, &field.name.text, &other.name.text)
}

fn alike_calls(work: Work<'_>, field: &Field, other: &Field) -> bool
    ensures names { IsTrue result → AreSameNames (names_of field.now.alias field.now.name) (names_of other.now.alias other.now.name) }
    ensures given { IsTrue result → AreGivenAlike (map named_value field.now.arguments.items) (map named_value other.now.arguments.items) }
{
    if same_names(work, field, other) {
        alike_arguments(work, field.arguments.as_slice(), other.arguments.as_slice())
    } else {
        false
    }
}

#[cycle(alike)]
#[tactic(auto, using(crate::proofs::Opened::selection_parts))]
fn alike_fields(work: Work<'_>, field: &Field, other: &Field) -> bool
    ensures { IsTrue result → IsAlike (field_tree field.now) (field_tree other.now) }
{
    if other.directives.is_empty() && alike_calls(work, field, other) {
        alike_sets(
            work,
            field.selections.as_slice(),
            other.selections.as_slice(),
        )
    } else {
        false
    }
}

#[tactic(auto, using(crate::proofs::Opened::selection_parts))]
fn alike_spread(work: Work<'_>, name: &Name, selection: &Selection) -> bool
    ensures { IsTrue result → (directives : List DirectiveTree) → IsAlike (fragment_spread (identifier_of name.now) directives) (selection_tree selection.now) }
{
    match selection {
        Selection::Spread {
            name: other,
            directives,
        } => directives.is_empty() && same_text(work, &name.text, &other.text),
        Selection::Field(_) => false,
        Selection::Inline { .. } => false,
    }
}

#[cycle(alike)]
#[tactic(auto, using(crate::proofs::Opened::selection_parts))]
fn alike_inline(
    work: Work<'_>,
    on: &Option<Name>,
    selections: &[Selection],
    selection: &Selection,
) -> bool
    ensures { IsTrue result → (directives : List DirectiveTree) → IsAlike (inline_fragment (maybe_identifier on.now) directives (set_tree selections.now)) (selection_tree selection.now) }
{
    match selection {
        Selection::Inline {
            on: other,
            directives,
            selections: others,
        } => {
            if directives.is_empty() && same_type(work, on, other) {
                alike_sets(work, selections, others.as_slice())
            } else {
                false
            }
        }
        Selection::Field(_) => false,
        Selection::Spread { .. } => false,
    }
}

#[cycle(alike)]
fn alike_sets(work: Work<'_>, selections: &[Selection], others: &[Selection]) -> bool
    ensures { IsTrue result → AreAlike (set_tree selections.now) (set_tree others.now) }
{
    let mut at = 0;
    'set: while at < selections.len() && at < others.len() {
        if !alike(work, &selections[at], &others[at]) {
            return false;
        }
        at += 1;
    }
    selections.len() == others.len()
}
