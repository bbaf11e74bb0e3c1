//! Whether an operation has few selections. Nothing but time rests on it.

use document_reader::{Fragment, Selection};

/// Operations with fewer selections are planned as they are: to copy them would take longer than their repeats do.
const FEW: usize = 100;

/// How many of so many are left when these selections and all below them are counted.
#[cycle(count)]
fn left_of(selections: &[Selection], many: usize) -> usize {
    let mut left = many;
    'counted: for selection in selections {
        if left == 0 {
            return 0;
        }
        left = left_behind(selection, left - 1);
    }
    left
}

#[cycle(count)]
fn left_behind(selection: &Selection, many: usize) -> usize {
    match selection {
        Selection::Field(field) => left_of(field.selections.as_slice(), many),
        Selection::Spread { .. } => many,
        Selection::Inline { selections, .. } => left_of(selections.as_slice(), many),
    }
}

/// Whether the selections of an operation and of the fragments that it reaches are few.
pub(crate) fn are_few(selections: &[Selection], fragments: &[&Fragment]) -> bool {
    let mut left = left_of(selections, FEW);
    for fragment in fragments {
        left = left_of(fragment.selections.as_slice(), left);
    }
    left > 0
}
