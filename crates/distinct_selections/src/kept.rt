//! The selections of a set that are kept.

ghost use Rattle.std.specs.Prelude.{◌≡◌, ◌∷◌, ◌++◌, [], IsTrue, OnOk, map};
ghost use Rattle.document_reader.specs.Trees.{selection_tree};
ghost use Rattle.distinct_selections.specs.Adding.{IsRepeated, KeepsOne};

use crate::alike::alike;
use counted_work::Work;
use document_reader::Selection;
use std::alloc::{AllocError, Global};
use std::collections::BTreeMap;

/// The selections that are kept, with their numbers, and for each number the place of the first.
#[derive(Drop)]
pub struct Kept {
    pub selections: Vec<Selection>,
    pub numbers: Vec<usize>,
    places: BTreeMap<usize, usize>,
}

/// Whether the selection at a place is written as this one.
fn is_alike_at(
    work: Work<'_>,
    selections: &[Selection],
    place: usize,
    selection: &Selection,
) -> bool
    ensures { IsTrue result → IsRepeated (selection_tree selection.now) (map selection_tree selections.now) }
{
    if place < selections.len() {
        alike(work, selection, &selections[place])
    } else {
        false
    }
}

impl Kept {
    pub fn new(alloc: Global) -> Kept
        ensures { result.selections.items ≡ [] }
    {
        Kept {
            selections: Vec::new(alloc),
            numbers: Vec::new(alloc),
            places: BTreeMap::new(alloc),
        }
    }

    /// Whether one of the selections is written as this one of a number. Some of them may not be known.
    fn repeats(&self, work: Work<'_>, number: usize, selection: &Selection) -> bool
        ensures { IsTrue result → IsRepeated (selection_tree selection.now) (map selection_tree self.now.selections.items) }
    {
        match self.places.get(&number).copied() {
            Some(place) => is_alike_at(work, self.selections.as_slice(), place, selection),
            None => false,
        }
    }

    /// Puts a selection of a number behind the others.
    fn push(&mut self, number: usize, selection: Selection) -> Result<(), AllocError>
        ensures { OnOk result (self.new.selections.items ≡ self.old.selections.items ++ (selection ∷ [])) }
    {
        self.places.insert(number, self.numbers.len())?;
        self.numbers.push(number)?;
        self.selections.push(selection)?;
        Ok(())
    }

    /// Keeps a selection of a number, where none that is kept is written as it is.
    pub fn keep(
        &mut self,
        work: Work<'_>,
        number: usize,
        selection: Selection,
    ) -> Result<(), AllocError>
        ensures { OnOk result (KeepsOne (selection_tree selection) (map selection_tree self.old.selections.items) (map selection_tree self.new.selections.items)) }
    {
        if self.repeats(work, number, &selection) {
            return Ok(());
        }
        self.push(number, selection)
    }
}
