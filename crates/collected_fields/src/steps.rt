//! The steps of a walk over a selection set.

ghost use Rattle.std.specs.Prelude.{◌≡◌, ◌↔◌, [], ◌∷◌, ◌++◌, map, length, None, OnOk, IsTrue, option_map};
ghost use Rattle.schema_model.specs.Numbers.{type_number};
ghost use Rattle.collected_fields.specs.Steps.{step_data, field_step, spread_step, inline_step, Stands, IsLeaf};
ghost use Rattle.collected_fields.specs.Drafts.{Knows};
ghost use Rattle.collected_fields.specs.Views.{written_field};

use crate::collected::Collected;
use document_reader::Field;
use input_values::TypeId;
use std::alloc::{AllocError, Global};
use std::collections::BTreeMap;

/// One step.
#[derive(Clone, Copy)]
pub enum Step<'a> {
    Field(Collected<'a>),
    /// The fragment of a number.
    Spread(usize),
    /// So many of the next steps are for objects alone to which a type applies.
    Inline { on: TypeId, count: usize },
}

/// The steps of selections that are written on a type, and the first of their leaves under each response key.
#[derive(Drop)]
pub struct Draft<'a> {
    pub parent: Option<TypeId>,
    pub steps: Vec<Step<'a>>,
    pub leaves: BTreeMap<&'a str, &'a Field>,
}

/// The response key of a field.
pub fn key_of<'a>(field: &'a Field) -> &'a str
    ensures { result.now ≡ (written_field None field.now).key }
{
    match &field.alias {
        Some(alias) => alias.text.as_str(),
        None => field.name.text.as_str(),
    }
}

/// Whether a field has neither arguments nor selections.
fn is_leaf(field: &Field) -> bool
    ensures { IsTrue result ↔ IsLeaf field.now }
{
    field.arguments.is_empty() && field.selections.is_empty()
}

impl<'a> Draft<'a> {
    pub fn new(alloc: Global, parent: Option<TypeId>) -> Draft<'a>
        ensures leaves { Knows result }
        ensures parent { result.parent ≡ parent }
        ensures steps { result.steps.items ≡ [] }
    {
        Draft {
            parent,
            steps: Vec::new(alloc),
            leaves: BTreeMap::new(alloc),
        }
    }

    /// Whether a leaf that is equal to a field stands among the steps. Some of them may not be known.
    pub fn repeats(&self, field: &Field) -> bool
        ensures { IsTrue result → Knows self.now → Stands (map step_data self.now.steps.items) (written_field (option_map type_number self.now.parent) field.now) }
    {
        match self.leaves.get(key_of(field)) {
            Some(leaf) => is_leaf(field) && leaf.name.text == field.name.text,
            None => false,
        }
    }

    /// Puts a field behind the steps, with the number of what stands below it and the hash of its arguments.
    pub fn keep(&mut self, field: &'a Field, below: usize, written: u64) -> Result<(), AllocError>
        ensures parent { self.new.parent ≡ self.old.parent }
        ensures leaves { OnOk result (Knows self.old → Knows self.new) }
        ensures steps { OnOk result (map step_data self.new.steps.items ≡ map step_data self.old.steps.items ++ (field_step (written_field (option_map type_number self.old.parent) field.now) below ∷ [])) }
    {
        self.steps.push(Step::Field(Collected {
            parent: self.parent,
            field,
            below,
            written,
        }))?;
        if is_leaf(field) && !self.leaves.contains_key(key_of(field)) {
            self.leaves.insert(key_of(field), field)?;
        }
        Ok(())
    }

    /// Puts a fragment behind the steps.
    pub fn spread(&mut self, number: usize) -> Result<(), AllocError>
        ensures parent { self.new.parent ≡ self.old.parent }
        ensures leaves { self.new.leaves ≡ self.old.leaves }
        ensures steps { OnOk result (map step_data self.new.steps.items ≡ map step_data self.old.steps.items ++ (spread_step number ∷ [])) }
    {
        self.steps.push(Step::Spread(number))?;
        Ok(())
    }

    /// Puts steps behind the others.
    pub fn append(&mut self, steps: &[Step<'a>]) -> Result<(), AllocError>
        ensures parent { self.new.parent ≡ self.old.parent }
        ensures leaves { self.new.leaves ≡ self.old.leaves }
        ensures steps { OnOk result (map step_data self.new.steps.items ≡ map step_data self.old.steps.items ++ map step_data steps.now) }
    {
        for step in steps {
            self.steps.push(*step)?;
        }
        Ok(())
    }

    /// Puts steps behind the others that are for objects alone to which a type applies.
    pub fn append_on(&mut self, on: TypeId, steps: &[Step<'a>]) -> Result<(), AllocError>
        ensures parent { self.new.parent ≡ self.old.parent }
        ensures leaves { self.new.leaves ≡ self.old.leaves }
        ensures steps { OnOk result (map step_data self.new.steps.items ≡ map step_data self.old.steps.items ++ (inline_step on.number (length steps.now) ∷ map step_data steps.now)) }
    {
        self.steps.push(Step::Inline {
            on,
            count: steps.len(),
        })?;
        self.append(steps)
    }
}
