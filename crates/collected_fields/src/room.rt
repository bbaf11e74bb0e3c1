//! How long types are told apart, and of how many selection sets. Nothing but time and memory rests on it.

ghost use Rattle.std.specs.Prelude.{ℕ, OnOk};
ghost use Rattle.schema_model.specs.SchemaViews.{schema_data};
ghost use Rattle.collected_fields.specs.Reached.{reaches, Misses, MissesMore, MissesWhere};

use crate::reach::Reach;
use counted_work::Work;
use input_values::TypeId;
use schema_model::Schema;
use std::alloc::AllocError;

/// So many steps are taken for types that are marked.
const STEPS: usize = 200000000;

/// So many marks that are joined are one step of what a request may take.
const MARKS_IN_A_STEP: usize = 8;

/// So many marks are kept.
const MARKS: usize = 64000000;

/// What is left of both.
#[derive(Drop)]
pub struct Room {
    steps: usize,
    marks: usize,
}

impl Room {
    pub(crate) fn new() -> Room {
        Room {
            steps: STEPS,
            marks: MARKS,
        }
    }

    /// Whether so many steps are left, which are taken then.
    fn takes(&mut self, steps: usize) -> bool {
        if self.steps < steps {
            return false;
        }
        self.steps -= steps;
        true
    }

    /// Adds the types of another, or all where no steps are left for it.
    pub(crate) fn join(
        &mut self,
        work: Work<'_>,
        reach: &mut Reach,
        other: &Reach,
    ) -> Result<(), AllocError>
        ensures { OnOk result (MissesMore reach.old reach.new (reaches other.now)) }
    {
        work.take(other.listed().saturating_add(1))?;
        work.take(other.steps() / MARKS_IN_A_STEP)?;
        if !self.takes(other.steps()) {
            reach.widen();
            return Ok(());
        }
        reach.join(other)
    }

    /// The same with those to which a condition applies.
    pub(crate) fn join_where(
        &mut self,
        work: Work<'_>,
        reach: &mut Reach,
        schema: &Schema,
        on: TypeId,
        other: &Reach,
    ) -> Result<(), AllocError>
        ensures { OnOk result (MissesWhere (schema_data schema.now) on.number reach.old reach.new other.now) }
    {
        work.take(other.listed().saturating_add(1))?;
        work.take(other.steps_where(schema, on))?;
        if !self.takes(other.steps_where(schema, on)) {
            reach.widen();
            return Ok(());
        }
        let before = reach.steps();
        reach.join_where(schema, on, other)?;
        work.take(reach.steps().saturating_sub(before) / MARKS_IN_A_STEP)
    }

    /// Takes all types in the place of many, where no room is left to keep them.
    pub(crate) fn fit(&mut self, reach: &mut Reach)
        ensures { (T : ℕ) → Misses reach.new T → Misses reach.old T }
    {
        let marks = reach.steps();
        if self.marks < marks {
            reach.widen();
            return;
        }
        self.marks -= marks;
    }
}
