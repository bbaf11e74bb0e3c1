//! Kinds of types of objects. Types to which the same conditions of an operation apply have the same fields wherever they are
//! collected, so one of them stands for the others.

ghost use Rattle.std.specs.Prelude.{◌≡◌, true, map, option_map, IfOk, OnOk, IsTrue};
ghost use Rattle.schema_model.specs.Numbers.{type_number};
ghost use Rattle.schema_model.specs.SchemaViews.{schema_data};
ghost use Rattle.collected_fields.specs.declared.tables.Tables.{Tables as TablesData};
ghost use Rattle.collected_fields.specs.Steps.{step_data};
ghost use Rattle.collected_fields.specs.Prepared.{list_data, entry_data};
ghost use Rattle.collected_fields.specs.Kinds.{AreAlike, AddsCondition, AddsStep, AddsSteps, AddsLists, AddsEntry, AddsEntries, AreOfOneKind, Covers, KnowsKinds, stand_in_of, KeepsStandIn, FindsStandIn};

use crate::reach::is_among;
use crate::steps::Step;
use crate::tables::{Entry, SelectionList, Tables};
use counted_work::Work;
use input_values::TypeId;
use schema_model::Schema;
use std::alloc::{AllocError, Global};
use std::collections::BTreeMap;
use std::hash::{FoldHasher, Hasher};

/// Kinds are looked for once so many steps were walked.
const LONG: usize = 1000;

/// Which types of objects are of one kind, as far as it was found.
#[derive(Drop)]
pub struct Kinds {
    /// The types on which the conditions of the operation are, each once, where they were looked for.
    conditions: Vec<TypeId>,
    begun: bool,
    /// By the numbers of types those that stand for them.
    stand_ins: Vec<Option<TypeId>>,
    /// By hashes of the conditions that apply to them, types that stand for others. Nothing rests on the hashes.
    firsts: BTreeMap<u64, TypeId>,
    /// How many steps were taken for it, of those that were walked.
    spent: usize,
}

/// Adds a condition, where it isn't there.
fn add(work: Work<'_>, conditions: &mut Vec<TypeId>, on: TypeId) -> Result<(), AllocError>
    ensures { OnOk result (AddsCondition conditions.old.items conditions.new.items on.number) }
{
    work.take(conditions.len())?;
    if is_among(on, conditions.as_slice()) {
        return Ok(());
    }
    conditions.push(on)?;
    Ok(())
}

/// Adds the condition of a step, if it has one.
fn add_step(work: Work<'_>, conditions: &mut Vec<TypeId>, step: &Step<'_>) -> Result<(), AllocError>
    ensures { OnOk result (AddsStep conditions.old.items conditions.new.items (step_data step.now)) }
{
    match step {
        Step::Field(_) => Ok(()),
        Step::Spread(_) => Ok(()),
        Step::Inline { on, count: _ } => add(work, conditions, *on),
    }
}

/// Adds the conditions of steps.
fn add_steps(
    work: Work<'_>,
    conditions: &mut Vec<TypeId>,
    steps: &[Step<'_>],
) -> Result<(), AllocError>
    ensures { OnOk result (AddsSteps conditions.old.items conditions.new.items (map step_data steps.now)) }
{
    work.take(steps.len())?;
    for step in steps {
        add_step(work, conditions, step)?;
    }
    Ok(())
}

/// Adds those of a selection set.
fn add_list(
    work: Work<'_>,
    conditions: &mut Vec<TypeId>,
    list: &SelectionList<'_>,
) -> Result<(), AllocError>
    ensures { OnOk result (AddsSteps conditions.old.items conditions.new.items (list_data list.now).steps) }
{
    add_steps(work, conditions, list.steps.as_slice())
}

/// Adds those of selection sets.
fn add_lists(
    work: Work<'_>,
    conditions: &mut Vec<TypeId>,
    lists: &[SelectionList<'_>],
) -> Result<(), AllocError>
    ensures { OnOk result (AddsLists conditions.old.items conditions.new.items (map list_data lists.now)) }
{
    work.take(lists.len())?;
    for list in lists {
        add_list(work, conditions, list)?;
    }
    Ok(())
}

/// Adds that of a fragment, where its type is there.
fn add_entry(work: Work<'_>, conditions: &mut Vec<TypeId>, entry: &Entry) -> Result<(), AllocError>
    ensures { OnOk result (AddsEntry conditions.old.items conditions.new.items (entry_data entry.now)) }
{
    match entry.on {
        Some(on) => add(work, conditions, on),
        None => Ok(()),
    }
}

/// Adds those of fragments.
fn add_entries(
    work: Work<'_>,
    conditions: &mut Vec<TypeId>,
    entries: &[Entry],
) -> Result<(), AllocError>
    ensures { OnOk result (AddsEntries conditions.old.items conditions.new.items (map entry_data entries.now)) }
{
    work.take(entries.len())?;
    for entry in entries {
        add_entry(work, conditions, entry)?;
    }
    Ok(())
}

/// The conditions of an operation, each once.
fn conditions_of(alloc: Global, tables: &Tables<'_>) -> Result<Vec<TypeId>, AllocError>
    ensures { IfOk result (λ conditions. Covers tables.now conditions.items) }
{
    let mut conditions = Vec::new(alloc);
    let lists = tables.lists.as_slice();
    let entries = tables.entries.as_slice();
    let work = tables.planning.work;
    add_lists(work, &mut conditions, lists)?;
    add_entries(work, &mut conditions, entries)?;
    Ok(conditions)
}

/// Whether each of some conditions applies to both types, or to neither.
fn are_alike(schema: &Schema, conditions: &[TypeId], one: TypeId, other: TypeId) -> bool
    ensures { IsTrue result → AreAlike (schema_data schema.now) one.number other.number (map type_number conditions.now) }
{
    for condition in conditions {
        if schema.applies(*condition, one) != schema.applies(*condition, other) {
            return false;
        }
    }
    true
}

/// A hash of the conditions that apply to a type.
fn hash_of(schema: &Schema, conditions: &[TypeId], of: TypeId) -> u64 {
    let mut hasher = FoldHasher::default();
    for condition in conditions {
        if schema.applies(*condition, of) {
            hasher.write_usize(condition.number);
        }
    }
    hasher.finish()
}

impl Kinds {
    /// Nothing was found yet.
    pub fn new(alloc: Global) -> Kinds
        ensures { (t : TablesData) → KnowsKinds t result }
    {
        let stand_ins = Vec::new(alloc);
        Kinds {
            conditions: Vec::new(alloc),
            begun: false,
            stand_ins,
            firsts: BTreeMap::new(alloc),
            spent: 0,
        }
    }

    /// The type that stands for a type, where it was found.
    fn stand_in(&self, of: TypeId) -> Option<TypeId>
        ensures { option_map type_number result ≡ stand_in_of self.now of.number }
    {
        match self.stand_ins.get(of.number) {
            Some(found) => *found,
            None => None,
        }
    }

    /// Keeps the type that stands for a type.
    fn keep(&mut self, of: TypeId, kind: TypeId) -> Result<(), AllocError>
        ensures conditions { self.new.conditions ≡ self.old.conditions }
        ensures begun { self.new.begun ≡ self.old.begun }
        ensures keeps { KeepsStandIn self.old self.new of.number kind.number }
    {
        while self.stand_ins.len() <= of.number {
            self.stand_ins.push(None)?;
        }
        self.stand_ins[of.number] = Some(kind);
        Ok(())
    }

    /// A type of this hash that was found before and is of the same kind, or the type itself.
    fn first_of(&self, schema: &Schema, hash: u64, of: TypeId) -> TypeId
        ensures { AreAlike (schema_data schema.now) of.number result.number (map type_number self.now.conditions.items) }
    {
        match self.firsts.get(&hash).copied() {
            Some(first) => {
                if are_alike(schema, self.conditions.as_slice(), of, first) {
                    first
                } else {
                    of
                }
            }
            None => of,
        }
    }

    /// Finds the type that stands for a type, and keeps it.
    fn find(&mut self, schema: &Schema, of: TypeId) -> Result<TypeId, AllocError>
        ensures conditions { self.new.conditions ≡ self.old.conditions }
        ensures begun { self.new.begun ≡ self.old.begun }
        ensures keeps { FindsStandIn (schema_data schema.now) self.old self.new of.number }
        ensures kind { IfOk result (λ kind. AreAlike (schema_data schema.now) of.number kind.number (map type_number self.old.conditions.items)) }
    {
        let hash = hash_of(schema, self.conditions.as_slice(), of);
        let kind = self.first_of(schema, hash, of);
        self.firsts.insert(hash, kind)?;
        self.keep(of, kind)?;
        Ok(kind)
    }

    /// Looks for the conditions, where that wasn't done yet.
    fn begin(&mut self, alloc: Global, tables: &Tables<'_>) -> Result<(), AllocError>
        ensures still { KnowsKinds tables.now self.old → KnowsKinds tables.now self.new }
        ensures begun { OnOk result (self.new.begun ≡ true) }
    {
        if self.begun {
            return Ok(());
        }
        let conditions = conditions_of(alloc, tables)?;
        self.conditions = conditions;
        self.begun = true;
        Ok(())
    }

    /// Whether finding one more takes no more steps than those that were walked.
    fn may_find(&mut self, walked: usize) -> bool
        ensures conditions { self.new.conditions ≡ self.old.conditions }
        ensures begun { self.new.begun ≡ self.old.begun }
        ensures stand_ins { self.new.stand_ins ≡ self.old.stand_ins }
    {
        let spent = self.spent.saturating_add(self.conditions.len());
        if spent > walked {
            return false;
        }
        self.spent = spent;
        true
    }

    /// A type of the same kind, which stands for it from the time it was found. So many steps were walked by then.
    pub fn kind_of(
        &mut self,
        alloc: Global,
        tables: &Tables<'_>,
        walked: usize,
        of: TypeId,
    ) -> Result<TypeId, AllocError>
        ensures still { KnowsKinds tables.now self.old → KnowsKinds tables.now self.new }
        ensures kind { IfOk result (λ kind. KnowsKinds tables.now self.old → AreOfOneKind tables.now of.number kind.number) }
    {
        if let Some(kind) = self.stand_in(of) {
            return Ok(kind);
        }
        if walked < LONG {
            return Ok(of);
        }
        self.begin(alloc, tables)?;
        if !self.may_find(walked) {
            return Ok(of);
        }
        let places = of.number.saturating_sub(self.stand_ins.len());
        tables
            .planning
            .work
            .take(self.conditions.len().saturating_add(places))?;
        self.find(tables.planning.schema, of)
    }
}
