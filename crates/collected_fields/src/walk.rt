//! The walk over selection sets, where each fragment is entered once. Its spreads and conditions are counted here; the numbers it begins with
//! and the fields that it finds are counted by who asks for it.

ghost use Rattle.std.specs.Prelude.{◌≡◌, ◌∷◌, [], ◌<◌, ◌≤◌, ◌+◌, ◌-◌, ℕ, false, true, map, length, replicate, slice_get, slice_set, nat_eq, IfOk, OnOk, get_or, option_map, if◌then◌else◌};
ghost use Rattle.std.specs.List.{list_any};
ghost use Rattle.schema_model.specs.Numbers.{type_number};
ghost use Rattle.schema_model.specs.SchemaViews.{schema_data};
ghost use Rattle.plan_model.specs.Collecting.{applies_where};
ghost use Rattle.collected_fields.specs.Steps.{step_data};
ghost use Rattle.collected_fields.specs.Prepared.{list_data, entry_data};
ghost use Rattle.collected_fields.specs.Lists.{sets_in_joins};
ghost use Rattle.collected_fields.specs.Reached.{found_of, is_missed};
ghost use Rattle.collected_fields.specs.Walks.{walk_data, numbered, is_marked, marked, kept, taken, IsBlank, TakesStep, steps_from, list_steps, enter_in, entry_in, sets_in, known_in, numbers_in};

use crate::collected::Collected;
use crate::findings::Findings;
use crate::joins::Joins;
use crate::met::SHORT;
use crate::reaching::Reaches;
use crate::state::Walk;
use crate::steps::Step;
use crate::tables::{Entry, Tables};
use input_values::TypeId;
use schema_model::Schema;
use std::alloc::{AllocError, Global};

/// So many places without a mark.
pub fn blanks(alloc: Global, count: usize) -> Result<Vec<bool>, AllocError>
    ensures { IfOk result (λ marks. marks.items ≡ replicate count false) }
{
    let mut marks = Vec::new(alloc);
    for _at in 0..count {
        marks.push(false)?;
    }
    Ok(marks)
}

/// Sets a mark, if there is such a place.
pub fn set_mark(marks: &mut Vec<bool>, number: usize, mark: bool)
    ensures { marks.new.items ≡ slice_set marks.old.items number mark }
{
    if number < marks.len() {
        marks[number] = mark;
    }
}

/// Takes the marks away from all that was entered.
fn unmark(marks: &mut Vec<bool>, entered: &mut Vec<usize>)
    requires { (number : ℕ) → get_or marks.old.items number false ≡ true → list_any (nat_eq number) entered.old.items ≡ true }
    ensures marks { (number : ℕ) → get_or marks.new.items number false ≡ false }
{
    while let Some(number) = entered.pop() {
        set_mark(marks, number, false);
    }
}

impl<'a> Walk<'a> {
    /// A walk that hasn't begun, beside so many fragments.
    pub fn new(alloc: Global, count: usize) -> Result<Walk<'a>, AllocError>
        ensures places { IfOk result (λ walk. length walk.marks.items ≡ count) }
        ensures blank { IfOk result (λ walk. IsBlank (walk_data walk)) }
    {
        Ok(Walk {
            marks: blanks(alloc, count)?,
            entered: Vec::new(alloc),
            fields: Vec::new(alloc),
            steps: 0,
            long: Vec::new(alloc),
            left: 0,
        })
    }

    /// Begins anew.
    pub fn clear(&mut self)
        ensures { IsBlank (walk_data self.new) }
    {
        unmark(&mut self.marks, &mut self.entered);
        self.fields.clear();
        self.steps = 0;
        self.long.clear();
        self.left = 0;
    }

    fn is_marked(&self, number: usize) -> bool
        ensures { result ≡ is_marked number (walk_data self.now) }
    {
        match self.marks.get(number) {
            Some(mark) => *mark,
            None => false,
        }
    }

    fn mark(&mut self, number: usize) -> Result<(), AllocError>
        ensures { OnOk result (walk_data self.new ≡ marked number (walk_data self.old)) }
    {
        self.entered.push(number)?;
        set_mark(&mut self.marks, number, true);
        Ok(())
    }

    fn keep(&mut self, field: Collected<'a>) -> Result<(), AllocError>
        ensures { OnOk result (walk_data self.new ≡ kept (numbered field.entry) (walk_data self.old)) }
    {
        self.fields.push(field)?;
        Ok(())
    }

    /// Takes fields that are kept.
    fn take(&mut self, fields: &[Collected<'a>]) -> Result<(), AllocError>
        ensures { OnOk result (walk_data self.new ≡ taken (map numbered fields.now) (walk_data self.old)) }
    {
        for field in fields {
            self.keep(*field)?;
        }
        Ok(())
    }

    /// Counts steps.
    fn count(&mut self, steps: usize)
        ensures { walk_data self.new ≡ walk_data self.old }
    {
        self.steps = self.steps.wrapping_add(steps);
        self.left = self.left.wrapping_add(steps);
    }

    /// Notes a fragment that took many steps, where so many were in none that was noted before it was entered.
    fn note(&mut self, number: usize, before: usize) -> Result<(), AllocError>
        ensures { OnOk result (walk_data self.new ≡ walk_data self.old) }
    {
        if self.left.saturating_sub(before) > SHORT {
            self.long.push(number)?;
            self.left = before;
        }
        Ok(())
    }
}

/// The fragment of a number.
pub fn entry_at(tables: &Tables<'_>, number: usize) -> Option<Entry>
    ensures { option_map entry_data result ≡ slice_get (map entry_data tables.now.entries.items) number }
{
    tables.entries.get(number).copied()
}

/// Whether a type applies to an object type; none applies to none.
pub fn applies_where(schema: &Schema, on: Option<TypeId>, of: TypeId) -> bool
    ensures { result ≡ applies_where (schema_data schema.now) of.number (option_map type_number on) }
{
    match on {
        Some(on) => schema.applies(on, of),
        None => false,
    }
}

/// The place behind a step and as many more as are passed over, where there are so many.
pub fn place_behind(at: usize, skip: usize, end: usize) -> usize
    requires { at < end }
    ensures some { skip < end - at → result ≡ at + 1 + skip }
    ensures all { end ≤ at + skip → result ≡ end }
    ensures within { result ≤ end }
    ensures further { at < result }
{
    if skip < end - at { at + 1 + skip } else { end }
}

/// Takes one step, and tells how many of the next ones are passed over.
#[cycle(walk)]
fn walk_step<'a>(
    tables: &Tables<'a>,
    known: &Findings<'a>,
    reaches: &Reaches,
    of: TypeId,
    depth: usize,
    step: &Step<'a>,
    walk: &mut Walk<'a>,
) -> Result<usize, AllocError>
    ensures { IfOk result (TakesStep tables.now known.now reaches.now of.number depth (step_data step.now) (walk_data walk.old) (walk_data walk.new)) }
{
    match step {
        Step::Field(field) => {
            walk.keep(*field)?;
            Ok(0)
        }
        Step::Spread(number) => {
            walk_fragment(tables, known, reaches, of, depth, *number, walk)?;
            Ok(0)
        }
        Step::Inline { on, count } => {
            tables.planning.work.take(1)?;
            if tables.planning.schema.applies(*on, of) {
                Ok(0)
            } else {
                Ok(*count)
            }
        }
    }
}

#[cycle(walk)]
fn walk_steps<'a>(
    tables: &Tables<'a>,
    known: &Findings<'a>,
    reaches: &Reaches,
    of: TypeId,
    depth: usize,
    steps: &[Step<'a>],
    walk: &mut Walk<'a>,
) -> Result<(), AllocError>
    ensures { OnOk result (walk_data walk.new ≡ steps_from tables.now known.now reaches.now of.number depth 0 (map step_data steps.now) (walk_data walk.old)) }
{
    let mut at = 0;
    while at < steps.len() {
        let skip = walk_step(tables, known, reaches, of, depth, &steps[at], walk)?;
        at = place_behind(at, skip, steps.len());
    }
    Ok(())
}

/// The selection set of a number, unless it was found that it has no fields for the type.
#[cycle(walk)]
fn walk_set<'a>(
    tables: &Tables<'a>,
    known: &Findings<'a>,
    reaches: &Reaches,
    of: TypeId,
    depth: usize,
    set: usize,
    walk: &mut Walk<'a>,
) -> Result<(), AllocError>
    ensures { OnOk result (walk_data walk.new ≡ steps_from tables.now known.now reaches.now of.number depth 0 (list_steps tables.now known.now reaches.now of.number depth set) (walk_data walk.old)) }
{
    if reaches.misses(set, of) {
        walk.count(1);
        return Ok(());
    }
    match tables.lists.get(set) {
        Some(list) => {
            walk.count(list.steps.len());
            walk_steps(
                tables,
                known,
                reaches,
                of,
                depth,
                list.steps.as_slice(),
                walk,
            )
        }
        None => Ok(()),
    }
}

/// What is kept of the selection set of a number, or itself.
#[cycle(walk)]
fn walk_list<'a>(
    tables: &Tables<'a>,
    known: &Findings<'a>,
    reaches: &Reaches,
    of: TypeId,
    depth: usize,
    list: usize,
    walk: &mut Walk<'a>,
) -> Result<(), AllocError>
    ensures { OnOk result (walk_data walk.new ≡ known_in tables.now known.now reaches.now of.number depth list (list ∷ []) (walk_data walk.old)) }
{
    match known.of(list, of) {
        Some(fields) => walk.take(fields),
        None => walk_set(tables, known, reaches, of, depth, list, walk),
    }
}

/// The fragment of a number, where it wasn't entered.
#[cycle(walk)]
fn walk_fragment<'a>(
    tables: &Tables<'a>,
    known: &Findings<'a>,
    reaches: &Reaches,
    of: TypeId,
    depth: usize,
    number: usize,
    walk: &mut Walk<'a>,
) -> Result<(), AllocError>
    ensures { OnOk result (walk_data walk.new ≡ enter_in tables.now known.now reaches.now of.number depth number (walk_data walk.old)) }
{
    tables.planning.work.take(1)?;
    if depth == 0 {
        return Ok(());
    }
    if walk.is_marked(number) {
        return Ok(());
    }
    walk.mark(number)?;
    let before = walk.left;
    walk_entry(tables, known, reaches, of, depth - 1, number, walk)?;
    walk.note(number, before)
}

/// The selections of the fragment of a number, where its type applies.
#[cycle(walk)]
fn walk_entry<'a>(
    tables: &Tables<'a>,
    known: &Findings<'a>,
    reaches: &Reaches,
    of: TypeId,
    depth: usize,
    number: usize,
    walk: &mut Walk<'a>,
) -> Result<(), AllocError>
    ensures { OnOk result (walk_data walk.new ≡ entry_in tables.now known.now reaches.now of.number depth number (walk_data walk.old)) }
{
    match entry_at(tables, number) {
        Some(entry) => {
            if applies_where(tables.planning.schema, entry.on, of) {
                walk_list(tables, known, reaches, of, depth, entry.list, walk)
            } else {
                Ok(())
            }
        }
        None => Ok(()),
    }
}

/// Some selection sets, one after the other.
fn walk_sets<'a>(
    tables: &Tables<'a>,
    known: &Findings<'a>,
    reaches: &Reaches,
    of: TypeId,
    depth: usize,
    sets: &[usize],
    walk: &mut Walk<'a>,
) -> Result<(), AllocError>
    ensures { OnOk result (walk_data walk.new ≡ sets_in tables.now known.now reaches.now of.number depth sets.now (walk_data walk.old)) }
{
    tables.planning.work.take(sets.len())?;
    for set in sets {
        walk_set(tables, known, reaches, of, depth, *set, walk)?;
    }
    Ok(())
}

/// The selection sets of a number, of which nothing is kept.
fn walk_unknown<'a>(
    tables: &Tables<'a>,
    joins: &Joins,
    known: &Findings<'a>,
    reaches: &Reaches,
    of: TypeId,
    depth: usize,
    number: usize,
    walk: &mut Walk<'a>,
) -> Result<(), AllocError>
    ensures { OnOk result (walk_data walk.new ≡ sets_in tables.now known.now reaches.now of.number depth (sets_in_joins joins.now number) (walk_data walk.old)) }
{
    if number < joins.count {
        return walk_set(tables, known, reaches, of, depth, number, walk);
    }
    match joins.lists.get(number - joins.count) {
        Some(sets) => walk_sets(tables, known, reaches, of, depth, sets.as_slice(), walk),
        None => Ok(()),
    }
}

/// What is kept of a number, or its selection sets, unless it was found that these have no fields for the type.
fn walk_number<'a>(
    tables: &Tables<'a>,
    joins: &Joins,
    known: &Findings<'a>,
    reaches: &Reaches,
    lists: &Reaches,
    of: TypeId,
    depth: usize,
    number: usize,
    walk: &mut Walk<'a>,
) -> Result<(), AllocError>
    ensures { OnOk result (walk_data walk.new ≡ (if is_missed (found_of lists.now number) of.number then walk_data walk.old else known_in tables.now known.now reaches.now of.number depth number (sets_in_joins joins.now number) (walk_data walk.old))) }
{
    if lists.misses(number, of) {
        walk.count(1);
        return Ok(());
    }
    match known.of(number, of) {
        Some(fields) => walk.take(fields),
        None => walk_unknown(tables, joins, known, reaches, of, depth, number, walk),
    }
}

/// The selection sets of some numbers, where fragments are entered to a depth.
pub fn walk_numbers<'a>(
    tables: &Tables<'a>,
    joins: &Joins,
    known: &Findings<'a>,
    reaches: &Reaches,
    lists: &Reaches,
    of: TypeId,
    depth: usize,
    numbers: &[usize],
    walk: &mut Walk<'a>,
) -> Result<(), AllocError>
    ensures { OnOk result (walk_data walk.new ≡ numbers_in tables.now known.now reaches.now of.number depth lists.now (sets_in_joins joins.now) numbers.now (walk_data walk.old)) }
{
    for number in numbers {
        walk_number(
            tables, joins, known, reaches, lists, of, depth, *number, walk,
        )?;
    }
    Ok(())
}
