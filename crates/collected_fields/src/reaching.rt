//! For objects of which types selection sets may have fields, found once for each of them.

ghost use Rattle.std.specs.Prelude.{◌≡◌, ◌∷◌, [], ℕ, map, option_map, None, IfOk, OnOk};
ghost use Rattle.collected_fields.specs.declared.joins.Joins.{Joins as JoinsData};
ghost use Rattle.collected_fields.specs.declared.tables.Tables.{Tables as TablesData};
ghost use Rattle.collected_fields.specs.Steps.{step_data, inline_step};
ghost use Rattle.collected_fields.specs.Lists.{sets_in_joins};
ghost use Rattle.collected_fields.specs.Reached.{found_of, is_missed};
ghost use Rattle.collected_fields.specs.Reaching.{ReachesSteps, ReachesStep, ReachesFragment, ReachesWhere, ReachesSets, AreReached, AreAllReached, FindsOne, ReachesNumbers};

use crate::joins::Joins;
use crate::kinds::Kinds;
use crate::order::order_of;
use crate::reach::Reach;
use crate::room::Room;
use crate::steps::Step;
use crate::tables::Tables;
use crate::walk::{entry_at, place_behind};
use input_values::TypeId;
use std::alloc::{AllocError, Global};

/// So many conditions and spreads are looked into that stand in one another. A document has fewer conditions in one another, and
/// what a fragment reaches is found before it is looked into.
const NESTED: usize = 64;

/// What was found of selection sets, or of lists of them, by their numbers.
#[derive(Drop)]
pub struct Reaches {
    pub sets: Vec<Option<Reach>>,
}

impl Reaches {
    /// Nothing was found yet.
    pub fn new(alloc: Global) -> Reaches
        ensures { (set : ℕ) → found_of result set ≡ None }
    {
        Reaches {
            sets: Vec::new(alloc),
        }
    }

    /// What was found of a set.
    fn of(&self, set: usize) -> Option<&Reach>
        ensures { option_map (λ r. r.now) result ≡ found_of self.now set }
    {
        match self.sets.get(set) {
            Some(found) => found.as_ref(),
            None => None,
        }
    }

    /// Whether it was found of a set that it has no fields for objects of a type.
    pub fn misses(&self, set: usize, of: TypeId) -> bool
        ensures { result ≡ is_missed (found_of self.now set) of.number }
    {
        match self.of(set) {
            Some(reach) => !reach.has(of),
            None => false,
        }
    }

    /// Keeps what was found of a set.
    fn keep(&mut self, set: usize, reach: Reach) -> Result<(), AllocError>
        ensures { FindsOne self.old self.new set reach }
    {
        while self.sets.len() <= set {
            self.sets.push(None)?;
        }
        self.sets[set] = Some(reach);
        Ok(())
    }
}

/// What was found of selection sets and of lists of them, and of types.
#[derive(Drop)]
pub struct AllReaches {
    pub sets: Reaches,
    pub lists: Reaches,
    pub kinds: Kinds,
    /// Whether all fragments were looked into.
    fragments: bool,
    room: Room,
}

impl AllReaches {
    /// Nothing was found yet.
    pub fn new(alloc: Global) -> AllReaches
        ensures { (t : TablesData) (j : JoinsData) → AreAllReached t j result }
    {
        let sets = Reaches::new(alloc);
        let lists = Reaches::new(alloc);
        let kinds = Kinds::new(alloc);
        AllReaches {
            sets,
            lists,
            kinds,
            fragments: false,
            room: Room::new(),
        }
    }
}

/// Adds the types for which a step may have fields, and tells how many of the next ones were looked at with it.
#[cycle(reach)]
fn add_step(
    alloc: Global,
    tables: &Tables<'_>,
    depth: usize,
    step: &Step<'_>,
    rest: &[Step<'_>],
    found: &mut Reaches,
    room: &mut Room,
    reach: &mut Reach,
) -> Result<usize, AllocError>
    ensures still { AreReached tables.now found.old → AreReached tables.now found.new }
    ensures adds { IfOk result (λ passed. AreReached tables.now found.old → ReachesStep tables.now reach.old reach.new (step_data step.now) (map step_data rest.now) passed) }
{
    match step {
        Step::Field(_) => {
            reach.widen();
            Ok(0)
        }
        Step::Spread(number) => {
            add_fragment(alloc, tables, depth, *number, found, room, reach)?;
            Ok(0)
        }
        Step::Inline { on, count } => {
            add_inline(alloc, tables, depth, *on, *count, rest, found, room, reach)?;
            Ok(*count)
        }
    }
}

/// The same of steps that stand under a condition.
#[cycle(reach)]
fn add_inline(
    alloc: Global,
    tables: &Tables<'_>,
    depth: usize,
    on: TypeId,
    count: usize,
    rest: &[Step<'_>],
    found: &mut Reaches,
    room: &mut Room,
    reach: &mut Reach,
) -> Result<(), AllocError>
    ensures still { AreReached tables.now found.old → AreReached tables.now found.new }
    ensures adds { OnOk result (AreReached tables.now found.old → ReachesStep tables.now reach.old reach.new (inline_step on.number count) (map step_data rest.now) count) }
{
    if depth == 0 || rest.len() < count {
        reach.widen();
        return Ok(());
    }
    let mut under = Reach::none(alloc);
    add_steps(
        alloc,
        tables,
        depth - 1,
        &rest[..count],
        found,
        room,
        &mut under,
    )?;
    let planning = &tables.planning;
    room.join_where(planning.work, reach, planning.schema, on, &under)
}

/// The same of steps, as long as types are told apart.
#[cycle(reach)]
fn add_steps(
    alloc: Global,
    tables: &Tables<'_>,
    depth: usize,
    steps: &[Step<'_>],
    found: &mut Reaches,
    room: &mut Room,
    reach: &mut Reach,
) -> Result<(), AllocError>
    ensures still { AreReached tables.now found.old → AreReached tables.now found.new }
    ensures adds { OnOk result (AreReached tables.now found.old → ReachesSteps tables.now reach.old reach.new (map step_data steps.now)) }
{
    let mut at = 0;
    'steps: while at < steps.len() && !reach.is_every() {
        tables.planning.work.take(1)?;
        let rest = &steps[at + 1..];
        let passed = add_step(alloc, tables, depth, &steps[at], rest, found, room, reach)?;
        at = place_behind(at, passed, steps.len());
    }
    Ok(())
}

/// The same of the fragment of a number.
#[cycle(reach)]
fn add_fragment(
    alloc: Global,
    tables: &Tables<'_>,
    depth: usize,
    number: usize,
    found: &mut Reaches,
    room: &mut Room,
    reach: &mut Reach,
) -> Result<(), AllocError>
    ensures still { AreReached tables.now found.old → AreReached tables.now found.new }
    ensures adds { OnOk result (AreReached tables.now found.old → ReachesFragment tables.now reach.old reach.new number) }
{
    match entry_at(tables, number) {
        Some(entry) => match entry.on {
            Some(on) => add_where(alloc, tables, depth, on, entry.list, found, room, reach),
            None => Ok(()),
        },
        None => Ok(()),
    }
}

/// The same of the selection set of a fragment, whose type is a condition.
#[cycle(reach)]
fn add_where(
    alloc: Global,
    tables: &Tables<'_>,
    depth: usize,
    on: TypeId,
    set: usize,
    found: &mut Reaches,
    room: &mut Room,
    reach: &mut Reach,
) -> Result<(), AllocError>
    ensures still { AreReached tables.now found.old → AreReached tables.now found.new }
    ensures adds { OnOk result (AreReached tables.now found.old → ReachesWhere tables.now reach.old reach.new on.number set) }
{
    if depth == 0 {
        reach.widen();
        return Ok(());
    }
    find(alloc, tables, depth - 1, set, found, room)?;
    match found.of(set) {
        Some(other) => {
            let planning = &tables.planning;
            room.join_where(planning.work, reach, planning.schema, on, other)
        }
        None => {
            reach.widen();
            Ok(())
        }
    }
}

/// Finds the types of a selection set, where they weren't found yet.
#[cycle(reach)]
fn find(
    alloc: Global,
    tables: &Tables<'_>,
    depth: usize,
    set: usize,
    found: &mut Reaches,
    room: &mut Room,
) -> Result<(), AllocError>
    ensures still { AreReached tables.now found.old → AreReached tables.now found.new }
{
    if found.of(set).is_some() {
        return Ok(());
    }
    let mut reach = Reach::none(alloc);
    add_listed(alloc, tables, depth, set, found, room, &mut reach)?;
    room.fit(&mut reach);
    found.keep(set, reach)
}

/// Adds the types of a selection set.
#[cycle(reach)]
fn add_listed(
    alloc: Global,
    tables: &Tables<'_>,
    depth: usize,
    set: usize,
    found: &mut Reaches,
    room: &mut Room,
    reach: &mut Reach,
) -> Result<(), AllocError>
    ensures still { AreReached tables.now found.old → AreReached tables.now found.new }
    ensures adds { OnOk result (AreReached tables.now found.old → ReachesSets tables.now reach.old reach.new (set ∷ [])) }
{
    match tables.lists.get(set) {
        Some(list) => add_steps(
            alloc,
            tables,
            depth,
            list.steps.as_slice(),
            found,
            room,
            reach,
        ),
        None => Ok(()),
    }
}

/// Finds the types of the selection set of a fragment.
fn find_fragment(
    alloc: Global,
    tables: &Tables<'_>,
    number: usize,
    found: &mut Reaches,
    room: &mut Room,
) -> Result<(), AllocError>
    ensures still { AreReached tables.now found.old → AreReached tables.now found.new }
{
    match entry_at(tables, number) {
        Some(entry) => find(alloc, tables, NESTED, entry.list, found, room),
        None => Ok(()),
    }
}

/// The same of some fragments, one after another.
fn find_fragments(
    alloc: Global,
    tables: &Tables<'_>,
    numbers: &[usize],
    found: &mut Reaches,
    room: &mut Room,
) -> Result<(), AllocError>
    ensures still { AreReached tables.now found.old → AreReached tables.now found.new }
{
    tables.planning.work.take(numbers.len())?;
    for number in numbers {
        find_fragment(alloc, tables, *number, found, room)?;
    }
    Ok(())
}

/// Looks into all fragments, where that wasn't done yet: into one behind those that it spreads, so that what is found of it
/// takes no calls in one another for fragments.
fn begin(alloc: Global, tables: &Tables<'_>, all: &mut AllReaches) -> Result<(), AllocError>
    ensures lists { all.new.lists ≡ all.old.lists }
    ensures kinds { all.new.kinds ≡ all.old.kinds }
    ensures still { AreReached tables.now all.old.sets → AreReached tables.now all.new.sets }
{
    if all.fragments {
        return Ok(());
    }
    let order = order_of(alloc, tables)?;
    find_fragments(
        alloc,
        tables,
        order.as_slice(),
        &mut all.sets,
        &mut all.room,
    )?;
    all.fragments = true;
    Ok(())
}

/// Adds the types of a selection set, which are found once.
fn add_set(
    alloc: Global,
    tables: &Tables<'_>,
    set: usize,
    found: &mut Reaches,
    room: &mut Room,
    reach: &mut Reach,
) -> Result<(), AllocError>
    ensures still { AreReached tables.now found.old → AreReached tables.now found.new }
    ensures adds { OnOk result (AreReached tables.now found.old → ReachesSets tables.now reach.old reach.new (set ∷ [])) }
{
    find(alloc, tables, NESTED, set, found, room)?;
    match found.of(set) {
        Some(other) => room.join(tables.planning.work, reach, other),
        None => {
            reach.widen();
            Ok(())
        }
    }
}

/// The same of some sets.
fn add_sets(
    alloc: Global,
    tables: &Tables<'_>,
    sets: &[usize],
    found: &mut Reaches,
    room: &mut Room,
    reach: &mut Reach,
) -> Result<(), AllocError>
    ensures still { AreReached tables.now found.old → AreReached tables.now found.new }
    ensures adds { OnOk result (AreReached tables.now found.old → ReachesSets tables.now reach.old reach.new sets.now) }
{
    tables.planning.work.take(sets.len())?;
    for set in sets {
        add_set(alloc, tables, *set, found, room, reach)?;
    }
    Ok(())
}

/// Finds the types of the list of a number, where they weren't found yet.
fn find_list(
    alloc: Global,
    tables: &Tables<'_>,
    joins: &Joins,
    number: usize,
    all: &mut AllReaches,
) -> Result<(), AllocError>
    ensures still { AreAllReached tables.now joins.now all.old → AreAllReached tables.now joins.now all.new }
{
    if all.lists.of(number).is_some() {
        return Ok(());
    }
    match joins.list_at(number) {
        Some(sets) => {
            let mut reach = Reach::none(alloc);
            add_sets(
                alloc,
                tables,
                sets,
                &mut all.sets,
                &mut all.room,
                &mut reach,
            )?;
            all.room.fit(&mut reach);
            all.lists.keep(number, reach)
        }
        None => Ok(()),
    }
}

/// Adds the types of the sets of a number, which are found once.
fn add_number(
    alloc: Global,
    tables: &Tables<'_>,
    joins: &Joins,
    number: usize,
    all: &mut AllReaches,
    reach: &mut Reach,
) -> Result<(), AllocError>
    ensures still { AreAllReached tables.now joins.now all.old → AreAllReached tables.now joins.now all.new }
    ensures adds { OnOk result (AreAllReached tables.now joins.now all.old → ReachesSets tables.now reach.old reach.new (sets_in_joins joins.now number)) }
{
    if number < joins.count {
        return add_set(alloc, tables, number, &mut all.sets, &mut all.room, reach);
    }
    find_list(alloc, tables, joins, number, all)?;
    match all.lists.of(number) {
        Some(other) => all.room.join(tables.planning.work, reach, other),
        None => {
            reach.widen();
            Ok(())
        }
    }
}

/// The types of objects for which the selection sets of some numbers may have fields.
pub fn reach_of(
    alloc: Global,
    tables: &Tables<'_>,
    joins: &Joins,
    numbers: &[usize],
    all: &mut AllReaches,
) -> Result<Reach, AllocError>
    ensures still { AreAllReached tables.now joins.now all.old → AreAllReached tables.now joins.now all.new }
    ensures reach { IfOk result (λ reach. AreAllReached tables.now joins.now all.old → ReachesNumbers tables.now joins.now numbers.now reach) }
{
    begin(alloc, tables, all)?;
    let mut reach = Reach::none(alloc);
    tables.planning.work.take(numbers.len())?;
    for number in numbers {
        add_number(alloc, tables, joins, *number, all, &mut reach)?;
    }
    Ok(reach)
}
