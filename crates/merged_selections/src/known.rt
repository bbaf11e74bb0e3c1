//! Groups to which positions came that were built, without the fields that change nothing, and what was found of their nodes: a
//! position that is met again needn't be collected, and its fields needn't be compared, nor their literals be read.

ghost use Rattle.std.specs.Prelude.{◌≡◌, ◌<◌, IsTrue, IfOk, IfSome, length, map, option_map, slice_get};
ghost use Rattle.schema_model.specs.SchemaViews.{schema_data};
ghost use Rattle.collected_fields.specs.Views.{collected_field, setting_of_planning};
ghost use Rattle.collected_fields.specs.declared.collector.Collector.{Collector};
ghost use Rattle.collected_fields.specs.Gathering.{planning_of};
ghost use Rattle.merged_selections.specs.NodeParts.{handed_data, one_handed};
ghost use Rattle.merged_selections.specs.NodeTests.{AreKept, IsLookedAt, fields_seen};
ghost use Rattle.merged_selections.specs.Again.{IsFirstAsking, AreSome, HasSome, HaveSome, AreLooked, TakesLooked, MayBeKnown, IsKnown, AreKnown, name_in, IsSamePlace, IsFor, FindsFor};

use crate::calls::Calls;
use crate::lookups::Handed;
use crate::node::{Looked, look};
use crate::written::are_more;
use collected_fields::{Collected, Group, Planning, asks};
use counted_work::{Work, steps_of_text};
use gql_base::Text;
use input_values::TypeId;
use schema_model::Schema;
use std::alloc::{AllocError, Global};
use std::collections::{HashMap, HashSet};
use std::hash::{FoldHasher, Hasher};

/// Groups of fewer fields are collected again, unless one writes a great literal.
const MANY: usize = 32;

/// Arguments that write more values than so many are great.
const GREAT: usize = 64;

/// To compare longer lists of names takes as long as to look at nodes again.
const SHORT: usize = 64;

/// All groups that are kept have no more numbers below them than this.
const ROOM: usize = 1_000_000;

/// The groups of a position for objects of a type.
#[derive(Drop)]
pub struct KnownGroups<'a> {
    pub of: TypeId,
    /// The numbers of the position's selections.
    pub lists: Vec<usize>,
    /// The fragment that the position spreads, where it holds nothing else. Then it is known by this, whatever its numbers are.
    pub spread: Option<&'a str>,
    pub groups: Vec<Group<'a>>,
    /// The size that was handed down where their nodes were looked at.
    pub handed: Option<Handed<'a>>,
    /// What was found of the nodes of the first of them then.
    pub looked: Vec<Looked<'a>>,
}

/// The groups of a position that is met again, and what is found of the nodes of the first of them.
#[derive(Drop)]
pub struct FoundGroups<'a> {
    pub groups: Vec<Group<'a>>,
    pub looked: Vec<Looked<'a>>,
}

/// Groups that were found, each for a type and a position.
#[derive(Drop)]
pub struct Known<'a> {
    pub made: Vec<KnownGroups<'a>>,
    /// For each hash, the place of the last that has it.
    places: HashMap<u64, usize>,
    /// How many numbers there is room for.
    room: usize,
    /// The hashes of positions with great literals that were built. Nothing rests on them.
    met: HashSet<u64>,
    work: Work<'a>,
}

/// A number by which a position is looked for. Nothing rests on it.
fn hash_of(of: TypeId, lists: &[usize], spread: Option<&str>) -> u64 {
    let mut hasher = FoldHasher::default();
    hasher.write_usize(of.number);
    match spread {
        Some(name) => hasher.write(name.as_bytes()),
        None => {
            for list in lists {
                hasher.write_usize(*list);
            }
        }
    }
    hasher.finish()
}

/// How many steps it is to look for a position.
fn steps_of_place(lists: &[usize], spread: Option<&str>) -> usize {
    match spread {
        Some(name) => steps_of_text(name.len()).wrapping_add(1),
        None => lists.len().wrapping_add(1),
    }
}

/// How many fields groups have for their keys.
fn fields_in(groups: &[Group<'_>]) -> usize {
    let mut fields: usize = 0;
    for group in groups {
        fields = fields.saturating_add(group.fields.len());
    }
    fields
}

/// Whether groups have so many fields for their keys that they are worth keeping.
fn are_many(groups: &[Group<'_>]) -> bool {
    let fields = fields_in(groups);
    fields >= MANY && fields / 4 >= groups.len()
}

/// Whether one of these fields writes a great literal.
fn write_great(fields: &[Collected<'_>]) -> bool {
    for field in fields {
        if are_more(field.field.arguments.as_slice(), GREAT) {
            return true;
        }
    }
    false
}

/// Whether a field of one of these groups writes a great literal.
fn have_great(groups: &[Group<'_>]) -> bool {
    for group in groups {
        if write_great(group.fields.as_slice()) {
            return true;
        }
    }
    false
}

/// How many numbers the groups of a position of so many have below them, with one more for each.
fn numbers_in(groups: &[Group<'_>], lists: usize) -> usize {
    let mut numbers = lists;
    for group in groups {
        numbers = numbers.saturating_add(group.below.len()).saturating_add(1);
    }
    numbers
}

/// The same of groups that are kept.
fn numbers_kept(known: &KnownGroups<'_>) -> usize {
    numbers_in(known.groups.as_slice(), known.lists.len())
}

fn copied(alloc: Global, numbers: &[usize]) -> Result<Vec<usize>, AllocError>
    ensures { IfOk result (λ copy. copy.items ≡ numbers.now) }
{
    let mut copy = Vec::new(alloc);
    for number in numbers {
        copy.push(*number)?;
    }
    Ok(copy)
}

/// The first of some fields that asks for the names of types.
fn first_asking<'a>(schema: &Schema, fields: &[Collected<'a>]) -> Option<Collected<'a>>
    ensures { IsFirstAsking (schema_data schema.now) (map collected_field fields.now) (option_map collected_field result) }
{
    for field in fields {
        if asks(schema, field) {
            return Some(*field);
        }
    }
    None
}

/// The first of some fields, and behind it one that asks for the names of types where it doesn't.
fn some_of<'a>(
    alloc: Global,
    schema: &Schema,
    first: &Collected<'a>,
    others: &[Collected<'a>],
) -> Result<Vec<Collected<'a>>, AllocError>
    ensures some { IfOk result (λ some. AreSome (schema_data schema.now) (fields_seen first.now others.now) (map collected_field some.items)) }
    ensures filled { IfOk result (λ some. 0 < length some.items) }
{
    let mut some = Vec::new(alloc);
    some.push(*first)?;
    if asks(schema, first) {
        return Ok(some);
    }
    match first_asking(schema, others) {
        Some(other) => some.push(other)?,
        None => {}
    }
    Ok(some)
}

/// A group without the fields that change nothing where all are equal.
fn shortened<'a>(alloc: Global, schema: &Schema, group: &Group<'a>) -> Result<Group<'a>, AllocError>
    ensures { IfOk result (λ some. HasSome (schema_data schema.now) group.now some) }
{
    let fields = match group.fields.split_first() {
        Some((first, others)) => some_of(alloc, schema, first, others)?,
        None => Vec::new(alloc),
    };
    let below = copied(alloc, group.below.as_slice())?;
    Ok(Group { fields, below })
}

/// Groups without the fields that change nothing where those of each key are equal.
fn all_shortened<'a>(
    alloc: Global,
    schema: &Schema,
    groups: &[Group<'a>],
) -> Result<Vec<Group<'a>>, AllocError>
    ensures { IfOk result (λ some. HaveSome (schema_data schema.now) groups.now some.items) }
{
    let mut some = Vec::new(alloc);
    for group in groups {
        some.push(shortened(alloc, schema, group)?)?;
    }
    Ok(some)
}

/// What is found of the node of a group, if it has no fault.
fn looked_of<'a>(
    alloc: Global,
    planning: &Planning<'a>,
    of: TypeId,
    handed: Option<Handed<'a>>,
    group: &Group<'a>,
    calls: &mut Calls<'a>,
) -> Option<Looked<'a>>
    ensures kept { AreKept (setting_of_planning planning.now) calls.old → AreKept (setting_of_planning planning.now) calls.new }
    ensures looked { AreKept (setting_of_planning planning.now) calls.old → IfSome result (IsLookedAt (setting_of_planning planning.now) of.number (handed_data handed.entry) (map collected_field group.now.fields.items)) }
{
    match group.fields.split_first() {
        Some((first, others)) => match look(alloc, planning, of, handed, first, others, calls) {
            Ok(looked) => Some(looked),
            Err(_) => None,
        },
        None => None,
    }
}

/// What is found of the nodes of these groups, up to the first that isn't found.
fn looked_at<'a>(
    alloc: Global,
    planning: &Planning<'a>,
    of: TypeId,
    handed: Option<Handed<'a>>,
    groups: &[Group<'a>],
    calls: &mut Calls<'a>,
) -> Result<Vec<Looked<'a>>, AllocError>
    ensures kept { AreKept (setting_of_planning planning.now) calls.old → AreKept (setting_of_planning planning.now) calls.new }
    ensures looked { AreKept (setting_of_planning planning.now) calls.old → IfOk result (λ looked. AreLooked (setting_of_planning planning.now) of.number (handed_data handed.entry) groups.now looked.items) }
{
    let mut found = Vec::new(alloc);
    for group in groups {
        match looked_of(alloc, planning, of, handed, group, calls) {
            Some(looked) => found.push(looked)?,
            None => return Ok(found),
        }
    }
    Ok(found)
}

fn are_one_list(names: &[Text], others: &[Text]) -> bool
    ensures { IsTrue result → names.now ≡ others.now }
{
    names.len() <= SHORT && names == others
}

fn is_one_handed(handed: Handed<'_>, other: Handed<'_>) -> bool
    ensures { IsTrue result → one_handed handed.entry ≡ one_handed other.entry }
{
    handed.size == other.size && are_one_list(handed.sized, other.sized)
}

/// Whether two sizes that are handed down are the same.
fn is_same_handed(handed: Option<Handed<'_>>, other: Option<Handed<'_>>) -> bool
    ensures { IsTrue result → handed_data handed.entry ≡ handed_data other.entry }
{
    match handed {
        None => match other {
            None => true,
            Some(_) => false,
        },
        Some(handed) => match other {
            Some(other) => is_one_handed(handed, other),
            None => false,
        },
    }
}

fn copied_looked<'a>(alloc: Global, looked: &[Looked<'a>]) -> Result<Vec<Looked<'a>>, AllocError>
    ensures { IfOk result (λ copy. copy.items ≡ looked.now) }
{
    let mut copy = Vec::new(alloc);
    for one in looked {
        copy.push(*one)?;
    }
    Ok(copy)
}

/// What was found of the nodes of groups, where the same size is handed down.
fn taken_looked<'a>(
    alloc: Global,
    known: &KnownGroups<'a>,
    handed: Option<Handed<'_>>,
) -> Result<Vec<Looked<'a>>, AllocError>
    ensures { IfOk result (λ looked. TakesLooked known.now (handed_data handed.entry) looked.items) }
{
    if is_same_handed(known.handed, handed) {
        return copied_looked(alloc, known.looked.as_slice());
    }
    Ok(Vec::new(alloc))
}

/// What was found of the node of a group at a place, if it is known.
pub fn looked_there<'a>(looked: &[Looked<'a>], at: usize) -> Option<Looked<'a>>
    ensures { result ≡ slice_get looked.now at }
{
    looked.get(at).copied()
}

/// Whether a position spreads the same fragment alone, or is of the same numbers where none is told.
fn is_same_place(
    own: Option<&str>,
    numbers: &[usize],
    others: &[usize],
    spread: Option<&str>,
) -> bool
    ensures { IsTrue result → IsSamePlace (name_in own.entry) numbers.now others.now (name_in spread.entry) }
{
    match own {
        None => numbers == others,
        Some(name) => match spread {
            Some(other) => name == other,
            None => false,
        },
    }
}

/// Whether these are the groups of a position for objects of a type.
fn is_for(known: &KnownGroups<'_>, of: TypeId, lists: &[usize], spread: Option<&str>) -> bool
    ensures { IsTrue result → IsFor known.now of.number lists.now (name_in spread.entry) }
{
    known.of == of && is_same_place(known.spread, known.lists.as_slice(), lists, spread)
}

impl<'a> Known<'a> {
    /// None.
    pub fn new(alloc: Global, work: Work<'a>) -> Known<'a>
        ensures { (c : Collector) → AreKnown c result }
    {
        Known {
            made: Vec::new(alloc),
            places: HashMap::new(alloc),
            room: ROOM,
            met: HashSet::new(alloc),
            work,
        }
    }

    /// The groups at a place, if they are those of a position for objects of a type.
    fn found_at(
        &self,
        alloc: Global,
        schema: &Schema,
        at: usize,
        of: TypeId,
        lists: &[usize],
        spread: Option<&str>,
        handed: Option<Handed<'_>>,
    ) -> Result<Option<FoundGroups<'a>>, AllocError>
        ensures { IfOk result (λ found. IfSome found (FindsFor (schema_data schema.now) self.now of.number lists.now (name_in spread.entry) (handed_data handed.entry))) }
    {
        match self.made.get(at) {
            Some(one) => {
                if is_for(one, of, lists, spread) {
                    self.work.take(numbers_kept(one))?;
                    let groups = all_shortened(alloc, schema, one.groups.as_slice())?;
                    let looked = taken_looked(alloc, one, handed)?;
                    Ok(Some(FoundGroups { groups, looked }))
                } else {
                    Ok(None)
                }
            }
            None => Ok(None),
        }
    }

    /// The groups of a position for objects of a type, if they are known.
    pub fn find(
        &self,
        alloc: Global,
        schema: &Schema,
        of: TypeId,
        lists: &[usize],
        spread: Option<&str>,
        handed: Option<Handed<'_>>,
    ) -> Result<Option<FoundGroups<'a>>, AllocError>
        ensures { IfOk result (λ found. IfSome found (FindsFor (schema_data schema.now) self.now of.number lists.now (name_in spread.entry) (handed_data handed.entry))) }
    {
        if self.made.is_empty() {
            return Ok(None);
        }
        self.work.take(steps_of_place(lists, spread))?;
        let hash = hash_of(of, lists, spread);
        match self.places.get(&hash).copied() {
            Some(at) => self.found_at(alloc, schema, at, of, lists, spread, handed),
            None => Ok(None),
        }
    }

    /// Puts groups behind the others.
    fn put(&mut self, hash: u64, groups: KnownGroups<'a>) -> Result<(), AllocError>
        ensures { (c : Collector) → IsKnown c groups.entry → AreKnown c self.old → AreKnown c self.new }
    {
        self.places.insert(hash, self.made.len())?;
        self.made.push(groups)?;
        Ok(())
    }

    /// Whether the groups of a position of this hash are kept: at once where they have many fields, else where it is met again. To
    /// look at their nodes once more would take as long as they did.
    fn is_wanted(&mut self, hash: u64, many: bool) -> Result<bool, AllocError>
        ensures { (c : Collector) → AreKnown c self.old → AreKnown c self.new }
    {
        if many {
            return Ok(true);
        }
        let is_first = self.met.insert(hash)?;
        Ok(!is_first)
    }

    /// Keeps the groups of a position for objects of a type, where they have many fields, or a great literal and it is met again.
    pub fn keep(
        &mut self,
        alloc: Global,
        planning: &Planning<'a>,
        of: TypeId,
        lists: &[usize],
        spread: Option<&'a str>,
        groups: &[Group<'a>],
        handed: Option<Handed<'a>>,
        calls: &mut Calls<'a>,
    ) -> Result<(), AllocError>
        ensures kept { AreKept (setting_of_planning planning.now) calls.old → AreKept (setting_of_planning planning.now) calls.new }
        ensures known { (c : Collector) → planning_of c ≡ planning.now → AreKept (setting_of_planning planning.now) calls.old → MayBeKnown c of.number lists.now (name_in spread.entry) groups.now → AreKnown c self.old → AreKnown c self.new }
    {
        let many = are_many(groups);
        if !many && !have_great(groups) {
            return Ok(());
        }
        let hash = hash_of(of, lists, spread);
        if !self.is_wanted(hash, many)? {
            return Ok(());
        }
        let numbers = numbers_in(groups, lists.len());
        if numbers > self.room {
            return Ok(());
        }
        self.room -= numbers;
        self.work.take(numbers.saturating_add(fields_in(groups)))?;
        let lists = copied(alloc, lists)?;
        let groups = all_shortened(alloc, planning.schema, groups)?;
        let looked = looked_at(alloc, planning, of, handed, groups.as_slice(), calls)?;
        self.put(
            hash,
            KnownGroups {
                of,
                lists,
                spread,
                groups,
                handed,
                looked,
            },
        )
    }
}
