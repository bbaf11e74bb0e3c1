//! Variables in whose place others stand that have the same values (GraphQL October 2021, 6.1.2). Calls that are given different variables
//! of the same value are written alike then.

ghost use Rattle.std.specs.Prelude.{◌≡◌, IsTrue, IfOk, IfSome, option_map};
ghost use Rattle.variable_coercion.specs.Calls.{environment};
ghost use Rattle.input_values.specs.values.Coerced.{coerced_tree};
ghost use Rattle.distinct_selections.specs.SameVariables.{AreRight};

use crate::same_values::same_value;
use counted_work::{Work, steps_of_text};
use input_values::{Coerced, CoercedField};
use std::alloc::{AllocError, Global};
use std::collections::BTreeMap;
use std::hash::{FoldHasher, Hasher};
use variable_coercion::Variables;

/// A value of so many nodes or more is great. The nodes of all great values together are bounded.
const MANY: usize = 128;

/// So many nodes of great values are looked at. A body can't write so many; values that objects have by the schema's defaults may have more. No
/// variable stands in for one whose value is behind them.
const GREAT: usize = 8_000_000;

/// A text counts as one node more for so many bytes, so that long ones are passed over too.
const BYTES: usize = 32;

/// So many different values of one hash are told apart.
const TURNS: u64 = 8;

/// A variable, and another one that has the same value.
#[derive(Drop)]
pub struct StandIn<'a> {
    pub name: &'a str,
    pub other: &'a str,
}

/// The values of an operation's variables, and for some variables another one that has the same value.
#[derive(Drop)]
pub struct StandIns<'a> {
    pub variables: &'a Variables,
    pub others: Vec<StandIn<'a>>,
    /// By the names of variables, their places among these. Nothing rests on it, since the names are compared.
    places: BTreeMap<&'a str, usize>,
    /// The steps that are left for what is made by these.
    pub work: Work<'a>,
}

/// A hash of a value, and how many nodes were left behind it; none where it has more.
#[derive(Clone, Copy)]
struct Hashed {
    hash: u64,
    left: usize,
}

/// Adds a text of some kind to a hash, where so many nodes are left, and gives how many are left then. It isn't read where none are.
fn hash_text(
    work: Work<'_>,
    kind: usize,
    text: &str,
    left: usize,
    hasher: &mut FoldHasher,
) -> usize {
    let after = left.saturating_sub(text.len() / BYTES);
    if after > 0 {
        work.count(steps_of_text(text.len()));
        hasher.write_usize(kind);
        hasher.write_usize(text.len());
        hasher.write(text.as_bytes());
    }
    after
}

/// Adds a value to a hash, where so many nodes are left, and gives how many are left then: none where no step is. Each kind of values has a
/// number of its own.
#[cycle(hash)]
fn hash_value(work: Work<'_>, value: &Coerced, left: usize, hasher: &mut FoldHasher) -> usize {
    if left == 0 || work.take(1).is_err() {
        return 0;
    }
    match value {
        Coerced::Null => hasher.write_usize(1),
        Coerced::Int(number) => {
            hasher.write_usize(2);
            hasher.write_i128(*number);
        }
        Coerced::Float(bits) => {
            hasher.write_usize(11);
            hasher.write_u64(*bits);
        }
        Coerced::Str(text) => return hash_text(work, 3, text.as_str(), left - 1, hasher),
        Coerced::Bool(truth) => hasher.write_usize(if *truth { 4 } else { 5 }),
        Coerced::EnumName(name) => return hash_text(work, 6, name.as_str(), left - 1, hasher),
        Coerced::List(items) => return hash_items(work, items.as_slice(), left - 1, hasher),
        Coerced::Object(fields) => return hash_fields(work, fields.as_slice(), left - 1, hasher),
        Coerced::Shared(held) => return hash_value(work, held, left, hasher),
    }
    left - 1
}

#[cycle(hash)]
fn hash_items(work: Work<'_>, items: &[Coerced], many: usize, hasher: &mut FoldHasher) -> usize {
    hasher.write_usize(7);
    hasher.write_usize(items.len());
    let mut left = many;
    'items: for item in items {
        if left == 0 {
            return 0;
        }
        left = hash_value(work, item, left, hasher);
    }
    left
}

#[cycle(hash)]
fn hash_fields(
    work: Work<'_>,
    fields: &[CoercedField],
    many: usize,
    hasher: &mut FoldHasher,
) -> usize {
    hasher.write_usize(8);
    hasher.write_usize(fields.len());
    let mut left = many;
    'fields: for field in fields {
        if left == 0 {
            return 0;
        }
        left = hash_text(work, 9, field.name.as_str(), left, hasher);
        left = hash_value(work, &field.value, left, hasher);
    }
    left
}

/// A hash of a variable's value, or of none, where it may have so many nodes.
fn hash_within(work: Work<'_>, value: Option<&Coerced>, many: usize) -> Hashed {
    let mut hasher = FoldHasher::default();
    let left = match value {
        Some(value) => hash_value(work, value, many, &mut hasher),
        None => {
            hasher.write_usize(10);
            many
        }
    };
    Hashed {
        hash: hasher.finish(),
        left,
    }
}

/// The hash of a variable's value, and how many nodes of great values may still be looked at where so many may.
fn hash_of(work: Work<'_>, value: Option<&Coerced>, great: usize) -> (Option<u64>, usize) {
    let few = hash_within(work, value, MANY);
    if few.left > 0 {
        return (Some(few.hash), great);
    }
    let whole = hash_within(work, value, great);
    if whole.left > 0 {
        (Some(whole.hash), whole.left)
    } else {
        (None, 0)
    }
}

/// Whether two variables have the same value, or both have none.
fn have_same(work: Work<'_>, value: Option<&Coerced>, other: Option<&Coerced>) -> bool
    ensures { IsTrue result → option_map (λ v. coerced_tree v.now) value.entry ≡ option_map (λ v. coerced_tree v.now) other.entry }
{
    match value {
        Some(value) => match other {
            Some(other) => same_value(work, value, other),
            None => false,
        },
        None => other.is_none(),
    }
}

impl<'a> StandIns<'a> {
    /// The first place from a hash on that is free, or holds a variable of the same value.
    fn place_for(&self, firsts: &BTreeMap<u64, &'a str>, hash: u64, name: &'a str) -> Option<u64> {
        let value = self.variables.value(name);
        for turn in 0..TURNS {
            let place = hash.wrapping_add(turn);
            match firsts.get(&place).copied() {
                Some(first) => {
                    if have_same(self.work, self.variables.value(first), value) {
                        return Some(place);
                    }
                }
                None => return Some(place),
            }
        }
        None
    }

    /// Whether two variables have the same value.
    fn are_same(&self, name: &str, other: &str) -> bool
        ensures { IsTrue result → environment self.now.variables.now other.now ≡ environment self.now.variables.now name.now }
    {
        let variables = self.variables;
        have_same(self.work, variables.value(other), variables.value(name))
    }

    /// Notes a variable that stands in for another one, whose value it has.
    fn put(&mut self, name: &'a str, other: &'a str) -> Result<(), AllocError>
        ensures variables { self.new.variables ≡ self.old.variables }
        ensures right { environment self.old.variables.now other.now ≡ environment self.old.variables.now name.now → AreRight self.old → AreRight self.new }
    {
        let at = self.others.len();
        self.others.push(StandIn { name, other })?;
        self.places.insert(name, at)?;
        Ok(())
    }

    /// The same, where it has.
    fn put_same(&mut self, name: &'a str, other: &'a str) -> Result<(), AllocError>
        ensures variables { self.new.variables ≡ self.old.variables }
        ensures right { AreRight self.old → AreRight self.new }
    {
        if self.are_same(name, other) {
            return self.put(name, other);
        }
        Ok(())
    }

    /// Notes a variable by the hash of its value: where one was noted before that has the same value, that one stands in for it; else it
    /// may stand in for others.
    fn note(
        &mut self,
        firsts: &mut BTreeMap<u64, &'a str>,
        hash: u64,
        name: &'a str,
    ) -> Result<(), AllocError>
        ensures variables { self.new.variables ≡ self.old.variables }
        ensures right { AreRight self.old → AreRight self.new }
    {
        let Some(place) = self.place_for(firsts, hash, name) else {
            return Ok(());
        };
        match firsts.get(&place).copied() {
            Some(first) => self.put_same(name, first),
            None => {
                firsts.insert(place, name)?;
                Ok(())
            }
        }
    }

    /// For each variable the first that has its value, as far as they are found.
    pub fn of(
        alloc: Global,
        work: Work<'a>,
        variables: &'a Variables,
    ) -> Result<StandIns<'a>, AllocError>
        ensures variables { IfOk result (λ made. made.variables.now ≡ variables.now) }
        ensures right { IfOk result AreRight }
    {
        let mut made = StandIns {
            variables,
            others: Vec::new(alloc),
            places: BTreeMap::new(alloc),
            work,
        };
        let mut firsts = BTreeMap::new(alloc);
        let mut great = GREAT;
        for variable in variables.list() {
            let name = variable.name.as_str();
            work.take(steps_of_text(name.len()).saturating_add(1))?;
            let (hash, left) = hash_of(work, variables.value(name), great);
            great = left;
            match hash {
                Some(hash) => made.note(&mut firsts, hash, name)?,
                None => {}
            }
        }
        Ok(made)
    }

    /// The one that stands in for a variable, if it is noted at this place.
    fn other_at(&self, at: usize, name: &str) -> Option<&'a str>
        ensures { AreRight self.now → IfSome result (λ other. environment self.now.variables.now other.now ≡ environment self.now.variables.now name.now) }
    {
        match self.others.get(at) {
            Some(one) => {
                if one.name == name {
                    Some(one.other)
                } else {
                    None
                }
            }
            None => None,
        }
    }

    /// The one that stands in for a variable, if one does.
    fn other_for(&self, name: &str) -> Option<&'a str>
        ensures { AreRight self.now → IfSome result (λ other. environment self.now.variables.now other.now ≡ environment self.now.variables.now name.now) }
    {
        match self.places.get(name).copied() {
            Some(at) => self.other_at(at, name),
            None => None,
        }
    }

    /// A variable that has the value of this one, which may be itself.
    pub fn name_for(&self, name: &'a str) -> &'a str
        ensures { AreRight self.now → environment self.now.variables.now result.now ≡ environment self.now.variables.now name.now }
    {
        match self.other_for(name) {
            Some(other) => other,
            None => name,
        }
    }
}
