//! What was found of types, fields and variables, and what literals come to by it.

ghost use Rattle.std.specs.Prelude.{◌≡◌, ◌&&◌, true, false, not, IsTrue, IfSome};
ghost use Rattle.gql_base.specs.names.Names.{are_distinct};
ghost use Rattle.input_values.specs.values.Coerced.{coerced_tree, is_coerced_null};
ghost use Rattle.input_values.specs.inputs.Shapes.{shape_tree, is_nullable};
ghost use Rattle.input_values.specs.coercion.Sizes.{names_written};
ghost use Rattle.literal_loads.specs.Loads.{WeighsLiteral, WeighsVariable, WeighsList, WeighsNamed, list_answer, object_answer};
ghost use Rattle.literal_loads.specs.KnownInputs.{scale_of, placed_in, IsKnown, IsHeldAs, IsHeld, AreRight};
ghost use Rattle.literal_loads.specs.Walks.{Wraps, AreWritten, TakesOne, HasWeighed};

use crate::held::{HeldLoad, is_leaf, lists_round};
use crate::inputs::{KnownInputs, Owner};
use crate::load::{Load, Sum, both_loads, cost_at, list_of, object_of, with_value};
use crate::weighing::Weighing;
use crate::written::{steps_of, steps_of_name};
use cost_num::CAP;
use gql_base::{Argument, Value, index_of};
use input_values::places::{innermost, is_nullable};
use input_values::{Coerced, Shape, TypeId, is_null, value_of};
use schema_model::{FieldId, Kind};
use std::alloc::Global;
use std::collections::HashMap;
use std::hash::{FoldHasher, Hasher};
use variable_coercion::VALUE_LIMIT;

/// What was found so far.
#[derive(Drop)]
pub struct Loads<'p> {
    pub(crate) of: Weighing<'p>,
    pub(crate) known: Vec<KnownInputs<'p>>,
    /// The places of known inputs, by numbers of what has them. Nothing rests on the numbers.
    pub(crate) places: HashMap<u64, usize>,
    pub(crate) held: Vec<HeldLoad<'p>>,
    /// The places of what is held, by hashes. Nothing rests on the hashes.
    pub(crate) held_places: HashMap<u64, usize>,
    /// For each variable, by its place, whether its value is great; none before the first was asked for.
    pub(crate) great: Vec<bool>,
    /// Whether one of them is.
    pub(crate) some_great: bool,
    /// The fields that were asked for, by numbers. Nothing rests on it.
    pub(crate) asked: HashMap<u64, usize>,
}

/// Nothing was found.
pub fn no_loads<'p>(alloc: Global, of: Weighing<'p>) -> Loads<'p>
    ensures of { result.of ≡ of.entry }
    ensures right { AreRight result }
{
    Loads {
        of,
        known: Vec::new(alloc),
        places: HashMap::new(alloc),
        held: Vec::new(alloc),
        held_places: HashMap::new(alloc),
        great: Vec::new(alloc),
        some_great: false,
        asked: HashMap::new(alloc),
    }
}

/// A number of what has inputs.
pub(crate) fn owner_number(owner: Owner) -> u64 {
    match owner {
        Owner::OfType(of) => (of.number as u64).wrapping_mul(2),
        Owner::OfField(of) => (of.number as u64).wrapping_mul(2).wrapping_add(1),
    }
}

/// Whether no two of these have one name.
fn are_once(alloc: Global, written: &[Argument]) -> bool
    ensures { IsTrue result → are_distinct (names_written written.now) ≡ true }
{
    match index_of(alloc, written) {
        Ok(index) => index.are_distinct(),
        Err(_) => false,
    }
}

/// Whether a value may stand at a place of this shape: null at one that may be null alone.
fn fits(value: &Coerced, shape: &Shape) -> bool
    ensures { IsTrue result → is_coerced_null (coerced_tree value.now) && not (is_nullable (shape_tree shape.now)) ≡ false }
{
    !is_null(value) || is_nullable(shape)
}

/// What a value that is no list comes to in a list of one for each list of a shape.
fn wrapped(shape: &Shape, inner: Option<Load>) -> Option<Load>
    ensures { Wraps (shape_tree shape.now) inner result }
{
    match shape {
        Shape::Named { .. } => inner,
        Shape::ListOf { item, .. } => list_of(wrapped(&**item, inner)?),
    }
}

impl<'p> Loads<'p> {
    /// The inputs of a type or of a field, where they are known.
    pub(crate) fn known(&self, owner: Owner) -> Option<&KnownInputs<'p>>
        ensures owner { IfSome result (λ known. known.now.owner ≡ owner) }
        ensures known { AreRight self.now → IfSome result (λ known. IsKnown (scale_of self.now.of) known.now) }
    {
        let at = self.places.get(&owner_number(owner)).copied()?;
        let known = self.known.get(at)?;
        if known.owner == owner {
            Some(known)
        } else {
            None
        }
    }

    /// A hash of a variable at a place of this shape.
    pub(crate) fn held_hash(&self, name: &str, shape: &Shape) -> u64 {
        let mut hasher = FoldHasher::default();
        hasher.write_usize(self.of.variables.position(name).unwrap_or(0));
        hasher.write_usize(innermost(shape).number);
        hasher.write_usize(lists_round(shape).unwrap_or(0));
        hasher.finish()
    }

    /// What is held under a hash.
    fn held_under(&self, hash: u64) -> Option<&HeldLoad<'p>>
        ensures { AreRight self.now → IfSome result (λ held. IsHeld (scale_of self.now.of) held.now) }
    {
        let at = self.held_places.get(&hash).copied()?;
        self.held.get(at)
    }

    /// What a variable comes to at a place, where that is held.
    pub(crate) fn held_load(&self, name: &str, shape: &Shape) -> Option<Load>
        ensures { AreRight self.now → IfSome result (IsHeldAs (scale_of self.now.of) name.now (shape_tree shape.now)) }
    {
        if !self.some_great {
            return None;
        }
        let held = self.held_under(self.held_hash(name, shape))?;
        held.load_at(name, shape)
    }

    /// A variable: its value as it is; without a value it counts as null.
    fn variable_load(&self, shape: &Shape, name: &str) -> Option<Load>
        ensures { AreRight self.now → IfSome result (WeighsVariable (scale_of self.now.of) (shape_tree shape.now) name.now) }
    {
        match value_of(self.of.variables, name) {
            Some(value) => {
                if !fits(value, shape) {
                    return None;
                }
                if is_leaf(value) {
                    return self.of.value_load(value, shape);
                }
                match self.held_load(name, shape) {
                    Some(load) => Some(load),
                    None => self.of.value_load(value, shape),
                }
            }
            None => {
                if is_nullable(shape) {
                    Some(Load {
                        nodes: 1,
                        leaves: 0,
                        objects: 0,
                        inside: 0,
                    })
                } else {
                    None
                }
            }
        }
    }

    /// A literal at a place of this shape; none where it is refused, or where that isn't known.
    #[cycle(weighs)]
    #[tactic(auto, using(crate::proofs::OpenedTrees::opened_literals))]
    fn literal_load(&self, alloc: Global, shape: &Shape, value: &Value) -> Option<Load>
        ensures { AreRight self.now → IfSome result (WeighsLiteral (scale_of self.now.of) (shape_tree shape.now) value.now) }
    {
        self.of.work.count(steps_of(value));
        match value {
            Value::Var(name) => self.variable_load(shape, name.text.as_str()),
            Value::List(items) => match shape {
                Shape::Named { .. } => self.of.whole_load(alloc, shape, value),
                Shape::ListOf { item, .. } => { self.items_load(alloc, &**item, items.as_slice()) }
            },
            Value::Object(fields) => match self.of.schema.kind(innermost(shape)) {
                Kind::Input => wrapped(
                    shape,
                    self.input_load(alloc, innermost(shape), fields.as_slice()),
                ),
                _ => self.of.whole_load(alloc, shape, value),
            },
            Value::Int(_) => self.of.whole_load(alloc, shape, value),
            Value::Float(_) => self.of.whole_load(alloc, shape, value),
            Value::Str(_) => self.of.whole_load(alloc, shape, value),
            Value::Bool(_) => self.of.whole_load(alloc, shape, value),
            Value::Null => self.of.whole_load(alloc, shape, value),
            Value::EnumName(_) => self.of.whole_load(alloc, shape, value),
        }
    }

    /// A list of items, each at a place of this shape.
    #[cycle(weighs)]
    fn items_load(&self, alloc: Global, item: &Shape, items: &[Value]) -> Option<Load>
        ensures { AreRight self.now → IfSome result (WeighsList (scale_of self.now.of) (shape_tree item.now) (list_answer (scale_of self.now.of) items.now (shape_tree item.now))) }
    {
        let mut sum = Load {
            nodes: 0,
            leaves: 0,
            objects: 0,
            inside: 0,
        };
        'items: for at in (0..items.len()).rev() {
            let load = self.literal_load(alloc, item, &items[at])?;
            sum = both_loads(load, sum)?;
        }
        list_of(sum)
    }

    /// An object at an input object type.
    #[cycle(weighs)]
    fn input_load(&self, alloc: Global, of: TypeId, fields: &[Argument]) -> Option<Load>
        ensures { AreRight self.now → IfSome result (WeighsNamed (scale_of self.now.of) of.number (object_answer (scale_of self.now.of) fields.now of.number)) }
    {
        match self.of.schema.kind(of) {
            Kind::Input => {
                let known = self.known(Owner::OfType(of))?;
                object_of(self.inputs_sum(alloc, known, fields)?)
            }
            _ => None,
        }
    }

    /// What inputs come to together where these are written.
    #[cycle(weighs)]
    fn inputs_sum(
        &self,
        alloc: Global,
        known: &KnownInputs<'p>,
        written: &[Argument],
    ) -> Option<Sum>
        ensures { AreRight self.now → IsKnown (scale_of self.now.of) known.now → IfSome result (AreWritten (scale_of self.now.of) (placed_in known.now) written.now) }
    {
        self.of.work.count(written.len());
        if !are_once(alloc, written) {
            return None;
        }
        let mut sum = known.absent;
        'written: for at in (0..written.len()).rev() {
            sum = self.one_more(alloc, known, &written[at], sum)?;
        }
        Some(sum)
    }

    /// What they come to where one is written in front of others.
    #[cycle(weighs)]
    fn one_more(
        &self,
        alloc: Global,
        known: &KnownInputs<'p>,
        argument: &Argument,
        sum: Sum,
    ) -> Option<Sum>
        ensures { AreRight self.now → IsKnown (scale_of self.now.of) known.now → IfSome result (TakesOne (scale_of self.now.of) (placed_in known.now) argument.now sum) }
    {
        self.of.work.count(steps_of_name(argument));
        let placed = known.named(argument.name.text.as_str())?;
        if self.of.is_absent(&argument.value) {
            return Some(sum);
        }
        let load = self.literal_load(alloc, &placed.input.shape, &argument.value)?;
        if load.nodes > u64::from(VALUE_LIMIT) {
            return None;
        }
        let cost = cost_at(placed.own, load)?;
        with_value(sum, placed.absent, load.nodes, cost)
    }

    /// What the arguments of a field cost as they are written, where each of them is coerced and that is known.
    pub(crate) fn cost_known(&self, alloc: Global, of: FieldId, written: &[Argument]) -> Option<u64>
        ensures { AreRight self.now → IfSome result (HasWeighed (scale_of self.now.of) of.number written.now) }
    {
        let known = self.known(Owner::OfField(of))?;
        let sum = self.inputs_sum(alloc, known, written)?;
        if sum.refused > 0 {
            return None;
        }
        Some(sum.cost.min(CAP + 1))
    }
}
