//! The arguments of a field, and the fields of an input object type: as the schema and the weights have them, and what they come
//! to where nothing is written.

ghost use Rattle.std.specs.Prelude.{◌≡◌, true, [], map, All, IsTrue, IfOk, IfSome};
ghost use Rattle.gql_base.specs.names.Names.{are_distinct, first_of_name};
ghost use Rattle.input_values.specs.inputs.Shapes.{shape_tree};
ghost use Rattle.input_values.specs.inputs.Definitions.{input_data};
ghost use Rattle.cost_directives.specs.WeightViews.{input_weight, weighed_inputs};
ghost use Rattle.literal_loads.specs.Loads.{Scale};
ghost use Rattle.literal_loads.specs.Sums.{placed_input, placed_name, placed_weight, IsSum};
ghost use Rattle.literal_loads.specs.KnownInputs.{scale_of, inputs_of, weights_of, placed_seen, all_placed, maybe_placed, placed_in, IsAbsentRight, IsKnown};

use crate::load::{Sum, both_sums};
use crate::placed::PlacedInput;
use crate::weighing::Weighing;
use cost_directives::InputWeight;
use gql_base::{Hashed, hashed_by_name, index_of};
use input_values::{InputDef, Shape, ShapeLevel, TypeId, shape_level};
use schema_model::FieldId;
use std::alloc::{AllocError, Global};

/// What has inputs.
#[derive(Clone, Copy, PartialEq, Eq)]
pub enum Owner {
    OfType(TypeId),
    OfField(FieldId),
}

/// The inputs of a type or of a field, and what they come to where nothing is written.
#[derive(Drop)]
pub struct KnownInputs<'p> {
    pub owner: Owner,
    pub inputs: Hashed<PlacedInput<'p>>,
    pub absent: Sum,
}

impl<'p> KnownInputs<'p> {
    /// The input of this name.
    pub fn named(&self, name: &str) -> Option<&PlacedInput<'p>>
        ensures found { maybe_placed result ≡ first_of_name placed_name (placed_in self.now) name.now }
        ensures right { (e : Scale) → All (IsAbsentRight e) self.now.inputs.items.items → IfSome result (λ p. IsAbsentRight e p.now) }
    {
        self.inputs.first_named(name)
    }
}

/// Whether two shapes are the same.
#[tactic(auto, using(crate::proofs::OpenedTrees::opened_shapes))]
fn same_shape(shape: &Shape, other: &Shape) -> bool
    ensures { IsTrue result → shape_tree shape.now ≡ shape_tree other.now }
{
    match shape {
        Shape::Named { of, nullable } => match shape_level(other) {
            ShapeLevel::Named {
                of: number,
                nullable: null,
            } => *of == number && *nullable == null,
            ShapeLevel::ListOf { .. } => false,
        },
        Shape::ListOf { item, nullable } => match shape_level(other) {
            ShapeLevel::ListOf {
                item: within,
                nullable: null,
            } => *nullable == null && same_shape(&**item, within),
            ShapeLevel::Named { .. } => false,
        },
    }
}

/// Whether the schema and the weights speak of the same input.
fn agree(input: &InputDef, weight: &InputWeight) -> bool
    ensures { IsTrue result → placed_weight (input_data input.now, weight.now.own) ≡ input_weight weight.now }
{
    input.name.as_str() == weight.name.as_str() && same_shape(&input.shape, &weight.shape)
}

/// Whether no two of them have one name.
fn are_once(alloc: Global, placed: &[PlacedInput<'_>]) -> Result<bool, AllocError>
    ensures { IfOk result (λ once. once ≡ are_distinct (map placed_name (all_placed placed.now))) }
{
    Ok(index_of(alloc, placed)?.are_distinct())
}

impl<'p> Weighing<'p> {
    /// The inputs that the schema defines.
    fn inputs(&self, owner: Owner) -> &'p [InputDef]
        ensures { map input_data result.now ≡ inputs_of (scale_of self.now) owner }
    {
        match owner {
            Owner::OfType(of) => self.schema.input_fields(of),
            Owner::OfField(of) => self.schema.arguments(of),
        }
    }

    /// The inputs that the weights have.
    fn weighed(&self, owner: Owner) -> Option<&'p [InputWeight]>
        ensures { weighed_inputs result ≡ weights_of (scale_of self.now) owner }
    {
        match owner {
            Owner::OfType(of) => self.weights.weighed_fields(of),
            Owner::OfField(of) => Some(self.weights.weighed_arguments(of)),
        }
    }

    /// An input with its weight, and what it comes to where nothing is given for it; none where that isn't known.
    fn placed(&self, input: &'p InputDef, own: Option<u64>) -> Option<PlacedInput<'p>>
        ensures seen { IfSome result (λ p. placed_seen p ≡ (input_data input.now, own)) }
        ensures right { IfSome result (IsAbsentRight (scale_of self.now)) }
    {
        let absent = self.absent_sum(input, own)?;
        Some(PlacedInput { input, own, absent })
    }

    /// The inputs with their weights; none where the schema and the weights don't agree.
    fn placed_inputs(
        &self,
        alloc: Global,
        inputs: &'p [InputDef],
        weights: &[InputWeight],
    ) -> Result<Option<Vec<PlacedInput<'p>>>, AllocError>
        ensures inputs { IfOk result (λ found. IfSome found (λ placed. map placed_input (all_placed placed.items) ≡ map input_data inputs.now)) }
        ensures weights { IfOk result (λ found. IfSome found (λ placed. map placed_weight (all_placed placed.items) ≡ map input_weight weights.now)) }
        ensures right { IfOk result (λ found. IfSome found (λ placed. All (IsAbsentRight (scale_of self.now)) placed.items)) }
    {
        if inputs.len() != weights.len() {
            return Ok(None);
        }
        self.work.take(inputs.len())?;
        let mut placed = Vec::new(alloc);
        for at in 0..inputs.len() {
            if !agree(&inputs[at], &weights[at]) {
                return Ok(None);
            }
            match self.placed(&inputs[at], weights[at].own) {
                Some(one) => placed.push(one)?,
                None => return Ok(None),
            }
        }
        Ok(Some(placed))
    }

    /// What inputs come to where nothing is written.
    fn all_absent(&self, placed: &[PlacedInput<'_>]) -> Option<Sum>
        ensures { All (IsAbsentRight (scale_of self.now)) placed.now → IfSome result (IsSum (scale_of self.now) (all_placed placed.now) []) }
    {
        let mut sum = Sum {
            refused: 0,
            nodes: 0,
            cost: 0,
        };
        for at in (0..placed.len()).rev() {
            sum = both_sums(sum, placed[at].absent)?;
        }
        Some(sum)
    }

    /// What is kept of inputs that were found.
    fn kept(
        &self,
        alloc: Global,
        owner: Owner,
        placed: Vec<PlacedInput<'p>>,
    ) -> Result<Option<KnownInputs<'p>>, AllocError>
        ensures owner { IfOk result (λ found. IfSome found (λ known. known.owner ≡ owner)) }
        ensures placed { IfOk result (λ found. IfSome found (λ known. placed_in known ≡ all_placed placed.entry.items)) }
        ensures once { IfOk result (λ found. IfSome found (λ known. are_distinct (map placed_name (placed_in known)) ≡ true)) }
        ensures absent { All (IsAbsentRight (scale_of self.now)) placed.entry.items → IfOk result (λ found. IfSome found (λ known. IsSum (scale_of self.now) (placed_in known) [] known.absent)) }
        ensures right { All (IsAbsentRight (scale_of self.now)) placed.entry.items → IfOk result (λ found. IfSome found (λ known. All (IsAbsentRight (scale_of self.now)) known.inputs.items.items)) }
    {
        if !are_once(alloc, placed.as_slice())? {
            return Ok(None);
        }
        match self.all_absent(placed.as_slice()) {
            Some(absent) => {
                let inputs = hashed_by_name(alloc, placed)?;
                Ok(Some(KnownInputs {
                    owner,
                    inputs,
                    absent,
                }))
            }
            None => Ok(None),
        }
    }

    /// The inputs of a type or of a field; none where the weights don't agree with the schema, or where two have one name.
    pub fn known_inputs(
        &self,
        alloc: Global,
        owner: Owner,
    ) -> Result<Option<KnownInputs<'p>>, AllocError>
        ensures owner { IfOk result (λ found. IfSome found (λ known. known.owner ≡ owner)) }
        ensures known { IfOk result (λ found. IfSome found (λ known. IsKnown (scale_of self.now) known)) }
    {
        match self.weighed(owner) {
            Some(weights) => match self.placed_inputs(alloc, self.inputs(owner), weights)? {
                Some(placed) => self.kept(alloc, owner, placed),
                None => Ok(None),
            },
            None => Ok(None),
        }
    }
}
