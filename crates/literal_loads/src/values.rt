//! What values that are built come to.

ghost use Rattle.std.specs.Prelude.{◌≡◌, map, All, IsTrue, IfSome, Some};
ghost use Rattle.gql_base.specs.names.Names.{first_of_name};
ghost use Rattle.input_values.specs.inputs.Shapes.{shape_tree};
ghost use Rattle.input_values.specs.values.Coerced.{coerced_tree, named_tree, nodes, trees_from, named_trees_from};
ghost use Rattle.cost_directives.specs.ArgumentCosts.{weighed_name, value_cost};
ghost use Rattle.cost_directives.specs.Weights.{objects_in};
ghost use Rattle.cost_directives.specs.WeightViews.{input_weight, maybe_input, weighed_inputs, weights_data};
ghost use Rattle.literal_loads.specs.LoadSums.{IsLeaf, HasInside};
ghost use Rattle.literal_loads.specs.Loads.{IsLoad, AreLoads, IsField, AreFields, IsFree, inputs_there};
ghost use Rattle.literal_loads.specs.KnownInputs.{scale_of};

use crate::load::{
    Load, Sum, both_loads, both_sums, cost_at, leaf_of, list_of, object_of, object_with,
};
use crate::same_values::steps_of_name;
use crate::weighing::Weighing;
use cost_directives::InputWeight;
use cost_num::CAP;
use counted_work::Work;
use input_values::places::innermost;
use input_values::{Coerced, CoercedField, Shape, ShapeLevel, count_nodes, shape_level};
use variable_coercion::VALUE_LIMIT;

/// Of so few inputs the one that a field has is looked for in turn.
const FEW: usize = 32;

/// How many nodes a value has; none where these are more than a value may have.
fn nodes_within(work: Work<'_>, value: &Coerced) -> Option<u64>
    ensures { IfSome result (λ count. count ≡ nodes (coerced_tree value.now)) }
{
    let mut count = 0;
    count_nodes(value, VALUE_LIMIT, &mut count);
    work.count(count as usize);
    if count > u64::from(VALUE_LIMIT) {
        return None;
    }
    Some(count)
}

/// A leaf: a list or an object has others below it, in the value of a custom scalar.
fn leaf_value(work: Work<'_>, value: &Coerced) -> Option<Load>
    ensures { IfSome result (IsLeaf (nodes (coerced_tree value.now))) }
{
    let nodes = nodes_within(work, value)?;
    Some(leaf_of(nodes))
}

/// An input object inside of which nothing is paid for.
fn free_object(work: Work<'_>, value: &Coerced) -> Option<Load>
    ensures { IfSome result (HasInside (nodes (coerced_tree value.now)) 0) }
{
    let nodes = nodes_within(work, value)?;
    Some(object_with(nodes, 0))
}

/// So many inputs at most are looked at where an object has so many fields, since it may have few of them.
fn most_inputs(fields: usize) -> usize {
    fields.saturating_mul(2).saturating_add(FEW)
}

/// The first input of this name.
fn input_named<'a>(inputs: &'a [InputWeight], name: &str) -> Option<&'a InputWeight>
    ensures { maybe_input result ≡ first_of_name weighed_name (map input_weight inputs.now) name.now }
{
    for input in inputs {
        if input.name.as_str() == name {
            return Some(input);
        }
    }
    None
}

impl<'p> Weighing<'p> {
    /// What a value costs at a place with this weight of its own; none where that exceeds the cap.
    fn cost_within(&self, shape: &Shape, own: Option<u64>, value: &Coerced) -> Option<u64>
        ensures { IfSome result (λ cost. cost ≡ value_cost (objects_in (weights_data self.now.weights.now)) (shape_tree shape.now) own (coerced_tree value.now)) }
    {
        let cost = self.weights.value_cost(shape, own, value);
        if cost > CAP {
            return None;
        }
        Some(cost)
    }

    /// The inputs of the input object type that places of this shape have.
    fn inputs_there(&self, shape: &Shape) -> Option<&'p [InputWeight]>
        ensures { weighed_inputs result ≡ inputs_there (objects_in (weights_data self.now.weights.now)) (shape_tree shape.now) }
    {
        match shape_level(shape) {
            ShapeLevel::Named { of, nullable: _ } => self.weights.weighed_fields(of),
            ShapeLevel::ListOf {
                item: _,
                nullable: _,
            } => None,
        }
    }

    /// Whether nothing is paid for what an input is given.
    fn is_free(&self, input: &InputWeight) -> bool
        ensures { IsTrue result → IsFree (objects_in (weights_data self.now.weights.now)) (input_weight input.now) }
    {
        if input.own.is_some() {
            return false;
        }
        match self.weights.weighed_fields(innermost(&input.shape)) {
            Some(_) => false,
            None => true,
        }
    }

    /// Whether nothing is paid for what inputs are given. Of more than so many it says no.
    fn are_free(&self, inputs: &[InputWeight], most: usize) -> bool
        ensures { IsTrue result → All (λ i. IsFree (objects_in (weights_data self.now.weights.now)) (input_weight i)) inputs.now }
    {
        if inputs.len() > most {
            return false;
        }
        self.work.count(inputs.len());
        for input in inputs {
            if !self.is_free(input) {
                return false;
            }
        }
        true
    }

    /// An input object of many inputs, which are looked up by their names. What is inside of it is what it costs at a place that weighs nothing.
    fn great_object(&self, value: &Coerced, shape: &Shape) -> Option<Load>
        ensures { IfSome result (HasInside (nodes (coerced_tree value.now)) (value_cost (objects_in (weights_data self.now.weights.now)) (shape_tree shape.now) (Some 0) (coerced_tree value.now))) }
    {
        let nodes = nodes_within(self.work, value)?;
        let inside = self.cost_within(shape, Some(0), value)?;
        Some(object_with(nodes, inside))
    }

    /// What a value comes to at a place of this shape; none where it has more nodes than a value may have, or costs more than the cap.
    #[cycle(values)]
    #[tactic(auto, using(crate::proofs::OpenedTrees::opened_coerced))]
    pub fn value_load(&self, value: &Coerced, shape: &Shape) -> Option<Load>
        ensures { IfSome result (IsLoad (scale_of self.now) (shape_tree shape.now) (coerced_tree value.now)) }
    {
        self.work.count(1);
        let leaf = leaf_of(1);
        match value {
            Coerced::Shared(held) => self.value_load(held, shape),
            Coerced::List(items) => match shape_level(shape) {
                ShapeLevel::ListOf { item, nullable: _ } => {
                    list_of(self.items_together(items.as_slice(), item)?)
                }
                ShapeLevel::Named { of: _, nullable: _ } => leaf_value(self.work, value),
            },
            Coerced::Object(fields) => match self.inputs_there(shape) {
                Some(inputs) => {
                    if self.are_free(inputs, most_inputs(fields.len())) {
                        return free_object(self.work, value);
                    }
                    if inputs.len() > FEW {
                        return self.great_object(value, shape);
                    }
                    object_of(self.fields_together(fields.as_slice(), inputs)?)
                }
                None => leaf_value(self.work, value),
            },
            Coerced::Null => Some(Load {
                nodes: 1,
                leaves: 0,
                objects: 0,
                inside: 0,
            }),
            Coerced::Int(_) => Some(leaf),
            Coerced::Float(_) => Some(leaf),
            Coerced::Str(_) => Some(leaf),
            Coerced::Bool(_) => Some(leaf),
            Coerced::EnumName(_) => Some(leaf),
        }
    }

    /// What items come to together, each at a place of this shape.
    #[cycle(values)]
    fn items_together(&self, items: &[Coerced], item: &Shape) -> Option<Load>
        ensures { IfSome result (AreLoads (scale_of self.now) (shape_tree item.now) (trees_from (map coerced_tree items.now))) }
    {
        let mut sum = Load {
            nodes: 0,
            leaves: 0,
            objects: 0,
            inside: 0,
        };
        'items: for value in items {
            let load = self.value_load(value, item)?;
            sum = both_loads(sum, load)?;
        }
        Some(sum)
    }
    /// What the fields of an object with these inputs come to together.
    #[cycle(values)]
    fn fields_together(&self, fields: &[CoercedField], inputs: &[InputWeight]) -> Option<Sum>
        ensures { IfSome result (AreFields (scale_of self.now) (map input_weight inputs.now) (named_trees_from (map named_tree fields.now))) }
    {
        let mut sum = Sum {
            refused: 0,
            nodes: 0,
            cost: 0,
        };
        'fields: for field in fields {
            let one = self.field_sum(field, inputs)?;
            sum = both_sums(sum, one)?;
        }
        Some(sum)
    }

    /// What a field of an object with these inputs comes to.
    #[cycle(values)]
    fn field_sum(&self, field: &CoercedField, inputs: &[InputWeight]) -> Option<Sum>
        ensures { IfSome result (IsField (scale_of self.now) (map input_weight inputs.now) (named_tree field.now)) }
    {
        self.work.count(steps_of_name(field, inputs.len()));
        match input_named(inputs, field.name.as_str()) {
            Some(input) => {
                let load = self.value_load(&field.value, &input.shape)?;
                let cost = cost_at(input.own, load)?;
                Some(Sum {
                    refused: 0,
                    nodes: load.nodes,
                    cost,
                })
            }
            None => {
                let nodes = nodes_within(self.work, &field.value)?;
                Some(Sum {
                    refused: 0,
                    nodes,
                    cost: 0,
                })
            }
        }
    }
}
