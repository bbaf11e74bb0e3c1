//! What literals are weighed by, and what single values come to.

ghost use Rattle.std.specs.Prelude.{◌≡◌, IfSome};
ghost use Rattle.gql_base.specs.parts.Trees.{value_tree};
ghost use Rattle.input_values.specs.values.Coerced.{coerced_tree};
ghost use Rattle.input_values.specs.inputs.Shapes.{shape_tree};
ghost use Rattle.input_values.specs.inputs.Definitions.{input_data};
ghost use Rattle.input_values.specs.coercion.Given.{is_nothing};
ghost use Rattle.input_values.specs.coercion.Literals.{literal_given};
ghost use Rattle.schema_model.specs.SchemaViews.{schema_data};
ghost use Rattle.cost_directives.specs.WeightViews.{weights_data};
ghost use Rattle.variable_coercion.specs.Refusals.{value_limit};
ghost use Rattle.variable_coercion.specs.Calls.{environment};
ghost use Rattle.literal_loads.specs.Loads.{WeighsLiteral, ComesTo};
ghost use Rattle.literal_loads.specs.Sums.{IsAbsentSum};
ghost use Rattle.literal_loads.specs.KnownInputs.{scale_of};

use crate::load::{Load, Sum, cost_at};
use cost_directives::Weights;
use counted_work::Work;
use gql_base::{Indexed, Value};
use input_values::places::is_nullable;
use input_values::{Coerced, InputDef, Scope, Shape, VariableValue, coerce_literal, is_nothing};
use schema_model::Schema;
use std::alloc::Global;
use variable_coercion::{VALUE_LIMIT, Variables};

/// What literals are weighed by: a schema with its weights, and the values of variables.
#[derive(Clone, Copy)]
pub struct Weighing<'p> {
    pub schema: &'p Schema,
    pub weights: &'p Weights,
    pub variables: &'p Indexed<VariableValue>,
    pub work: Work<'p>,
}

/// What literals are weighed by, in a schema with its weights and beside the values of variables.
pub fn weighing_of<'p>(
    schema: &'p Schema,
    weights: &'p Weights,
    variables: &'p Variables,
    work: Work<'p>,
) -> Weighing<'p>
    ensures schema { (scale_of result).schema ≡ schema_data schema.now }
    ensures weights { (scale_of result).weights ≡ weights_data weights.now }
    ensures values { (scale_of result).values ≡ environment variables.now }
{
    Weighing {
        schema,
        weights,
        variables: variables.by_name(),
        work,
    }
}

impl<'p> Weighing<'p> {
    /// What literals are coerced beside.
    pub fn scope(&self) -> Scope<'p, Schema>
        ensures { result ≡ record { types = self.now.schema; variables = self.now.variables; limit = value_limit; work = self.now.work } }
    {
        Scope {
            types: self.schema,
            variables: self.variables,
            limit: VALUE_LIMIT,
            work: self.work,
        }
    }

    /// Whether a literal is a variable without a value.
    pub fn is_absent(&self, literal: &Value) -> bool
        ensures { result ≡ is_nothing (literal_given (scale_of self.now).values (value_tree literal.now)) }
    {
        is_nothing(&self.scope(), literal)
    }

    /// A literal, coerced as a whole; none where it is refused, or has more nodes than a value may have.
    pub fn built(&self, alloc: Global, shape: &Shape, literal: &Value) -> Option<Coerced>
        ensures { IfSome result (λ built. ComesTo (scale_of self.now) (shape_tree shape.now) literal.now (coerced_tree built)) }
    {
        let mut nodes = 0;
        match coerce_literal(alloc, &self.scope(), shape, literal, &mut nodes) {
            Ok(Some(built)) => {
                if nodes > u64::from(VALUE_LIMIT) {
                    return None;
                }
                Some(built)
            }
            Ok(None) => None,
            Err(_) => None,
        }
    }

    /// What a literal comes to that is coerced as a whole; none where it is refused, or where that isn't known.
    pub fn whole_load(&self, alloc: Global, shape: &Shape, value: &Value) -> Option<Load>
        ensures { IfSome result (WeighsLiteral (scale_of self.now) (shape_tree shape.now) value.now) }
    {
        match self.built(alloc, shape, value) {
            Some(built) => self.value_load(&built, shape),
            None => None,
        }
    }

    /// What an input comes to for which nothing is given, where its place has this weight of its own.
    pub fn absent_sum(&self, input: &InputDef, own: Option<u64>) -> Option<Sum>
        ensures { IfSome result (IsAbsentSum (scale_of self.now) (input_data input.now, own)) }
    {
        match &input.default {
            Some(default) => {
                let load = self.value_load(default, &input.shape)?;
                let cost = cost_at(own, load)?;
                Some(Sum {
                    refused: 0,
                    nodes: load.nodes,
                    cost,
                })
            }
            None => Some(Sum {
                refused: if is_nullable(&input.shape) { 0 } else { 1 },
                nodes: 0,
                cost: 0,
            }),
        }
    }
}
