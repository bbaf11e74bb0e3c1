//! What the values of arguments cost (IBM GraphQL Cost Directives Specification). Nothing here takes memory.

ghost use Rattle.std.specs.Prelude.{◌≡◌, ◌+◌, map, get_or, None};
ghost use Rattle.cost_num.specs.Capped.{capped};
ghost use Rattle.gql_base.specs.names.Names.{first_of_name};
ghost use Rattle.input_values.specs.inputs.Shapes.{shape_tree};
ghost use Rattle.input_values.specs.values.Coerced.{coerced_tree, named_tree, trees_from, named_trees_from};
ghost use Rattle.schema_model.specs.Arguments.{arg_data};
ghost use Rattle.cost_directives.specs.ArgumentCosts.{weighed_name, leaf_cost, object_cost, value_cost, items_cost, fields_cost, list_cost, record_cost, field_cost, argument_cost, arguments_cost};
ghost use Rattle.cost_directives.specs.WeightViews.{input_weight, type_inputs, maybe_input, inputs_seen, maybe_arg};

use crate::entries::{InputWeight, TypeWeight};
use cost_num::{CAP, UNIT};
use gql_base::Hashed;
use input_values::{Coerced, CoercedField, Shape, ShapeLevel, TypeId, shape_level};
use schema_model::Arg;

fn sum_capped(a: u64, b: u64) -> u64
    ensures { result ≡ capped (a + b) }
{
    a.saturating_add(b).min(CAP + 1)
}

fn leaf_cost(own: Option<u64>) -> u64
    ensures { result ≡ capped (leaf_cost own) }
{
    match own {
        Some(weight) => weight.min(CAP + 1),
        None => 0,
    }
}

fn object_cost(own: Option<u64>) -> u64
    ensures { result ≡ capped (object_cost own) }
{
    match own {
        Some(weight) => weight.min(CAP + 1),
        None => UNIT,
    }
}

/// An input object type.
pub fn object_at(types: &[TypeWeight], of: TypeId) -> Option<&TypeWeight>
    ensures { inputs_seen result ≡ get_or (map type_inputs types.now) of.number None }
{
    match types.get(of.number) {
        Some(found) => { if found.is_object { Some(found) } else { None } }
        None => None,
    }
}

/// A value at this type, where the place has this weight of its own.
#[cycle(costs)]
#[tactic(auto, using(crate::proofs::CoercedParts::coerced_parts))]
pub fn value_cost(value: &Coerced, types: &[TypeWeight], shape: &Shape, own: Option<u64>) -> u64
    ensures { result ≡ capped (value_cost (map type_inputs types.now) (shape_tree shape.now) own (coerced_tree value.now)) }
{
    match value {
        Coerced::Null => 0,
        Coerced::List(items) => list_cost(items.as_slice(), types, shape, own),
        Coerced::Object(fields) => record_cost(fields.as_slice(), types, shape, own),
        Coerced::Shared(held) => value_cost(held, types, shape, own),
        Coerced::Int(_) => leaf_cost(own),
        Coerced::Float(_) => leaf_cost(own),
        Coerced::Str(_) => leaf_cost(own),
        Coerced::Bool(_) => leaf_cost(own),
        Coerced::EnumName(_) => leaf_cost(own),
    }
}

#[cycle(costs)]
fn list_cost(items: &[Coerced], types: &[TypeWeight], shape: &Shape, own: Option<u64>) -> u64
    ensures { result ≡ capped (list_cost (map type_inputs types.now) (shape_tree shape.now) own (trees_from (map coerced_tree items.now))) }
{
    match shape_level(shape) {
        ShapeLevel::Named { of: _, nullable: _ } => leaf_cost(own),
        ShapeLevel::ListOf { item, nullable: _ } => items_cost(items, types, item, own),
    }
}

#[cycle(costs)]
fn items_cost(items: &[Coerced], types: &[TypeWeight], item: &Shape, own: Option<u64>) -> u64
    ensures { result ≡ capped (items_cost (map type_inputs types.now) (shape_tree item.now) own (trees_from (map coerced_tree items.now))) }
{
    let mut sum: u64 = 0;
    'items: for value in items {
        sum = sum_capped(sum, value_cost(value, types, item, own));
    }
    sum
}

#[cycle(costs)]
fn record_cost(
    fields: &[CoercedField],
    types: &[TypeWeight],
    shape: &Shape,
    own: Option<u64>,
) -> u64
    ensures { result ≡ capped (record_cost (map type_inputs types.now) (shape_tree shape.now) own (named_trees_from (map named_tree fields.now))) }
{
    match shape_level(shape) {
        ShapeLevel::ListOf {
            item: _,
            nullable: _,
        } => leaf_cost(own),
        ShapeLevel::Named { of, nullable: _ } => match object_at(types, of) {
            None => leaf_cost(own),
            Some(object) => sum_capped(
                object_cost(own),
                fields_cost(fields, types, &object.inputs),
            ),
        },
    }
}

#[cycle(costs)]
fn fields_cost(fields: &[CoercedField], types: &[TypeWeight], inputs: &Hashed<InputWeight>) -> u64
    ensures { result ≡ capped (fields_cost (map type_inputs types.now) (map input_weight inputs.now.items.items) (named_trees_from (map named_tree fields.now))) }
{
    let mut sum: u64 = 0;
    'fields: for field in fields {
        sum = sum_capped(sum, field_cost(field, types, inputs));
    }
    sum
}

fn input_named<'a>(inputs: &'a Hashed<InputWeight>, name: &str) -> Option<&'a InputWeight>
    ensures { maybe_input result ≡ first_of_name weighed_name (map input_weight inputs.now.items.items) name.now }
{
    inputs.first_named(name)
}

#[cycle(costs)]
fn field_cost(field: &CoercedField, types: &[TypeWeight], inputs: &Hashed<InputWeight>) -> u64
    ensures { result ≡ capped (field_cost (map type_inputs types.now) (map input_weight inputs.now.items.items) (named_tree field.now)) }
{
    match input_named(inputs, field.name.as_str()) {
        Some(input) => value_cost(&field.value, types, &input.shape, input.own),
        None => 0,
    }
}

fn argument_cost(types: &[TypeWeight], input: &InputWeight, arg: Option<&Arg>) -> u64
    ensures { result ≡ capped (argument_cost (map type_inputs types.now) (input_weight input.now) (maybe_arg arg.entry).value) }
{
    match arg {
        Some(arg) => match &arg.value {
            Some(value) => value_cost(value, types, &input.shape, input.own),
            None => 0,
        },
        None => 0,
    }
}

/// What the arguments of a field cost, in millionths, or one more than the cap where that is more. It takes no memory.
pub fn arguments_cost(types: &[TypeWeight], inputs: &[InputWeight], args: &[Arg]) -> u64
    ensures { result ≡ capped (arguments_cost (map type_inputs types.now) (map input_weight inputs.now) (map arg_data args.now)) }
{
    let mut sum: u64 = 0;
    for at in 0..inputs.len() {
        sum = sum_capped(sum, argument_cost(types, &inputs[at], args.get(at)));
    }
    sum
}
