//! What a field is weighed by: its weight, its arguments and the rule of its size.

ghost use Rattle.std.specs.Prelude.{◌≡◌, ◌++◌, map, IfOk, option_map};
ghost use Rattle.input_values.specs.inputs.Shapes.{shape_tree};
ghost use Rattle.input_values.specs.inputs.Definitions.{input_data};
ghost use Rattle.schema_model.specs.SchemaData.{type_at, field_at};
ghost use Rattle.schema_model.specs.SchemaViews.{schema_data};
ghost use Rattle.schema_model.specs.Entries.{maybe_size, maybe_text};
ghost use Rattle.cost_directives.specs.Weighing.{usual_weight_of_type, weight_or, weight_of_type, type_inside, is_list_shape, is_leaf, returned, usual_weight_of_field, weight_of_field, is_free_list};
ghost use Rattle.cost_directives.specs.Weights.{input_weight_of, inputs_of, type_weight_of, type_weight_at, rule_of, size_rule_of, field_weight_of, field_weight_at};
ghost use Rattle.cost_directives.specs.WeightViews.{input_weight, type_weight, field_weight, size_rule};

use crate::above::{inherited_size, inherited_weight};
use crate::arguments::places_of;
use crate::entries::{FieldWeight, InputWeight, SizeRule, TypeWeight};
use crate::readings::weight_in;
use cost_num::UNIT;
use gql_base::{Text, hashed_by_name};
use input_values::{InputDef, Shape, ShapeLevel, TypeId, copy_shape, shape_level};
use schema_model::{FieldId, Kind, ListSize, Schema};
use std::alloc::{AllocError, Global};

fn usual_weight_of_type(kind: Kind) -> u64
    ensures { result ≡ usual_weight_of_type kind }
{
    match kind {
        Kind::Object => UNIT,
        Kind::Scalar => 0,
        Kind::Enum => 0,
        Kind::Interface => 0,
        Kind::Union => 0,
        Kind::Input => 0,
    }
}

fn usual_weight_of_field(kind: Kind) -> u64
    ensures { result ≡ usual_weight_of_field kind }
{
    match kind {
        Kind::Object => UNIT,
        Kind::Interface => UNIT,
        Kind::Union => UNIT,
        Kind::Scalar => 0,
        Kind::Enum => 0,
        Kind::Input => 0,
    }
}

fn weight_or(usual: u64, weight: Option<u64>) -> u64
    ensures { result ≡ weight_or usual weight }
{
    match weight {
        Some(weight) => weight,
        None => usual,
    }
}

fn weight_of_type(schema: &Schema, of: TypeId) -> u64
    ensures { result ≡ weight_of_type (type_at (schema_data schema.now) of.number) }
{
    weight_or(
        usual_weight_of_type(schema.kind(of)),
        weight_in(schema.type_cost(of)),
    )
}

/// The named type inside of a type.
#[tactic(auto, using(crate::proofs::OpenedShapes::opened_shapes))]
pub fn type_inside(shape: &Shape) -> TypeId
    ensures { result.number ≡ type_inside (shape_tree shape.now) }
{
    match shape {
        Shape::Named { of, nullable: _ } => *of,
        Shape::ListOf { item, nullable: _ } => type_inside(&**item),
    }
}

/// Whether a type is a list.
pub fn is_list(shape: &Shape) -> bool
    ensures { result ≡ is_list_shape (shape_tree shape.now) }
{
    match shape_level(shape) {
        ShapeLevel::Named { of: _, nullable: _ } => false,
        ShapeLevel::ListOf {
            item: _,
            nullable: _,
        } => true,
    }
}

fn is_leaf(kind: Kind) -> bool
    ensures { result ≡ is_leaf kind }
{
    match kind {
        Kind::Scalar => true,
        Kind::Enum => true,
        Kind::Object => false,
        Kind::Interface => false,
        Kind::Union => false,
        Kind::Input => false,
    }
}

fn weight_of_field(schema: &Schema, field: FieldId) -> u64
    ensures { result ≡ weight_of_field (schema_data schema.now) (field_at (schema_data schema.now) field.number) }
{
    let returned = type_inside(schema.field_shape(field));
    weight_or(
        usual_weight_of_field(schema.kind(returned)),
        inherited_weight(schema, field),
    )
}

fn is_free_list(schema: &Schema, field: FieldId) -> bool
    ensures { result ≡ is_free_list (schema_data schema.now) (field_at (schema_data schema.now) field.number) }
{
    let shape = schema.field_shape(field);
    if !is_list(shape) {
        return false;
    }
    let returned = type_inside(shape);
    if is_leaf(schema.kind(returned)) {
        weight_of_type(schema, returned) == 0
    } else {
        false
    }
}

fn input_weight_of(alloc: Global, input: &InputDef) -> Result<InputWeight, AllocError>
    ensures { IfOk result (λ made. input_weight made ≡ input_weight_of (input_data input.now)) }
{
    Ok(InputWeight {
        name: Text::copy_of(alloc, input.name.as_str())?,
        shape: copy_shape(alloc, &input.shape)?,
        own: weight_in(input.cost.as_ref()),
    })
}

fn input_weights_of(alloc: Global, inputs: &[InputDef]) -> Result<Vec<InputWeight>, AllocError>
    ensures { IfOk result (λ made. map input_weight made.items ≡ map input_weight_of (map input_data inputs.now)) }
{
    let mut made = Vec::new(alloc);
    for input in inputs {
        made.push(input_weight_of(alloc, input)?)?;
    }
    Ok(made)
}

fn copied(alloc: Global, names: &[Text]) -> Result<Vec<Text>, AllocError>
    ensures { IfOk result (λ copies. copies.items ≡ names.now) }
{
    let mut copies = Vec::new(alloc);
    for name in names {
        copies.push(Text::copy_of(alloc, name.as_str())?)?;
    }
    Ok(copies)
}

fn rule_of(
    alloc: Global,
    arguments: &[InputDef],
    is_free: bool,
    size: Option<&ListSize>,
) -> Result<SizeRule, AllocError>
    ensures { IfOk result (λ rule. size_rule rule ≡ rule_of (map input_data arguments.now) is_free (maybe_size size.entry)) }
{
    match size {
        Some(size) => Ok(SizeRule {
            assumed: size.assumed,
            slicing: places_of(alloc, arguments, &size.slicing)?,
            require_one: size.require_one,
            sized: copied(alloc, &size.sized)?,
            is_free,
        }),
        None => Ok(SizeRule {
            assumed: None,
            slicing: Vec::new(alloc),
            require_one: false,
            sized: Vec::new(alloc),
            is_free,
        }),
    }
}

/// What a field is weighed by. It fails for want of memory alone.
pub fn field_weight_of(
    alloc: Global,
    schema: &Schema,
    field: FieldId,
) -> Result<FieldWeight, AllocError>
    ensures { IfOk result (λ made. field_weight made ≡ field_weight_at (schema_data schema.now) field.number) }
{
    let arguments = schema.arguments(field);
    let is_free = is_free_list(schema, field);
    Ok(FieldWeight {
        weight: weight_of_field(schema, field),
        arguments: input_weights_of(alloc, arguments)?,
        size: rule_of(alloc, arguments, is_free, inherited_size(schema, field))?,
    })
}

/// What a type weighs, and what it asks for as an input. It fails for want of memory alone.
pub fn type_weight_of(alloc: Global, schema: &Schema, of: TypeId) -> Result<TypeWeight, AllocError>
    ensures { IfOk result (λ made. type_weight made ≡ type_weight_at (schema_data schema.now) of.number) }
{
    let is_object = schema.kind(of).is_input_only();
    Ok(TypeWeight {
        weight: weight_of_type(schema, of),
        is_object,
        inputs: hashed_by_name(alloc, input_weights_of(alloc, schema.input_fields(of))?)?,
    })
}
