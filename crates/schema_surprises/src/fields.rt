//! Which fields surprise.

ghost use Rattle.std.specs.Prelude.{◌≡◌, IfOk, true, false, [], map, option_map};
ghost use Rattle.std.specs.List.{list_any};
ghost use Rattle.schema_model.specs.SchemaData.{field_at};
ghost use Rattle.schema_model.specs.SchemaViews.{schema_data};
ghost use Rattle.schema_model.specs.Entries.{maybe_size, field_number};
ghost use Rattle.schema_model.specs.Numbers.{type_number};
ghost use Rattle.input_values.specs.inputs.Definitions.{input_data};
ghost use Rattle.input_values.specs.inputs.Shapes.{shape_tree};
ghost use Rattle.cost_directives.specs.Weighing.{type_inside};
ghost use Rattle.cost_directives.specs.DeclaredSizes.{is_value};
ghost use Rattle.cost_directives.specs.WeightViews.{weights_data};
ghost use Rattle.cost_directives.specs.Weights.{field_numbers};
ghost use Rattle.schema_surprises.specs.Surprises.{requires_one, is_sliced, is_named, slices_by_default, defaults_among, defaults_of, is_undeclared, has_usual_size, declares_none, declares_none_unsliced, is_unsized, is_unsliced, must_be_sliced, has_inherited_weight, hands_size, is_of_object, leads_to, hands_as, is_way, hands_some, handing_fields, is_number, is_root, is_handed_in, is_handed, surprises_at, is_told, places_of};

use crate::surprise::Surprise;
use cost_directives::{
    SizeSource, Weights, field_place, has_own_weight, inherited_size, inherited_weight, is_list,
};
use gql_base::Text;
use input_values::{InputDef, Shape, TypeId, is_null};
use schema_model::{Args, FieldId, ListSize, Schema};
use std::alloc::{AllocError, Global};

fn is_sliced(size: Option<&ListSize>) -> bool
    ensures { result ≡ is_sliced (maybe_size size.entry) }
{
    match size {
        Some(size) => !size.slicing.is_empty(),
        None => false,
    }
}

fn requires_one(size: Option<&ListSize>) -> bool
    ensures { result ≡ requires_one (maybe_size size.entry) }
{
    match size {
        Some(size) => size.require_one,
        None => false,
    }
}

fn is_named(names: &[Text], name: &str) -> bool
    ensures { result ≡ is_named names.now name.now }
{
    'names: for other in names {
        if name == other.as_str() {
            return true;
        }
    }
    false
}

fn has_default(argument: &InputDef) -> bool
    ensures { result ≡ is_value (input_data argument.now).default }
{
    match &argument.default {
        Some(value) => !is_null(value),
        None => false,
    }
}

fn slices_by_default(names: &[Text], argument: &InputDef) -> bool
    ensures { result ≡ slices_by_default names.now (input_data argument.now) }
{
    is_named(names, argument.name.as_str()) && has_default(argument)
}

fn defaults_among(names: &[Text], arguments: &[InputDef]) -> usize
    ensures { result ≡ defaults_among names.now (map input_data arguments.now) }
{
    let mut count = 0;
    for at in 0..arguments.len() {
        if slices_by_default(names, &arguments[at]) {
            count += 1;
        }
    }
    count
}

// How many of a field's arguments slice and have a default.
fn defaults_of(schema: &Schema, field: FieldId) -> usize
    ensures { result ≡ defaults_of (schema_data schema.now) (field_at (schema_data schema.now) field.number) }
{
    match inherited_size(schema, field) {
        Some(size) => defaults_among(&size.slicing, schema.arguments(field)),
        None => defaults_among(&[], schema.arguments(field)),
    }
}

fn is_undeclared(source: SizeSource) -> bool
    ensures { result ≡ is_undeclared source }
{
    matches!(source, SizeSource::Undeclared(_))
}

fn has_usual_size(weights: &Weights, none: &Args, field: FieldId) -> bool
    requires empty { none.now.list.items ≡ [] }
    ensures { result ≡ has_usual_size (weights_data weights.now) field.number }
{
    is_undeclared(weights.size_source(field, none, None))
}

fn declares_none(schema: &Schema, weights: &Weights, none: &Args, field: FieldId) -> bool
    requires empty { none.now.list.items ≡ [] }
    ensures { result ≡ declares_none (schema_data schema.now) (weights_data weights.now) field.number }
{
    !is_sliced(inherited_size(schema, field)) && has_usual_size(weights, none, field)
}

fn declares_none_unsliced(schema: &Schema, weights: &Weights, none: &Args, field: FieldId) -> bool
    requires empty { none.now.list.items ≡ [] }
    ensures { result ≡ declares_none_unsliced (schema_data schema.now) (weights_data weights.now) field.number }
{
    let size = inherited_size(schema, field);
    is_sliced(size)
        && !requires_one(size)
        && defaults_of(schema, field) == 0
        && has_usual_size(weights, none, field)
}

fn is_unsized(schema: &Schema, weights: &Weights, none: &Args, field: FieldId) -> bool
    requires empty { none.now.list.items ≡ [] }
    ensures { result ≡ is_unsized (schema_data schema.now) (weights_data weights.now) field.number }
{
    is_list(schema.field_shape(field)) && declares_none(schema, weights, none, field)
}

fn is_unsliced(schema: &Schema, weights: &Weights, none: &Args, field: FieldId) -> bool
    requires empty { none.now.list.items ≡ [] }
    ensures { result ≡ is_unsliced (schema_data schema.now) (weights_data weights.now) field.number }
{
    is_list(schema.field_shape(field)) && declares_none_unsliced(schema, weights, none, field)
}

fn must_be_sliced(schema: &Schema, field: FieldId) -> bool
    ensures { result ≡ must_be_sliced (schema_data schema.now) field.number }
{
    let size = inherited_size(schema, field);
    is_sliced(size) && requires_one(size) && defaults_of(schema, field) != 1
}

fn has_inherited_weight(schema: &Schema, field: FieldId) -> bool
    ensures { result ≡ has_inherited_weight (schema_data schema.now) field.number }
{
    !has_own_weight(schema, field) && inherited_weight(schema, field).is_some()
}

// By its `sizedFields` a field hands a size that it declares down to lists of this name.
fn hands_size(schema: &Schema, weights: &Weights, none: &Args, name: &str, field: FieldId) -> bool
    requires empty { none.now.list.items ≡ [] }
    ensures { result ≡ hands_size (schema_data schema.now) (weights_data weights.now) name.now field.number }
{
    is_named(weights.sized_fields(field), name)
        && !declares_none(schema, weights, none, field)
        && !declares_none_unsliced(schema, weights, none, field)
}

#[tactic(auto, using(crate::proofs::Shapes::opened_shapes))]
fn type_inside(shape: &Shape) -> TypeId
    ensures { result.number ≡ type_inside (shape_tree shape.now) }
{
    match shape {
        Shape::Named { of, nullable: _ } => *of,
        Shape::ListOf { item, nullable: _ } => type_inside(&**item),
    }
}

fn is_of_object(schema: &Schema, field: FieldId) -> bool
    ensures { result ≡ is_of_object (schema_data schema.now) field.number }
{
    schema.kind(schema.owner(field)).is_object()
}

fn leads_to(schema: &Schema, of: TypeId, field: FieldId) -> bool
    ensures { result ≡ leads_to (schema_data schema.now) of.number field.number }
{
    is_of_object(schema, field) && schema.applies(type_inside(schema.field_shape(field)), of)
}

fn hands_as(
    hands: bool,
    schema: &Schema,
    weights: &Weights,
    none: &Args,
    name: &str,
    field: FieldId,
) -> bool
    requires empty { none.now.list.items ≡ [] }
    ensures { result ≡ hands_as hands (schema_data schema.now) (weights_data weights.now) name.now field.number }
{
    if hands {
        hands_size(schema, weights, none, name, field)
    } else {
        !hands_size(schema, weights, none, name, field)
    }
}

fn is_way(
    hands: bool,
    schema: &Schema,
    weights: &Weights,
    none: &Args,
    of: TypeId,
    name: &str,
    field: FieldId,
) -> bool
    requires empty { none.now.list.items ≡ [] }
    ensures { result ≡ is_way hands (schema_data schema.now) (weights_data weights.now) of.number name.now field.number }
{
    leads_to(schema, of, field) && hands_as(hands, schema, weights, none, name, field)
}

// Whether one of these fields leads to objects of a type, and hands a size down to lists of this name.
fn some_hands(
    fields: &[FieldId],
    schema: &Schema,
    weights: &Weights,
    none: &Args,
    of: TypeId,
    name: &str,
) -> bool
    requires empty { none.now.list.items ≡ [] }
    ensures { result ≡ list_any (is_way true (schema_data schema.now) (weights_data weights.now) of.number name.now) (map field_number fields.now) }
{
    'fields: for field in fields {
        if is_way(true, schema, weights, none, of, name, *field) {
            return true;
        }
    }
    false
}

// Whether some field leads to objects of a type, and hands no size down to lists of this name.
fn some_lacks(schema: &Schema, weights: &Weights, none: &Args, of: TypeId, name: &str) -> bool
    requires empty { none.now.list.items ≡ [] }
    ensures { result ≡ list_any (is_way false (schema_data schema.now) (weights_data weights.now) of.number name.now) (field_numbers (schema_data schema.now)) }
{
    let (_, fields) = schema.counts();
    for number in 0..fields {
        if is_way(false, schema, weights, none, of, name, FieldId { number }) {
            return true;
        }
    }
    false
}

fn is_number(root: Option<TypeId>, of: TypeId) -> bool
    ensures { result ≡ is_number (option_map type_number root) of.number }
{
    match root {
        Some(root) => root.number == of.number,
        None => false,
    }
}

fn is_root(schema: &Schema, of: TypeId) -> bool
    ensures { result ≡ is_root (schema_data schema.now) of.number }
{
    is_number(schema.root(false), of) || is_number(schema.root(true), of)
}

// On each way to it a list of this name in this type is handed a size. These are the fields that hand some down.
fn is_handed_in(
    handing: &[FieldId],
    schema: &Schema,
    weights: &Weights,
    none: &Args,
    of: TypeId,
    name: &str,
) -> bool
    requires handing { map field_number handing.now ≡ handing_fields (schema_data schema.now) (weights_data weights.now) }
    requires empty { none.now.list.items ≡ [] }
    ensures { result ≡ is_handed_in (schema_data schema.now) (weights_data weights.now) of.number name.now }
{
    some_hands(handing, schema, weights, none, of, name)
        && !is_root(schema, of)
        && !some_lacks(schema, weights, none, of, name)
}

fn is_handed(
    handing: &[FieldId],
    schema: &Schema,
    weights: &Weights,
    none: &Args,
    field: FieldId,
) -> bool
    requires handing { map field_number handing.now ≡ handing_fields (schema_data schema.now) (weights_data weights.now) }
    requires empty { none.now.list.items ≡ [] }
    ensures { result ≡ is_handed (schema_data schema.now) (weights_data weights.now) field.number }
{
    let (of, name) = (schema.owner(field), schema.field_name(field));
    is_handed_in(handing, schema, weights, none, of, name.as_str())
}

fn surprises_at(
    surprise: Surprise,
    handing: &[FieldId],
    schema: &Schema,
    weights: &Weights,
    none: &Args,
    field: FieldId,
) -> bool
    requires handing { map field_number handing.now ≡ handing_fields (schema_data schema.now) (weights_data weights.now) }
    requires empty { none.now.list.items ≡ [] }
    ensures { result ≡ surprises_at surprise (schema_data schema.now) (weights_data weights.now) field.number }
{
    match surprise {
        Surprise::Unsized => {
            is_unsized(schema, weights, none, field)
                && !is_handed(handing, schema, weights, none, field)
        }
        Surprise::Unsliced => {
            is_unsliced(schema, weights, none, field)
                && !is_handed(handing, schema, weights, none, field)
        }
        Surprise::MustSlice => {
            must_be_sliced(schema, field) && !is_handed(handing, schema, weights, none, field)
        }
        Surprise::Inherited => has_inherited_weight(schema, field),
    }
}

fn is_told(
    surprise: Surprise,
    handing: &[FieldId],
    schema: &Schema,
    weights: &Weights,
    none: &Args,
    field: FieldId,
) -> bool
    requires handing { map field_number handing.now ≡ handing_fields (schema_data schema.now) (weights_data weights.now) }
    requires empty { none.now.list.items ≡ [] }
    ensures { result ≡ is_told surprise (schema_data schema.now) (weights_data weights.now) field.number }
{
    is_of_object(schema, field) && surprises_at(surprise, handing, schema, weights, none, field)
}

fn hands_some(weights: &Weights, field: FieldId) -> bool
    ensures { result ≡ hands_some (weights_data weights.now) field.number }
{
    !weights.sized_fields(field).is_empty()
}

// The fields that hand sizes down.
fn handing_fields(
    alloc: Global,
    schema: &Schema,
    weights: &Weights,
) -> Result<Vec<FieldId>, AllocError>
    ensures { IfOk result (λ fields. map field_number fields.items ≡ handing_fields (schema_data schema.now) (weights_data weights.now)) }
{
    let mut handing = Vec::new(alloc);
    let (_, fields) = schema.counts();
    for number in 0..fields {
        let field = FieldId { number };
        if hands_some(weights, field) {
            handing.push(field)?;
        }
    }
    Ok(handing)
}

/// The places of the fields of object types that have a surprise, in the order of the text.
pub fn places_of(
    alloc: Global,
    surprise: Surprise,
    schema: &Schema,
    weights: &Weights,
) -> Result<Vec<Text>, AllocError>
    ensures { IfOk result (λ places. places.items ≡ places_of surprise (schema_data schema.now) (weights_data weights.now)) }
{
    let none = Args {
        list: Vec::new(alloc),
    };
    let handing = handing_fields(alloc, schema, weights)?;
    let mut places = Vec::new(alloc);
    let (_, fields) = schema.counts();
    for number in 0..fields {
        let field = FieldId { number };
        if is_told(surprise, &handing, schema, weights, &none, field) {
            places.push(field_place(alloc, schema, field)?)?;
        }
    }
    Ok(places)
}
