//! The test of a schema that was built: whether it says what the schema of schemas says.

ghost use Rattle.std.specs.Prelude.{◌≡◌, [], ◌∷◌, map, nat_eq, option_map, Some};
ghost use Rattle.std.specs.List.{list_all, range_with_len};
ghost use Rattle.input_values.specs.inputs.Shapes.{named_shape, shape_tree};
ghost use Rattle.input_values.specs.inputs.Definitions.{input_data};
ghost use Rattle.input_values.specs.values.Coerced.{coerced_tree, coerced_boolean};
ghost use Rattle.response_model.specs.Plan.{single, listed};
ghost use Rattle.schema_model.specs.Implementing.{agree, is_same};
ghost use Rattle.schema_model.specs.SchemaData.{type_at, field_at};
ghost use Rattle.schema_model.specs.SchemaViews.{schema_data};
ghost use Rattle.schema_model.specs.Numbers.{type_number};
ghost use Rattle.cost_directives.specs.WeightViews.{weights_data};
ghost use Rattle.cost_directives.specs.Weights.{field_numbers};
ghost use Rattle.plan_model.specs.SelectedFields.{form_of_shape};
ghost use Rattle.meta_schema.specs.MetaForms.{kind_names};
ghost use Rattle.meta_schema.specs.MetaFields.{input_with, arguments_of, object_types};
ghost use Rattle.meta_schema.specs.MetaTests.{form_seen, same_form, same_names, location_names, same_default, same_input, same_inputs, is_numbered, is_only, may_stand, is_asked_field, is_field, is_object_type, is_enum_of, is_scalar_named, are_leaf_types, is_meta, leaf_seen};

use crate::fields::what_asked;
use crate::tables::{FieldForm, below_of, form_of, is_of, leaf_type_of, meta_name, weight_of};
use asked_fields::Argument;
use cost_directives::Weights;
use cost_num::UNIT;
use document_rules::lookups::{is_composite, type_of_field};
use gql_base::Text;
use input_values::places::is_nullable;
use input_values::{Coerced, InputDef, Shape, ShapeLevel, TypeId, shape_level};
use schema_facts::What;
use schema_model::{FieldId, Kind, Schema};

fn agree(a: bool, b: bool) -> bool
    ensures { result ≡ agree a b }
{
    if a { b } else { !b }
}

fn is_single(nullable: bool, form: FieldForm) -> bool
    ensures { result ≡ same_form (single nullable) (form_seen form) }
{
    match form {
        FieldForm::Single { nullable: may } => agree(nullable, may),
        FieldForm::Listed { nullable: _ } => false,
    }
}

fn is_listed(nullable: bool, item_nullable: bool, form: FieldForm) -> bool
    ensures { result ≡ same_form (listed nullable item_nullable) (form_seen form) }
{
    match form {
        FieldForm::Single { nullable: _ } => false,
        FieldForm::Listed { nullable: may } => agree(nullable, may) && agree(item_nullable, false),
    }
}

fn has_form(shape: &Shape, form: FieldForm) -> bool
    ensures { result ≡ same_form (form_of_shape (shape_tree shape.now)) (form_seen form) }
{
    match shape_level(shape) {
        ShapeLevel::Named { of: _, nullable } => is_single(nullable, form),
        ShapeLevel::ListOf { item, nullable } => is_listed(nullable, is_nullable(item), form),
    }
}

#[tactic(auto, using(asked_fields::proofs::Opened::coerced_parts))]
fn is_flag(value: &Coerced, default: bool) -> bool
    ensures { result ≡ same_default (Some (coerced_boolean default)) (Some (coerced_tree value.now)) }
{
    match value {
        Coerced::Bool(is) => agree(default, *is),
        Coerced::Null => false,
        Coerced::Int(_) => false,
        Coerced::Float(_) => false,
        Coerced::Str(_) => false,
        Coerced::EnumName(_) => false,
        Coerced::List(_) => false,
        Coerced::Object(_) => false,
        Coerced::Shared(held) => is_flag(held, default),
    }
}

fn is_default(found: Option<&Coerced>, default: Option<bool>) -> bool
    ensures { result ≡ same_default (option_map coerced_boolean default) (option_map (λ v. coerced_tree v.now) found.entry) }
{
    match default {
        Some(default) => match found {
            Some(value) => is_flag(value, default),
            None => false,
        },
        None => found.is_none(),
    }
}

#[tactic(auto, unfolding(schema_model::specs::Implementing::is_same))]
fn is_named_shape(of: usize, nullable: bool, found: &Shape) -> bool
    ensures { result ≡ is_same (named_shape of nullable) (shape_tree found.now) }
{
    match shape_level(found) {
        ShapeLevel::Named {
            of: named,
            nullable: may,
        } => of == named.number && agree(nullable, may),
        ShapeLevel::ListOf {
            item: _,
            nullable: _,
        } => false,
    }
}

fn is_input(found: &InputDef, name: &str, of: usize, nullable: bool, default: Option<bool>) -> bool
    ensures { result ≡ same_input (input_with name.now of nullable default) (input_data found.now) }
{
    name == found.name.as_str()
        && is_named_shape(of, nullable, &found.shape)
        && is_default(found.default.as_ref(), default)
        && found.cost.is_none()
}

fn is_one_input(
    found: &[InputDef],
    name: &str,
    of: usize,
    nullable: bool,
    default: Option<bool>,
) -> bool
    ensures { result ≡ same_inputs (input_with name.now of nullable default ∷ []) (map input_data found.now) }
{
    match found.split_first() {
        Some((first, others)) => {
            is_input(first, name, of, nullable, default) && others.is_empty()
        }
        None => false,
    }
}

// Whether these are the arguments of the field that is asked for.
fn has_arguments(what: What, found: &[InputDef]) -> bool
    ensures { result ≡ same_inputs (arguments_of what) (map input_data found.now) }
{
    match what {
        What::Named { of: _ } => is_one_input(found, "name", 11, false, None),
        What::Fields { all: _ } => is_one_input(found, "includeDeprecated", 12, true, Some(false)),
        What::EnumValues { all: _ } => {
            is_one_input(found, "includeDeprecated", 12, true, Some(false))
        }
        _ => found.is_empty(),
    }
}

fn is_only(wanted: usize, found: &[TypeId]) -> bool
    ensures { result ≡ is_only wanted (map type_number found.now) }
{
    match found.split_first() {
        Some((first, others)) => others.is_empty() && first.number == wanted,
        None => false,
    }
}

fn is_numbered(of: TypeId, leaf: Option<usize>) -> bool
    ensures { result ≡ is_numbered of.number (leaf_seen leaf) }
{
    match leaf {
        Some(number) => of.number == number,
        None => false,
    }
}

fn may_stand(
    schema: &Schema,
    weights: &Weights,
    of: TypeId,
    leaf: Option<usize>,
    below: Option<usize>,
) -> bool
    ensures { result ≡ may_stand (schema_data schema.now) (weights_data weights.now) of.number (leaf_seen leaf) below }
{
    match below {
        Some(number) => is_composite(schema, of) && is_only(number, schema.possible(of)),
        None => {
            !is_composite(schema, of) && is_numbered(of, leaf) && weights.type_weight(of) == 0
        }
    }
}

fn is_asked_field(schema: &Schema, weights: &Weights, field: FieldId, what: What) -> bool
    ensures { result ≡ is_asked_field (schema_data schema.now) (weights_data weights.now) field.number (field_at (schema_data schema.now) field.number) what }
{
    let owner = schema.owner(field).number;
    let of = type_of_field(schema, field);
    is_of(owner, what)
        && has_form(schema.field_shape(field), form_of(owner, what))
        && has_arguments(what, schema.arguments(field))
        && weights.field_weight(field) == weight_of(what)
        && may_stand(schema, weights, of, leaf_type_of(what), below_of(what))
}

fn is_field(schema: &Schema, weights: &Weights, field: FieldId) -> bool
    ensures { result ≡ is_field (schema_data schema.now) (weights_data weights.now) field.number }
{
    let none = Argument {
        is_true: false,
        place: None,
    };
    let what = what_asked(schema.field_name(field).as_str(), none);
    is_asked_field(schema, weights, field, what)
}

// Whether so many fields from the first on are what their names ask.
fn are_fields(schema: &Schema, weights: &Weights, count: usize) -> bool
    ensures { result ≡ list_all (is_field (schema_data schema.now) (weights_data weights.now)) (range_with_len 0 count) }
{
    'fields: for number in 0..count {
        if !is_field(schema, weights, FieldId { number }) {
            return false;
        }
    }
    true
}

fn are_all_fields(schema: &Schema, weights: &Weights) -> bool
    ensures { result ≡ list_all (is_field (schema_data schema.now) (weights_data weights.now)) (field_numbers (schema_data schema.now)) }
{
    let (_, count) = schema.counts();
    are_fields(schema, weights, count)
}

fn is_object_type(query: &str, schema: &Schema, weights: &Weights, number: usize) -> bool
    ensures { result ≡ is_object_type query.now (schema_data schema.now) (weights_data weights.now) number }
{
    let of = TypeId { number };
    schema.type_name(of).as_str() == meta_name(query, number) && weights.type_weight(of) == UNIT
}

fn are_object_types(query: &str, schema: &Schema, weights: &Weights) -> bool
    ensures { result ≡ list_all (is_object_type query.now (schema_data schema.now) (weights_data weights.now)) object_types }
{
    is_object_type(query, schema, weights, 0)
        && is_object_type(query, schema, weights, 1)
        && is_object_type(query, schema, weights, 2)
        && is_object_type(query, schema, weights, 4)
        && is_object_type(query, schema, weights, 5)
        && is_object_type(query, schema, weights, 6)
        && is_object_type(query, schema, weights, 7)
}

fn same_names(found: &[Text], wanted: &[&str]) -> bool
    ensures { result ≡ same_names found.now (map (λ name. name.now) wanted.now) }
{
    match (found.split_first(), wanted.split_first()) {
        (Some((name, found)), Some((other, wanted))) => {
            name.as_str() == *other && same_names(found, wanted)
        }
        (None, None) => true,
        _ => false,
    }
}

fn is_enum_of(schema: &Schema, number: usize, wanted: &[&str]) -> bool
    ensures { result ≡ is_enum_of (map (λ name. name.now) wanted.now) (type_at (schema_data schema.now) number) }
{
    let of = TypeId { number };
    matches!(schema.kind(of), Kind::Enum) && same_names(schema.enum_values(of), wanted)
}

fn is_scalar_named(schema: &Schema, number: usize, name: &str) -> bool
    ensures { result ≡ is_scalar_named name.now (type_at (schema_data schema.now) number) }
{
    let of = TypeId { number };
    schema.kind(of).is_scalar() && schema.type_name(of).as_str() == name
}

fn has_kinds(schema: &Schema) -> bool
    ensures { result ≡ is_enum_of kind_names (type_at (schema_data schema.now) 3) }
{
    let kinds = [
        "SCALAR",
        "OBJECT",
        "INTERFACE",
        "UNION",
        "ENUM",
        "INPUT_OBJECT",
        "LIST",
        "NON_NULL",
    ];
    is_enum_of(schema, 3, &kinds)
}

fn has_locations(schema: &Schema) -> bool
    ensures { result ≡ is_enum_of location_names (type_at (schema_data schema.now) 8) }
{
    let locations = [
        "QUERY",
        "MUTATION",
        "SUBSCRIPTION",
        "FIELD",
        "FRAGMENT_DEFINITION",
        "FRAGMENT_SPREAD",
        "INLINE_FRAGMENT",
        "VARIABLE_DEFINITION",
        "SCHEMA",
        "SCALAR",
        "OBJECT",
        "FIELD_DEFINITION",
        "ARGUMENT_DEFINITION",
        "INTERFACE",
        "UNION",
        "ENUM",
        "ENUM_VALUE",
        "INPUT_OBJECT",
        "INPUT_FIELD_DEFINITION",
    ];
    is_enum_of(schema, 8, &locations)
}

fn are_leaf_types(schema: &Schema) -> bool
    ensures { result ≡ are_leaf_types (schema_data schema.now) }
{
    has_kinds(schema)
        && has_locations(schema)
        && is_scalar_named(schema, 11, "String")
        && is_scalar_named(schema, 12, "Boolean")
}

fn is_rooted(schema: &Schema) -> bool
    ensures { result ≡ nat_eq (schema_data schema.now).query 0 }
{
    match schema.root(false) {
        Some(of) => of.number == 0,
        None => false,
    }
}

/// Whether it is the schema of schemas, whose type of queries has this name.
pub fn is_meta(query: &str, schema: &Schema, weights: &Weights) -> bool
    ensures { result ≡ is_meta query.now (schema_data schema.now) (weights_data weights.now) }
{
    is_rooted(schema)
        && are_object_types(query, schema, weights)
        && are_leaf_types(schema)
        && are_all_fields(schema, weights)
}
