//! The fields of types that tell what stands in the bodies of their definitions.

ghost use Rattle.std.specs.Prelude.{◌≡◌, ◌<◌, ◌++◌, [], IfOk, get_or, length, map, option_map, Some, None, slice_get};
ghost use Rattle.schema_reader.specs.Trees.{definition_tree, field_tree, input_tree, enum_value_tree, body_tree};
ghost use Rattle.schema_facts.specs.Facts.{number_named, possible_types};
ghost use Rattle.schema_facts.specs.FactsViews.{facts_data};
ghost use Rattle.schema_facts.specs.Things.{thing_data, held_data, a_type, an_input, a_field, an_enum_value};
ghost use Rattle.schema_facts.specs.Table.{kind, kind_word, of_body, in_body, fields_in, interfaces_in, values_in, inputs_in, specified_by, url_in, definition_at, possible, possible_at, kind_of_type};
ghost use Rattle.schema_facts.specs.Making.{listed, places_at, shown_at};
ghost use Rattle.schema_facts.specs.Places.{field_place, value_place, places_in};
ghost use Rattle.schema_facts.specs.Shown.{shown_by, picked, fields_by, values_by};

use crate::deprecable::{FieldThing, ValueThing};
use crate::deprecations::url_at;
use crate::facts::SchemaFacts;
use crate::held::{Held, maybe_word, word};
use crate::things::{Thing, number_named};
use crate::types::definition_at;
use gql_base::Text;
use schema_reader::{DefBody, EnumValueDef, FieldDef, InputValue, SchemaDef};
use std::alloc::{AllocError, Global};

fn kind_word(body: &DefBody) -> &'static str
    ensures { result.now ≡ kind_word (body_tree body.now) }
{
    match body {
        DefBody::Scalar => "SCALAR",
        DefBody::Object { .. } => "OBJECT",
        DefBody::Interface { .. } => "INTERFACE",
        DefBody::Union(_) => "UNION",
        DefBody::Enum(_) => "ENUM",
        DefBody::Input(_) => "INPUT_OBJECT",
        DefBody::Schema(_) | DefBody::Directive { .. } => "SCALAR",
    }
}

fn kind_of_type<'f>(definition: Option<&'f SchemaDef>) -> Held<'f>
    ensures { held_data result ≡ kind_of_type (option_map (λ d. definition_tree d.now) definition.entry) }
{
    match definition {
        Some(definition) => Held::One(Thing::Word(kind_word(&definition.body))),
        None => Held::One(Thing::Word("SCALAR")),
    }
}

pub fn kind_of<'f>(facts: &'f SchemaFacts, of: Thing<'f>) -> Held<'f>
    ensures { held_data result ≡ kind (facts_data facts.now) (thing_data of.entry) }
{
    match of {
        Thing::TypeAt(number) => kind_of_type(definition_at(facts, number)),
        Thing::ListOf(_) => word("LIST"),
        Thing::NonNull(_) => word("NON_NULL"),
        _ => Held::Nothing,
    }
}

// The numbers of what isn't deprecated of the type of a number.
fn shown_at(facts: &SchemaFacts, number: usize) -> &[usize]
    ensures { result.now ≡ shown_at (facts_data facts.now) number }
{
    match facts.shown.get(number) {
        Some(numbers) => numbers,
        None => &[],
    }
}

// The places of directives that are held of the type of a number.
fn places_at(facts: &SchemaFacts, number: usize) -> &[usize]
    ensures { result.now ≡ places_at (facts_data facts.now) number }
{
    match facts.places.get(number) {
        Some(places) => places,
        None => &[],
    }
}

fn field_thing<'f>(fields: &'f [FieldDef], places: &[usize], number: usize) -> FieldThing<'f>
    requires within { number < length fields.now }
    requires found { places.now ≡ map field_place (map field_tree fields.now) }
    ensures { result.of.now ≡ get_or fields.now number result.of.now }
{
    FieldThing {
        of: &fields[number],
        place: places[number],
    }
}

fn field_at<'f>(fields: &'f [FieldDef], places: &[usize], number: usize) -> Option<FieldThing<'f>>
    requires { places.now ≡ map field_place (map field_tree fields.now) }
    ensures { option_map (λ d. field_tree d.of.now) result ≡ slice_get (map field_tree fields.now) number }
{
    if number < fields.len() {
        Some(field_thing(fields, places, number))
    } else {
        None
    }
}

fn every_field<'f>(
    alloc: Global,
    places: &[usize],
    fields: &'f [FieldDef],
) -> Result<Vec<Thing<'f>>, AllocError>
    requires { places.now ≡ map field_place (map field_tree fields.now) }
    ensures { IfOk result (λ things. map thing_data things.items ≡ map a_field (map field_tree fields.now)) }
{
    let mut things = Vec::new(alloc);
    'fields: for number in 0..fields.len() {
        things.push(Thing::Field(field_thing(fields, places, number)))?;
    }
    Ok(things)
}

fn picked_fields<'f>(
    alloc: Global,
    numbers: &[usize],
    places: &[usize],
    fields: &'f [FieldDef],
) -> Result<Vec<Thing<'f>>, AllocError>
    requires { places.now ≡ map field_place (map field_tree fields.now) }
    ensures { IfOk result (λ things. map thing_data things.items ≡ picked a_field (map field_tree fields.now) numbers.now) }
{
    let mut things = Vec::new(alloc);
    'numbers: for number in numbers {
        if let Some(field) = field_at(fields, places, *number) {
            things.push(Thing::Field(field))?;
        }
    }
    Ok(things)
}

// All fields, or those of these numbers.
fn fields_by<'f>(
    alloc: Global,
    all: bool,
    numbers: &[usize],
    places: &[usize],
    fields: &'f [FieldDef],
) -> Result<Vec<Thing<'f>>, AllocError>
    requires { places.now ≡ map field_place (map field_tree fields.now) }
    ensures { IfOk result (λ things. map thing_data things.items ≡ shown_by a_field all numbers.now (map field_tree fields.now)) }
{
    if all {
        every_field(alloc, places, fields)
    } else {
        picked_fields(alloc, numbers, places, fields)
    }
}

fn fields_in<'f>(
    alloc: Global,
    all: bool,
    numbers: &[usize],
    places: &[usize],
    definition: Option<&'f SchemaDef>,
) -> Result<Held<'f>, AllocError>
    requires { places.now ≡ places_in (option_map (λ d. definition_tree d.now) definition) }
    ensures { IfOk result (λ found. held_data found ≡ in_body (fields_by all numbers.now) (option_map (λ d. definition_tree d.now) definition.entry)) }
{
    match definition {
        Some(definition) => match &definition.body {
            DefBody::Object { fields, .. } => {
                Ok(Held::Many(fields_by(alloc, all, numbers, places, fields)?))
            }
            DefBody::Interface { fields, .. } => {
                Ok(Held::Many(fields_by(alloc, all, numbers, places, fields)?))
            }
            _ => Ok(Held::Nothing),
        },
        None => Ok(Held::Nothing),
    }
}

// What of the type of a number is shown.
fn fields_at<'f>(
    alloc: Global,
    facts: &'f SchemaFacts,
    all: bool,
    number: usize,
) -> Result<Held<'f>, AllocError>
    ensures { IfOk result (λ found. held_data found ≡ in_body (fields_in all) (definition_at (facts_data facts.now) number)) }
{
    let numbers = shown_at(facts, number);
    let places = places_at(facts, number);
    fields_in(alloc, all, numbers, places, definition_at(facts, number))
}

pub fn fields<'f>(
    alloc: Global,
    facts: &'f SchemaFacts,
    all: bool,
    of: Thing<'f>,
) -> Result<Held<'f>, AllocError>
    ensures { IfOk result (λ found. held_data found ≡ of_body (facts_data facts.now) (fields_in all) (thing_data of.entry)) }
{
    match of {
        Thing::TypeAt(number) => fields_at(alloc, facts, all, number),
        _ => Ok(Held::Nothing),
    }
}

fn named_types<'f>(
    alloc: Global,
    facts: &'f SchemaFacts,
    names: &[Text],
) -> Result<Vec<Thing<'f>>, AllocError>
    ensures { IfOk result (λ things. map thing_data things.items ≡ map (λ of. a_type (number_named (facts_data facts.now).types of)) names.now) }
{
    let mut things = Vec::new(alloc);
    'names: for name in names {
        things.push(Thing::TypeAt(number_named(facts, name.as_str())))?;
    }
    Ok(things)
}

fn interfaces_in<'f>(
    alloc: Global,
    facts: &'f SchemaFacts,
    definition: Option<&'f SchemaDef>,
) -> Result<Held<'f>, AllocError>
    ensures { IfOk result (λ found. held_data found ≡ in_body (interfaces_in (facts_data facts.now)) (option_map (λ d. definition_tree d.now) definition.entry)) }
{
    match definition {
        Some(definition) => match &definition.body {
            DefBody::Object { interfaces, .. } => {
                Ok(Held::Many(named_types(alloc, facts, interfaces)?))
            }
            DefBody::Interface { interfaces, .. } => {
                Ok(Held::Many(named_types(alloc, facts, interfaces)?))
            }
            _ => Ok(Held::Nothing),
        },
        None => Ok(Held::Nothing),
    }
}

pub fn interfaces<'f>(
    alloc: Global,
    facts: &'f SchemaFacts,
    of: Thing<'f>,
) -> Result<Held<'f>, AllocError>
    ensures { IfOk result (λ found. held_data found ≡ of_body (facts_data facts.now) (interfaces_in (facts_data facts.now)) (thing_data of.entry)) }
{
    match of {
        Thing::TypeAt(number) => interfaces_in(alloc, facts, definition_at(facts, number)),
        _ => Ok(Held::Nothing),
    }
}

fn numbered<'f>(alloc: Global, numbers: &[usize]) -> Result<Vec<Thing<'f>>, AllocError>
    ensures { IfOk result (λ things. map thing_data things.items ≡ map a_type numbers.now) }
{
    let mut things = Vec::new(alloc);
    'numbers: for number in numbers {
        things.push(Thing::TypeAt(*number))?;
    }
    Ok(things)
}

// What stands in the list of possible types at a number.
fn listed(facts: &SchemaFacts, number: usize) -> &[usize]
    ensures { result.now ≡ listed (facts_data facts.now) number }
{
    match facts.possible.get(number) {
        Some(numbers) => numbers,
        None => &[],
    }
}

// The possible types of the type of a number, if it is one that has them.
fn possible_at(facts: &SchemaFacts, number: usize) -> Option<&[usize]>
    ensures { option_map (λ numbers. numbers.now) result ≡ possible_at (facts_data facts.now) number }
{
    match definition_at(facts, number) {
        Some(definition) => match &definition.body {
            DefBody::Interface { .. } | DefBody::Union(_) => Some(listed(facts, number)),
            _ => None,
        },
        None => None,
    }
}

pub fn possible<'f>(
    alloc: Global,
    facts: &'f SchemaFacts,
    of: Thing<'f>,
) -> Result<Held<'f>, AllocError>
    ensures { IfOk result (λ found. held_data found ≡ possible (facts_data facts.now) (thing_data of.entry)) }
{
    match of {
        Thing::TypeAt(number) => match possible_at(facts, number) {
            Some(numbers) => Ok(Held::Many(numbered(alloc, numbers)?)),
            None => Ok(Held::Nothing),
        },
        _ => Ok(Held::Nothing),
    }
}

fn value_thing<'f>(values: &'f [EnumValueDef], places: &[usize], number: usize) -> ValueThing<'f>
    requires within { number < length values.now }
    requires found { places.now ≡ map value_place (map enum_value_tree values.now) }
    ensures { result.of.now ≡ get_or values.now number result.of.now }
{
    ValueThing {
        of: &values[number],
        place: places[number],
    }
}

fn value_at<'f>(
    values: &'f [EnumValueDef],
    places: &[usize],
    number: usize,
) -> Option<ValueThing<'f>>
    requires { places.now ≡ map value_place (map enum_value_tree values.now) }
    ensures { option_map (λ d. enum_value_tree d.of.now) result ≡ slice_get (map enum_value_tree values.now) number }
{
    if number < values.len() {
        Some(value_thing(values, places, number))
    } else {
        None
    }
}

fn every_value<'f>(
    alloc: Global,
    places: &[usize],
    values: &'f [EnumValueDef],
) -> Result<Vec<Thing<'f>>, AllocError>
    requires { places.now ≡ map value_place (map enum_value_tree values.now) }
    ensures { IfOk result (λ things. map thing_data things.items ≡ map an_enum_value (map enum_value_tree values.now)) }
{
    let mut things = Vec::new(alloc);
    'values: for number in 0..values.len() {
        things.push(Thing::EnumValue(value_thing(values, places, number)))?;
    }
    Ok(things)
}

fn picked_values<'f>(
    alloc: Global,
    numbers: &[usize],
    places: &[usize],
    values: &'f [EnumValueDef],
) -> Result<Vec<Thing<'f>>, AllocError>
    requires { places.now ≡ map value_place (map enum_value_tree values.now) }
    ensures { IfOk result (λ things. map thing_data things.items ≡ picked an_enum_value (map enum_value_tree values.now) numbers.now) }
{
    let mut things = Vec::new(alloc);
    'numbers: for number in numbers {
        if let Some(value) = value_at(values, places, *number) {
            things.push(Thing::EnumValue(value))?;
        }
    }
    Ok(things)
}

// All values, or those of these numbers.
fn values_by<'f>(
    alloc: Global,
    all: bool,
    numbers: &[usize],
    places: &[usize],
    values: &'f [EnumValueDef],
) -> Result<Vec<Thing<'f>>, AllocError>
    requires { places.now ≡ map value_place (map enum_value_tree values.now) }
    ensures { IfOk result (λ things. map thing_data things.items ≡ shown_by an_enum_value all numbers.now (map enum_value_tree values.now)) }
{
    if all {
        every_value(alloc, places, values)
    } else {
        picked_values(alloc, numbers, places, values)
    }
}

fn values_in<'f>(
    alloc: Global,
    all: bool,
    numbers: &[usize],
    places: &[usize],
    definition: Option<&'f SchemaDef>,
) -> Result<Held<'f>, AllocError>
    requires { places.now ≡ places_in (option_map (λ d. definition_tree d.now) definition) }
    ensures { IfOk result (λ found. held_data found ≡ in_body (values_by all numbers.now) (option_map (λ d. definition_tree d.now) definition.entry)) }
{
    match definition {
        Some(definition) => match &definition.body {
            DefBody::Enum(values) => {
                Ok(Held::Many(values_by(alloc, all, numbers, places, values)?))
            }
            _ => Ok(Held::Nothing),
        },
        None => Ok(Held::Nothing),
    }
}

// What of the type of a number is shown.
fn values_at<'f>(
    alloc: Global,
    facts: &'f SchemaFacts,
    all: bool,
    number: usize,
) -> Result<Held<'f>, AllocError>
    ensures { IfOk result (λ found. held_data found ≡ in_body (values_in all) (definition_at (facts_data facts.now) number)) }
{
    let numbers = shown_at(facts, number);
    let places = places_at(facts, number);
    values_in(alloc, all, numbers, places, definition_at(facts, number))
}

pub fn enum_values<'f>(
    alloc: Global,
    facts: &'f SchemaFacts,
    all: bool,
    of: Thing<'f>,
) -> Result<Held<'f>, AllocError>
    ensures { IfOk result (λ found. held_data found ≡ of_body (facts_data facts.now) (values_in all) (thing_data of.entry)) }
{
    match of {
        Thing::TypeAt(number) => values_at(alloc, facts, all, number),
        _ => Ok(Held::Nothing),
    }
}

/// Arguments or input fields, in their order.
pub fn inputs<'f>(alloc: Global, values: &'f [InputValue]) -> Result<Vec<Thing<'f>>, AllocError>
    ensures { IfOk result (λ things. map thing_data things.items ≡ map an_input (map input_tree values.now)) }
{
    let mut things = Vec::new(alloc);
    'values: for value in values {
        things.push(Thing::Input(value))?;
    }
    Ok(things)
}

fn inputs_in<'f>(alloc: Global, definition: Option<&'f SchemaDef>) -> Result<Held<'f>, AllocError>
    ensures { IfOk result (λ found. held_data found ≡ in_body inputs_in (option_map (λ d. definition_tree d.now) definition.entry)) }
{
    match definition {
        Some(definition) => match &definition.body {
            DefBody::Input(values) => Ok(Held::Many(inputs(alloc, values)?)),
            _ => Ok(Held::Nothing),
        },
        None => Ok(Held::Nothing),
    }
}

pub fn input_fields<'f>(
    alloc: Global,
    facts: &'f SchemaFacts,
    of: Thing<'f>,
) -> Result<Held<'f>, AllocError>
    ensures { IfOk result (λ found. held_data found ≡ of_body (facts_data facts.now) inputs_in (thing_data of.entry)) }
{
    match of {
        Thing::TypeAt(number) => inputs_in(alloc, definition_at(facts, number)),
        _ => Ok(Held::Nothing),
    }
}

// What a scalar says, of whose `@specifiedBy` the place is held first.
fn url_in<'f>(places: &[usize], definition: Option<&'f SchemaDef>) -> Held<'f>
    requires { places.now ≡ places_in (option_map (λ d. definition_tree d.now) definition) }
    ensures { held_data result ≡ url_in (option_map (λ d. definition_tree d.now) definition.entry) }
{
    match definition {
        Some(definition) => match &definition.body {
            DefBody::Scalar => maybe_word(url_at(&definition.directives, places[0])),
            _ => Held::Nothing,
        },
        None => Held::Nothing,
    }
}

pub fn specified_by<'f>(facts: &'f SchemaFacts, of: Thing<'f>) -> Held<'f>
    ensures { held_data result ≡ specified_by (facts_data facts.now) (thing_data of.entry) }
{
    match of {
        Thing::TypeAt(number) => url_in(places_at(facts, number), definition_at(facts, number)),
        _ => Held::Nothing,
    }
}
