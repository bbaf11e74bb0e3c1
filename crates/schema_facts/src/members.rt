//! The fields that things of several kinds have: descriptions, names, types, arguments and so on.

ghost use Rattle.std.specs.Prelude.{◌≡◌, ◌++◌, [], IfOk, map, option_map, Some, None};
ghost use Rattle.std.specs.List.{list_any};
ghost use Rattle.std.specs.Str.{bytes_eq};
ghost use Rattle.gql_base.specs.parts.Trees.{maybe_value};
ghost use Rattle.schema_reader.specs.Trees.{definition_tree, input_tree, body_tree};
ghost use Rattle.schema_facts.specs.Facts.{known_type};
ghost use Rattle.schema_facts.specs.FactsViews.{facts_data};
ghost use Rattle.schema_facts.specs.Things.{thing_data, held_data};
ghost use Rattle.schema_facts.specs.Table.{described, name_of_type, of_type, directive_arguments, type_of, is_location, location_words, locations_in, repeatable_in, maybe_default, description, reason, locations, name, repeatable, default_of, arguments, type_system_locations, deprecated, executable_locations};

use crate::bodies::inputs;
use crate::deprecations::{is_deprecated_at, reason_at};
use crate::facts::SchemaFacts;
use crate::held::{Held, described, maybe_word, word};
use crate::known::KnownType;
use crate::things::{Thing, type_thing};
use crate::types::{definition_at, known_at};
use gql_base::{Named, Text, Value};
use schema_reader::{DefBody, InputValue, SchemaDef};
use std::alloc::{AllocError, Global};

fn described_type<'f>(definition: Option<&'f SchemaDef>) -> Held<'f>
    ensures { held_data result ≡ described (option_map (λ d. definition_tree d.now) definition.entry) }
{
    match definition {
        Some(definition) => described(&definition.description),
        None => Held::Nothing,
    }
}

pub fn description<'f>(facts: &'f SchemaFacts, of: Thing<'f>) -> Held<'f>
    ensures { held_data result ≡ description (facts_data facts.now) (thing_data of.entry) }
{
    match of {
        Thing::Schema => described(&facts.description),
        Thing::TypeAt(number) => described_type(definition_at(facts, number)),
        Thing::Field(field) => described(&field.of.description),
        Thing::Input(input) => described(&input.description),
        Thing::EnumValue(value) => described(&value.of.description),
        Thing::Directive(directive) => described(&directive.description),
        _ => Held::Nothing,
    }
}

fn name_of_type<'f>(known: Option<&'f KnownType>) -> Held<'f>
    ensures { held_data result ≡ name_of_type (option_map (λ k. known_type k.now) known.entry) }
{
    match known {
        Some(known) => word(known.name()),
        None => Held::Nothing,
    }
}

pub fn name<'f>(facts: &'f SchemaFacts, of: Thing<'f>) -> Held<'f>
    ensures { held_data result ≡ name (facts_data facts.now) (thing_data of.entry) }
{
    match of {
        Thing::TypeAt(number) => name_of_type(known_at(facts, number)),
        Thing::Field(field) => word(field.of.name.as_str()),
        Thing::Input(input) => word(input.name.as_str()),
        Thing::EnumValue(value) => word(value.of.name.as_str()),
        Thing::Directive(directive) => word(directive.name.as_str()),
        _ => Held::Nothing,
    }
}

pub fn of_type<'f>(facts: &'f SchemaFacts, of: Thing<'f>) -> Held<'f>
    ensures { held_data result ≡ of_type (facts_data facts.now) (thing_data of.entry) }
{
    match of {
        Thing::ListOf(of) => Held::One(type_thing(facts, of)),
        Thing::NonNull(of) => Held::One(type_thing(facts, of)),
        _ => Held::Nothing,
    }
}

fn directive_arguments<'f>(body: &'f DefBody) -> &'f [InputValue]
    ensures { map input_tree result.now ≡ directive_arguments (body_tree body.now) }
{
    match body {
        DefBody::Directive { arguments, .. } => arguments,
        _ => &[],
    }
}

pub fn arguments<'f>(alloc: Global, of: Thing<'f>) -> Result<Held<'f>, AllocError>
    ensures { IfOk result (λ found. held_data found ≡ arguments (thing_data of.entry)) }
{
    match of {
        Thing::Field(field) => Ok(Held::Many(inputs(alloc, &field.of.arguments)?)),
        Thing::Directive(directive) => {
            Ok(Held::Many(inputs(alloc, directive_arguments(&directive.body))?))
        }
        _ => Ok(Held::Nothing),
    }
}

pub fn field_type<'f>(facts: &'f SchemaFacts, of: Thing<'f>) -> Held<'f>
    ensures { held_data result ≡ type_of (facts_data facts.now) (thing_data of.entry) }
{
    match of {
        Thing::Field(field) => Held::One(type_thing(facts, &field.of.of)),
        Thing::Input(input) => Held::One(type_thing(facts, &input.of)),
        _ => Held::Nothing,
    }
}

pub fn deprecated<'f>(of: Thing<'f>) -> Held<'f>
    ensures { held_data result ≡ deprecated (thing_data of.entry) }
{
    match of {
        Thing::Field(field) => {
            Held::One(Thing::Flag(is_deprecated_at(&field.of.directives, field.place)))
        }
        Thing::EnumValue(value) => {
            Held::One(Thing::Flag(is_deprecated_at(&value.of.directives, value.place)))
        }
        _ => Held::Nothing,
    }
}

pub fn reason<'f>(of: Thing<'f>) -> Held<'f>
    ensures { held_data result ≡ reason (thing_data of.entry) }
{
    match of {
        Thing::Field(field) => maybe_word(reason_at(&field.of.directives, field.place)),
        Thing::EnumValue(value) => maybe_word(reason_at(&value.of.directives, value.place)),
        _ => Held::Nothing,
    }
}

fn maybe_default<'f>(default: &'f Option<Value>) -> Held<'f>
    ensures { held_data result ≡ maybe_default (maybe_value default.now) }
{
    match default {
        Some(value) => Held::One(Thing::Default(value)),
        None => Held::Nothing,
    }
}

pub fn default_of<'f>(of: Thing<'f>) -> Held<'f>
    ensures { held_data result ≡ default_of (thing_data of.entry) }
{
    match of {
        Thing::Input(input) => maybe_default(&input.default),
        _ => Held::Nothing,
    }
}

// The places at which a directive may stand (GraphQL October 2021, 3.13).
fn is_location(name: &str) -> bool
    ensures { result ≡ is_location name.now }
{
    is_executable_location(name) || is_type_system_location(name)
}

fn is_executable_location(name: &str) -> bool
    ensures { result ≡ list_any (bytes_eq name.now) executable_locations }
{
    name == "QUERY"
        || name == "MUTATION"
        || name == "SUBSCRIPTION"
        || name == "FIELD"
        || name == "FRAGMENT_DEFINITION"
        || name == "FRAGMENT_SPREAD"
        || name == "INLINE_FRAGMENT"
        || name == "VARIABLE_DEFINITION"
}

fn is_type_system_location(name: &str) -> bool
    ensures { result ≡ list_any (bytes_eq name.now) type_system_locations }
{
    name == "SCHEMA"
        || name == "SCALAR"
        || name == "OBJECT"
        || name == "FIELD_DEFINITION"
        || name == "ARGUMENT_DEFINITION"
        || name == "INTERFACE"
        || name == "UNION"
        || name == "ENUM"
        || name == "ENUM_VALUE"
        || name == "INPUT_OBJECT"
        || name == "INPUT_FIELD_DEFINITION"
}

fn location_words<'f>(alloc: Global, names: &'f [Text]) -> Result<Vec<Thing<'f>>, AllocError>
    ensures { IfOk result (λ things. map thing_data things.items ≡ location_words names.now) }
{
    let mut things = Vec::new(alloc);
    'names: for name in names {
        if is_location(name.as_str()) {
            things.push(Thing::Word(name.as_str()))?;
        }
    }
    Ok(things)
}

fn locations_in<'f>(alloc: Global, body: &'f DefBody) -> Result<Vec<Thing<'f>>, AllocError>
    ensures { IfOk result (λ things. map thing_data things.items ≡ locations_in (body_tree body.now)) }
{
    match body {
        DefBody::Directive { locations, .. } => location_words(alloc, locations),
        _ => Ok(Vec::new(alloc)),
    }
}

pub fn locations<'f>(alloc: Global, of: Thing<'f>) -> Result<Held<'f>, AllocError>
    ensures { IfOk result (λ found. held_data found ≡ locations (thing_data of.entry)) }
{
    match of {
        Thing::Directive(directive) => { Ok(Held::Many(locations_in(alloc, &directive.body)?)) }
        _ => Ok(Held::Nothing),
    }
}

fn repeatable_in(body: &DefBody) -> bool
    ensures { result ≡ repeatable_in (body_tree body.now) }
{
    match body {
        DefBody::Directive { repeatable, .. } => *repeatable,
        _ => false,
    }
}

pub fn repeatable<'f>(of: Thing<'f>) -> Held<'f>
    ensures { held_data result ≡ repeatable (thing_data of.entry) }
{
    match of {
        Thing::Directive(directive) => Held::One(Thing::Flag(repeatable_in(&directive.body))),
        _ => Held::Nothing,
    }
}
