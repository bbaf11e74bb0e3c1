//! What is known of a schema by its text.

ghost use Rattle.std.specs.Prelude.{◌≡◌, ◌++◌, [], map, IfOk, option_map, Option, Some, None};
ghost use Rattle.schema_reader.specs.Trees.{definition_tree, schema_trees};
ghost use Rattle.schema_reader.specs.SchemaAnswers.{HasSchema};
ghost use Rattle.schema_rules.specs.Views.{maybe_name};
ghost use Rattle.schema_facts.specs.Facts.{known_type, with_scalar, facts_with, AreFacts, schema_description, number_named, or_empty, scalars_if};
ghost use Rattle.schema_facts.specs.FactsViews.{facts_data};
ghost use Rattle.schema_facts.specs.Making.{IsTold};

use crate::directives::add_not_defined;
use crate::facts::SchemaFacts;
use crate::known::KnownType;
use crate::meta_schema::{built_in_directives, meta_text};
use crate::places::all_places;
use crate::possible::all_possible;
use crate::scalars::{add_scalar, is_mentioned};
use crate::shown::all_shown;
use crate::sorting::{add_meta_types, sort_definitions};
use crate::types::number_in;
use gql_base::{Indexed, OperationKind, Text, index_of, index_owned};
use schema_reader::{DefBody, SchemaDef, SchemaText, read_schema_text};
use schema_rules::{items_of, root_name, types_of};
use std::alloc::{AllocError, Global};

/// What is told of a text before its definitions are taken apart: the names of the types of operations, and which of the
/// built-in scalars it refers to.
#[derive(Drop)]
pub struct Told {
    pub query: Option<Text>,
    pub mutation: Option<Text>,
    pub subscription: Option<Text>,
    pub int: bool,
    pub id: bool,
}

fn copied(alloc: Global, name: Option<&str>) -> Result<Option<Text>, AllocError>
    ensures { IfOk result (λ copy. copy ≡ maybe_name name.entry) }
{
    match name {
        Some(name) => Ok(Some(Text::copy_of(alloc, name)?)),
        None => Ok(None),
    }
}

fn told_by(alloc: Global, text: &SchemaText) -> Result<Told, AllocError>
    ensures { IfOk result (λ told. IsTold (schema_trees text.now) told) }
{
    let items = items_of(alloc, text)?;
    let names = types_of(alloc, &items)?;
    let types = index_of(alloc, &names)?;
    Ok(Told {
        query: copied(alloc, root_name(&items, &types, OperationKind::Query))?,
        mutation: copied(alloc, root_name(&items, &types, OperationKind::Mutation))?,
        subscription: copied(
            alloc,
            root_name(&items, &types, OperationKind::Subscription),
        )?,
        int: is_mentioned("Int", &items),
        id: is_mentioned("ID", &items),
    })
}

fn copy_description(alloc: Global, description: &Option<Text>) -> Result<Option<Text>, AllocError>
    ensures { IfOk result (λ copy. copy ≡ description.now) }
{
    match description {
        Some(text) => Ok(Some(Text::copy_of(alloc, text.as_str())?)),
        None => Ok(None),
    }
}

fn schema_description(alloc: Global, definitions: &[SchemaDef]) -> Result<Option<Text>, AllocError>
    ensures { IfOk result (λ description. description ≡ schema_description (map definition_tree definitions.now)) }
{
    'definitions: for definition in definitions {
        if let DefBody::Schema(_) = &definition.body {
            return copy_description(alloc, &definition.description);
        }
    }
    Ok(None)
}

// The schema text that a text is that is known to be one.
fn read(alloc: Global, text: &str) -> Result<SchemaText, AllocError>
    ensures { IfOk result (λ s. HasSchema text.now (schema_trees s)) }
{
    match read_schema_text(alloc, text) {
        Ok(read) => Ok(read),
        Err(_) => Err(AllocError),
    }
}

fn or_empty(name: &Option<Text>) -> &str
    ensures { result.now ≡ or_empty name.now }
{
    match name {
        Some(name) => name.as_str(),
        None => "",
    }
}

fn maybe_number(types: &Indexed<KnownType>, name: &Option<Text>) -> Option<usize>
    ensures { result ≡ option_map (number_named (map known_type types.now.items.items)) name.now }
{
    match name {
        Some(name) => Some(number_in(types, name.as_str())),
        None => None,
    }
}

fn add_scalars(alloc: Global, told: &Told, types: &mut Vec<KnownType>) -> Result<(), AllocError>
    ensures { IfOk result (λ _. map known_type types.new.items ≡ scalars_if told.now.int told.now.id (map known_type types.old.items)) }
{
    add_scalar(alloc, true, "String", types)?;
    add_scalar(alloc, true, "Boolean", types)?;
    add_scalar(alloc, told.int, "Int", types)?;
    add_scalar(alloc, told.id, "ID", types)
}

fn facts_with(
    alloc: Global,
    told: &Told,
    description: Option<Text>,
    types: Vec<KnownType>,
    directives: Vec<SchemaDef>,
) -> Result<SchemaFacts, AllocError>
    ensures { IfOk result (λ f. facts_data f ≡ facts_with description (map known_type types.items) told.now.query told.now.mutation told.now.subscription (map definition_tree directives.items)) }
{
    let types = index_owned(alloc, types)?;
    let possible = all_possible(alloc, &types)?;
    let shown = all_shown(alloc, types.items())?;
    let places = all_places(alloc, types.items())?;
    let query_name = Text::copy_of(alloc, or_empty(&told.query))?;
    Ok(SchemaFacts {
        description,
        query: number_in(&types, query_name.as_str()),
        query_name,
        mutation: maybe_number(&types, &told.mutation),
        subscription: maybe_number(&types, &told.subscription),
        types,
        possible,
        shown,
        places,
        directives,
    })
}

/// What is known of a schema by its text, which it keeps. Of a text that `Schema::build` accepts it fails for want of memory alone; of
/// another one, such as one without a type of queries, it may say so too.
pub fn facts_of(alloc: Global, text: SchemaText) -> Result<SchemaFacts, AllocError>
    ensures { IfOk result (λ f. AreFacts (schema_trees text) (facts_data f)) }
{
    let told = told_by(alloc, &text)?;
    let description = schema_description(alloc, &text.definitions)?;
    let meta = read(alloc, meta_text(alloc, or_empty(&told.query))?.as_str())?;
    let built_ins = read(alloc, built_in_directives(alloc)?.as_str())?;
    let mut directives = Vec::new(alloc);
    add_not_defined(&text.definitions, built_ins.definitions, &mut directives)?;
    let mut types = Vec::new(alloc);
    sort_definitions(text.definitions, &mut types, &mut directives)?;
    add_scalars(alloc, &told, &mut types)?;
    add_meta_types(meta.definitions, &mut types)?;
    facts_with(alloc, &told, description, types, directives)
}
