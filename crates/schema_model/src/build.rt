//! Building a checked schema: the tests in their order, and the schema of a text that passes them.

ghost use Rattle.std.specs.Prelude.{◌≡◌, ◌++◌, [], map, IfOk, option_map};
ghost use Rattle.gql_base.specs.declared.parts.trees.OperationKind.TheVariants.{Query, Mutation, Subscription};
ghost use Rattle.schema_reader.specs.Trees.{schema_trees};
ghost use Rattle.schema_rules.specs.Views.{item_tree, named_kind, maybe_name};
ghost use Rattle.schema_rules.specs.Roots.{root_name};
ghost use Rattle.schema_model.specs.Drafts.{number_named};
ghost use Rattle.schema_model.specs.Numbers.{type_number};
ghost use Rattle.schema_model.specs.Schemas.{before_directive, directives_of, schema_with, or_zero};
ghost use Rattle.schema_model.specs.Faults.{fault_of_items_if, fault_of_names, fault_of_types, fault_of_drafts, fault_from_types, fault_from_names, fault_if, PassesTests, EndsWith, BuildsIf, TextBuildsIf, SchemaBuilds, MetaSchemaBuilds};
ghost use Rattle.schema_model.specs.SchemaViews.{schema_data};
ghost use Rattle.schema_model.specs.DraftViews.{type_view};

use crate::asked::filled;
use crate::bad_default::first_bad_default;
use crate::draft::drafts_of;
use crate::draft_types::DraftType;
use crate::entries::has_lax;
use crate::fault::SchemaFault;
use crate::finish::{no_field, no_type, tables_of};
use crate::implementing::first_not_implemented;
use crate::possible::all_possible;
use crate::schema::Schema;
use crate::shapes::number_named;
use gql_base::{NameIndex, OperationKind, Text, hashed_by_name, index_of};
use input_values::{InputTypes, TypeId};
use schema_reader::SchemaText;
use schema_rules::{
    Item, TypeName, first_bad_directive, first_empty_type, first_float_scalar, first_nested_list,
    first_repeated_place, first_reserved_if, first_unknown_type, first_wrong_kind, has_no_query,
    items_of, place_text, root_name, too_many, type_count, types_of,
};
use std::alloc::{AllocError, Global};

fn test_items(alloc: Global, refused: bool, items: &[Item<'_>]) -> Result<(), SchemaFault>
    ensures { PassesTests result (fault_of_items_if refused (map item_tree items.now)) }
{
    if let Some(counted) = too_many(items) {
        return Err(SchemaFault::TooMany { counted });
    }
    if let Some(place) = first_repeated_place(alloc, items)? {
        return Err(SchemaFault::Repeated {
            place: place_text(alloc, place)?,
        });
    }
    if let Some(place) = first_reserved_if(refused, items) {
        return Err(SchemaFault::Reserved {
            place: place_text(alloc, place)?,
        });
    }
    Ok(())
}

fn test_names(
    alloc: Global,
    types: &NameIndex<'_, TypeName<'_>>,
    items: &[Item<'_>],
) -> Result<(), SchemaFault>
    ensures { PassesTests result (fault_of_names (map named_kind types.now.items.now) (map item_tree items.now)) }
{
    if let Some(name) = first_unknown_type(types, items) {
        return Err(SchemaFault::UnknownType {
            name: Text::copy_of(alloc, name)?,
        });
    }
    if has_no_query(types, items) {
        return Err(SchemaFault::NoQuery);
    }
    if let Some(place) = first_wrong_kind(types, items) {
        return Err(SchemaFault::WrongKind {
            place: place_text(alloc, place)?,
        });
    }
    Ok(())
}

fn test_types(alloc: Global, items: &[Item<'_>]) -> Result<(), SchemaFault>
    ensures { PassesTests result (fault_of_types (map item_tree items.now)) }
{
    if let Some(place) = first_float_scalar(items) {
        return Err(SchemaFault::FloatScalar {
            place: place_text(alloc, place)?,
        });
    }
    if let Some(place) = first_nested_list(items) {
        return Err(SchemaFault::NestedList {
            place: place_text(alloc, place)?,
        });
    }
    if let Some(name) = first_empty_type(items) {
        return Err(SchemaFault::EmptyType {
            name: Text::copy_of(alloc, name)?,
        });
    }
    Ok(())
}

fn test_drafts(
    alloc: Global,
    drafts: &[DraftType<'_>],
    items: &[Item<'_>],
) -> Result<(), SchemaFault>
    ensures { PassesTests result (fault_of_drafts (map type_view drafts.now) (map item_tree items.now)) }
{
    if let Some(place) = first_not_implemented(alloc, drafts)? {
        return Err(SchemaFault::NotImplemented {
            place: place_text(alloc, place)?,
        });
    }
    if let Some(place) = first_bad_directive(items) {
        return Err(SchemaFault::BadDirective {
            place: place_text(alloc, place)?,
        });
    }
    Ok(())
}

fn add_directive(alloc: Global, names: &mut Vec<Text>, item: Item<'_>) -> Result<(), AllocError>
    ensures { IfOk result (λ _. names.new.items ≡ names.old.items ++ before_directive (item_tree item.entry) []) }
{
    match item {
        Item::Directive { name } => {
            names.push(Text::copy_of(alloc, name)?)?;
            Ok(())
        }
        _ => Ok(()),
    }
}

fn directives_of(alloc: Global, items: &[Item<'_>]) -> Result<Vec<Text>, AllocError>
    ensures { IfOk result (λ names. names.items ≡ directives_of (map item_tree items.now)) }
{
    let mut names = Vec::new(alloc);
    for item in items {
        add_directive(alloc, &mut names, *item)?;
    }
    Ok(names)
}

fn root_of(
    items: &[Item<'_>],
    types: &NameIndex<'_, TypeName<'_>>,
    kind: OperationKind,
) -> Option<TypeId>
    ensures { option_map type_number result ≡ option_map (number_named (map named_kind types.now.items.now)) (root_name (map item_tree items.now) (map named_kind types.now.items.now) kind) }
{
    match root_name(items, types, kind) {
        Some(name) => Some(number_named(types, name)),
        None => None,
    }
}

fn or_zero(of: Option<TypeId>) -> TypeId
    ensures { result.number ≡ or_zero (option_map type_number of) }
{
    match of {
        Some(of) => of,
        None => TypeId { number: 0 },
    }
}

fn schema_with<T: InputTypes>(
    alloc: Global,
    forms: &T,
    items: &[Item<'_>],
    types: &NameIndex<'_, TypeName<'_>>,
    drafts: &[DraftType<'_>],
) -> Result<Schema, AllocError>
    ensures { IfOk result (λ s. schema_data s ≡ schema_with (T.forms forms.now) (map item_tree items.now) (map named_kind types.now.items.now) (map type_view drafts.now)) }
{
    let tables = tables_of(alloc, forms, drafts)?;
    let possible = all_possible(alloc, &tables.types)?;
    let floats = has_lax(&tables.types);
    let directives = directives_of(alloc, items)?;
    Ok(Schema {
        types: hashed_by_name(alloc, tables.types)?,
        fields: tables.fields,
        other_type: no_type(alloc)?,
        other_field: no_field(alloc)?,
        directives: hashed_by_name(alloc, directives)?,
        defined: type_count(items),
        query: or_zero(root_of(items, types, OperationKind::Query)),
        mutation: root_of(items, types, OperationKind::Mutation),
        subscription: root_of(items, types, OperationKind::Subscription),
        possible,
        floats,
    })
}

// The tests of uses, after those of types.
fn tested_types(
    alloc: Global,
    drafts: &[DraftType<'_>],
    items: &[Item<'_>],
) -> Result<(), SchemaFault>
    ensures { PassesTests result (fault_from_types (map type_view drafts.now) (map item_tree items.now)) }
{
    match test_types(alloc, items) {
        Ok(()) => test_drafts(alloc, drafts, items),
        Err(fault) => Err(fault),
    }
}

fn tested_names(
    alloc: Global,
    types: &NameIndex<'_, TypeName<'_>>,
    drafts: &[DraftType<'_>],
    items: &[Item<'_>],
) -> Result<(), SchemaFault>
    ensures { PassesTests result (fault_from_names (map named_kind types.now.items.now) (map type_view drafts.now) (map item_tree items.now)) }
{
    match test_names(alloc, types, items) {
        Ok(()) => tested_types(alloc, drafts, items),
        Err(fault) => Err(fault),
    }
}

fn tested(
    alloc: Global,
    refused: bool,
    types: &NameIndex<'_, TypeName<'_>>,
    drafts: &[DraftType<'_>],
    items: &[Item<'_>],
) -> Result<(), SchemaFault>
    ensures { PassesTests result (fault_if refused (map named_kind types.now.items.now) (map type_view drafts.now) (map item_tree items.now)) }
{
    match test_items(alloc, refused, items) {
        Ok(()) => tested_names(alloc, types, drafts, items),
        Err(fault) => Err(fault),
    }
}

// The test of defaults, after all others.
fn with_defaults<T: InputTypes>(
    alloc: Global,
    forms: &T,
    types: &NameIndex<'_, TypeName<'_>>,
    drafts: &[DraftType<'_>],
    items: &[Item<'_>],
) -> Result<Schema, SchemaFault>
    ensures { EndsWith (T.forms forms.now) (map named_kind types.now.items.now) (map type_view drafts.now) (map item_tree items.now) result }
{
    if let Some(place) = first_bad_default(alloc, forms, types, items)? {
        return Err(SchemaFault::BadDefault {
            place: place_text(alloc, place)?,
        });
    }
    Ok(schema_with(alloc, forms, items, types, drafts)?)
}

fn built(
    alloc: Global,
    refused: bool,
    types: &NameIndex<'_, TypeName<'_>>,
    drafts: &[DraftType<'_>],
    items: &[Item<'_>],
) -> Result<Schema, SchemaFault>
    ensures { BuildsIf refused (map named_kind types.now.items.now) (map type_view drafts.now) (map item_tree items.now) result }
{
    match tested(alloc, refused, types, drafts, items) {
        Ok(()) => {
            let filled = filled(alloc, drafts)?;
            with_defaults(alloc, &filled, types, drafts, items)
        }
        Err(fault) => Err(fault),
    }
}

// The schema that a text says, where reserved names are refused or aren't.
fn build_if(alloc: Global, refused: bool, text: &SchemaText) -> Result<Schema, SchemaFault>
    ensures { TextBuildsIf refused (schema_trees text.now) result }
{
    let items = items_of(alloc, text)?;
    let names = types_of(alloc, &items)?;
    let types = index_of(alloc, &names)?;
    let drafts = drafts_of(alloc, &types, text)?;
    built(alloc, refused, &types, &drafts, &items)
}

impl Schema {
    /// The schema that a text says, or the first fault of the text. It copies what it keeps.
    #[tactic(auto, unfolding(crate::specs::Faults::SchemaBuilds))]
    pub fn build(alloc: Global, text: &SchemaText) -> Result<Schema, SchemaFault>
        ensures { SchemaBuilds (schema_trees text.now) result }
    {
        build_if(alloc, true, text)
    }
}

/// The schema that the text of a schema of schemas says (GraphQL October 2021, 4.2), or the first fault of the text. In such
/// a text the names of types, fields, arguments and input fields may begin with two underscores; all else is tested as
/// `Schema::build` does it.
#[tactic(auto, unfolding(crate::specs::Faults::MetaSchemaBuilds))]
pub fn build_meta(alloc: Global, text: &SchemaText) -> Result<Schema, SchemaFault>
    ensures { MetaSchemaBuilds (schema_trees text.now) result }
{
    build_if(alloc, false, text)
}
