//! The types of a schema text, with numbers in place of names: what is tested and kept of a schema once its names are known.

ghost use Rattle.std.specs.Prelude.{◌≡◌, ◌++◌, [], map, length, IfOk};
ghost use Rattle.std.specs.List.{flat_map};
ghost use Rattle.gql_base.specs.parts.Trees.{directive_tree};
ghost use Rattle.schema_reader.specs.Trees.{input_tree, field_tree, enum_value_tree, body_tree, definition_tree, schema_trees};
ghost use Rattle.input_values.specs.defaults.Filling.{literal_seen};
ghost use Rattle.schema_rules.specs.DirectiveUses.{given_weight};
ghost use Rattle.schema_rules.specs.Views.{named_kind, maybe_name};
ghost use Rattle.schema_model.specs.Drafts.{number_named, input_draft, field_draft, body_draft, definition_draft, defined_drafts, with_scalars, scalar_draft, drafts_of, bare, fielded, union_draft, enum_draft, object_draft};
ghost use Rattle.schema_model.specs.Numbers.{type_number};
ghost use Rattle.schema_model.specs.DraftViews.{input_view, field_view, type_view, maybe_drafts};

use crate::draft_types::{DraftField, DraftInput, DraftType};
use crate::shapes::{number_named, shape_of};
use gql_base::{NameIndex, Text, Value, index_owned};
use input_values::TypeId;
use schema_reader::{DefBody, EnumValueDef, FieldDef, InputValue, SchemaDef, SchemaText};
use schema_rules::{Kind, TypeName, given_weight, is_lax, size_arguments};
use std::alloc::{AllocError, Global};

/// The literal of a default, if there is a default.
pub fn literal_of(value: &Option<Value>) -> Option<&Value>
    ensures { literal_seen result ≡ Rattle.gql_base.specs.parts.Trees.maybe_value value.now }
{
    match value {
        Some(value) => Some(value),
        None => None,
    }
}

fn draft_input<'a>(
    alloc: Global,
    types: &NameIndex<'_, TypeName<'_>>,
    input: &'a InputValue,
) -> Result<DraftInput<'a>, AllocError>
    ensures { IfOk result (λ d. input_view d ≡ input_draft (map named_kind types.now.items.now) (input_tree input.now)) }
{
    Ok(DraftInput {
        name: input.name.as_str(),
        shape: shape_of(alloc, types, &input.of)?,
        default: literal_of(&input.default),
        cost: given_weight(&input.directives),
    })
}

fn draft_inputs<'a>(
    alloc: Global,
    types: &NameIndex<'_, TypeName<'_>>,
    inputs: &'a [InputValue],
) -> Result<Vec<DraftInput<'a>>, AllocError>
    ensures { IfOk result (λ ds. map input_view ds.items ≡ map (input_draft (map named_kind types.now.items.now)) (map input_tree inputs.now)) }
{
    let mut drafts = Vec::new(alloc);
    for input in inputs {
        drafts.push(draft_input(alloc, types, input)?)?;
    }
    Ok(drafts)
}

fn draft_field<'a>(
    alloc: Global,
    types: &NameIndex<'_, TypeName<'_>>,
    field: &'a FieldDef,
) -> Result<DraftField<'a>, AllocError>
    ensures { IfOk result (λ d. field_view d ≡ field_draft (map named_kind types.now.items.now) (field_tree field.now)) }
{
    let arguments = draft_inputs(alloc, types, &field.arguments)?;
    Ok(DraftField {
        name: field.name.as_str(),
        shape: shape_of(alloc, types, &field.of)?,
        arguments: index_owned(alloc, arguments)?,
        cost: given_weight(&field.directives),
        size: size_arguments(&field.directives),
    })
}

fn draft_fields<'a>(
    alloc: Global,
    types: &NameIndex<'_, TypeName<'_>>,
    fields: &'a [FieldDef],
) -> Result<Vec<DraftField<'a>>, AllocError>
    ensures { IfOk result (λ ds. map field_view ds.items ≡ map (field_draft (map named_kind types.now.items.now)) (map field_tree fields.now)) }
{
    let mut drafts = Vec::new(alloc);
    for field in fields {
        drafts.push(draft_field(alloc, types, field)?)?;
    }
    Ok(drafts)
}

fn numbers_of(
    alloc: Global,
    types: &NameIndex<'_, TypeName<'_>>,
    names: &[Text],
) -> Result<Vec<TypeId>, AllocError>
    ensures { IfOk result (λ ns. map type_number ns.items ≡ map (number_named (map named_kind types.now.items.now)) names.now) }
{
    let mut numbers = Vec::new(alloc);
    for name in names {
        numbers.push(number_named(types, name.as_str()))?;
    }
    Ok(numbers)
}

fn bare<'a>(
    alloc: Global,
    name: &'a str,
    kind: Kind,
    cost: Option<&'a str>,
    lax: bool,
) -> Result<DraftType<'a>, AllocError>
    ensures { IfOk result (λ d. type_view d ≡ bare name.now kind (maybe_name cost.entry) lax) }
{
    Ok(DraftType {
        name,
        kind,
        interfaces: Vec::new(alloc),
        members: Vec::new(alloc),
        fields: index_owned(alloc, Vec::new(alloc))?,
        values: &[],
        inputs: Vec::new(alloc),
        cost,
        lax,
    })
}

fn fielded<'a>(
    alloc: Global,
    types: &NameIndex<'_, TypeName<'_>>,
    def: &'a SchemaDef,
    kind: Kind,
    interfaces: &[Text],
    fields: &'a [FieldDef],
) -> Result<DraftType<'a>, AllocError>
    ensures { IfOk result (λ d. type_view d ≡ fielded (map named_kind types.now.items.now) def.now.name kind (given_weight (map directive_tree def.now.directives.items)) interfaces.now (map field_tree fields.now)) }
{
    let interfaces = numbers_of(alloc, types, interfaces)?;
    let fields = draft_fields(alloc, types, fields)?;
    Ok(DraftType {
        name: def.name.as_str(),
        kind,
        interfaces,
        members: Vec::new(alloc),
        fields: index_owned(alloc, fields)?,
        values: &[],
        inputs: Vec::new(alloc),
        cost: given_weight(&def.directives),
        lax: false,
    })
}

fn union<'a>(
    alloc: Global,
    name: &'a str,
    cost: Option<&'a str>,
    members: Vec<TypeId>,
) -> Result<DraftType<'a>, AllocError>
    ensures { IfOk result (λ d. type_view d ≡ union_draft name.now (maybe_name cost.entry) (map type_number members.items)) }
{
    Ok(DraftType {
        name,
        kind: Kind::Union,
        interfaces: Vec::new(alloc),
        members,
        fields: index_owned(alloc, Vec::new(alloc))?,
        values: &[],
        inputs: Vec::new(alloc),
        cost,
        lax: false,
    })
}

fn enumeration<'a>(
    alloc: Global,
    name: &'a str,
    cost: Option<&'a str>,
    values: &'a [EnumValueDef],
) -> Result<DraftType<'a>, AllocError>
    ensures { IfOk result (λ d. type_view d ≡ enum_draft name.now (maybe_name cost.entry) (map enum_value_tree values.now)) }
{
    Ok(DraftType {
        name,
        kind: Kind::Enum,
        interfaces: Vec::new(alloc),
        members: Vec::new(alloc),
        fields: index_owned(alloc, Vec::new(alloc))?,
        values,
        inputs: Vec::new(alloc),
        cost,
        lax: false,
    })
}

fn input_object<'a>(
    alloc: Global,
    name: &'a str,
    cost: Option<&'a str>,
    inputs: Vec<DraftInput<'a>>,
) -> Result<DraftType<'a>, AllocError>
    ensures { IfOk result (λ d. type_view d ≡ object_draft name.now (maybe_name cost.entry) (map input_view inputs.entry.items)) }
{
    Ok(DraftType {
        name,
        kind: Kind::Input,
        interfaces: Vec::new(alloc),
        members: Vec::new(alloc),
        fields: index_owned(alloc, Vec::new(alloc))?,
        values: &[],
        inputs,
        cost,
        lax: false,
    })
}

fn draft_type<'a>(
    alloc: Global,
    types: &NameIndex<'_, TypeName<'_>>,
    def: &'a SchemaDef,
) -> Result<Option<DraftType<'a>>, AllocError>
    ensures { IfOk result (λ d. maybe_drafts d ≡ definition_draft (map named_kind types.now.items.now) (definition_tree def.now)) }
{
    let name = def.name.as_str();
    let cost = given_weight(&def.directives);
    match &def.body {
        DefBody::Schema(_) => Ok(None),
        DefBody::Scalar => {
            let lax = is_lax(&def.directives);
            Ok(Some(bare(alloc, name, Kind::Scalar, cost, lax)?))
        }
        DefBody::Object { interfaces, fields } => Ok(Some(fielded(
            alloc,
            types,
            def,
            Kind::Object,
            interfaces,
            fields,
        )?)),
        DefBody::Interface { interfaces, fields } => {
            Ok(Some(fielded(alloc, types, def, Kind::Interface, interfaces, fields)?))
        }
        DefBody::Union(members) => {
            let members = numbers_of(alloc, types, members)?;
            Ok(Some(union(alloc, name, cost, members)?))
        }
        DefBody::Enum(values) => { Ok(Some(enumeration(alloc, name, cost, values)?)) }
        DefBody::Input(fields) => {
            let inputs = draft_inputs(alloc, types, fields)?;
            Ok(Some(input_object(alloc, name, cost, inputs)?))
        }
        DefBody::Directive {
            arguments: _,
            repeatable: _,
            locations: _,
        } => Ok(None),
    }
}

fn add_type<'a>(
    drafts: &mut Vec<DraftType<'a>>,
    draft: Option<DraftType<'a>>,
) -> Result<(), AllocError>
    ensures { IfOk result (λ _. map type_view drafts.new.items ≡ map type_view drafts.old.items ++ maybe_drafts draft.entry) }
{
    match draft {
        Some(draft) => {
            drafts.push(draft)?;
            Ok(())
        }
        None => Ok(()),
    }
}

fn defined_drafts<'a>(
    alloc: Global,
    types: &NameIndex<'_, TypeName<'_>>,
    text: &'a SchemaText,
) -> Result<Vec<DraftType<'a>>, AllocError>
    ensures { IfOk result (λ ds. map type_view ds.items ≡ defined_drafts (map named_kind types.now.items.now) (schema_trees text.now)) }
{
    let mut drafts = Vec::new(alloc);
    for def in &text.definitions {
        let draft = draft_type(alloc, types, def)?;
        add_type(&mut drafts, draft)?;
    }
    Ok(drafts)
}

fn count_of(drafts: &[DraftType<'_>]) -> usize
    ensures { result ≡ length drafts.now }
{
    drafts.len()
}

fn add_scalars<'a>(
    alloc: Global,
    types: &[TypeName<'a>],
    drafts: &mut Vec<DraftType<'a>>,
) -> Result<(), AllocError>
    ensures { IfOk result (λ _. map type_view drafts.new.items ≡ with_scalars (map named_kind types.now) (map type_view drafts.old.items)) }
{
    let defined = count_of(&*drafts);
    for at in defined..types.len() {
        let draft = bare(alloc, types[at].name, Kind::Scalar, None, false)?;
        drafts.push(draft)?;
    }
    Ok(())
}

/// All types of a text, where these are their names. It fails for want of memory alone.
pub fn drafts_of<'a>(
    alloc: Global,
    types: &NameIndex<'_, TypeName<'a>>,
    text: &'a SchemaText,
) -> Result<Vec<DraftType<'a>>, AllocError>
    ensures { IfOk result (λ ds. map type_view ds.items ≡ drafts_of (map named_kind types.now.items.now) (schema_trees text.now)) }
{
    let mut drafts = defined_drafts(alloc, types, text)?;
    add_scalars(alloc, types.items(), &mut drafts)?;
    Ok(drafts)
}
