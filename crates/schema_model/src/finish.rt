//! A checked schema of what its text drafts, with the values of its defaults.

ghost use Rattle.std.specs.Prelude.{◌≡◌, ◌++◌, ◌-◌, ◌≤◌, ◌∷◌, [], map, length, IfOk, option_map, codes};
ghost use Rattle.gql_base.specs.parts.Trees.{named_value, value_tree};
ghost use Rattle.gql_base.specs.parts.Values.{values_from};
ghost use Rattle.input_values.specs.inputs.Definitions.{input_data};
ghost use Rattle.schema_reader.specs.Trees.{enum_value_tree};
ghost use Rattle.schema_rules.specs.Views.{item_tree, named_kind, maybe_name, maybe_arguments, literal_tree};
ghost use Rattle.schema_model.specs.Drafts.{value_name};
ghost use Rattle.schema_model.specs.Numbers.{type_number};
ghost use Rattle.schema_model.specs.Entries.{size_data, field_data, type_data, field_number};
ghost use Rattle.schema_model.specs.Schemas.{input_of, field_of, type_of, type_with, field_name, numbers, types_from, fields_from, no_type, no_field};
ghost use Rattle.schema_model.specs.DraftViews.{input_view, field_view, type_view};

use crate::asked::default_of;
use crate::draft_types::{DraftField, DraftInput, DraftType};
use crate::entries::{FieldEntry, FieldId, TypeEntry};
use crate::sizes::maybe_size;
use gql_base::{Text, hashed_by_name};
use input_values::{InputDef, InputTypes, Shape, TypeId, copy_shape};
use schema_reader::EnumValueDef;
use schema_rules::Kind;
use std::alloc::{AllocError, Global};

pub fn maybe_copy(alloc: Global, text: Option<&str>) -> Result<Option<Text>, AllocError>
    ensures { IfOk result (λ copy. copy ≡ maybe_name text.entry) }
{
    match text {
        Some(text) => Ok(Some(Text::copy_of(alloc, text)?)),
        None => Ok(None),
    }
}

fn input_of<T: InputTypes>(
    alloc: Global,
    forms: &T,
    input: &DraftInput<'_>,
) -> Result<InputDef, AllocError>
    ensures { IfOk result (λ d. input_data d ≡ input_of (T.forms forms.now) (input_view input.now)) }
{
    Ok(InputDef {
        name: Text::copy_of(alloc, input.name)?,
        shape: copy_shape(alloc, &input.shape)?,
        default: default_of(alloc, forms, &input.shape, input.default)?,
        cost: maybe_copy(alloc, input.cost)?,
    })
}

fn inputs_of<T: InputTypes>(
    alloc: Global,
    forms: &T,
    inputs: &[DraftInput<'_>],
) -> Result<Vec<InputDef>, AllocError>
    ensures { IfOk result (λ ds. map input_data ds.items ≡ map (input_of (T.forms forms.now)) (map input_view inputs.now)) }
{
    let mut made = Vec::new(alloc);
    for input in inputs {
        made.push(input_of(alloc, forms, input)?)?;
    }
    Ok(made)
}

fn field_of<T: InputTypes>(
    alloc: Global,
    forms: &T,
    owner: usize,
    field: &DraftField<'_>,
) -> Result<FieldEntry, AllocError>
    ensures { IfOk result (λ f. field_data f ≡ field_of (T.forms forms.now) owner (field_view field.now)) }
{
    let arguments = inputs_of(alloc, forms, field.arguments.items())?;
    Ok(FieldEntry {
        name: Text::copy_of(alloc, field.name)?,
        owner: TypeId { number: owner },
        shape: copy_shape(alloc, &field.shape)?,
        arguments: hashed_by_name(alloc, arguments)?,
        cost: maybe_copy(alloc, field.cost)?,
        size: maybe_size(alloc, field.size)?,
    })
}

fn add_fields<T: InputTypes>(
    alloc: Global,
    forms: &T,
    fields: &mut Vec<FieldEntry>,
    owner: usize,
    drafts: &[DraftField<'_>],
) -> Result<(), AllocError>
    ensures { IfOk result (λ _. map field_data fields.new.items ≡ map field_data fields.old.items ++ map (field_of (T.forms forms.now) owner) (map field_view drafts.now)) }
{
    for draft in drafts {
        fields.push(field_of(alloc, forms, owner, draft)?)?;
    }
    Ok(())
}

fn names_of(alloc: Global, fields: &[DraftField<'_>]) -> Result<Vec<Text>, AllocError>
    ensures { IfOk result (λ names. names.items ≡ map field_name (map field_view fields.now)) }
{
    let mut names = Vec::new(alloc);
    for field in fields {
        names.push(Text::copy_of(alloc, field.name)?)?;
    }
    Ok(names)
}

fn values_of(alloc: Global, values: &[EnumValueDef]) -> Result<Vec<Text>, AllocError>
    ensures { IfOk result (λ names. names.items ≡ map value_name (map enum_value_tree values.now)) }
{
    let mut names = Vec::new(alloc);
    for value in values {
        names.push(Text::copy_of(alloc, value.name.as_str())?)?;
    }
    Ok(names)
}

fn copied_numbers(alloc: Global, numbers: &[TypeId]) -> Result<Vec<TypeId>, AllocError>
    ensures { IfOk result (λ copies. map type_number copies.items ≡ map type_number numbers.now) }
{
    let mut copies = Vec::new(alloc);
    for number in numbers {
        copies.push(*number)?;
    }
    Ok(copies)
}

// So many numbers of fields from one on.
fn ids_of(alloc: Global, first: usize, end: usize) -> Result<Vec<FieldId>, AllocError>
    requires { first ≤ end }
    ensures { IfOk result (λ ids. map field_number ids.items ≡ numbers first (end - first)) }
{
    let mut ids = Vec::new(alloc);
    for number in first..end {
        ids.push(FieldId { number })?;
    }
    Ok(ids)
}

fn type_of<T: InputTypes>(
    alloc: Global,
    forms: &T,
    ids: Vec<FieldId>,
    draft: &DraftType<'_>,
) -> Result<TypeEntry, AllocError>
    ensures { IfOk result (λ t. type_data t ≡ type_with (T.forms forms.now) (map field_number ids.items) (type_view draft.now)) }
{
    let names = names_of(alloc, draft.fields.items())?;
    let values = values_of(alloc, draft.values)?;
    let inputs = inputs_of(alloc, forms, &draft.inputs)?;
    Ok(TypeEntry {
        name: Text::copy_of(alloc, draft.name)?,
        kind: draft.kind,
        names: hashed_by_name(alloc, names)?,
        fields: ids,
        interfaces: copied_numbers(alloc, &draft.interfaces)?,
        members: copied_numbers(alloc, &draft.members)?,
        values: hashed_by_name(alloc, values)?,
        inputs: hashed_by_name(alloc, inputs)?,
        cost: maybe_copy(alloc, draft.cost)?,
        lax: draft.lax,
    })
}

fn count_of(fields: &[FieldEntry]) -> usize
    ensures { result ≡ length fields.now }
{
    fields.len()
}

// A type and its fields, after others.
fn add_type<T: InputTypes>(
    alloc: Global,
    forms: &T,
    types: &mut Vec<TypeEntry>,
    fields: &mut Vec<FieldEntry>,
    owner: usize,
    draft: &DraftType<'_>,
) -> Result<(), AllocError>
    ensures types { IfOk result (λ _. map type_data types.new.items ≡ map type_data types.old.items ++ (type_of (T.forms forms.now) (length fields.old.items) (type_view draft.now) ∷ [])) }
    ensures fields { IfOk result (λ _. map field_data fields.new.items ≡ map field_data fields.old.items ++ map (field_of (T.forms forms.now) owner) (type_view draft.now).fields) }
{
    let first = count_of(&*fields);
    add_fields(alloc, forms, fields, owner, draft.fields.items())?;
    let ids = ids_of(alloc, first, count_of(&*fields))?;
    types.push(type_of(alloc, forms, ids, draft)?)?;
    Ok(())
}

/// The types and the fields of a schema.
#[derive(Drop)]
pub struct Tables {
    pub types: Vec<TypeEntry>,
    pub fields: Vec<FieldEntry>,
}

/// The types and the fields that are drafted. It fails for want of memory alone.
pub fn tables_of<T: InputTypes>(
    alloc: Global,
    forms: &T,
    drafts: &[DraftType<'_>],
) -> Result<Tables, AllocError>
    ensures types { IfOk result (λ t. map type_data t.types.items ≡ types_from (T.forms forms.now) 0 (map type_view drafts.now)) }
    ensures fields { IfOk result (λ t. map field_data t.fields.items ≡ fields_from (T.forms forms.now) 0 (map type_view drafts.now)) }
{
    let mut types = Vec::new(alloc);
    let mut fields = Vec::new(alloc);
    for owner in 0..drafts.len() {
        add_type(alloc, forms, &mut types, &mut fields, owner, &drafts[owner])?;
    }
    Ok(Tables { types, fields })
}

/// A type that isn't there: a union without members.
pub fn no_type(alloc: Global) -> Result<TypeEntry, AllocError>
    ensures { IfOk result (λ t. type_data t ≡ no_type) }
{
    Ok(TypeEntry {
        name: Text::copy_of(alloc, "")?,
        kind: Kind::Union,
        names: hashed_by_name(alloc, Vec::new(alloc))?,
        fields: Vec::new(alloc),
        interfaces: Vec::new(alloc),
        members: Vec::new(alloc),
        values: hashed_by_name(alloc, Vec::new(alloc))?,
        inputs: hashed_by_name(alloc, Vec::new(alloc))?,
        cost: None,
        lax: false,
    })
}

/// A field that isn't there.
#[tactic(auto, using(crate::proofs::ShapeSteps::shape_steps))]
pub fn no_field(alloc: Global) -> Result<FieldEntry, AllocError>
    ensures { IfOk result (λ f. field_data f ≡ no_field) }
{
    Ok(FieldEntry {
        name: Text::copy_of(alloc, "")?,
        owner: TypeId { number: 0 },
        shape: Shape::Named {
            of: TypeId { number: 0 },
            nullable: true,
        },
        arguments: hashed_by_name(alloc, Vec::new(alloc))?,
        cost: None,
        size: None,
    })
}
