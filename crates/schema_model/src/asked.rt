//! What the types of a schema text ask of the values that are given for them, and the values of their defaults.

ghost use Rattle.std.specs.Prelude.{◌≡◌, map, IfOk, option_map};
ghost use Rattle.input_values.specs.values.Coerced.{coerced_tree};
ghost use Rattle.input_values.specs.inputs.Shapes.{shape_tree};
ghost use Rattle.input_values.specs.defaults.Drafts.{AreFilled};
ghost use Rattle.input_values.specs.defaults.Filling.{literal_seen, field_draft, type_draft, filled_forms};
ghost use Rattle.schema_reader.specs.Trees.{enum_value_tree};
ghost use Rattle.schema_model.specs.Drafts.{value_name};
ghost use Rattle.schema_model.specs.Defaults.{asked_field, asked, all_asked, default_of};
ghost use Rattle.schema_model.specs.DraftViews.{input_view, type_view};

use crate::draft_types::{DraftInput, DraftType};
use gql_base::{Text, Value, index_owned};
use input_values::{
    Coerced, DefaultFault, DraftField as AskedField, DraftType as AskedType, FilledTypes,
    InputKind, InputTypes, Shape, coerce_default, copy_shape, fill, scalar_kind,
};
use schema_reader::EnumValueDef;
use schema_rules::Kind;
use std::alloc::{AllocError, Global};

fn asked_field<'a>(alloc: Global, input: &DraftInput<'a>) -> Result<AskedField<'a>, AllocError>
    ensures { IfOk result (λ f. field_draft f ≡ asked_field (input_view input.now)) }
{
    Ok(AskedField {
        name: input.name,
        shape: copy_shape(alloc, &input.shape)?,
        default: input.default,
    })
}

fn asked_fields<'a>(
    alloc: Global,
    inputs: &[DraftInput<'a>],
) -> Result<Vec<AskedField<'a>>, AllocError>
    ensures { IfOk result (λ fs. map field_draft fs.items ≡ map asked_field (map input_view inputs.now)) }
{
    let mut fields = Vec::new(alloc);
    for input in inputs {
        fields.push(asked_field(alloc, input)?)?;
    }
    Ok(fields)
}

fn value_names(alloc: Global, values: &[EnumValueDef]) -> Result<Vec<&Text>, AllocError>
    ensures { IfOk result (λ names. map (λ n. n.now) names.items ≡ map value_name (map enum_value_tree values.now)) }
{
    let mut names = Vec::new(alloc);
    for value in values {
        names.push(&value.name)?;
    }
    Ok(names)
}

fn asked<'a>(alloc: Global, draft: &DraftType<'a>) -> Result<AskedType<'a>, AllocError>
    ensures { IfOk result (λ t. type_draft t ≡ asked (type_view draft.now)) }
{
    match draft.kind {
        Kind::Scalar => Ok(AskedType::Simple(scalar_kind(draft.lax, draft.name))),
        Kind::Enum => {
            let names = value_names(alloc, draft.values)?;
            Ok(AskedType::Enum(index_owned(alloc, names)?))
        }
        Kind::Input => {
            let fields = asked_fields(alloc, &draft.inputs)?;
            Ok(AskedType::Object(index_owned(alloc, fields)?))
        }
        Kind::Object | Kind::Interface | Kind::Union => Ok(AskedType::Simple(InputKind::None)),
    }
}

fn all_asked<'a>(alloc: Global, drafts: &[DraftType<'a>]) -> Result<Vec<AskedType<'a>>, AllocError>
    ensures { IfOk result (λ ts. map type_draft ts.items ≡ map asked (map type_view drafts.now)) }
{
    let mut types = Vec::new(alloc);
    for draft in drafts {
        types.push(asked(alloc, draft)?)?;
    }
    Ok(types)
}

/// The types of a text with the values of their defaults. It fails for want of memory alone.
pub fn filled<'a>(alloc: Global, drafts: &[DraftType<'a>]) -> Result<FilledTypes<'a>, AllocError>
    ensures { IfOk result (λ f. AreFilled (all_asked (map type_view drafts.now)) (filled_forms f)) }
{
    let types = all_asked(alloc, drafts)?;
    fill(alloc, types)
}

/// The value of a default, if there is a default and it has one. It fails for want of memory alone.
pub fn default_of<T: InputTypes>(
    alloc: Global,
    forms: &T,
    shape: &Shape,
    literal: Option<&Value>,
) -> Result<Option<Coerced>, AllocError>
    ensures { IfOk result (λ v. option_map coerced_tree v ≡ default_of (T.forms forms.now) (shape_tree shape.now) (literal_seen literal.entry)) }
{
    let Some(literal) = literal else {
        return Ok(None);
    };
    match coerce_default(alloc, forms, shape, literal) {
        Ok(value) => Ok(Some(value)),
        Err(DefaultFault::Bad) => Ok(None),
        Err(DefaultFault::Memory) => Err(AllocError),
    }
}
