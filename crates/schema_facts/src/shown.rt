//! What of each type isn't deprecated, found once.

ghost use Rattle.std.specs.Prelude.{◌≡◌, map, IfOk};
ghost use Rattle.schema_reader.specs.Trees.{field_tree, enum_value_tree, body_tree};
ghost use Rattle.schema_facts.specs.Facts.{known_type, numbers_from, numbers_in};
ghost use Rattle.schema_facts.specs.Shown.{is_shown_field, is_shown_value, shown_in, shown_of};

use crate::deprecations::is_deprecated;
use crate::known::KnownType;
use schema_reader::{DefBody, EnumValueDef, FieldDef};
use std::alloc::{AllocError, Global};

fn field_numbers(alloc: Global, fields: &[FieldDef]) -> Result<Vec<usize>, AllocError>
    ensures { IfOk result (λ v. v.items ≡ numbers_from 0 is_shown_field (map field_tree fields.now)) }
{
    let mut numbers = Vec::new(alloc);
    'fields: for number in 0..fields.len() {
        if !is_deprecated(&fields[number].directives) {
            numbers.push(number)?;
        }
    }
    Ok(numbers)
}

fn value_numbers(alloc: Global, values: &[EnumValueDef]) -> Result<Vec<usize>, AllocError>
    ensures { IfOk result (λ v. v.items ≡ numbers_from 0 is_shown_value (map enum_value_tree values.now)) }
{
    let mut numbers = Vec::new(alloc);
    'values: for number in 0..values.len() {
        if !is_deprecated(&values[number].directives) {
            numbers.push(number)?;
        }
    }
    Ok(numbers)
}

fn shown_in(alloc: Global, body: &DefBody) -> Result<Vec<usize>, AllocError>
    ensures { IfOk result (λ v. v.items ≡ shown_in (body_tree body.now)) }
{
    match body {
        DefBody::Object { fields, .. } => field_numbers(alloc, fields),
        DefBody::Interface { fields, .. } => field_numbers(alloc, fields),
        DefBody::Enum(values) => value_numbers(alloc, values),
        _ => Ok(Vec::new(alloc)),
    }
}

fn shown_of(alloc: Global, known: &KnownType) -> Result<Vec<usize>, AllocError>
    ensures { IfOk result (λ v. v.items ≡ shown_of (known_type known.now)) }
{
    match known {
        KnownType::Defined(definition) => shown_in(alloc, &definition.body),
        KnownType::BuiltIn(_) => Ok(Vec::new(alloc)),
    }
}

/// The numbers of the fields or values of each type that aren't deprecated. It fails for want of memory alone.
pub fn all_shown(alloc: Global, types: &[KnownType]) -> Result<Vec<Vec<usize>>, AllocError>
    ensures { IfOk result (λ v. map numbers_in v.items ≡ map shown_of (map known_type types.now)) }
{
    let mut all = Vec::new(alloc);
    'types: for known in types {
        all.push(shown_of(alloc, known)?)?;
    }
    Ok(all)
}
