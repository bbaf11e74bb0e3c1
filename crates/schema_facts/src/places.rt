//! The places of the directives that are told of, found once.

ghost use Rattle.std.specs.Prelude.{◌≡◌, ◌∷◌, [], Some, map, IfOk};
ghost use Rattle.schema_reader.specs.Trees.{field_tree, enum_value_tree, definition_tree};
ghost use Rattle.schema_facts.specs.Facts.{known_type, numbers_in};
ghost use Rattle.schema_facts.specs.Places.{field_place, value_place, places_in, places_of};

use crate::deprecations::place_of;
use crate::known::KnownType;
use schema_reader::{DefBody, EnumValueDef, FieldDef, SchemaDef};
use std::alloc::{AllocError, Global};

fn field_places(alloc: Global, fields: &[FieldDef]) -> Result<Vec<usize>, AllocError>
    ensures { IfOk result (λ v. v.items ≡ map field_place (map field_tree fields.now)) }
{
    let mut places = Vec::new(alloc);
    'fields: for field in fields {
        places.push(place_of(&field.directives, "deprecated"))?;
    }
    Ok(places)
}

fn value_places(alloc: Global, values: &[EnumValueDef]) -> Result<Vec<usize>, AllocError>
    ensures { IfOk result (λ v. v.items ≡ map value_place (map enum_value_tree values.now)) }
{
    let mut places = Vec::new(alloc);
    'values: for value in values {
        places.push(place_of(&value.directives, "deprecated"))?;
    }
    Ok(places)
}

fn one(alloc: Global, place: usize) -> Result<Vec<usize>, AllocError>
    ensures { IfOk result (λ v. v.items ≡ place ∷ []) }
{
    let mut places = Vec::new(alloc);
    places.push(place)?;
    Ok(places)
}

fn places_in(alloc: Global, definition: &SchemaDef) -> Result<Vec<usize>, AllocError>
    ensures { IfOk result (λ v. v.items ≡ places_in (Some (definition_tree definition.now))) }
{
    match &definition.body {
        DefBody::Object { fields, .. } => field_places(alloc, fields),
        DefBody::Interface { fields, .. } => field_places(alloc, fields),
        DefBody::Enum(values) => value_places(alloc, values),
        DefBody::Scalar => one(alloc, place_of(&definition.directives, "specifiedBy")),
        _ => Ok(Vec::new(alloc)),
    }
}

fn places_of(alloc: Global, known: &KnownType) -> Result<Vec<usize>, AllocError>
    ensures { IfOk result (λ v. v.items ≡ places_of (known_type known.now)) }
{
    match known {
        KnownType::Defined(definition) => places_in(alloc, definition),
        KnownType::BuiltIn(_) => Ok(Vec::new(alloc)),
    }
}

/// Of each type the places of `@deprecated` at its fields or values, or that of `@specifiedBy` at a scalar. It fails for want of memory alone.
pub fn all_places(alloc: Global, types: &[KnownType]) -> Result<Vec<Vec<usize>>, AllocError>
    ensures { IfOk result (λ v. map numbers_in v.items ≡ map places_of (map known_type types.now)) }
{
    let mut all = Vec::new(alloc);
    'types: for known in types {
        all.push(places_of(alloc, known)?)?;
    }
    Ok(all)
}
