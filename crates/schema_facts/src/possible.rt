//! The possible types of interfaces and unions (GraphQL October 2021, 5.5.2.3).

ghost use Rattle.std.specs.Prelude.{◌≡◌, map, IfOk};
ghost use Rattle.schema_facts.specs.Facts.{known_type, number_named, possible_types, numbers_in};
ghost use Rattle.schema_facts.specs.Possible.{list_at, interfaces_of, members_of, implemented, joined, joining, found_of, found_from, is_object};

use crate::known::KnownType;
use crate::turned::turned;
use crate::types::number_in;
use gql_base::{Indexed, Named, Text};
use schema_reader::DefBody;
use std::alloc::{AllocError, Global};

fn interfaces_of(known: &KnownType) -> &[Text]
    ensures { result.now ≡ interfaces_of (known_type known.now) }
{
    match known {
        KnownType::Defined(definition) => match &definition.body {
            DefBody::Object { interfaces, .. } => interfaces,
            _ => &[],
        },
        KnownType::BuiltIn(_) => &[],
    }
}

fn members_of(known: &KnownType) -> &[Text]
    ensures { result.now ≡ members_of (known_type known.now) }
{
    match known {
        KnownType::Defined(definition) => match &definition.body {
            DefBody::Union(members) => members,
            _ => &[],
        },
        KnownType::BuiltIn(_) => &[],
    }
}

fn numbers_named(
    alloc: Global,
    types: &Indexed<KnownType>,
    names: &[Text],
) -> Result<Vec<usize>, AllocError>
    ensures { IfOk result (λ v. v.items ≡ map (number_named (map known_type types.now.items.items)) names.now) }
{
    let mut numbers = Vec::new(alloc);
    'names: for name in names {
        numbers.push(number_in(types, name.as_str()))?;
    }
    Ok(numbers)
}

// The interfaces that each object type implements.
fn implemented(alloc: Global, types: &Indexed<KnownType>) -> Result<Vec<Vec<usize>>, AllocError>
    ensures { IfOk result (λ v. map numbers_in v.items ≡ map (implemented (map known_type types.now.items.items)) (map known_type types.now.items.items)) }
{
    let mut lists = Vec::new(alloc);
    'types: for known in types.items() {
        lists.push(numbers_named(alloc, types, interfaces_of(known))?)?;
    }
    Ok(lists)
}

// The members of each union.
fn joined(alloc: Global, types: &Indexed<KnownType>) -> Result<Vec<Vec<usize>>, AllocError>
    ensures { IfOk result (λ v. map numbers_in v.items ≡ map (joined (map known_type types.now.items.items)) (map known_type types.now.items.items)) }
{
    let mut lists = Vec::new(alloc);
    'types: for known in types.items() {
        lists.push(numbers_named(alloc, types, members_of(known))?)?;
    }
    Ok(lists)
}

fn copied_at(alloc: Global, lists: &[Vec<usize>], place: usize) -> Result<Vec<usize>, AllocError>
    ensures { IfOk result (λ v. v.items ≡ list_at (map numbers_in lists.now) place) }
{
    match lists.get(place) {
        Some(list) => Vec::from_slice(alloc, list),
        None => Ok(Vec::new(alloc)),
    }
}

fn is_object(known: &KnownType) -> bool
    ensures { result ≡ is_object (known_type known.now) }
{
    match known {
        KnownType::Defined(definition) => matches!(definition.body, DefBody::Object { .. }),
        KnownType::BuiltIn(_) => false,
    }
}

fn joining_of(
    alloc: Global,
    types: &Indexed<KnownType>,
    unions: &[Vec<usize>],
    known: &KnownType,
) -> Result<Vec<usize>, AllocError>
    ensures { IfOk result (λ v. v.items ≡ joining (map known_type types.now.items.items) (map numbers_in unions.now) (known_type known.now)) }
{
    if is_object(known) {
        copied_at(alloc, unions, number_in(types, known.name()))
    } else {
        Ok(Vec::new(alloc))
    }
}

// The unions that each object type is a member of, where those that name it stand at its number.
fn joining(
    alloc: Global,
    types: &Indexed<KnownType>,
    unions: &[Vec<usize>],
) -> Result<Vec<Vec<usize>>, AllocError>
    ensures { IfOk result (λ v. map numbers_in v.items ≡ map (joining (map known_type types.now.items.items) (map numbers_in unions.now)) (map known_type types.now.items.items)) }
{
    let mut lists = Vec::new(alloc);
    'types: for known in types.items() {
        lists.push(joining_of(alloc, types, unions, known)?)?;
    }
    Ok(lists)
}

// The possible types of a type of a number, where those that implement an interface stand at the number that its name has, and
// the members of a union at its own.
fn found_of(
    alloc: Global,
    types: &Indexed<KnownType>,
    implementing: &[Vec<usize>],
    members: &[Vec<usize>],
    number: usize,
    known: &KnownType,
) -> Result<Vec<usize>, AllocError>
    ensures { IfOk result (λ v. v.items ≡ found_of (map known_type types.now.items.items) (map numbers_in implementing.now) (map numbers_in members.now) number (known_type known.now)) }
{
    match known {
        KnownType::Defined(definition) => match &definition.body {
            DefBody::Interface { .. } => {
                copied_at(alloc, implementing, number_in(types, known.name()))
            }
            DefBody::Union(_) => copied_at(alloc, members, number),
            _ => Ok(Vec::new(alloc)),
        },
        KnownType::BuiltIn(_) => Ok(Vec::new(alloc)),
    }
}

fn found(
    alloc: Global,
    types: &Indexed<KnownType>,
    implementing: &[Vec<usize>],
    members: &[Vec<usize>],
) -> Result<Vec<Vec<usize>>, AllocError>
    ensures { IfOk result (λ v. map numbers_in v.items ≡ found_from (map known_type types.now.items.items) (map numbers_in implementing.now) (map numbers_in members.now) 0 (map known_type types.now.items.items)) }
{
    let known = types.items();
    let mut all = Vec::new(alloc);
    'types: for number in 0..known.len() {
        all.push(found_of(alloc, types, implementing, members, number, &known[number])?)?;
    }
    Ok(all)
}

/// The possible types of each type. It fails for want of memory alone.
pub fn all_possible(
    alloc: Global,
    types: &Indexed<KnownType>,
) -> Result<Vec<Vec<usize>>, AllocError>
    ensures { IfOk result (λ v. map numbers_in v.items ≡ map (possible_types (map known_type types.now.items.items)) (map known_type types.now.items.items)) }
{
    let implementing = turned(alloc, &implemented(alloc, types)?)?;
    let unions = turned(alloc, &joined(alloc, types)?)?;
    let members = turned(alloc, &joining(alloc, types, &unions)?)?;
    found(alloc, types, &implementing, &members)
}
