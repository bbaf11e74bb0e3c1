//! The object types of composite types (GraphQL October 2021, 5.5.2.3).

ghost use Rattle.std.specs.Prelude.{◌≡◌, ◌<◌, map, length, nat_eq, IfOk, get_or};
ghost use Rattle.std.specs.List.{list_any};
ghost use Rattle.schema_rules.specs.Kinds.{is_object};
ghost use Rattle.schema_model.specs.SchemaData.{applies_to, is_possible, possible_types, all_possible};
ghost use Rattle.schema_model.specs.Entries.{type_data, numbers_in, numbers_listed};

use crate::entries::TypeEntry;
use crate::marks::{Marked, TypeList, has_number, listed, with_marks};
use input_values::TypeId;
use schema_rules::Kind;
use std::alloc::{AllocError, Global};

fn applies_to(
    condition: &TypeEntry,
    members: &Marked<'_>,
    c: usize,
    object: &TypeEntry,
    o: usize,
) -> bool
    requires { members.now.numbers.now ≡ condition.now.members.items }
    ensures { result ≡ applies_to condition.now.kind c o (type_data condition.now) (type_data object.now) }
{
    match condition.kind {
        Kind::Object => c == o,
        Kind::Interface => has_number(&object.interfaces, c),
        Kind::Union => members.has(o),
        Kind::Scalar | Kind::Enum | Kind::Input => false,
    }
}

fn is_possible(
    condition: &TypeEntry,
    members: &Marked<'_>,
    c: usize,
    entry: &TypeEntry,
    o: usize,
) -> bool
    requires { members.now.numbers.now ≡ condition.now.members.items }
    ensures { result ≡ is_possible (type_data condition.now) c o (type_data entry.now) }
{
    if entry.kind.is_object() {
        applies_to(condition, members, c, entry, o)
    } else {
        false
    }
}

// The members of a union, marked; types without members need no marks.
fn marked_members<'a>(
    alloc: Global,
    count: usize,
    condition: &'a TypeEntry,
) -> Result<Marked<'a>, AllocError>
    ensures { IfOk result (λ m. m.numbers.now ≡ condition.now.members.items) }
{
    if condition.members.is_empty() {
        with_marks(alloc, 0, &condition.members)
    } else {
        with_marks(alloc, count, &condition.members)
    }
}

// The object types to which a type applies, in the order of the schema.
fn possible_types(
    alloc: Global,
    types: &[TypeEntry],
    c: usize,
    condition: &TypeEntry,
) -> Result<Vec<TypeId>, AllocError>
    ensures { IfOk result (λ v. numbers_in v ≡ possible_types (map type_data types.now) c (type_data condition.now)) }
{
    let members = marked_members(alloc, types.len(), condition)?;
    let mut possible = Vec::new(alloc);
    for number in 0..types.len() {
        if is_possible(condition, &members, c, &types[number], number) {
            possible.push(TypeId { number })?;
        }
    }
    Ok(possible)
}

/// The possible types of each type. It fails for want of memory alone.
pub fn all_possible(alloc: Global, types: &[TypeEntry]) -> Result<Vec<TypeList>, AllocError>
    ensures { IfOk result (λ v. map numbers_listed v.items ≡ all_possible 0 (map type_data types.now) (map type_data types.now)) }
{
    let mut all = Vec::new(alloc);
    for number in 0..types.len() {
        let possible = possible_types(alloc, types, number, &types[number])?;
        all.push(listed(alloc, types.len(), possible)?)?;
    }
    Ok(all)
}
