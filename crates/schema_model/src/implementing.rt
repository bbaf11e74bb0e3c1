//! A type has the interfaces of its interfaces, and their fields: each of the same type or a narrower one, with the same
//! arguments, and with no further argument that must be given (GraphQL October 2021, 3.6, Type Validation).

ghost use Rattle.std.specs.Prelude.{◌≡◌, map, nat_eq, IfOk, not};
ghost use Rattle.std.specs.List.{list_any, list_all};
ghost use Rattle.input_values.specs.inputs.Shapes.{shape_tree, level_tree};
ghost use Rattle.schema_rules.specs.First.{first_of};
ghost use Rattle.schema_rules.specs.Views.{maybe_name, maybe_place};
ghost use Rattle.schema_model.specs.Implementing.{draft_at, is_kind_of, is_no_looser, is_narrower, agree, is_same, has_argument, may_be_there, is_implemented, has_field, names_all, lacks_interfaces, lacking_at, lacking_of, lacking_field, in_type, lack_at, not_implemented};
ghost use Rattle.schema_model.specs.Numbers.{type_number};
ghost use Rattle.schema_model.specs.DraftViews.{input_view, field_view, type_view};

use crate::draft_types::{DraftField, DraftInput, DraftType};
use crate::marks::{Marked, has_number, with_marks};
use gql_base::Indexed;
use input_values::places::is_nullable;
use input_values::{Shape, ShapeLevel, TypeId, shape_level};
use schema_rules::Place;
use std::alloc::{AllocError, Global};

fn interfaces_of<'a>(types: &'a [DraftType<'_>], of: TypeId) -> &'a [TypeId]
    ensures { map type_number result.now ≡ (draft_at (map type_view types.now) of.number).interfaces }
{
    match types.get(of.number) {
        Some(draft) => &draft.interfaces,
        None => &[],
    }
}

fn members_of<'a>(types: &'a [DraftType<'_>], of: TypeId) -> &'a [TypeId]
    ensures { map type_number result.now ≡ (draft_at (map type_view types.now) of.number).members }
{
    match types.get(of.number) {
        Some(draft) => &draft.members,
        None => &[],
    }
}

fn is_kind_of(types: &[DraftType<'_>], own: TypeId, wanted: TypeId) -> bool
    ensures { result ≡ is_kind_of (map type_view types.now) own.number wanted.number }
{
    own.number == wanted.number
        || has_number(interfaces_of(types, own), wanted.number)
        || has_number(members_of(types, wanted), own.number)
}

fn is_no_looser(own: bool, wanted: bool) -> bool
    ensures { result ≡ is_no_looser own wanted }
{
    !own || wanted
}

// Whether a shape is the wanted one, or a narrower one.
fn is_narrower(types: &[DraftType<'_>], own: &Shape, wanted: &Shape) -> bool
    ensures { result ≡ is_narrower (map type_view types.now) (shape_tree own.now) (shape_tree wanted.now) }
{
    match own {
        Shape::Named { of, nullable } => match shape_level(wanted) {
            ShapeLevel::Named {
                of: other,
                nullable: may,
            } => is_no_looser(*nullable, may) & is_kind_of(types, *of, other),
            ShapeLevel::ListOf {
                item: _,
                nullable: _,
            } => false,
        },
        Shape::ListOf { item, nullable } => match shape_level(wanted) {
            ShapeLevel::Named { of: _, nullable: _ } => false,
            ShapeLevel::ListOf {
                item: other,
                nullable: may,
            } => is_no_looser(*nullable, may) & is_narrower(types, item, other),
        },
    }
}

fn agree(a: bool, b: bool) -> bool
    ensures { result ≡ agree a b }
{
    if a { b } else { !b }
}

fn is_same(own: &Shape, wanted: &Shape) -> bool
    ensures { result ≡ is_same (shape_tree own.now) (shape_tree wanted.now) }
{
    match own {
        Shape::Named { of, nullable } => match shape_level(wanted) {
            ShapeLevel::Named {
                of: other,
                nullable: may,
            } => (of.number == other.number) & agree(*nullable, may),
            ShapeLevel::ListOf {
                item: _,
                nullable: _,
            } => false,
        },
        Shape::ListOf { item, nullable } => match shape_level(wanted) {
            ShapeLevel::Named { of: _, nullable: _ } => false,
            ShapeLevel::ListOf {
                item: other,
                nullable: may,
            } => agree(*nullable, may) & is_same(item, other),
        },
    }
}

// Whether the wanted argument is there, with the same type.
fn has_argument(own: &Indexed<DraftInput<'_>>, wanted: &DraftInput<'_>) -> bool
    ensures { result ≡ has_argument (map input_view own.now.items.items) (input_view wanted.now) }
{
    match own.first_named(wanted.name) {
        Some(argument) => is_same(&argument.shape, &wanted.shape),
        None => false,
    }
}

fn has_arguments(own: &Indexed<DraftInput<'_>>, wanted: &[DraftInput<'_>]) -> bool
    ensures { result ≡ list_all (has_argument (map input_view own.now.items.items)) (map input_view wanted.now) }
{
    for argument in wanted {
        if !has_argument(own, argument) {
            return false;
        }
    }
    true
}

// Whether an argument is one of those wanted, or may be left out.
fn may_be_there(wanted: &Indexed<DraftInput<'_>>, argument: &DraftInput<'_>) -> bool
    ensures { result ≡ may_be_there (map input_view wanted.now.items.items) (input_view argument.now) }
{
    let known = wanted.has(argument.name);
    let filled = argument.default.is_some();
    let nullable = is_nullable(&argument.shape);
    known | (filled | nullable)
}

fn may_be_all_there(wanted: &Indexed<DraftInput<'_>>, own: &[DraftInput<'_>]) -> bool
    ensures { result ≡ list_all (may_be_there (map input_view wanted.now.items.items)) (map input_view own.now) }
{
    for argument in own {
        if !may_be_there(wanted, argument) {
            return false;
        }
    }
    true
}

fn is_implemented(types: &[DraftType<'_>], own: &DraftField<'_>, wanted: &DraftField<'_>) -> bool
    ensures { result ≡ is_implemented (map type_view types.now) (field_view own.now) (field_view wanted.now) }
{
    is_narrower(types, &own.shape, &wanted.shape)
        && has_arguments(&own.arguments, wanted.arguments.items())
        && may_be_all_there(&wanted.arguments, own.arguments.items())
}

// Whether a type has the wanted field as it should be.
fn has_field(
    types: &[DraftType<'_>],
    own: &Indexed<DraftField<'_>>,
    wanted: &DraftField<'_>,
) -> bool
    ensures { result ≡ has_field (map type_view types.now) (map field_view own.now.items.items) (field_view wanted.now) }
{
    match own.first_named(wanted.name) {
        Some(field) => is_implemented(types, field, wanted),
        None => false,
    }
}

fn names_all(own: &Marked<'_>, needed: &[TypeId]) -> bool
    ensures { result ≡ names_all (map type_number own.now.numbers.now) (map type_number needed.now) }
{
    for number in needed {
        if !own.has(number.number) {
            return false;
        }
    }
    true
}

// Whether an interface of these names an interface that isn't among a type's own.
fn lacks_any(types: &[DraftType<'_>], own: &Marked<'_>, some: &[TypeId]) -> bool
    ensures { result ≡ lacks_interfaces (map type_view types.now) (map type_number own.now.numbers.now) (map type_number some.now) }
{
    for interface in some {
        if !names_all(own, interfaces_of(types, *interface)) {
            return true;
        }
    }
    false
}

fn lacks_interfaces(
    alloc: Global,
    types: &[DraftType<'_>],
    own: &[TypeId],
) -> Result<bool, AllocError>
    ensures { IfOk result (λ lacks. lacks ≡ lacks_interfaces (map type_view types.now) (map type_number own.now) (map type_number own.now)) }
{
    if own.is_empty() {
        return Ok(false);
    }
    let marked = with_marks(alloc, types.len(), own)?;
    Ok(lacks_any(types, &marked, own))
}

fn lacking_among<'b>(
    types: &[DraftType<'_>],
    own: &Indexed<DraftField<'_>>,
    wanted: &[DraftField<'b>],
) -> Option<&'b str>
    ensures { maybe_name result ≡ first_of (lacking_at (map type_view types.now) (map field_view own.now.items.items)) (map field_view wanted.now) }
{
    for field in wanted {
        if !has_field(types, own, field) {
            return Some(field.name);
        }
    }
    None
}

fn lacking_of<'b>(
    types: &[DraftType<'b>],
    own: &Indexed<DraftField<'_>>,
    of: TypeId,
) -> Option<&'b str>
    ensures { maybe_name result ≡ lacking_of (map type_view types.now) (map field_view own.now.items.items) of.number }
{
    match types.get(of.number) {
        Some(draft) => lacking_among(types, own, draft.fields.items()),
        None => None,
    }
}

fn lacking_field<'b>(
    types: &[DraftType<'b>],
    own: &Indexed<DraftField<'_>>,
    interfaces: &[TypeId],
) -> Option<&'b str>
    ensures { maybe_name result ≡ lacking_field (map type_view types.now) (map field_view own.now.items.items) (map type_number interfaces.now) }
{
    for interface in interfaces {
        match lacking_of(types, own, *interface) {
            Some(name) => return Some(name),
            None => {}
        }
    }
    None
}

fn in_type<'b>(of: &'b str, field: Option<&'b str>) -> Option<Place<'b>>
    ensures { maybe_place result ≡ in_type of.now (maybe_name field.entry) }
{
    match field {
        Some(name) => Some(Place::Field { of, name }),
        None => None,
    }
}

fn lack_at<'b>(
    alloc: Global,
    types: &[DraftType<'b>],
    of: &DraftType<'b>,
) -> Result<Option<Place<'b>>, AllocError>
    ensures { IfOk result (λ place. maybe_place place ≡ lack_at (map type_view types.now) (type_view of.now)) }
{
    if lacks_interfaces(alloc, types, &of.interfaces)? {
        return Ok(Some(Place::Type { name: of.name }));
    }
    Ok(in_type(of.name, lacking_field(types, &of.fields, &of.interfaces)))
}

/// What the first type lacks that lacks something: the place of the type, or of the field that it should have. It fails for
/// want of memory alone.
pub fn first_not_implemented<'b>(
    alloc: Global,
    types: &[DraftType<'b>],
) -> Result<Option<Place<'b>>, AllocError>
    ensures { IfOk result (λ place. maybe_place place ≡ not_implemented (map type_view types.now)) }
{
    for of in types {
        match lack_at(alloc, types, of)? {
            Some(place) => return Ok(Some(place)),
            None => {}
        }
    }
    Ok(None)
}
