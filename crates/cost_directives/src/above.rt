//! What a field takes from the interfaces of its type: a weight, or a size.

ghost use Rattle.std.specs.Prelude.{◌≡◌, map, nat_eq, Option, Some, None};
ghost use Rattle.std.specs.List.{list_all};
ghost use Rattle.std.specs.Option.{is_some};
ghost use Rattle.schema_model.specs.SchemaData.{SizeData, field_at, type_at};
ghost use Rattle.schema_model.specs.SchemaViews.{schema_data};
ghost use Rattle.schema_model.specs.Numbers.{type_number};
ghost use Rattle.schema_model.specs.Entries.{maybe_size, size_data};
ghost use Rattle.cost_directives.specs.Weighing.{own_weight, own_size, carried_in, carries_like, first_carried, all_agree, inherited, is_clear};
ghost use Rattle.cost_directives.specs.Disagree.{same_int, same_truth, same_names, same_size};

use crate::readings::weight_in;
use gql_base::Text;
use input_values::TypeId;
use schema_model::{FieldId, ListSize, Schema};

// ---- weights

fn own_weight(schema: &Schema, field: FieldId) -> Option<u64>
    ensures { result ≡ own_weight (field_at (schema_data schema.now) field.number) }
{
    weight_in(schema.field_cost(field))
}

/// Whether a field has a weight of its own.
pub fn has_own_weight(schema: &Schema, field: FieldId) -> bool
    ensures { result ≡ is_some (own_weight (field_at (schema_data schema.now) field.number)) }
{
    own_weight(schema, field).is_some()
}

// The weight of the field of this name in an interface.
fn weight_in_interface(schema: &Schema, interface: TypeId, name: &str) -> Option<u64>
    ensures { result ≡ carried_in (schema_data schema.now) own_weight name.now interface.number }
{
    match schema.field(interface, name) {
        Some(field) => own_weight(schema, field),
        None => None,
    }
}

fn first_weight(schema: &Schema, interfaces: &[TypeId], name: &str) -> Option<u64>
    ensures { result ≡ first_carried (map (carried_in (schema_data schema.now) own_weight name.now) (map type_number interfaces.now)) }
{
    for interface in interfaces {
        if let Some(weight) = weight_in_interface(schema, *interface, name) {
            return Some(weight);
        }
    }
    None
}

fn weighs_like(weight: u64, other: Option<u64>) -> bool
    ensures { result ≡ carries_like nat_eq weight other }
{
    match other {
        Some(other) => weight == other,
        None => true,
    }
}

fn all_weigh(schema: &Schema, interfaces: &[TypeId], name: &str, weight: u64) -> bool
    ensures { result ≡ list_all (carries_like nat_eq weight) (map (carried_in (schema_data schema.now) own_weight name.now) (map type_number interfaces.now)) }
{
    for interface in interfaces {
        if !weighs_like(weight, weight_in_interface(schema, *interface, name)) {
            return false;
        }
    }
    true
}

fn weights_agree(schema: &Schema, interfaces: &[TypeId], name: &str) -> bool
    ensures { result ≡ all_agree nat_eq (map (carried_in (schema_data schema.now) own_weight name.now) (map type_number interfaces.now)) }
{
    match first_weight(schema, interfaces, name) {
        Some(weight) => all_weigh(schema, interfaces, name, weight),
        None => true,
    }
}

/// Whether it is clear what a field weighs: it has a weight of its own, or the interfaces agree.
pub fn is_weight_clear(schema: &Schema, field: FieldId) -> bool
    ensures { result ≡ is_clear (schema_data schema.now) own_weight nat_eq (field_at (schema_data schema.now) field.number) }
{
    if own_weight(schema, field).is_some() {
        return true;
    }
    let interfaces = schema.interfaces(schema.owner(field));
    weights_agree(schema, interfaces, schema.field_name(field).as_str())
}

/// The weight of a field by its own `@cost` or by that of the interfaces.
pub fn inherited_weight(schema: &Schema, field: FieldId) -> Option<u64>
    ensures { result ≡ inherited (schema_data schema.now) own_weight (field_at (schema_data schema.now) field.number) }
{
    match own_weight(schema, field) {
        Some(weight) => Some(weight),
        None => {
            let interfaces = schema.interfaces(schema.owner(field));
            first_weight(schema, interfaces, schema.field_name(field).as_str())
        }
    }
}

// ---- sizes

// The size of the field of this name in an interface.
fn size_in_interface<'a>(schema: &'a Schema, interface: TypeId, name: &str) -> Option<&'a ListSize>
    ensures { maybe_size result ≡ carried_in (schema_data schema.now) own_size name.now interface.number }
{
    match schema.field(interface, name) {
        Some(field) => schema.list_size(field),
        None => None,
    }
}

fn first_size<'a>(schema: &'a Schema, interfaces: &[TypeId], name: &str) -> Option<&'a ListSize>
    ensures { maybe_size result ≡ first_carried (map (carried_in (schema_data schema.now) own_size name.now) (map type_number interfaces.now)) }
{
    for interface in interfaces {
        if let Some(size) = size_in_interface(schema, *interface, name) {
            return Some(size);
        }
    }
    None
}

fn same_int(one: Option<i32>, other: Option<i32>) -> bool
    ensures { result ≡ same_int one other }
{
    match (one, other) {
        (Some(one), Some(other)) => one <= other && other <= one,
        (None, None) => true,
        (Some(_), None) => false,
        (None, Some(_)) => false,
    }
}

fn same_truth(one: bool, other: bool) -> bool
    ensures { result ≡ same_truth one other }
{
    if one { other } else { !other }
}

fn same_names(names: &[Text], others: &[Text]) -> bool
    ensures { result ≡ same_names names.now others.now }
{
    if names.len() != others.len() {
        return false;
    }
    for at in 0..names.len() {
        if names[at].as_str() != others[at].as_str() {
            return false;
        }
    }
    true
}

fn same_size(one: &ListSize, other: &ListSize) -> bool
    ensures { result ≡ same_size (size_data one.now) (size_data other.now) }
{
    if !same_int(one.assumed, other.assumed) || !same_truth(one.require_one, other.require_one) {
        return false;
    }
    if same_names(&one.slicing, &other.slicing) {
        same_names(&one.sized, &other.sized)
    } else {
        false
    }
}

fn sizes_like(size: &ListSize, other: Option<&ListSize>) -> bool
    ensures { result ≡ carries_like same_size (size_data size.now) (maybe_size other.entry) }
{
    match other {
        Some(other) => same_size(size, other),
        None => true,
    }
}

fn all_size(schema: &Schema, interfaces: &[TypeId], name: &str, size: &ListSize) -> bool
    ensures { result ≡ list_all (carries_like same_size (size_data size.now)) (map (carried_in (schema_data schema.now) own_size name.now) (map type_number interfaces.now)) }
{
    for interface in interfaces {
        if !sizes_like(size, size_in_interface(schema, *interface, name)) {
            return false;
        }
    }
    true
}

fn sizes_agree(schema: &Schema, interfaces: &[TypeId], name: &str) -> bool
    ensures { result ≡ all_agree same_size (map (carried_in (schema_data schema.now) own_size name.now) (map type_number interfaces.now)) }
{
    match first_size(schema, interfaces, name) {
        Some(size) => all_size(schema, interfaces, name, size),
        None => true,
    }
}

/// Whether it is clear what the size of a field is: it has one of its own, or the interfaces agree.
pub fn is_size_clear(schema: &Schema, field: FieldId) -> bool
    ensures { result ≡ is_clear (schema_data schema.now) own_size same_size (field_at (schema_data schema.now) field.number) }
{
    if schema.list_size(field).is_some() {
        return true;
    }
    let interfaces = schema.interfaces(schema.owner(field));
    sizes_agree(schema, interfaces, schema.field_name(field).as_str())
}

/// The size of a field by its own `@listSize` or by that of the interfaces.
pub fn inherited_size(schema: &Schema, field: FieldId) -> Option<&ListSize>
    ensures { maybe_size result ≡ inherited (schema_data schema.now) own_size (field_at (schema_data schema.now) field.number) }
{
    match schema.list_size(field) {
        Some(size) => Some(size),
        None => {
            let interfaces = schema.interfaces(schema.owner(field));
            first_size(schema, interfaces, schema.field_name(field).as_str())
        }
    }
}
