//! The type that an object says it is of.

ghost use Rattle.std.specs.Prelude.{◌≡◌, Some, map, option_map, nat_eq, IsTrue};
ghost use Rattle.std.specs.List.{list_any};
ghost use Rattle.serde_json.specs.View.{view, members_view};
ghost use Rattle.serde_json.specs.Find.{get_member};
ghost use Rattle.schema_model.specs.Numbers.{type_number};
ghost use Rattle.schema_model.specs.SchemaViews.{schema_data};
ghost use Rattle.plan_table.specs.Tables.{row_in};
ghost use Rattle.response_meter.specs.Types.{IsPossibleList, number_named, number_under, only_number, number_told};

use crate::json::member;
use crate::readings::Reading;
use input_values::TypeId;
use plan_table::{Below, NodeRow};
use schema_model::Schema;
use serde_json::{Map, Value};

/// Whether the number was found among these, by halves: they are in their order.
fn is_found(numbers: &[TypeId], wanted: usize) -> bool
    ensures { IsTrue result → IsTrue (list_any (nat_eq wanted) (map type_number numbers.now)) }
{
    let mut low = 0;
    let mut high = numbers.len();
    'halves: while low < high {
        let middle = low + (high - low) / 2;
        let number = numbers[middle].number;
        if number == wanted {
            return true;
        }
        if number < wanted {
            low = middle + 1;
        } else {
            high = middle;
        }
    }
    false
}

/// The first of some types that has this name. They are the possible types of a type of the schema, so where the first type of
/// the name is among them it is their first, and it is found without a look at each.
fn type_of_name(schema: &Schema, possible: &[TypeId], name: &str) -> Option<TypeId>
    requires { IsPossibleList (schema_data schema.now) (map type_number possible.now) }
    ensures { option_map type_number result ≡ number_named (schema_data schema.now) (map type_number possible.now) name.now }
{
    if let Some(first) = schema.find(name) {
        if is_found(possible, first.number) {
            return Some(first);
        }
    }
    'possible: for on in possible {
        if schema.type_name(*on).as_str() == name {
            return Some(*on);
        }
    }
    None
}

/// The only one of some types.
fn only_type(possible: &[TypeId]) -> Option<TypeId>
    ensures { option_map type_number result ≡ only_number (map type_number possible.now) }
{
    match possible {
        [on] => Some(*on),
        _ => None,
    }
}

/// The type whose name this value is, among some types.
fn type_said(schema: &Schema, possible: &[TypeId], value: &Value) -> Option<TypeId>
    requires { IsPossibleList (schema_data schema.now) (map type_number possible.now) }
    ensures { option_map type_number result ≡ number_under (schema_data schema.now) (map type_number possible.now) (Some (view value.now)) }
{
    match value {
        Value::String(name) => type_of_name(schema, possible, name.as_str()),
        Value::Null | Value::Bool(_) | Value::Number(_) | Value::Array(_) | Value::Object(_) =>
            None,
    }
}

/// The type whose name an object has under the alias, among some types.
fn type_under(by: &Reading, possible: &[TypeId], members: &Map<String, Value>) -> Option<TypeId>
    requires { IsPossibleList (schema_data by.now.of.now.schema.now) (map type_number possible.now) }
    ensures { option_map type_number result ≡ number_under (schema_data by.now.of.now.schema.now) (map type_number possible.now) (get_member by.now.alias.now (members_view members.now.entries)) }
{
    match member(members, by.alias) {
        Some(value) => type_said(by.of.schema(), possible, value),
        None => None,
    }
}

/// The type of an object below a node: where the type name is asked the one that it has under the alias, elsewhere the only
/// possible one.
pub(crate) fn type_told(by: &Reading, row: &NodeRow, members: &Map<String, Value>) -> Option<TypeId>
    ensures { option_map type_number result ≡ number_told by.now (row_in by.now.of.now row.now) (members_view members.now.entries) }
{
    match by.of.below(row) {
        Below::Objects(possible) => {
            if row.asked {
                type_under(by, possible, members)
            } else {
                only_type(possible)
            }
        }
        Below::TypeName | Below::Leaf(_) => None,
    }
}
