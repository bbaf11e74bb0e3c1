//! What leaves hold (GraphQL October 2021, 3.5 and 3.9).

ghost use Rattle.std.specs.Prelude.{◌≡◌, Some};
ghost use Rattle.serde_json.specs.View.{view, items_view, members_view};
ghost use Rattle.serde_json.specs.Written.{has_float, items_have_float, members_have_float};
ghost use Rattle.schema_rules.specs.declared.kind.Kind.TheVariants.{Enum};
ghost use Rattle.schema_model.specs.SchemaData.{type_at};
ghost use Rattle.schema_model.specs.SchemaViews.{schema_data};
ghost use Rattle.plan_model.specs.SelectedFields.{scalar_holds, enum_holds, holds};
ghost use Rattle.response_meter.specs.FirstFault.{is_text};

use gql_base::is_int;
use input_values::{InputKind, InputTypes, TypeId, scalar_kind};
use schema_model::{Kind, Schema};
use serde_json::{Map, Value};

/// Whether a JSON value has a number that is not whole.
#[cycle(floats)]
fn has_float(value: &Value) -> bool
    ensures { result ≡ has_float (view value.now) }
{
    match value {
        Value::Number(number) => number.is_f64(),
        Value::Array(items) => items_have_float(items),
        Value::Object(members) => members_have_float(members),
        Value::Null | Value::Bool(_) | Value::String(_) => false,
    }
}

#[cycle(floats)]
fn items_have_float(items: &[Value]) -> bool
    ensures { result ≡ items_have_float (items_view items.now) }
{
    'items: for item in items {
        if has_float(item) {
            return true;
        }
    }
    false
}

#[cycle(floats)]
fn members_have_float(members: &Map<String, Value>) -> bool
    ensures { result ≡ members_have_float (members_view members.now.entries) }
{
    'members: for (_key, member) in members.iter() {
        if has_float(member) {
            return true;
        }
    }
    false
}

/// Whether a scalar of this kind holds the value.
fn scalar_holds(kind: InputKind, value: &Value) -> bool
    ensures { result ≡ scalar_holds kind (view value.now) }
{
    match (kind, value) {
        (InputKind::Int, Value::Number(number)) => number.as_i128().is_some_and(|n| is_int(n)),
        (InputKind::String | InputKind::Id, Value::String(_)) => true,
        (InputKind::Boolean, Value::Bool(_)) => true,
        (InputKind::Id, Value::Number(number)) => number.as_i128().is_some(),
        (InputKind::Float, Value::Number(_)) => true,
        (InputKind::Custom, value) => !has_float(value),
        (InputKind::Lax, _) => true,
        _ => false,
    }
}

/// Whether an enum has a value of this name.
fn enum_holds(schema: &Schema, of: TypeId, value: &Value) -> bool
    ensures { (type_at (schema_data schema.now) of.number).kind ≡ Enum → result ≡ enum_holds (type_at (schema_data schema.now) of.number).values (view value.now) }
{
    match value {
        Value::String(name) => schema.has_value(of, name.as_str()),
        _ => false,
    }
}

/// Whether the scalar or enum type holds the value.
pub(crate) fn type_holds(schema: &Schema, of: TypeId, value: &Value) -> bool
    ensures { result ≡ holds (schema_data schema.now) of.number (view value.now) }
{
    match schema.kind(of) {
        Kind::Enum => enum_holds(schema, of, value),
        _ => scalar_holds(
            scalar_kind(schema.is_lax(of), schema.type_name(of).as_str()),
            value,
        ),
    }
}

/// Whether the value is this string.
pub(crate) fn is_text(text: &str, value: &Value) -> bool
    ensures { result ≡ is_text text.now (Some (view value.now)) }
{
    match value {
        Value::String(found) => found.as_str() == text,
        _ => false,
    }
}
