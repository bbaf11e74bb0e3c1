//! The values that fill leaves.

ghost use Rattle.std.specs.Prelude.{◌≡◌, IfOk};
ghost use Rattle.serde_json.specs.Data.{string};
ghost use Rattle.serde_json.specs.View.{view};
ghost use Rattle.schema_model.specs.SchemaViews.{schema_data};
ghost use Rattle.plan_model.specs.SelectedFields.{first_name, scalar_fill, fill_of};

use gql_base::Text;
use input_values::{InputKind, TypeId, scalar_kind};
use schema_model::{Kind, Schema};
use serde_json::Value;
use std::alloc::{AllocError, Global};

/// A JSON string.
pub(crate) fn text_value(alloc: Global, text: &str) -> Result<Value, AllocError>
    ensures { IfOk result (λ value. view value ≡ string text.now) }
{
    Ok(Value::String(String::from_str(alloc, text)?))
}

/// The first of some names; the empty text where there is none.
fn first_name(names: &[Text]) -> &str
    ensures { result.now ≡ first_name names.now }
{
    match names.first() {
        Some(name) => name.as_str(),
        None => "",
    }
}

/// The value that fills a scalar: the empty string, false, or 0.
fn fill_scalar(alloc: Global, kind: InputKind) -> Result<Value, AllocError>
    ensures { IfOk result (λ value. view value ≡ scalar_fill kind) }
{
    match kind {
        InputKind::String | InputKind::Id => text_value(alloc, ""),
        InputKind::Boolean => Ok(Value::Bool(false)),
        _ => Ok(Value::from(0u64)),
    }
}

/// The value that fills a leaf of a scalar or enum type.
pub(crate) fn fill_leaf(alloc: Global, schema: &Schema, leaf: TypeId) -> Result<Value, AllocError>
    ensures { IfOk result (λ value. view value ≡ fill_of (schema_data schema.now) leaf.number) }
{
    match schema.kind(leaf) {
        Kind::Enum => text_value(alloc, first_name(schema.enum_values(leaf))),
        _ => fill_scalar(
            alloc,
            scalar_kind(schema.is_lax(leaf), schema.type_name(leaf).as_str()),
        ),
    }
}
