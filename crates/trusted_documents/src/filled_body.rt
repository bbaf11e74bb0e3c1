//! The body that stands for a client's where a document is put in for the query.

ghost use Rattle.std.specs.Prelude.{◌≡◌, ◌≤◌, true, IfOk, is_some};
ghost use Rattle.serde_json.specs.Data.{depth};
ghost use Rattle.serde_json.specs.Find.{as_object};
ghost use Rattle.serde_json.specs.Read.{max_depth};
ghost use Rattle.serde_json.specs.View.{view};
ghost use Rattle.response_model.specs.WrittenJson.{IsCompact};
ghost use Rattle.trusted_documents.specs.FilledBodies.{with_query, StandsFor};

use serde_json::Value;
use std::alloc::{AllocError, Global};

/// The same object with this query, and without `extensions`.
fn with_query(alloc: Global, json: Value, query: &str) -> Result<Value, AllocError>
    ensures { IfOk result (λ made. view made ≡ with_query query.now (view json)) }
{
    match json {
        Value::Object(mut members) => {
            let key = String::from_str(alloc, "query")?;
            let query = Value::String(query.to_string(alloc)?);
            members.insert(key, query)?;
            members.remove("extensions");
            Ok(Value::Object(members))
        }
        other => Ok(other),
    }
}

/// The compact text of that object.
fn compact_body(alloc: Global, json: Value, document: &str) -> Result<Vec<u8>, AllocError>
    requires { depth (view json) ≤ max_depth }
    ensures { IfOk result (λ body. IsCompact (with_query document.now (view json)) body.items) }
{
    let json = with_query(alloc, json, document)?;
    json.to_vec(alloc)
}

/// The body that stands for a client's object with this document for its query.
pub(crate) fn body_for(alloc: Global, json: Value, document: &str) -> Result<Vec<u8>, AllocError>
    requires object { is_some (as_object (view json)) ≡ true }
    requires shallow { depth (view json) ≤ max_depth }
    ensures { IfOk result (λ body. StandsFor document.now (view json) body.items) }
{
    compact_body(alloc, json, document)
}
