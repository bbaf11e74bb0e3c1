//! The extension by which the body of a request names a document: `persistedQuery` with the `version` 1 and the document's
//! `sha256Hash`, as clients of automatic persisted queries send it.

ghost use Rattle.std.specs.Prelude.{◌≡◌};
ghost use Rattle.serde_json.specs.View.{view};
ghost use Rattle.trusted_documents.specs.PersistedQueries.{has_version_one, hash_in, hash_named};
ghost use Rattle.trusted_documents.specs.Answers.{Finds};

use crate::fault::ExpandFault;
use serde_json::Value;

/// Whether the version of an extension is the whole number 1.
fn has_version_one(extension: &Value) -> bool
    ensures { result ≡ has_version_one (view extension.now) }
{
    match extension.get("version") {
        Some(version) => version.as_u64() == Some(1),
        None => false,
    }
}

/// The hash of an extension, which may be null.
fn hash_in(extension: &Value) -> Result<Option<&str>, ExpandFault>
    ensures { Finds (hash_in (view extension.now)) result }
{
    if let Value::Null = extension {
        return Ok(None);
    }
    if !has_version_one(extension) {
        return Err(ExpandFault::BadExtension);
    }
    match extension.get("sha256Hash") {
        Some(Value::String(hash)) => Ok(Some(hash.as_str())),
        _ => Err(ExpandFault::BadExtension),
    }
}

/// The hash by which an object names a document, if it names one.
pub(crate) fn hash_named(json: &Value) -> Result<Option<&str>, ExpandFault>
    ensures { Finds (hash_named (view json.now)) result }
{
    let Some(extensions) = json.get("extensions") else {
        return Ok(None);
    };
    match extensions.get("persistedQuery") {
        Some(extension) => hash_in(extension),
        None => Ok(None),
    }
}
