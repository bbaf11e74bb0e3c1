//! Expanding the body of a request by a list.

ghost use Rattle.std.specs.Prelude.{◌≡◌, ◌≤◌, None, IfOk, IfErr, IfSome};
ghost use Rattle.serde_json.specs.Data.{depth};
ghost use Rattle.serde_json.specs.Read.{max_depth};
ghost use Rattle.serde_json.specs.View.{view};
ghost use Rattle.request_bodies.specs.Bodies.{IsObject};
ghost use Rattle.trusted_documents.specs.Listings.{listing_of, is_trusted, with_own_query, with_hash, without_hash, document_for};
ghost use Rattle.trusted_documents.specs.Expansions.{IsNoJsonObject, IsExpanded};
ghost use Rattle.trusted_documents.specs.Answers.{Finds, TellsExpandFault, member_found};

use crate::fault::ExpandFault;
use crate::filled_body::body_for;
use crate::hashes::{hash_of, is_hash_of};
use crate::listing::Trusted;
use crate::persisted_query::hash_named;
use serde_json::Value;
use std::alloc::{AllocError, Global};

/// What a body is expanded to.
#[derive(Debug, Drop)]
pub enum Expanded {
    /// Itself.
    Plain,
    /// This one, which stands for it with a listed document as its query.
    Body(Vec<u8>),
}

/// The object that a body is, if it is one.
fn object_in(alloc: Global, body: &[u8]) -> Result<Option<Value>, AllocError>
    ensures object { IfOk result (λ found. IfSome found (λ json. IsObject body.now (view json))) }
    ensures shallow { IfOk result (λ found. IfSome found (λ json. depth (view json) ≤ max_depth)) }
    ensures none { IfOk result (λ found. found ≡ None → IsNoJsonObject body.now) }
{
    match Value::from_slice(alloc, body) {
        Ok(json) => {
            if json.is_object() {
                Ok(Some(json))
            } else {
                Ok(None)
            }
        }
        Err(error) => {
            if error.is_memory() {
                Err(AllocError)
            } else {
                Ok(None)
            }
        }
    }
}

/// Whether a query is a listed document.
fn is_trusted(alloc: Global, trusted: &Trusted, query: &str) -> Result<bool, AllocError>
    ensures { IfOk result (λ found. found ≡ is_trusted (listing_of trusted.now).documents query.now) }
{
    let hash = hash_of(alloc, query)?;
    match trusted.document_under(hash.as_str()) {
        Some(document) => Ok(query == document),
        None => Ok(false),
    }
}

/// What an object with a query of its own comes to.
fn with_own_query<'t>(
    alloc: Global,
    trusted: &'t Trusted,
    query: &str,
) -> Result<Option<&'t str>, ExpandFault>
    ensures { Finds (with_own_query (listing_of trusted.now) query.now) result }
{
    if trusted.only && !is_trusted(alloc, trusted, query)? {
        return Err(ExpandFault::NotTrusted);
    }
    Ok(None)
}

/// What an object that names a document comes to.
fn with_hash<'t>(
    alloc: Global,
    trusted: &'t Trusted,
    hash: &str,
    query: Option<&Value>,
) -> Result<Option<&'t str>, ExpandFault>
    ensures { Finds (with_hash (listing_of trusted.now) hash.now (member_found query.entry)) result }
{
    match query {
        None | Some(Value::Null) => match trusted.document_under(hash) {
            Some(document) => Ok(Some(document)),
            None => Err(ExpandFault::UnknownHash),
        },
        Some(Value::String(query)) => {
            if is_hash_of(hash, query.as_str()) {
                with_own_query(alloc, trusted, query.as_str())
            } else {
                Err(ExpandFault::HashMismatch)
            }
        }
        Some(_) => Ok(None),
    }
}

/// What an object that names none comes to.
fn without_hash<'t>(
    alloc: Global,
    trusted: &'t Trusted,
    query: Option<&Value>,
) -> Result<Option<&'t str>, ExpandFault>
    ensures { Finds (without_hash (listing_of trusted.now) (member_found query.entry)) result }
{
    match query {
        Some(Value::String(query)) => with_own_query(alloc, trusted, query.as_str()),
        _ => Ok(None),
    }
}

/// The document that is put into an object for its query, if one is.
fn document_for<'t>(
    alloc: Global,
    trusted: &'t Trusted,
    json: &Value,
) -> Result<Option<&'t str>, ExpandFault>
    ensures { Finds (document_for (listing_of trusted.now) (view json.now)) result }
{
    match hash_named(json) {
        Ok(Some(hash)) => with_hash(alloc, trusted, hash, json.get("query")),
        Ok(None) => without_hash(alloc, trusted, json.get("query")),
        Err(fault) => Err(fault),
    }
}

/// Expands the body of a request by a list of trusted documents.
///
/// Where the body is a JSON object that names a document by its hash, in the extension `persistedQuery`, and has no query or
/// one that is null, the listed document is put in for the query, and `extensions` is left out. Whoever reads that body has
/// the request for the document, with the client's own name and variables. Every other body that isn't refused stays as it
/// is.
///
/// # Errors
///
/// The fault of the extension; `HashMismatch` where there is a query too that has another hash; `UnknownHash` where no
/// document is listed under the hash; `NotTrusted` where the query isn't listed, if no other document is taken; `Memory`
/// where there was not enough memory.
pub fn expand(alloc: Global, trusted: &Trusted, body: &[u8]) -> Result<Expanded, ExpandFault>
    ensures expanded { IfOk result (IsExpanded (listing_of trusted.now) body.now) }
    ensures fault { IfErr result (TellsExpandFault (listing_of trusted.now) body.now) }
{
    let Some(json) = object_in(alloc, body)? else {
        return Ok(Expanded::Plain);
    };
    match document_for(alloc, trusted, &json) {
        Ok(Some(document)) => Ok(Expanded::Body(body_for(alloc, json, document)?)),
        Ok(None) => Ok(Expanded::Plain),
        Err(fault) => Err(fault),
    }
}
