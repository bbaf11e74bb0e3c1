//! Reading a list of trusted documents, and looking a document up.

ghost use Rattle.std.specs.Prelude.{◌≡◌, Some, option_map};
ghost use Rattle.serde_json.specs.View.{view, members_view};
ghost use Rattle.trusted_documents.specs.DocumentLists.{listed_by, list_in, json_fault, members_fault, entries_fault, entry_fault, document_under};
ghost use Rattle.trusted_documents.specs.Listings.{listing_of};
ghost use Rattle.trusted_documents.specs.Answers.{GivesList, TellsFault};

use crate::fault::TrustedFault;
use crate::hashes::{is_hash, is_hash_of};
use gql_base::Text;
use serde_json::{Map, Value};
use std::alloc::Global;

/// How many documents a list may have.
pub const LIST_LIMIT: usize = 10_000;

/// How many bytes a document may have.
pub const DOCUMENT_LIMIT: usize = 262_144;

/// The documents that may be named by their hashes, and whether no others are taken.
#[derive(Drop)]
pub struct Trusted {
    // An object with each document under its hash, as `read_trusted` made it.
    pub(crate) documents: Value,
    pub(crate) only: bool,
}

/// Reads a list of trusted documents: a JSON object (RFC 8259) with each document under its SHA-256, written as 64 hexadecimal
/// digits in lower case. With `only` no other document is taken.
///
/// Of equal keys the last counts. Of a text that is no list it tells the first fault, as `TrustedFault` says; where there is
/// no memory it may tell that. It takes time in proportion to the text, and for its keys that of a search tree.
pub fn read_trusted(alloc: Global, text: &str, only: bool) -> Result<Trusted, TrustedFault>
    ensures { GivesList (listed_by text.now) only result }
{
    match Value::from_str(alloc, text) {
        Ok(json) => list_in(alloc, json, only),
        Err(error) => {
            if error.is_memory() {
                Err(TrustedFault::Memory)
            } else {
                Err(TrustedFault::NotJson)
            }
        }
    }
}

/// JSON as a list.
fn list_in(alloc: Global, documents: Value, only: bool) -> Result<Trusted, TrustedFault>
    ensures { GivesList (list_in (Some (view documents))) only result }
{
    check_json(alloc, &documents)?;
    Ok(Trusted { documents, only })
}

/// What is wrong with JSON.
fn check_json(alloc: Global, json: &Value) -> Result<(), TrustedFault>
    ensures { TellsFault (json_fault (view json.now)) result }
{
    match json {
        Value::Object(members) => check_members(alloc, members),
        _ => Err(TrustedFault::NotObject),
    }
}

/// What is wrong with the entries of an object.
fn check_members(alloc: Global, members: &Map<String, Value>) -> Result<(), TrustedFault>
    ensures { TellsFault (members_fault (members_view members.now.entries)) result }
{
    let count = members.len();
    if count > LIST_LIMIT {
        return Err(TrustedFault::TooMany { count });
    }
    check_entries(alloc, members)
}

/// The fault of the first entry at fault.
fn check_entries(alloc: Global, members: &Map<String, Value>) -> Result<(), TrustedFault>
    ensures { TellsFault (entries_fault (members_view members.now.entries)) result }
{
    for (key, value) in members.iter() {
        check_entry(alloc, key.as_str(), value)?;
    }
    Ok(())
}

/// What is wrong with an entry.
fn check_entry(alloc: Global, key: &str, value: &Value) -> Result<(), TrustedFault>
    ensures { TellsFault (entry_fault key.now (view value.now)) result }
{
    if !is_hash(key) {
        let key = Text::copy_of(alloc, key)?;
        return Err(TrustedFault::BadHash { key });
    }
    let Some(document) = value.as_str() else {
        let key = Text::copy_of(alloc, key)?;
        return Err(TrustedFault::NotString { key });
    };
    if document.len() > DOCUMENT_LIMIT {
        let key = Text::copy_of(alloc, key)?;
        return Err(TrustedFault::TooLong { key });
    }
    if !is_hash_of(key, document) {
        let key = Text::copy_of(alloc, key)?;
        return Err(TrustedFault::WrongHash { key });
    }
    Ok(())
}

impl Trusted {
    /// The document that is listed under a hash.
    pub(crate) fn document_under(&self, hash: &str) -> Option<&str>
        ensures { option_map (λ document. document.now) result ≡ document_under (listing_of self.now).documents hash.now }
    {
        match self.documents.get(hash) {
            Some(value) => value.as_str(),
            None => None,
        }
    }
}
