//! What holds of all lists and bodies. These functions do nothing: their contracts are the laws.

ghost use Rattle.std.specs.Prelude.{◌≡◌, ◌≢◌, ◌≤◌, ℕ, List, Option, Some, Ok, is_some, true};
ghost use Rattle.serde_json.specs.Data.{Data, Members, object};
ghost use Rattle.serde_json.specs.Events.{members_len};
ghost use Rattle.serde_json.specs.Find.{as_object, get};
ghost use Rattle.request_bodies.specs.Bodies.{RequestData};
ghost use Rattle.trusted_documents.specs.Hashes.{hash_of};
ghost use Rattle.trusted_documents.specs.DocumentLists.{listed_by, document_under, most_documents, longest_document, IsDocumentOf, IsTheOneWith};
ghost use Rattle.trusted_documents.specs.Listings.{Listing, document_for, Names};
ghost use Rattle.trusted_documents.specs.Requests.{IsRead, IsRequestBy, IsUnreadBy, AreGivenIn};
ghost use Rattle.trusted_documents.specs.declared.requests.Unread.{Unread as Reason};
ghost use Rattle.trusted_documents.specs.declared.requests.Unread.TheVariants.{Memory as NoMemory};

use crate::expanding::Expanded;
use crate::fault::{ExpandFault, TrustedFault};
use crate::listing::{DOCUMENT_LIMIT, LIST_LIMIT, Trusted};
use crate::requests::Unread;
use request_bodies::a_body_is_one_request_or_has_one_fault;

/// The limits of the code are those of the definitions.
pub fn limits_are_those_of_the_definitions()
    ensures list { LIST_LIMIT ≡ most_documents }
    ensures document { DOCUMENT_LIMIT ≡ longest_document }
{}

/// A list that a text gives is an object of at most 10,000 entries. Each is a document of at most 262,144 bytes under its own
/// hash.
pub fn what_a_list_holds()
    ensures few { (text : List ℕ) (documents : Data) → listed_by text ≡ Ok documents → (members : Members) × (documents ≡ object members) × (members_len members ≤ most_documents) }
    ensures entries { (text hash : List ℕ) (documents value : Data) → listed_by text ≡ Ok documents → get hash documents ≡ Some value → IsDocumentOf hash value }
{}

/// The document that is put into an object for its query is the one that is listed under the hash which the object gives, and
/// in a list that a text gives this is the one document with that SHA-256.
pub fn a_hash_stands_for_its_document()
    ensures named { (list : Listing) (json : Data) (document : List ℕ) → document_for list json ≡ Ok (Some document) → Names list.documents json document }
    ensures hash { (text hash document : List ℕ) (documents : Data) → listed_by text ≡ Ok documents → document_under documents hash ≡ Some document → hash_of document ≡ hash }
    ensures one { (text hash document : List ℕ) (documents : Data) → listed_by text ≡ Ok documents → document_under documents hash ≡ Some document → IsTheOneWith documents hash document }
{}

/// By a list, or by none, a body is one request or is unread for one reason, and not both. For want of memory nothing is said.
pub fn a_body_is_one_request_by_a_list()
    ensures some { (list : Option Listing) (body : List ℕ) → IsRead list body }
    ensures one_request { (list : Option Listing) (body : List ℕ) (asked other : RequestData) → IsRequestBy list body asked → IsRequestBy list body other → asked ≡ other }
    ensures not_both { (list : Option Listing) (body : List ℕ) (asked : RequestData) (reason : Reason) → reason ≢ NoMemory → IsRequestBy list body asked → ¬ (IsUnreadBy list body reason) }
    ensures one_reason { (list : Option Listing) (body : List ℕ) (reason other : Reason) → reason ≢ NoMemory → other ≢ NoMemory → IsUnreadBy list body reason → IsUnreadBy list body other → reason ≡ other }
{
    a_body_is_one_request_or_has_one_fault();
}

/// What is given for the variables of a request by a list is an object: the empty one, or the member `variables` of the JSON
/// that the client's own body is.
pub fn variables_are_the_clients()
    ensures object { (list : Option Listing) (body : List ℕ) (asked : RequestData) → IsRequestBy list body asked → is_some (as_object asked.variables) ≡ true }
    ensures source { (list : Option Listing) (body : List ℕ) (asked : RequestData) → IsRequestBy list body asked → AreGivenIn body asked.variables }
{}

/// Threads may share lists, what bodies are expanded to, and faults.
pub fn lists_are_shared() {
    is_shared::<Trusted>();
    is_shared::<TrustedFault>();
    is_shared::<Expanded>();
    is_shared::<ExpandFault>();
    is_shared::<Unread>();
}

fn is_shared<T: Send + Sync>() {}
