//! Trusted documents: the documents that an operator lists for its own clients, each under its SHA-256, and what the body of
//! a request comes to by such a list. A client names a document by its hash, in the extension `persistedQuery`.
#![tactic(auto)]

mod expanding;
mod fault;
mod fault_texts;
mod filled_body;
mod hashes;
mod laws;
mod listing;
mod persisted_query;
mod requests;

pub use expanding::{Expanded, expand};
pub use fault::{ExpandFault, TrustedFault};
pub use fault_texts::{expand_fault_text, trusted_fault_text};
pub use laws::{
    a_body_is_one_request_by_a_list, a_hash_stands_for_its_document,
    limits_are_those_of_the_definitions, lists_are_shared, variables_are_the_clients,
    what_a_list_holds,
};
pub use listing::{DOCUMENT_LIMIT, LIST_LIMIT, Trusted, read_trusted};
pub use requests::{Unread, read_request_by};
