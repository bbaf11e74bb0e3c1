//! The body of a client's request (GraphQL over HTTP, "JSON encoding"): the text of a document, perhaps the name of its
//! operation, and what is given for its variables.
#![tactic(auto)]

mod fault;
mod laws;
mod reading;
mod request;

pub use fault::{BodyFault, fault_text};
pub use laws::{
    a_body_is_one_request_or_has_one_fault, requests_are_shared, variables_are_an_object,
};
pub use reading::read_request;
pub use request::Request;
