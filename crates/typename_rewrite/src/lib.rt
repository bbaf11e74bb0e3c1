//! An operation as it is sent to the upstream: its document with the name of each object's type added where a field's type
//! is an interface or a union, and the body of the request.
#![tactic(auto)]

mod adding;
mod alias;
mod body;
mod lookups;
mod names;
mod rewriting;
mod words;

pub use body::forwarded_body;
pub use rewriting::{Rewritten, rewrite};
