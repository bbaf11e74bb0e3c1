//! Where an operation is answered: by the upstream server, or by the gateway from its own schema. The fields at the root of
//! the operation tell.
#![tactic(auto)]

mod classes;
pub mod laws;
mod operations;
mod root_fields;
mod root_parts;
mod routes;

pub use classes::Class;
pub use operations::class;
pub use routes::{Route, route_of};
