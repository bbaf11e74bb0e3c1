//! What in a good schema surprises where it is served, as lines that are read by who writes the schema.
//!
//! Which fields and scalars these are, and what is told of them, stands in `specs/Surprises.antt`.
#![tactic(auto)]

mod fields;
mod reporting;
mod surprise;

pub use reporting::report;
pub use surprise::Surprise;
