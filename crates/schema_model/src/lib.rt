//! The checked schema (GraphQL October 2021, 3): a schema text that keeps all that a schema must keep, and what is looked up
//! in it.
#![tactic(auto)]

mod args;
mod asked;
mod bad_default;
mod build;
mod draft;
mod draft_types;
mod entries;
mod fault;
mod finish;
mod implementing;
mod input_types;
mod laws;
mod lookups;
mod marks;
mod possible;
mod schema;
mod shapes;
mod sharing;
mod sizes;

pub use args::{Arg, Args};
pub use build::build_meta;
pub use entries::{FieldEntry, FieldId, ListSize, TypeEntry};
pub use fault::SchemaFault;
pub use laws::{
    a_schema_fills_its_own_defaults, a_text_has_a_schema_or_a_fault, a_text_has_one_fault,
    a_text_has_one_schema, a_text_with_a_schema_has_no_fault, no_type_has_a_reserved_name,
    possible_types_are_those_to_which_a_condition_applies,
};
pub use schema::Schema;
pub use schema_rules::Kind;
pub use sharing::schemas_are_shared;
