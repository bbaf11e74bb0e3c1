//! The schema of schemas (GraphQL October 2021, 4.2): what it says of its fields, and that what is built of its text says so.
#![tactic(auto)]

mod fields;
mod laws;
mod made;
mod schema;
mod tables;
mod testing;

pub use asked_fields::laws::responses_to_what_is_asked;
pub use asked_fields::{AskedNode, ask};
pub use fields::what_asked;
pub use laws::a_meta_schema_has_its_form;
pub use schema::MetaSchema;
pub use tables::weight_of;
