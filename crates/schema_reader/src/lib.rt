//! Reading of GraphQL schema texts (GraphQL October 2021, 3).
#![tactic(auto)]

mod enum_parts;
mod field_parts;
mod laws;
mod other_definitions;
mod parts;
mod schema_text;
mod sharing;
mod trees;
mod type_definitions;

pub use laws::{a_text_is_a_schema_or_has_one_fault, a_text_is_one_schema};
pub use schema_text::{SchemaTextFault, read_schema_text};
pub use sharing::schemas_are_shared;
pub use trees::{DefBody, EnumValueDef, FieldDef, InputValue, RootDef, SchemaDef, SchemaText};
