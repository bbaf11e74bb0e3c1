//! What is known of a schema, and what each field of the schema of schemas gives of it (GraphQL October 2021, 4).
#![tactic(auto)]

mod bodies;
mod deprecable;
mod deprecations;
mod directives;
mod facts;
mod held;
mod known;
mod making;
mod members;
mod meta_schema;
mod places;
mod possible;
mod scalars;
mod sharing;
mod shown;
mod sorting;
mod table;
mod things;
mod turned;
mod types;

pub use facts::SchemaFacts;
pub use held::Held;
pub use known::KnownType;
pub use making::facts_of;
pub use meta_schema::meta_text;
pub use sharing::facts_are_shared;
pub use table::{What, look_up};
pub use things::Thing;
