//! Coercion of JSON (GraphQL October 2021, 3.5 to 3.12).

pub(crate) mod customs;
pub(crate) mod members;
pub(crate) mod walk;
