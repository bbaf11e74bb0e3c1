//! Coercion of what is given for an input type (GraphQL October 2021, 3.5 to 3.12).

pub mod building;
pub mod customs;
pub mod faults;
pub mod kinds;
pub mod laws;
pub mod leaves;
pub mod literals;
pub mod places;
pub mod scope;
pub mod variables;
