//! Coerced values.

pub mod coerced;
pub mod copies;
pub mod counting;
pub mod floats;
pub mod made;
