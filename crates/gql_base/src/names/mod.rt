//! Things that are found by their names.

pub mod hashed;
pub mod index;
pub mod laws;
pub mod named;
pub mod owned_index;
pub mod repeated;
