//! Types of inputs, and definitions of arguments and input fields.

pub mod definition;
pub mod shape;
pub mod types;
