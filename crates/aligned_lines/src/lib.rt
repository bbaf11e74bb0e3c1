//! Lines of cells, whose columns stand one below another.
#![tactic(auto)]

mod lines;
#[cfg(test)]
mod tests;
mod writing;

pub use lines::{Cell, Line};
pub use writing::aligned;
