//! Where a byte of a text stands, and how that is shown: its line and its column, the line itself, and a mark below it.
#![tactic(auto)]

pub mod laws;
mod marks;
mod places;
#[cfg(test)]
mod tests;

pub use marks::{SHOWN, write_marked};
pub use places::{TextPlace, place_in};
