//! The fields that selections have for objects of a type, grouped by their response keys.
#![tactic(auto)]

mod alike;
mod alone;
mod collected;
mod collector;
mod findings;
mod finish;
mod group;
mod hashes;
mod joins;
mod key_hashing;
mod kinds;
mod lookups;
mod met;
mod order;
mod planning;
mod prepare;
mod reach;
mod reaching;
mod room;
mod source;
mod state;
mod steps;
mod tables;
mod walk;

pub use collected::{Collected, Group};
pub use collector::Collector;
pub use lookups::asks;
pub use planning::Planning;
