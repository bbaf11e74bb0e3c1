//! The rules that an operation must keep before it is planned (GraphQL October 2021, 5).
#![tactic(auto)]

mod checking;
mod counting;
mod indexes;
mod laws;
pub mod lookups;
mod met;
mod rule;
mod rules;
mod sharing;
mod site_rule;
mod sites;

pub use checking::{Checked, check};
pub use laws::{what_is_met_is_reached, what_is_reached_has_ranks};
pub use rule::{Rule, RuleFault};
pub use sharing::what_is_checked_is_shared;
