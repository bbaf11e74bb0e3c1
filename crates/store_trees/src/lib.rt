//! Accounts and open grants in a SQLite database: steps go into its tables, and a batch of them is one commit.
#![tactic(auto)]

mod batches;
mod clients;
mod entries;
mod fault;
mod files;
mod first_look;
mod found;
mod keeping;
mod making;
mod opening;
mod places;
mod reading;
#[cfg(test)]
mod tests;

pub use clients::key_sum;
pub use fault::OpenFault;
pub use files::open;
pub use keeping::TreeKeeper;
pub use opening::{Found, opened};
