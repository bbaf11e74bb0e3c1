//! Accounts and open grants as rows: the steps that change them, what keeps steps so that a crash loses no half of a batch, and what accounts come
//! to when they are read again.
#![tactic(auto)]

mod fitting;
mod keeper;
mod laws;
mod mem_keeper;
mod recovering;
mod step;
#[cfg(test)]
mod tests;

pub use fitting::fitted;
pub use keeper::{Keeper, KeeperFault};
pub use laws::{
    batches_go_on, crashes_charge_bounds, numbers_find_grants, recoveries_are_calls,
    rows_are_those_of_calls, steps_go_on,
};
pub use mem_keeper::{Fate, MemKeeper};
pub use recovering::{put_recovery, recovered};
pub use step::{AccountRow, GrantRow, Step, put_closing, put_opening};
