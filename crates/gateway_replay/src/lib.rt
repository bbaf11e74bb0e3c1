//! Replays: the steps of a script, through the gateway's own decision. Requests begin and finish in any order, and each step
//! has a line that tells what came of it.
#![tactic(auto)]

mod abandoning;
mod laws;
mod opened;
mod replayed;
mod replaying;
mod sharing;
mod step;
mod told;
mod writing;

pub use gateway_core::{Gate, Settings, Totals, close};
pub use laws::{fresh_accounts_are_idle, over_fresh_accounts, scripts_are_short};
pub use replayed::Replayed;
pub use replaying::replay;
pub use sharing::replays_are_shared;
pub use writing::write_cost;
