//! The gateway over accounts that outlive a crash.
#![tactic(auto)]

mod door;
mod kept;
mod opening;
mod serving;
mod worker;
mod working;

pub use door::serve_door;
pub use gateway_workers::Gate;
pub use kept::Kept;
pub use opening::open_for;
pub use serving::serve_kept;
