//! Accounts of clients that outlive a crash.
//!
//! A journal is a file of slots. Each grant and each settlement is appended as a slot before it is acknowledged, so that the
//! accounts after a crash at any moment have every grant that was acknowledged. `Journal::open` reads the slots one after
//! the other, takes each as a step of the budget machine, and settles what is still open at its bound.
#![tactic(auto)]

mod journal;
pub mod laws;
mod reading;
mod records;
mod recovery;
mod slots;

pub use journal::{Journal, JournalFault, KeptReply, KeptTicket};
pub use reading::OpenFault;
pub use slots::SLOTS;
