//! Serving over accounts that outlive a crash, from the name of a journal to the accounts after the last connection.
#![tactic(auto)]

mod ending;
mod keeping;
mod laws;
mod mark;

pub use ending::{KeptEnd, KeptFault};
pub use keeping::serve_journal;
pub use laws::histories_keep_to_allowances;
pub use mark::mark_of;
