//! HTTP/1.1 as a server meets it (RFC 9112): requests at the front of a source, in whatever pieces it gives
//! them, and replies.
#![tactic(auto)]

mod fault;
mod front;
mod head;
pub mod laws;
mod passed;
mod reading;
mod reply;
pub mod sharing;
mod values;

pub use fault::FrontFault;
pub use front::{Ask, Front};
pub use passed::may_be_passed;
pub use reply::{Answer, Hint, write_reply};
