//! The document that is sent in place of the client's own, as whoever receives its text reads it.
//!
//! There is no code here: the function of `laws` has no body, and carries the law as its contract.
#![tactic(auto)]

pub mod laws;
