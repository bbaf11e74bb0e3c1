//! The replies to what is sent: read by the plan of the client's own operation, they are its responses.
//!
//! There is no code here: the functions of `laws` have no body, and each carries a law as its contract.
#![tactic(auto)]

pub mod laws;
