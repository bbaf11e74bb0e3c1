//! The request that whoever receives what is sent to the upstream has, what is picked by it, and the responses to that.
//!
//! There is no code here: the functions have no bodies of their own, and carry the laws as their contracts.
#![tactic(auto)]

pub mod bodies;
pub mod laws;
pub mod offsets;
pub mod responses;
