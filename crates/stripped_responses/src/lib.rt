//! Responses to an operation as it is sent to the upstream, and to the client's own: without the names of types that were
//! added they are the same.
//!
//! There is no code here: the functions of `laws` have no body, and each carries a law as its contract.
#![tactic(auto)]

pub mod laws;
