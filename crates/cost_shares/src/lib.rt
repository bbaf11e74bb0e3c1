//! What each node of a plan adds to the bound.
//!
//! `shares` tells of each row of a plan's table how many entries its node has in the response that costs as much as the bound,
//! how many values stand in them, and what they add to a part of the cost. What a node adds in any response is said in
//! `specs/Shares.antt`, by the selections of the plan alone. The functions of `laws` and `examples` have no body: each carries
//! a law as its contract.
#![tactic(auto)]

pub mod examples;
pub mod laws;
mod passing;
mod share;

pub use passing::{root_share, shares};
pub use share::Share;
