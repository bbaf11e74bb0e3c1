//! What an operation asks, node by node, with what the arguments of each node come to (GraphQL October 2021, 6.3.2, 6.4.1 and
//! 6.4.3).
//!
//! `ask` is the call. `specs/Asked` says what is asked, by the words of `plan_model`; `specs/Arguments` says what is kept of a field's
//! arguments.
#![tactic(auto)]

mod arguments;
mod asked;
mod asking;
pub mod laws;
mod lookups;
mod operation;

pub use asked::{Argument, AskedNode};
pub use operation::ask;

/// How many fields may stand on the path of a node.
pub const LEVEL_LIMIT: u32 = 50;
