//! The plan of an operation: its selections merged, node by node, for each type of objects that may stand at a place
//! (GraphQL October 2021, 6.3 and 6.4); or the first fault for which there is none.
//!
//! `build_plan` is the call. Its answer is said in `specs/Faults` and `specs/Building`, by the words of `plan_model`.
#![tactic(auto)]

mod arguments;
mod build;
mod building;
mod call;
mod calls;
mod fault;
mod few;
mod hashes;
mod held;
mod keys;
mod known;
mod laws;
mod lookups;
mod node;
mod sharing;
mod stop;
mod why;
mod written;

pub use build::build_plan;
pub use fault::PlanFault;
pub use laws::what_is_built_is_the_plan;
pub use sharing::plan_faults_are_shared;

/// The greatest number of nodes of a plan.
pub const NODE_LIMIT: usize = 20000;

/// How many fields may stand on the path of a node.
pub const LEVEL_LIMIT: u32 = 50;
