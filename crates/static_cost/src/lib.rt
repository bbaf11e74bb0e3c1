//! The greatest cost that a response to an operation can have, known before it is run.
//!
//! `bound` finds it for the table of a plan. What a response of a plan is, what it costs and which cost is the bound are
//! words of the crate `response_model`; in `specs/`, `CostBound` says them of both components of a cost, and `TableBound` of a
//! table.
#![tactic(auto)]

mod choices;
mod filling;
pub mod laws;
mod leaves;
mod steps;
mod too_costly;
mod totals;

pub use choices::chosen_types;
pub use filling::{VALUE_LIMIT, WorstFault, worst};
pub use plan_table::Plan;
pub use response_model::Part;
pub use too_costly::TooCostly;
pub use totals::{bound, entry_cost, value_cost, values_cost};
