//! The table of what each node of an operation costs, as its lines are printed.
//!
//! What cells say stands in `specs/Cells.antt`, which lines there are in `specs/Tables.antt`. The functions of `laws` have no body: each carries
//! a law as its contract.
#![tactic(auto)]

mod above;
mod cells;
pub mod laws;
mod lines;
mod nodes;
mod table;

pub use table::price_table;

/// How many nodes are shown at most, each on a line of its own.
pub const SHOWN: usize = 200;
