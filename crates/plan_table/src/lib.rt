//! A plan as one flat table of its nodes, in depth-first order.
//!
//! The words stand in `specs/`: the rows of a plan's tree (`Rows`), the table of a program and the trees that it holds
//! (`Tables`), costs by one pass over the rows from the last to the first (`Totals`), and responses in memory (`Trees`). The
//! functions of `laws` have no body: each carries a law about these words as its contract.
#![tactic(auto)]

mod copies;
mod keys;
pub mod laws;
mod lookups;
mod response;
mod rows;
mod sharing;
mod sizes;
mod table;
mod texts;

pub use copies::copy_tree;
pub use keys::{RowKey, SHORT_KEY};
pub use lookups::Below;
pub use response::{Entry, Tree};
pub use rows::NodeRow;
pub use sharing::rows_are_shared;
pub use sizes::size_from;
pub use table::Plan;
pub use texts::response_text;

/// How many levels of nodes a plan has at most.
pub const LEVELS: u32 = 50;
