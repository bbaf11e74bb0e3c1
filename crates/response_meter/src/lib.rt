//! The measuring of a reply: what it cost, value by value, and the text that a client is answered with.
#![tactic(auto)]

mod errors;
pub mod examples;
mod fault;
mod forms;
mod json;
pub mod laws;
mod leaves;
mod measuring;
mod metered;
mod nested;
mod readings;
mod types;
mod walk;

pub use fault::{MeterFault, Why, why_name};
pub use measuring::meter;
pub use metered::{Metered, print_answer};
