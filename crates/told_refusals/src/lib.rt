//! What is told of a refusal beside its line: where it is in its text, what is wrong, and what helps.
#![tactic(auto)]

mod advice;
mod matching;
mod telling;
#[cfg(test)]
mod tests;

pub use telling::{Place, told_refusal};
