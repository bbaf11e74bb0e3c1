//! Work that is counted: how many steps a request may still take.
#![tactic(auto)]

mod steps;
#[cfg(test)]
mod tests;
mod work;

pub use steps::{BYTES_IN_A_STEP, steps_of_text};
pub use work::Work;
