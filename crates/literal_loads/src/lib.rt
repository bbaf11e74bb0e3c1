//! What literals come to where they are given for arguments: how many nodes their values have, and what these cost, without
//! building them. What a type's defaults come to together is found once, and of an object only what is written is looked at.
#![tactic(auto)]

mod comparing;
mod held;
mod inputs;
mod load;
mod loads;
mod needs;
mod placed;
mod same_values;
mod values;
mod weighing;
mod written;

pub use loads::{Loads, no_loads};
pub use weighing::{Weighing, weighing_of};
