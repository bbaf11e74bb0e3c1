//! The values of an operation's variables, and of the arguments of its fields (GraphQL October 2021, 6.1.2 and 6.4.1).
#![tactic(auto)]

mod arguments;
mod faults;
mod json;
mod laws;
mod shapes;
mod sharing;
mod values;
mod variables;

pub use arguments::{coerce_arguments, coerce_arguments_at};
pub use faults::{ArgFault, CoerceFault};
pub use laws::{what_arguments_are, what_arguments_see, what_is_refused_first, what_variables_are};
pub use sharing::variables_are_shared;
pub use values::VALUE_LIMIT;
pub use variables::{Variables, coerce_variables};
