//! Scripts of a replay: texts of lines, each a step. A client's request comes in, or what the upstream made of one.
#![tactic(auto)]

mod fault;
mod laws;
mod line;
mod moment;
mod reading;
mod step;
mod step_line;

pub use fault::{ScriptFault, fault_text};
pub use laws::{a_script_is_of_one_list_of_steps, limits_are_told, scripts_are_shared};
pub use reading::read_script;
pub use step::{ID_LIMIT, LINE_LIMIT, Returned, Script, Step};
