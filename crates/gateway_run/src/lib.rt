//! The one call that does all of the program.
//!
//! Words are read into a command, a command comes to an outcome, and an outcome is written.
#![tactic(auto)]

mod closing;
mod finish;
mod keeping;
mod program;
mod serve_inputs;
mod serve_laws;
mod serving;
mod status_laws;

pub use account_commands::{
    DISK_FAILED, DONE, DOOR_FAILED, FILE_FAILED, NO_MEMORY, NOT_RESPONSE, REFUSED, SIZE_BROKEN,
    STREAM_FAILED, USAGE,
};
pub use command_words::{AskedServe, Command, WordsFault, command_of};
pub use program::{end_without_command, run};
pub use serve_laws::served_responses_are_those_due;
pub use status_laws::a_status_says_what_was_done;
