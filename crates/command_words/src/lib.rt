//! The commands of the program, and the words that ask for them.
#![tactic(auto)]

mod builder;
mod command;
mod number;
mod reading;
mod words;

pub use command::{
    Asked, AskedAudit, AskedList, AskedReplay, AskedServe, Command, ENDLESS_CONNECTIONS,
    GREATEST_ANSWER, GREATEST_CONNECTIONS, GREATEST_EXERCISE, GREATEST_PASSED, GREATEST_UNSIZED,
    GREATEST_WAITING, GREATEST_WORK, GREATEST_WORKERS, LEAST_WORK, TARGET, UNDECLARED, WORKERS,
    WordsFault,
};
pub use reading::command_of;
