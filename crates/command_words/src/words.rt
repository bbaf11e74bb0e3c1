//! The words behind a command's name.

pub mod asked;
pub mod audits;
pub mod commands;
pub mod matches;
pub mod serving;
