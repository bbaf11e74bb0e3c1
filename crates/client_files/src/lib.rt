//! Client files: which clients the gateway serves, what each of them may spend in a window, and how long a window is.
//!
//! A client file is a text of lines. The first names the version of the format, the second the length of a window, and
//! each further line a client: its key, the two components of its allowance, and perhaps the word `carry`.
#![tactic(auto)]

mod client;
mod client_line;
mod fault;
mod heading;
pub mod laws;
mod line;
mod migration;
mod reading;

pub use client::{CARRY_LIMIT, CLIENT_LIMIT, Client, Clients, KEY_LIMIT, WINDOW_LIMIT};
pub use client_line::{bytes_are_key, is_key};
pub use fault::{ClientsFault, fault_text};
pub use heading::Version;
pub use migration::{client_file, migrate_clients};
pub use reading::read_clients;
