//! Clients, and what they may spend.

use cost_num::{CAP, Cost, UNIT};
use gql_base::{Named, Text};

/// The greatest length of a key, in characters.
pub const KEY_LIMIT: usize = 64;

/// The greatest length of a window, in seconds: a day.
pub const WINDOW_LIMIT: u32 = 86_400;

/// How many clients a file may name.
pub const CLIENT_LIMIT: usize = 1_000;

/// The greatest component of the allowance of a client that carries, in millionths: half of `CAP`, so that an allowance
/// and what is carried make no more than `CAP` together.
pub const CARRY_LIMIT: u64 = CAP / 2;

/// How many millionths make a thousandth, the smallest part that version 1 of the format knows.
pub const THOUSANDTH: u64 = UNIT / 1_000;

/// A client of the gateway.
#[derive(Debug, Drop)]
pub struct Client {
    /// What the client names itself by in its requests.
    pub key: Text,
    /// What the client may spend in a window, in millionths.
    pub allowance: Cost,
    /// Whether a window carries over what the one before it left, up to one allowance.
    pub carry: bool,
}

/// A client is found by its key.
impl Named for Client {
    ghost name_of = { λ client. client.key };

    fn name(&self) -> &str {
        self.key.as_str()
    }
}

/// What a client file says.
#[derive(Debug, Drop)]
pub struct Clients {
    /// The length of a window, in seconds.
    pub window_seconds: u32,
    /// The clients, in the order of the file.
    pub clients: Vec<Client>,
}
