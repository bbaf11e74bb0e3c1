//! The texts of a replay, as its files have them.

/// The texts of a replay.
#[derive(Debug, Drop)]
pub struct Generated {
    /// A schema with a list whose size is asked for.
    pub schema: String,
    /// A client file with one client.
    pub clients: String,
    /// The script: requests of that client, and the replies to them.
    pub script: String,
}
