//! A worker, with its door and its passes.

use account_shared::Passes;

/// A worker: its door, its passes, and what it did so far.
#[derive(Drop)]
pub(crate) struct Worker<D: Drop> {
    pub(crate) door: D,
    pub(crate) passes: Passes,
    pub(crate) connections: u32,
    /// How many replies were written whole.
    pub(crate) replies: u64,
    /// Whether its door failed.
    pub(crate) failed: bool,
}

/// How a turn of a worker went.
#[derive(Clone, Copy, Drop)]
pub(crate) enum Next {
    /// It served a connection.
    One,
    /// Its door had none.
    Over,
    /// Its door failed.
    Failed,
}
