//! A worker over a journal.

use crate::kept::Kept;
use journal_disk::Disk;

/// A worker: its door, its journal, and what it did so far.
#[derive(Drop)]
pub(crate) struct KeptWorker<D: Drop, J: Disk> {
    pub(crate) door: D,
    pub(crate) kept: Kept<J>,
    pub(crate) connections: u32,
    /// How many replies were written whole.
    pub(crate) replies: u64,
    /// Whether its door failed.
    pub(crate) failed: bool,
}

/// How a turn of a worker went.
#[derive(Clone, Copy, Drop)]
pub(crate) enum Turned {
    /// It served a connection.
    One,
    /// Its door had none.
    Over,
    /// Its door failed.
    Failed,
    /// A call on the disk failed.
    Lost,
}
