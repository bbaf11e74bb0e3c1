//! What serving comes to.

use gateway_workers::{Totals, WorkDone};
use thiserror::Error;

/// What the workers did, and the accounts after it.
#[derive(Drop)]
pub struct ServeEnd {
    pub done: WorkDone,
    pub totals: Totals,
}

/// Why nothing was served.
#[derive(Clone, Copy, Debug, Drop, PartialEq, Eq, Error)]
pub enum ServeFault {
    /// The doors were not started. The count of their faults rose.
    #[error("the doors were not started")]
    NotStarted,
    /// Memory was wanting. No connection was accepted.
    #[error("memory was wanting")]
    Memory,
}
