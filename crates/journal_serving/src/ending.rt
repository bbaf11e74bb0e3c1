//! What serving over a journal comes to.

use account_core::Account;
use gateway_serving::WorkDone;
use thiserror::Error;

/// What the worker did, and the account of each client after it, in their order.
#[derive(Drop)]
pub struct KeptEnd {
    pub done: WorkDone,
    pub accounts: Vec<Account>,
}

/// Why nobody was served, or not to the end.
#[derive(Clone, Copy, Debug, Drop, PartialEq, Eq, Error)]
pub enum KeptFault {
    /// The disk was not opened, or a call on it failed. The count of its faults rose.
    #[error("the disk of the journal failed")]
    Disk,
    /// The journal is that of other clients.
    #[error("the journal is that of other clients")]
    OtherClients,
    /// This slot says no record, or what no journal of these clients can have here.
    #[error("slot {slot} of the journal is damaged")]
    Damaged { slot: u64 },
    /// The doors were not started. The count of their faults rose.
    #[error("the doors were not started")]
    NotStarted,
    /// Memory was wanting. No connection was accepted.
    #[error("memory was wanting")]
    Memory,
}
