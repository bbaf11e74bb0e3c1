//! Why a row is not played.

use std::alloc::{AllocError, AllocFailed};
use thiserror::Error;

/// Why a row is not played.
#[derive(Debug, Drop, Error)]
pub(crate) enum RowFault {
    /// Its line is wrong.
    #[error("{0}")]
    Wrong(&'static str),
    /// There was no memory.
    #[error("there was no memory")]
    Memory,
}

impl From<AllocError> for RowFault {
    fn from(_error: AllocError) -> RowFault {
        RowFault::Memory
    }
}

impl<T: Drop> From<AllocFailed<T>> for RowFault {
    fn from(_failed: AllocFailed<T>) -> RowFault {
        RowFault::Memory
    }
}
