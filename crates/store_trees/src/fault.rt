//! Why a file of accounts isn't opened.

ghost use Rattle.std.specs.Prelude.{◌≡◌};
ghost use Rattle.store_trees.specs.Opening.{fault_of, kept_fault, sql_fault_of};

use account_store::KeeperFault;
use sqlite::{Error as SqlError, ErrorCode};
use sqlite_trees::error::StoreError;
use std::alloc::{AllocError, AllocFailed};
use thiserror::Error;

/// Why a file of accounts isn't opened. What was committed in it stays; a log that stood beside it may have been copied into it.
#[derive(Clone, Copy, Debug, PartialEq, Eq, Error)]
pub enum OpenFault {
    /// There is no memory for what is read.
    #[error("out of memory")]
    OutOfMemory,
    /// The system doesn't open or make the file.
    #[error("the file can't be opened")]
    CannotOpen,
    /// Another process has the file open, as another gateway.
    #[error("another process has the file open")]
    InUse,
    /// The file is no SQLite database, or one with a schema that isn't known here.
    #[error("the file is no SQLite database")]
    NoDatabase,
    /// A page isn't what was written.
    #[error("the database is damaged")]
    Damaged,
    /// The disk failed.
    #[error("the disk failed")]
    Disk,
    /// The disk has no room.
    #[error("the disk is full")]
    Full,
    /// It is another program's database: its tables aren't those of accounts.
    #[error("the database has other tables than those of accounts")]
    Foreign,
    /// It was written in a format that isn't known here.
    #[error("the accounts have the format {0}, which isn't known")]
    Format(u64),
    /// Its windows have another length, in seconds, so that their numbers mean other times.
    #[error("the windows of the accounts are {0} seconds long")]
    Window(u64),
    /// A row is none that a gateway writes, or it is of a client that isn't there.
    #[error("a row is none of an account")]
    BadRow,
}

impl From<AllocError> for OpenFault {
    ghost use Rattle.std.specs.Prelude.{◌≡◌};
    ghost use Rattle.store_trees.specs.declared.fault.OpenFault.TheVariants.{OutOfMemory};

    ghost from_gives = { λ _ e. e ≡ OutOfMemory };

    fn from(_: AllocError) -> OpenFault {
        OpenFault::OutOfMemory
    }
}

impl<T: Drop> From<AllocFailed<T>> for OpenFault {
    ghost use Rattle.std.specs.Prelude.{◌≡◌};
    ghost use Rattle.store_trees.specs.declared.fault.OpenFault.TheVariants.{OutOfMemory};

    ghost from_gives = { λ _ e. e ≡ OutOfMemory };

    fn from(_: AllocFailed<T>) -> OpenFault {
        OpenFault::OutOfMemory
    }
}

/// The fault of a read.
pub fn read_fault(error: StoreError) -> OpenFault
    ensures { result ≡ fault_of error }
{
    match error {
        StoreError::OutOfMemory => OpenFault::OutOfMemory,
        StoreError::Corrupt => OpenFault::Damaged,
        StoreError::Full => OpenFault::Full,
        StoreError::Io | StoreError::Broken | StoreError::Unstorable => OpenFault::Disk,
    }
}

/// A fault of the store as a keeper says it.
pub fn keeper_fault(error: StoreError) -> KeeperFault
    ensures { result ≡ kept_fault error }
{
    match error {
        StoreError::OutOfMemory => KeeperFault::Memory,
        StoreError::Unstorable => KeeperFault::Unkeepable,
        StoreError::Io | StoreError::Corrupt | StoreError::Full | StoreError::Broken => {
            KeeperFault::Failed
        }
    }
}

/// The fault of an opening or a statement.
pub fn sql_fault(error: SqlError) -> OpenFault
    ensures { result ≡ sql_fault_of error }
{
    let SqlError::SqliteFailure(code) = error else {
        return OpenFault::Foreign;
    };
    match code {
        ErrorCode::OutOfMemory => OpenFault::OutOfMemory,
        ErrorCode::CannotOpen => OpenFault::CannotOpen,
        ErrorCode::DatabaseBusy => OpenFault::InUse,
        ErrorCode::NotADatabase => OpenFault::NoDatabase,
        ErrorCode::DatabaseCorrupt => OpenFault::Damaged,
        ErrorCode::DiskFull => OpenFault::Full,
        _ => OpenFault::Disk,
    }
}
