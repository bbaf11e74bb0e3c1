//! What is wrong with a client file.

ghost use Rattle.std.specs.Prelude.{◌≡◌, IfOk};
ghost use Rattle.client_files.specs.FaultTexts.{fault_text};

use gql_base::Text;
use std::alloc::{AllocError, AllocFailed, Global};
use thiserror::Error;

/// Why a text is no client file.
///
/// The fault that is told is that of the first line at fault, and on one line the first in this order. Lines are counted
/// from 1.
#[derive(Debug, Clone, Copy, PartialEq, Eq, Error)]
pub enum ClientsFault {
    /// The line isn't the one that its place asks for.
    #[error("line {line} of the client file isn't of the form that stands there")]
    BadLine {
        /// The line's number.
        line: usize,
    },
    /// The line names the key of a client before it.
    #[error("line {line} of the client file names a key again")]
    Repeated {
        /// The line's number.
        line: usize,
    },
    /// The line names a client more than there may be.
    #[error("line {line} of the client file names one client too many")]
    TooMany {
        /// The line's number.
        line: usize,
    },
    /// Every line is well, and none names a client.
    #[error("the client file names no client")]
    NoClient,
    /// There was no memory.
    #[error("there was no memory for the client file")]
    Memory,
}

impl<T: Drop> From<AllocFailed<T>> for ClientsFault {
    ghost use Rattle.client_files.specs.declared.fault.ClientsFault.TheVariants.{Memory};

    ghost from_gives = { λ _ fault. fault ≡ Memory };

    fn from(_failed: AllocFailed<T>) -> ClientsFault {
        ClientsFault::Memory
    }
}

impl From<AllocError> for ClientsFault {
    ghost use Rattle.client_files.specs.declared.fault.ClientsFault.TheVariants.{Memory};

    ghost from_gives = { λ _ fault. fault ≡ Memory };

    fn from(_failed: AllocError) -> ClientsFault {
        ClientsFault::Memory
    }
}

/// The text of a fault: `clients`, its number, its name, and the line where it has one. Want of memory has no text.
pub fn fault_text(alloc: Global, fault: ClientsFault) -> Result<Text, AllocError>
    ensures { IfOk result (λ text. text ≡ fault_text fault) }
{
    let text = match fault {
        ClientsFault::BadLine { line } => format!(in alloc; "clients 1 BadLine {line}")?,
        ClientsFault::Repeated { line } => format!(in alloc; "clients 2 Repeated {line}")?,
        ClientsFault::TooMany { line } => format!(in alloc; "clients 3 TooMany {line}")?,
        ClientsFault::NoClient => return Text::copy_of(alloc, "clients 4 NoClient"),
        ClientsFault::Memory => return Text::copy_of(alloc, ""),
    };
    Ok(Text::from(text))
}
