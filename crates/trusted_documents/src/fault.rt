//! What is wrong with a list of documents, and why a body isn't expanded.

ghost use Rattle.std.specs.Prelude.{◌≡◌};

use gql_base::Text;
use std::alloc::AllocError;
use thiserror::Error;

/// Why a text is no list of trusted documents.
///
/// The first three are tested in this order. Then the entries are gone through in the order of their keys, by bytes, and what
/// is told is the fault of the first one at fault; where several hold of it, it is the first of them in this order.
#[derive(Debug, Drop, Error)]
pub enum TrustedFault {
    /// The text is no JSON.
    #[error("the list of documents is no JSON")]
    NotJson,
    /// It is no object.
    #[error("the list of documents is no object")]
    NotObject,
    /// There are more than 10,000 entries.
    #[error("the list has {count} documents, which are too many")]
    TooMany {
        /// How many there are, where equal keys count once.
        count: usize,
    },
    /// A key isn't of 64 digits from `0` to `9` and `a` to `f`.
    #[error("the key {key} has not the form of a hash")]
    BadHash {
        /// The key.
        key: Text,
    },
    /// A key stands for a value that is no string.
    #[error("the value of the key {key} is no string")]
    NotString {
        /// The key.
        key: Text,
    },
    /// A document has more than 262,144 bytes.
    #[error("the document of the key {key} is too long")]
    TooLong {
        /// Its key.
        key: Text,
    },
    /// A key isn't the hash of its document.
    #[error("the key {key} is not the hash of its document")]
    WrongHash {
        /// The key.
        key: Text,
    },
    /// There was no memory.
    #[error("there was no memory for the list of documents")]
    Memory,
}

impl From<AllocError> for TrustedFault {
    ghost use Rattle.trusted_documents.specs.declared.fault.TrustedFault.TheVariants.{Memory};

    ghost from_gives = { λ _ fault. fault ≡ Memory };

    fn from(_failed: AllocError) -> TrustedFault {
        TrustedFault::Memory
    }
}

/// Why a body isn't expanded.
#[derive(Debug, Clone, Copy, PartialEq, Eq, Error)]
pub enum ExpandFault {
    /// There is an extension `persistedQuery` without the `version` 1, or without a `sha256Hash` that is a string.
    #[error("the extension for a document by its hash is not well formed")]
    BadExtension,
    /// There is a query too, and the hash isn't the query's own.
    #[error("the hash is not that of the query")]
    HashMismatch,
    /// No document is listed under the hash.
    #[error("no document has this hash")]
    UnknownHash,
    /// The query isn't listed, and no other document is taken.
    #[error("the query is no trusted document")]
    NotTrusted,
    /// There was no memory.
    #[error("there was no memory for the document")]
    Memory,
}

impl From<AllocError> for ExpandFault {
    ghost use Rattle.trusted_documents.specs.declared.fault.ExpandFault.TheVariants.{Memory};

    ghost from_gives = { λ _ fault. fault ≡ Memory };

    fn from(_failed: AllocError) -> ExpandFault {
        ExpandFault::Memory
    }
}
