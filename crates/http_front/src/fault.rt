//! The faults of requests.

use thiserror::Error;

/// Why there is no request. Where several hold, it is the first of them in this order.
#[derive(Clone, Copy, Debug, PartialEq, Eq, Error)]
pub enum FrontFault {
    /// The source ended, and no byte of a further request was read.
    #[error("the source ended")]
    End,
    /// The bytes can't begin a head, or the source ended inside one.
    #[error("the bytes are no head of a request")]
    BadHead,
    /// The head has more than 16,384 bytes, or more than 64 fields.
    #[error("the head of the request is too large")]
    HeadTooLarge,
    /// The target is not `/graphql`.
    #[error("the target is not found")]
    NotFound,
    /// The method is not `POST`.
    #[error("the method is not POST")]
    BadMethod,
    /// There is no `x-client-key`, or more than one, or its value has not the form of a client's key.
    #[error("there is no client key")]
    NoKey,
    /// A `content-encoding` is not `identity`.
    #[error("the body is coded")]
    Coded,
    /// There is no `content-type`, or more than one, or it is not `application/json`.
    #[error("the body is not JSON by its type")]
    BadMedia,
    /// There is a `transfer-encoding`.
    #[error("the body has a transfer coding")]
    Chunked,
    /// There is no `content-length`.
    #[error("the length of the body is missing")]
    NoLength,
    /// A `content-length` is not 1 to 18 digits, or two of them differ as numbers.
    #[error("the length of the body is not a number")]
    BadLength,
    /// The body would have more than 262,144 bytes.
    #[error("the body of {length} bytes is too large")]
    BodyTooLarge { length: u64 },
    /// The source ended inside the body, and so many bytes are missing.
    #[error("{missing} bytes of the body are missing")]
    Truncated { missing: u64 },
    /// The source failed.
    #[error("the source can't be read")]
    ReadFault,
    /// Memory is wanting.
    #[error("memory is wanting")]
    Memory,
}
