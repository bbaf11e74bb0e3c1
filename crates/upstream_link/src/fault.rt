//! The faults of a request to the upstream.

use thiserror::Error;

/// Why there is no reply of the upstream.
#[derive(Clone, Copy, Debug, Drop, PartialEq, Eq, Error)]
pub enum LinkFault {
    /// Nobody answered the dial. The wire's count of such faults rose.
    #[error("the upstream did not answer")]
    Down,
    /// A transfer over the wire failed. The wire's count of such faults rose.
    #[error("the transfer to or from the upstream failed")]
    Failed,
    /// The bytes can't begin the head of a reply, or it is too large, or its fields say no length.
    #[error("the head of the upstream's reply is bad")]
    BadReplyHead,
    /// A `content-encoding` is not `identity`.
    #[error("the body of the upstream's reply is coded")]
    Coded,
    /// The body has more than 4,194,304 bytes.
    #[error("the body of the upstream's reply is too large")]
    TooLarge,
    /// The wire ended before the reply did.
    #[error("the upstream's reply ended too early")]
    Truncated,
    /// A chunk has no size, or no end of line behind it, or the trailer is too long.
    #[error("a chunk of the upstream's reply is bad")]
    BadChunk,
    /// Want of memory.
    #[error("there is no memory for the upstream's reply")]
    Memory,
}
