//! Requests to the upstream and its replies, as HTTP/1.1 over a wire (RFC 9110, RFC 9112).
#![tactic(auto)]

mod asking;
mod bodies;
mod chunks;
mod fault;
mod framing;
mod heads;
mod kept;
pub mod laws;
mod pieces;
mod reply;
mod request;
mod sending;
pub mod sharing;

pub use asking::ask;
pub use fault::LinkFault;
pub use reply::UpstreamReply;
