//! What threads may share.

use crate::ending::{ConnectionEnd, Served};
use crate::reply::Reply;

fn is_shared<T: Send + Sync>() {}

/// Threads may share replies, and what came of a connection.
pub fn replies_are_shared() {
    is_shared::<Reply>();
    is_shared::<ConnectionEnd>();
    is_shared::<Served>();
}
