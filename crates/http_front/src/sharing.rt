//! What threads may hand each other and share.

use crate::{Answer, Ask, Front, FrontFault};

/// Requests, replies, fronts and faults may be shared by threads.
pub fn requests_and_replies_are_shared() {
    is_shared::<Ask>();
    is_shared::<Answer>();
    is_shared::<Front>();
    is_shared::<FrontFault>();
}

fn is_shared<T: Send + Sync>() {}
