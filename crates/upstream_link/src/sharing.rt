//! What threads may hand each other and share.

use crate::{LinkFault, UpstreamReply};

/// Replies and faults may be shared by threads.
pub fn replies_and_faults_are_shared() {
    is_shared::<UpstreamReply>();
    is_shared::<LinkFault>();
}

fn is_shared<T: Send + Sync>() {}
