//! What threads may share.

use crate::replayed::Replayed;

fn is_shared<T: Send + Sync>() {}

/// Threads may share what replays come to.
pub fn replays_are_shared() {
    is_shared::<Replayed>();
}
