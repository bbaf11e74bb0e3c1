//! What threads may share.

use crate::checking::Checked;

fn is_shared<T: Send + Sync>() {}

/// Threads may share what was checked.
pub fn what_is_checked_is_shared() {
    is_shared::<Checked<'_>>();
}
