//! What threads may share.

use crate::ending::{ServeEnd, ServeFault};

fn is_shared<T: Send + Sync>() {}

/// Threads may share what serving comes to.
pub fn ends_are_shared() {
    is_shared::<ServeEnd>();
    is_shared::<ServeFault>();
}
