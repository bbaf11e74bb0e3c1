//! What threads may share.

use crate::response::Tree;
use crate::rows::NodeRow;

fn is_shared<T: Send + Sync>() {}

/// Threads may share the rows of plans, and responses.
pub fn rows_are_shared() {
    is_shared::<NodeRow>();
    is_shared::<Tree>();
}
