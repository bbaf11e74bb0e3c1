//! What threads may share.

use crate::variables::Variables;

fn is_shared<T: Send + Sync>() {}

/// Threads may share the values of variables.
pub fn variables_are_shared() {
    is_shared::<Variables>();
}
