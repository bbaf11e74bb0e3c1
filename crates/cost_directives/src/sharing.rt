//! What threads may share.

use crate::fault::DirectiveFault;
use crate::sizes::{Size, SizeFault};
use crate::weights::Weights;

fn is_shared<T: Send + Sync>() {}

/// Threads may share weights, sizes and the faults of directives.
pub fn weights_are_shared() {
    is_shared::<Weights>();
    is_shared::<Size>();
    is_shared::<SizeFault>();
    is_shared::<DirectiveFault>();
}
