//! What threads may share.

use crate::beginning::Denial;
use crate::finishing::{Finished, Outcome};
use crate::gate::Gate;
use crate::totals::Totals;

fn is_shared<T: Send + Sync>() {}

/// Threads may share a gate.
pub fn gates_are_shared() {
    is_shared::<Gate>();
}

/// Threads may share what requests come to.
pub fn answers_are_shared() {
    is_shared::<Denial>();
    is_shared::<Outcome>();
    is_shared::<Finished>();
    is_shared::<Totals>();
}
