//! What threads may share.

use crate::fault::PlanFault;

fn is_shared<T: Send + Sync>() {}

/// Threads may share faults of plans.
pub fn plan_faults_are_shared() {
    is_shared::<PlanFault>();
}
