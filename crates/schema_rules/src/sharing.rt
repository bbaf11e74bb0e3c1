//! What threads may share.

use crate::kind::Kind;
use crate::place::Place;
use crate::type_names::TypeName;

fn is_shared<T: Send + Sync>() {}

/// Threads may share places, kinds and the names of types.
pub fn rules_are_shared() {
    is_shared::<Kind>();
    is_shared::<Place<'static>>();
    is_shared::<TypeName<'static>>();
}
