//! What threads may share.

use crate::args::{Arg, Args};
use crate::entries::{FieldEntry, FieldId, ListSize, TypeEntry};
use crate::schema::Schema;

fn is_shared<T: Send + Sync>() {}

/// Threads may share a checked schema.
pub fn schemas_are_shared() {
    is_shared::<Arg>();
    is_shared::<Args>();
    is_shared::<FieldId>();
    is_shared::<ListSize>();
    is_shared::<FieldEntry>();
    is_shared::<TypeEntry>();
    is_shared::<Schema>();
}
