//! What threads may share.

use crate::facts::SchemaFacts;

fn is_shared<T: Send + Sync>() {}

/// Threads may share what is known of a schema.
pub fn facts_are_shared() {
    is_shared::<SchemaFacts>();
}
