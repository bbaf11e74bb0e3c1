//! What threads may share.

use crate::facts::Facts;
use crate::fault::LocalFault;
use crate::walk::Local;

fn is_shared<T: Send + Sync>() {}

/// Threads may share what operations that ask for the schema are answered by.
pub fn facts_are_shared() {
    is_shared::<Facts>();
}

/// Threads may share what an operation that asks for the schema comes to.
pub fn answers_are_shared() {
    is_shared::<Local>();
    is_shared::<LocalFault>();
}
