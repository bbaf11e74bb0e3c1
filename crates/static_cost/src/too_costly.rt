//! That a cost is above the greatest that is counted.

use thiserror::Error;

/// That some response costs more than `CAP`, and in which components.
#[derive(Clone, Copy, Debug, PartialEq, Eq, Error)]
#[error("{exceeded} of some response is above the greatest that is counted", exceeded = exceeded(*.types, *.fields))]
pub struct TooCostly {
    /// Whether the type cost of some response exceeds it.
    pub types: bool,
    /// Whether the field cost of some response exceeds it.
    pub fields: bool,
}

// The components that exceed the cap, by name.
fn exceeded(types: bool, fields: bool) -> &'static str {
    match (types, fields) {
        (true, true) => "the type cost and the field cost",
        (true, false) => "the type cost",
        (false, _) => "the field cost",
    }
}
