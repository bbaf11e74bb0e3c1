//! Where the things of a schema text are defined: the byte at which the name of a type, a field, an argument or a directive stands, by the
//! text of its place, as faults of schemas name it.
//!
//! The trees of a schema text hold no bytes, so its tokens are walked through again. What a walk has seen and which names it takes for which
//! places stands in `specs/Sites.antt`.
#![tactic(auto)]

mod finding;
mod walk;

pub use finding::defined_at;
