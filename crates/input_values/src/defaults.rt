//! Defaults as the text of a schema has them, and what they come to.

pub mod drafts;
pub mod filled;
pub mod filling;
pub mod laws;
pub mod rounds;
