//! What all workers did together.

/// What all workers did together.
#[derive(Clone, Copy, Debug, PartialEq, Eq)]
pub struct WorkDone {
    /// How many connections were served and handed back.
    pub connections: u64,
    /// How many replies were written whole.
    pub exchanges: u64,
    /// How many doors failed.
    pub faults: u32,
}
