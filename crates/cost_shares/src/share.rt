//! What a node adds to one part of a cost.

/// What a node adds to one part of the cost of the filled response.
#[derive(Clone, Copy, Debug, PartialEq, Eq)]
pub struct Share {
    /// How many entries the node has, or `CAP + 1` where that exceeds `CAP`.
    pub times: u64,
    /// How many values stand in these entries, those of lists each by itself, or `CAP + 1` where that exceeds `CAP`.
    pub values: u64,
    /// What these entries and values add, in millionths.
    pub adds: u64,
}
