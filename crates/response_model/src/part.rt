//! The parts of a cost.

/// A component of a cost (IBM GraphQL Cost Directives Specification).
#[derive(Clone, Copy, Debug, PartialEq, Eq)]
pub enum Part {
    /// The cost of the types: of the values of a response.
    Types,
    /// The cost of the fields: of its entries and their arguments.
    Fields,
}
