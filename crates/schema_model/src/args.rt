//! The arguments of a field of an operation (GraphQL October 2021, 6.4.1).

use input_values::Coerced;

/// An argument.
#[derive(Drop)]
pub struct Arg {
    /// Its coerced value: the one that is supplied, or its default. An argument without a value is absent.
    pub value: Option<Coerced>,
    /// Whether a value is supplied for it, so that its default isn't taken.
    pub supplied: bool,
}

/// One for each argument that the field defines, in their order.
#[derive(Drop)]
pub struct Args {
    pub list: Vec<Arg>,
}
