//! The values of variables (GraphQL October 2021, 6.1.2).

use crate::values::coerced::Coerced;
use gql_base::{Named, Text};

/// A declared variable by its name without the `$`, and its value where it has one.
#[derive(Drop)]
pub struct VariableValue {
    pub name: Text,
    pub value: Option<Coerced>,
}

impl Named for VariableValue {
    ghost name_of = { λ variable. variable.name };

    fn name(&self) -> &str {
        self.name.as_str()
    }
}
