//! Definitions of arguments and input fields (GraphQL October 2021, 3.6.1 and 3.10).

use crate::inputs::shape::Shape;
use crate::values::coerced::Coerced;
use gql_base::{Named, Text};

/// The definition of an argument or of an input field.
#[derive(Drop)]
pub struct InputDef {
    pub name: Text,
    pub shape: Shape,
    /// Its default, coerced.
    pub default: Option<Coerced>,
    /// The text of its own weight, as `@cost` says it.
    pub cost: Option<Text>,
}

impl Named for InputDef {
    ghost name_of = { λ input. input.name };

    fn name(&self) -> &str {
        self.name.as_str()
    }
}
