//! Inputs at their places.

use crate::load::Sum;
use gql_base::Named;
use input_values::InputDef;

/// An input with the weight of its own `@cost`, in millionths, and what it comes to where nothing is given for it.
#[derive(Clone, Copy)]
pub struct PlacedInput<'p> {
    pub input: &'p InputDef,
    pub own: Option<u64>,
    pub absent: Sum,
}

impl<'p> Named for PlacedInput<'p> {
    ghost name_of = { λ placed. placed.input.now.name };

    fn name(&self) -> &str {
        self.input.name.as_str()
    }
}
