//! What a literal is coerced beside.

ghost use Rattle.std.specs.Prelude.{◌≡◌, option_map};
ghost use Rattle.input_values.specs.values.Coerced.{coerced_tree};
ghost use Rattle.input_values.specs.coercion.Literals.{values_of};

use crate::coercion::variables::VariableValue;
use crate::inputs::types::InputTypes;
use crate::values::coerced::Coerced;
use counted_work::Work;
use gql_base::Indexed;

/// The types of a schema, the values of variables, the greatest number of nodes that is built, and the steps that may still be taken.
#[derive(Clone, Copy)]
pub struct Scope<'a, T: InputTypes> {
    pub types: &'a T,
    pub variables: &'a Indexed<VariableValue>,
    pub limit: u32,
    pub work: Work<'a>,
}

/// The value of a variable, by its name; none where it has no value.
pub fn value_of<'a>(variables: &'a Indexed<VariableValue>, name: &str) -> Option<&'a Coerced>
    ensures { option_map (λ value. coerced_tree value.now) result ≡ values_of variables.now.items.items name.now }
{
    match variables.first_named(name) {
        Some(variable) => variable.value.as_ref(),
        None => None,
    }
}
