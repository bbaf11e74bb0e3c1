//! Values of input types (GraphQL October 2021, 3.4 to 3.12): what types ask for, coerced values, and how what is given
//! for a type is coerced.
#![tactic(auto)]

mod coercion;
mod defaults;
mod inputs;
mod sharing;
mod values;

pub use coercion::faults::{CoercionFault, bad_value};
pub use coercion::laws::{what_is_coerced, what_is_refused};
pub use coercion::literals::{absent_field, coerce_literal, is_nothing};
pub use coercion::scope::{Scope, value_of};
pub use coercion::variables::VariableValue;
pub use coercion::{building, kinds, leaves, places};
pub use defaults::drafts::{DraftField, DraftType};
pub use defaults::filled::{FilledTypes, no_default};
pub use defaults::filling::{DEFAULT_LIMIT, DefaultFault, coerce_default};
pub use defaults::laws::{defaults_can_be_filled, defaults_have_one_filling};
pub use defaults::rounds::fill;
pub use inputs::definition::InputDef;
pub use inputs::shape::{Shape, ShapeLevel, TypeId, copy_shape, shape_level};
pub use inputs::types::{Absence, InputField, InputKind, InputTypes, scalar_kind};
pub use sharing::inputs_are_shared;
pub use values::coerced::{Coerced, CoercedField};
pub use values::copies::{copy_field, copy_value};
pub use values::counting::{count_node, count_nodes, is_null};
pub use values::floats::{finite_bits, float_bits};
pub use values::made;
