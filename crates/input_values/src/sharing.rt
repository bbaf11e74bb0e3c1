//! What threads may share.

use crate::inputs::definition::InputDef;
use crate::inputs::shape::{Shape, TypeId};
use crate::values::coerced::{Coerced, CoercedField};

fn is_shared<T: Send + Sync>() {}

/// Threads may share coerced values, shapes and definitions of inputs.
pub fn inputs_are_shared() {
    is_shared::<Coerced>();
    is_shared::<CoercedField>();
    is_shared::<TypeId>();
    is_shared::<Shape>();
    is_shared::<InputDef>();
}
