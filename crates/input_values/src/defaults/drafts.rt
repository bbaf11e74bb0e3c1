//! Types of inputs as the text of a schema has them.

use crate::inputs::shape::Shape;
use crate::inputs::types::InputKind;
use gql_base::{Indexed, Named, Text, Value};

/// A field of an input object, with the literal of its default.
#[derive(Drop)]
pub struct DraftField<'a> {
    pub name: &'a str,
    pub shape: Shape,
    pub default: Option<&'a Value>,
}

impl<'a> Named for DraftField<'a> {
    ghost name_of = { λ field. field.name.now };

    fn name(&self) -> &str {
        self.name
    }
}

/// A named type.
#[derive(Drop)]
pub enum DraftType<'a> {
    /// A scalar by its kind, or a type that is no input type by the kind `None`. The kinds of enums and input objects
    /// count as `None` here.
    Simple(InputKind),
    /// An enum, by the names of its values.
    Enum(Indexed<&'a Text>),
    /// An input object.
    Object(Indexed<DraftField<'a>>),
}
