//! What is kept of the weights and sizes of a schema.

use gql_base::{Hashed, Named, Text};
use input_values::Shape;

/// An argument, or a field of an input object.
#[derive(Drop)]
pub struct InputWeight {
    pub name: Text,
    pub shape: Shape,
    /// The weight of its own `@cost`, in millionths.
    pub own: Option<u64>,
}

impl Named for InputWeight {
    ghost name_of = { λ input. input.name };

    fn name(&self) -> &str {
        self.name.as_str()
    }
}

/// A type.
#[derive(Drop)]
pub struct TypeWeight {
    /// Its weight, in millionths.
    pub weight: u64,
    /// Whether it is an input object type.
    pub is_object: bool,
    /// The fields of an input object type.
    pub inputs: Hashed<InputWeight>,
}

/// What the size of a field is found by.
#[derive(Drop)]
pub struct SizeRule {
    pub assumed: Option<i32>,
    /// The places of the slicing arguments among the field's arguments, each once.
    pub slicing: Vec<usize>,
    pub require_one: bool,
    /// The names of the fields below to which the size is handed down.
    pub sized: Vec<Text>,
    /// Whether any length is kept: a list of leaves that weigh nothing.
    pub is_free: bool,
}

/// A field of an object or interface type.
#[derive(Drop)]
pub struct FieldWeight {
    /// Its weight, in millionths.
    pub weight: u64,
    pub arguments: Vec<InputWeight>,
    pub size: SizeRule,
}
