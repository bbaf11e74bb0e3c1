//! What coercion looks up of the types of a schema (GraphQL October 2021, 3.5, 3.9 and 3.10).

ghost use Rattle.std.specs.Prelude.{◌≡◌, length, option_map, slice_get};
ghost use Rattle.input_values.specs.coercion.Forms.{InputForm, names_of, fields_of, is_value, is_field};
ghost use Rattle.input_values.specs.coercion.Kinds.{IsOfKind, field_seen, scalar_kind};

use crate::inputs::shape::{Shape, TypeId};
use crate::values::coerced::Coerced;

/// What a named type is for a value that is given for it.
#[derive(Clone, Copy, Debug, PartialEq, Eq)]
pub enum InputKind {
    Int,
    String,
    Boolean,
    Id,
    Float,
    /// A scalar that isn't built in, whose numbers are whole.
    Custom,
    /// A scalar that isn't built in and may hold numbers that aren't whole.
    Lax,
    Enum,
    /// An input object.
    Object,
    /// A type that is no input type.
    None,
}

/// What a field of an input object is where nothing is given for it.
#[derive(Clone, Copy)]
pub enum Absence<'a> {
    /// Its default.
    Default(&'a Coerced),
    Nothing,
    /// It may not be absent.
    Required,
}

/// A field of an input object, as coercion sees it.
#[derive(Clone, Copy)]
pub struct InputField<'a> {
    pub name: &'a str,
    pub shape: &'a Shape,
    pub absence: Absence<'a>,
}

/// Types by their numbers. A number that belongs to no type is that of a type without values.
pub trait InputTypes {
    ghost use Rattle.std.specs.Prelude.{ℕ};
    ghost use Rattle.input_values.specs.coercion.Forms.{InputForm};

    ghost forms: { Self → ℕ → InputForm };

    /// What a type is.
    fn kind(&self, of: TypeId) -> InputKind
        ensures { IsOfKind result (forms self.now of.number) };

    /// Whether an enum has a value of this name.
    fn has_value(&self, of: TypeId, name: &str) -> bool
        ensures { result ≡ is_value (names_of (forms self.now of.number)) name.now };

    /// Whether an input object has a field of this name.
    fn has_field(&self, of: TypeId, name: &str) -> bool
        ensures { result ≡ is_field (fields_of (forms self.now of.number)) name.now };

    /// How many fields an input object has.
    fn field_count(&self, of: TypeId) -> usize
        ensures { result ≡ length (fields_of (forms self.now of.number)) };

    /// A field of an input object, by its place in the order of the definitions.
    fn field(&self, of: TypeId, at: usize) -> Option<InputField<'_>>
        ensures { option_map field_seen result ≡ slice_get (fields_of (forms self.now of.number)) at };
}

/// What the scalar of this name is. One that is lax may hold numbers that aren't whole: Float, or a custom scalar.
pub fn scalar_kind(lax: bool, name: &str) -> InputKind
    ensures { result ≡ scalar_kind lax name.now }
{
    match name {
        "Int" => InputKind::Int,
        "String" => InputKind::String,
        "Boolean" => InputKind::Boolean,
        "ID" => InputKind::Id,
        _ => {
            if !lax {
                InputKind::Custom
            } else if name == "Float" {
                InputKind::Float
            } else {
                InputKind::Lax
            }
        }
    }
}
