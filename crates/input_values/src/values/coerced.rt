//! Coerced values (GraphQL October 2021, 3.4 to 3.12).

use gql_base::Text;
use std::sync::Arc;

/// A value that was coerced to an input type.
#[derive(Drop)]
#[cycle(coerced)]
pub enum Coerced {
    Null,
    Int(i128),
    /// A number that isn't held as a whole one, by the 64 bits of its double.
    Float(u64),
    Str(Text),
    Bool(bool),
    /// A value of an enum, by its name.
    EnumName(Text),
    List(Vec<Coerced>),
    /// An input object, by its fields in the order of their definitions; or an object in the value of a custom scalar,
    /// by its fields in the order in which they were given.
    Object(Vec<CoercedField>),
    /// A list or an object that stands at several places, and is held once.
    Shared(Arc<Coerced>),
}

/// A field of an object.
#[derive(Drop)]
#[cycle(coerced)]
pub struct CoercedField {
    pub name: Text,
    pub value: Coerced,
}
