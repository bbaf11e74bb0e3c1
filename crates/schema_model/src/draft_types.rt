//! What a schema text says of its types, with numbers in place of names.

use gql_base::{Argument, Indexed, Named, Value};
use input_values::{Shape, TypeId};
use schema_reader::EnumValueDef;
use schema_rules::Kind;

/// An argument or an input field.
#[derive(Drop)]
pub struct DraftInput<'a> {
    pub name: &'a str,
    pub shape: Shape,
    pub default: Option<&'a Value>,
    pub cost: Option<&'a str>,
}

/// A field of an object or interface type.
#[derive(Drop)]
pub struct DraftField<'a> {
    pub name: &'a str,
    pub shape: Shape,
    pub arguments: Indexed<DraftInput<'a>>,
    pub cost: Option<&'a str>,
    pub size: Option<&'a [Argument]>,
}

/// A type.
#[derive(Drop)]
pub struct DraftType<'a> {
    pub name: &'a str,
    pub kind: Kind,
    pub interfaces: Vec<TypeId>,
    pub members: Vec<TypeId>,
    pub fields: Indexed<DraftField<'a>>,
    pub values: &'a [EnumValueDef],
    pub inputs: Vec<DraftInput<'a>>,
    pub cost: Option<&'a str>,
    /// Whether it has `@floats`.
    pub lax: bool,
}

impl<'a> Named for DraftInput<'a> {
    ghost name_of = { λ d. d.name.now };

    fn name(&self) -> &str {
        self.name
    }
}

impl<'a> Named for DraftField<'a> {
    ghost name_of = { λ f. f.name.now };

    fn name(&self) -> &str {
        self.name
    }
}
