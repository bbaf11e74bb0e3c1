//! What a checked schema holds of its types and fields.

ghost use Rattle.std.specs.Prelude.{◌≡◌, map};
ghost use Rattle.schema_model.specs.SchemaData.{has_lax};
ghost use Rattle.schema_model.specs.Entries.{type_data};

use gql_base::{Hashed, Named, Text};
use input_values::{InputDef, Shape, TypeId};
use schema_rules::Kind;

/// A field of a schema, by its number.
#[derive(Clone, Copy, Debug, PartialEq, Eq)]
pub struct FieldId {
    pub number: usize,
}

/// What `@listSize` says. An absent list is empty, and `requireOneSlicingArgument` is true where it is absent.
#[derive(Drop)]
pub struct ListSize {
    pub assumed: Option<i32>,
    pub slicing: Vec<Text>,
    pub sized: Vec<Text>,
    pub require_one: bool,
}

/// A field of an object or interface type.
#[derive(Drop)]
pub struct FieldEntry {
    pub name: Text,
    pub owner: TypeId,
    pub shape: Shape,
    pub arguments: Hashed<InputDef>,
    /// The text of the weight of its own `@cost`.
    pub cost: Option<Text>,
    /// Its own `@listSize`.
    pub size: Option<ListSize>,
}

/// A type.
#[derive(Drop)]
pub struct TypeEntry {
    pub name: Text,
    pub kind: Kind,
    /// The names of its fields.
    pub names: Hashed<Text>,
    /// The numbers of its fields, in the same order.
    pub fields: Vec<FieldId>,
    pub interfaces: Vec<TypeId>,
    pub members: Vec<TypeId>,
    /// The names of an enum's values.
    pub values: Hashed<Text>,
    /// The fields of an input object.
    pub inputs: Hashed<InputDef>,
    /// The text of the weight of its own `@cost`.
    pub cost: Option<Text>,
    /// Whether it has `@floats`: a scalar that may hold numbers that aren't whole.
    pub lax: bool,
}

impl Named for TypeEntry {
    ghost name_of = { λ t. t.name };

    fn name(&self) -> &str {
        self.name.as_str()
    }
}

/// Whether one of the types may hold numbers that aren't whole.
pub fn has_lax(types: &[TypeEntry]) -> bool
    ensures { result ≡ has_lax (map type_data types.now) }
{
    for entry in types {
        if entry.lax {
            return true;
        }
    }
    false
}
