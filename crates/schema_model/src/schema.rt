//! The checked schema.

ghost use Rattle.std.specs.Prelude.{◌≡◌, map};
ghost use Rattle.schema_model.specs.SchemaData.{has_lax};
ghost use Rattle.schema_model.specs.Entries.{type_data, KnowsPossible};

use crate::entries::{FieldEntry, TypeEntry};
use crate::marks::TypeList;
use gql_base::{Hashed, Text};
use input_values::TypeId;

/// A schema that was checked.
#[derive(Drop)]
pub struct Schema {
    pub(crate) types: Hashed<TypeEntry>,
    pub(crate) fields: Vec<FieldEntry>,
    /// What stands at other numbers.
    pub(crate) other_type: TypeEntry,
    pub(crate) other_field: FieldEntry,
    pub(crate) directives: Hashed<Text>,
    /// How many of the types the text defines.
    pub(crate) defined: usize,
    pub(crate) query: TypeId,
    pub(crate) mutation: Option<TypeId>,
    pub(crate) subscription: Option<TypeId>,
    /// The object types of each type.
    pub(crate) possible: Vec<TypeList>,
    /// Whether one of the types is lax.
    pub(crate) floats: bool,
    ghost knows: { KnowsPossible possible.items types.items.items },
    ghost knows_floats: { floats ≡ has_lax (map type_data types.items.items) },
}
