//! The rows of a plan's table.

ghost use Rattle.std.specs.Prelude.{◌≡◌, ◌≤◌};
ghost use Rattle.plan_table.specs.declared.TheConstants.{LEVELS};
ghost use Rattle.plan_table.specs.ListSizes.{size_from};

use crate::keys::RowKey;
use cost_directives::SizeSource;
use input_values::TypeId;
use schema_model::FieldId;

/// A node: the entry of one response key in objects of one type.
#[derive(Drop)]
pub struct NodeRow {
    /// The response key: the alias, or the field's name.
    pub key: RowKey,
    /// How many fields are on the path down to it; 1 at the root.
    pub depth: u32,
    /// The field's name.
    pub name: RowKey,
    /// The object type in whose objects the entry stands.
    pub on: TypeId,
    /// Whether it is the first node of this type at its position.
    pub first: bool,
    /// The field; none for `__typename`.
    pub field: Option<FieldId>,
    /// Whether each object below has its type name in an entry of its own, under the added alias.
    pub asked: bool,
    /// The declared size of its list; none where it is no list, or a list of any length.
    pub size: Option<u64>,
    /// Where that size comes from; none where it is no list.
    pub source: Option<SizeSource>,
    /// What the field's arguments cost, in millionths, or `CAP + 1` where that exceeds `CAP`.
    pub arguments: u64,
    pub ghost within: { depth ≤ LEVELS },
    pub ghost told: { size ≡ size_from source },
}
