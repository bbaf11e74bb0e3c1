//! What a row doesn't say itself, looked up in the schema and its weights.

ghost use Rattle.std.specs.Prelude.{◌≡◌, ℕ};
ghost use Rattle.document_rules.specs.Sites.{known_field};
ghost use Rattle.plan_model.specs.SelectedFields.{form_of, place_of};
ghost use Rattle.plan_table.specs.Tables.{row_in, setting_in, below_at};
ghost use Rattle.plan_table.specs.Looked.{is_list, below_seen};

use crate::rows::NodeRow;
use crate::table::Plan;
use input_values::places::innermost;
use input_values::{ShapeLevel, TypeId, shape_level};
use schema_model::FieldId;

/// What stands below a node.
#[derive(Clone, Copy)]
pub enum Below<'a> {
    /// The name of the object's own type.
    TypeName,
    /// A leaf of a scalar or enum type.
    Leaf(TypeId),
    /// Objects of these types.
    Objects(&'a [TypeId]),
}

impl<'a> Plan<'a> {
    fn is_list_field(&self, field: FieldId) -> bool
        ensures { result ≡ is_list (form_of (setting_in self.now).schema (known_field field.number)) }
    {
        match shape_level(self.schema().field_shape(field)) {
            ShapeLevel::Named { .. } => false,
            ShapeLevel::ListOf { .. } => true,
        }
    }

    /// Whether the values of a node are lists.
    #[tactic(auto, unfolding(crate::specs::Tables::row_of))]
    pub fn is_list(&self, row: &NodeRow) -> bool
        ensures { result ≡ is_list (row_in self.now row.now).selected.form }
    {
        match row.field {
            Some(field) => self.is_list_field(field),
            None => false,
        }
    }

    /// The weight of a node's field, in millionths.
    #[tactic(auto, unfolding(crate::specs::Tables::row_of))]
    pub fn field_weight(&self, row: &NodeRow) -> u64
        ensures { result ≡ (row_in self.now row.now).selected.weight }
    {
        match row.field {
            Some(field) => self.weights().field_weight(field),
            None => 0,
        }
    }

    fn below_field(&self, field: FieldId) -> Below<'a>
        ensures { (T : ℕ) → below_seen (setting_in self.now) T result ≡ below_at (setting_in self.now) (place_of (setting_in self.now) T (known_field field.number)) }
    {
        let of = innermost(self.schema().field_shape(field));
        if self.schema().kind(of).is_output_only() {
            Below::Objects(self.schema().possible(of))
        } else {
            Below::Leaf(of)
        }
    }

    /// What stands below a node.
    #[tactic(auto, unfolding(crate::specs::Tables::row_of))]
    pub fn below(&self, row: &NodeRow) -> Below<'a>
        ensures { below_seen (setting_in self.now) row.now.on.number result ≡ (row_in self.now row.now).below }
    {
        match row.field {
            Some(field) => self.below_field(field),
            None => Below::TypeName,
        }
    }
}
