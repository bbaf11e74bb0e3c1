//! The forms of the values of fields.

ghost use Rattle.std.specs.Prelude.{◌≡◌};
ghost use Rattle.input_values.specs.inputs.Shapes.{is_nullable, shape_tree};
ghost use Rattle.schema_model.specs.SchemaData.{field_at};
ghost use Rattle.schema_model.specs.SchemaViews.{schema_data};
ghost use Rattle.plan_model.specs.SelectedFields.{form_of_shape};
ghost use Rattle.plan_table.specs.Tables.{row_in};
ghost use Rattle.response_meter.specs.Walks.{form_seen};

use input_values::{Shape, ShapeLevel, shape_level};
use plan_table::{NodeRow, Plan};
use schema_model::{FieldId, Schema};

/// One value, or a list of values, and where null may stand.
#[derive(Clone, Copy)]
pub(crate) enum ValueForm {
    Single { nullable: bool },
    Listed { nullable: bool, item_nullable: bool },
}

fn is_nullable(shape: &Shape) -> bool
    ensures { result ≡ is_nullable (shape_tree shape.now) }
{
    match shape_level(shape) {
        ShapeLevel::Named { nullable, .. } => nullable,
        ShapeLevel::ListOf { nullable, .. } => nullable,
    }
}

fn form_of_field(schema: &Schema, field: FieldId) -> ValueForm
    ensures { form_seen result ≡ form_of_shape (field_at (schema_data schema.now) field.number).shape }
{
    match shape_level(schema.field_shape(field)) {
        ShapeLevel::Named { nullable, .. } => ValueForm::Single { nullable },
        ShapeLevel::ListOf { item, nullable } => ValueForm::Listed {
            nullable,
            item_nullable: is_nullable(item),
        },
    }
}

/// The form of the values of a node. The name of a type is never null.
#[tactic(auto, unfolding(plan_table::specs::Tables::row_of))]
pub(crate) fn form_of(of: &Plan, row: &NodeRow) -> ValueForm
    ensures { form_seen result ≡ (row_in of.now row.now).selected.form }
{
    match row.field {
        Some(field) => form_of_field(of.schema(), field),
        None => ValueForm::Single { nullable: false },
    }
}
