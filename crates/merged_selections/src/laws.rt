//! What a caller concludes of a plan that was built.

ghost use Rattle.std.specs.Prelude.{◌≡◌, ◌≤◌, length};
ghost use Rattle.schema_model.specs.declared.schema.Schema.{Schema};
ghost use Rattle.cost_directives.specs.declared.weights.Weights.{Weights};
ghost use Rattle.variable_coercion.specs.declared.variables.Variables.{Variables};
ghost use Rattle.document_rules.specs.declared.checking.Checked.{Checked};
ghost use Rattle.plan_model.specs.Plans.{node_count};
ghost use Rattle.plan_model.specs.Visits.{planned_well};
ghost use Rattle.plan_model.specs.Operations.{IsOperationPlan};
ghost use Rattle.plan_table.specs.declared.table.Plan.{Plan};
ghost use Rattle.plan_table.specs.Tables.{table_rows};
ghost use Rattle.merged_selections.specs.Building.{setting_for, answer_for, planned_for, IsPlanned, IsPlannedSoundly};

use crate::NODE_LIMIT;

/// Where an operation is planned well, what is planned is its plan, and it is sound where the weights are those of the schema,
/// whose leaves can be filled. A table that holds it has one row for each node, and no more than the limit.
pub fn what_is_built_is_the_plan()
    ensures plan { (s : Schema) (w : Weights) (c : Checked) (v : Variables) → answer_for s w c v ≡ planned_well → IsOperationPlan (setting_for s w c v) c.root.number c.operation.now (planned_for s w c v) }
    ensures sound { (s : Schema) (w : Weights) (c : Checked) (v : Variables) → answer_for s w c v ≡ planned_well → IsPlannedSoundly s w c v }
    ensures rows { (s : Schema) (w : Weights) (c : Checked) (v : Variables) (plan : Plan) → IsPlanned s w c v plan → length (table_rows plan) ≡ node_count (planned_for s w c v) }
    ensures within { (s : Schema) (w : Weights) (c : Checked) (v : Variables) (plan : Plan) → answer_for s w c v ≡ planned_well → IsPlanned s w c v plan → length (table_rows plan) ≤ NODE_LIMIT }
{}
