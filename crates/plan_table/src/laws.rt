//! What holds of every plan and its rows.

ghost use Rattle.std.specs.Prelude.{◌≡◌, ℕ, Bool, length};
ghost use Rattle.serde_json.specs.Data.{Data};
ghost use Rattle.response_model.specs.Plan.{Plan as PlanTree};
ghost use Rattle.response_model.specs.Cost.{Part};
ghost use Rattle.response_model.specs.Bound.{IsSound, greatest_cost};
ghost use Rattle.plan_model.specs.Plans.{node_count, type_weight};
ghost use Rattle.plan_table.specs.declared.table.Plan.{Plan};
ghost use Rattle.plan_table.specs.Tables.{HasRows, table_rows, setting_in};
ghost use Rattle.plan_table.specs.Totals.{greatest_in_rows};

/// A table has as many rows as the tree that it holds has nodes.
pub fn rows_are_counted()
    ensures { (p : Plan) (tree : PlanTree) → HasRows p tree → length (table_rows p) ≡ node_count tree }
{}

/// One pass over the rows of a tree gives its greatest cost.
pub fn rows_have_greatest_costs()
    ensures { (p : Plan) (part : Part) (tree : PlanTree) → HasRows p tree → greatest_in_rows part (type_weight (setting_in p) p.root.number) (table_rows p) ≡ greatest_cost part tree }
{}

/// There is one sound tree that a table holds.
pub fn one_tree()
    ensures { (holds : ℕ → Data → Bool) (p : Plan) (a b : PlanTree) → HasRows p a → HasRows p b → IsSound holds a → IsSound holds b → a ≡ b }
{}
