//! What holds of every plan and every response.

ghost use Rattle.std.specs.Prelude.{◌≡◌, ◌+◌, ℕ, Bool, map};
ghost use Rattle.serde_json.specs.Data.{Data};
ghost use Rattle.response_model.specs.Plan.{Plan};
ghost use Rattle.response_model.specs.Response.{Tree};
ghost use Rattle.response_model.specs.Cost.{Part, cost};
ghost use Rattle.response_model.specs.Bound.{IsSound, greatest_cost};
ghost use Rattle.response_model.specs.Filled.{filled};
ghost use Rattle.plan_table.specs.Rows.{rows_below};
ghost use Rattle.cost_shares.specs.RowOrder.{nodes_told, row_told};
ghost use Rattle.cost_shares.specs.Shares.{single_values, values_add, shares_in, sum_of_shares};

/// What the value at the root adds and what the nodes add make up the cost of any response.
pub fn shares_add_up()
    ensures { (holds : ℕ → Data → Bool) (part : Part) (plan : Plan) (t : Tree) → IsSound holds plan → cost part plan t ≡ values_add part plan (single_values t) + sum_of_shares (shares_in part plan t) }
{}

/// What is told of each node stands in the order of the rows: the same nodes, with the same below them.
pub fn shares_are_of_rows()
    ensures { (depth : ℕ) (plan : Plan) (t : Tree) → nodes_told plan t ≡ map row_told (rows_below depth plan) }
{}

/// Those of the filled response make up the greatest cost.
pub fn filled_shares_add_up()
    ensures { (holds : ℕ → Data → Bool) (part : Part) (plan : Plan) → IsSound holds plan → greatest_cost part plan ≡ values_add part plan (single_values (filled part plan)) + sum_of_shares (shares_in part plan (filled part plan)) }
{}
