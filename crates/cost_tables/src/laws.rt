//! What holds of every table.

ghost use Rattle.std.specs.Prelude.{◌≡◌, List, map};
ghost use Rattle.std.specs.List.{sum};
ghost use Rattle.cost_num.specs.declared.Cost.{Cost};
ghost use Rattle.response_model.specs.Cost.{Part, types, fields};
ghost use Rattle.plan_table.specs.declared.table.Plan.{Plan};
ghost use Rattle.static_cost.specs.CostBound.{component};
ghost use Rattle.cost_shares.specs.declared.share.Share.{Share};
ghost use Rattle.cost_tables.specs.Cells.{told_amount};
ghost use Rattle.cost_tables.specs.Tables.{AreSharesOf, IsPriceOf, column, inner_cells, cells_in};

/// The lines between the headings and the price show what they add to the types and to the fields in their last two cells.
pub fn columns_are_shown()
    ensures of_types { (p : Plan) (ts fs : List Share) → AreSharesOf p types ts → cells_in 6 (inner_cells p ts fs) ≡ map told_amount (column p types ts) }
    ensures of_fields { (p : Plan) (ts fs : List Share) → AreSharesOf p fields fs → cells_in 7 (inner_cells p ts fs) ≡ map told_amount (column p fields fs) }
{}

/// Where the price is the bound of the plan, each of these columns adds up to it.
pub fn columns_add_up()
    ensures { (p : Plan) (part : Part) (shares : List Share) (price : Cost) → AreSharesOf p part shares → IsPriceOf p price → sum (column p part shares) ≡ component part price }
{}
