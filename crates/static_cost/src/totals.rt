//! The bound of a plan, by one pass over the rows of its table from the last to the first.

ghost use Rattle.std.specs.Prelude.{◌≡◌, ◌+◌, [], map, IfOk, IfErr, Ok};
ghost use Rattle.cost_num.specs.Capped.{capped};
ghost use Rattle.cost_num.specs.declared.Cost.{Cost as CostType};
ghost use Rattle.response_model.specs.Plan.{Plan as PlanTree};
ghost use Rattle.response_model.specs.Cost.{types, value_cost, entry_cost};
ghost use Rattle.response_model.specs.Bound.{greatest_in};
ghost use Rattle.schema_model.specs.Numbers.{type_number};
ghost use Rattle.plan_model.specs.Plans.{type_weight};
ghost use Rattle.plan_table.specs.Tables.{row_in, setting_in, weighed, table_rows};
ghost use Rattle.plan_table.specs.Totals.{Totals, type_total, greatest_alone, greatest_below, totals_in_front, totals, greatest_in_rows};
ghost use Rattle.response_model.specs.Components.{part_of};
ghost use Rattle.plan_table.specs.TableBounds.{HoldsSound, IsBoundIn};
ghost use Rattle.static_cost.specs.CostBound.{IsWithin};
ghost use Rattle.static_cost.specs.TableBound.{IsTableBound, NamesExceedingOf};
ghost use Rattle.static_cost.specs.ByDepth.{HoldsTotals};

use crate::too_costly::TooCostly;
use cost_num::{CAP, Cost, times_capped};
use input_values::TypeId;
use plan_table::{Below, NodeRow, Plan};
use response_model::Part;

/// How many places there are by depth: those of the levels of nodes, one deeper, and one that is never used.
pub(crate) const PLACES: usize = 52;

/// Costs by depth, each at most `CAP + 1`.
#[derive(Drop)]
pub(crate) struct ByDepth {
    /// The sum over the nodes of the type that the pass is in.
    pub(crate) sums: [u64; PLACES],
    /// The greatest cost of the types behind it at the same position.
    pub(crate) greatest: [u64; PLACES],
}

/// The sum of two costs, or `CAP + 1` where that exceeds `CAP`.
fn sum_capped(a: u64, b: u64) -> u64
    ensures { result ≡ capped (a + b) }
{
    a.saturating_add(b).min(CAP + 1)
}

/// What a value of a type of this weight adds to the part.
pub fn value_cost(part: Part, weight: u64) -> u64
    ensures { result ≡ value_cost (part_of part) weight }
{
    match part {
        Part::Types => weight,
        Part::Fields => 0,
    }
}

/// What an entry adds to the part, or `CAP + 1` where that exceeds `CAP`.
pub fn entry_cost(of: &Plan, part: Part, row: &NodeRow) -> u64
    ensures { result ≡ capped (entry_cost (part_of part) (row_in of.now row.now).selected) }
{
    match part {
        Part::Types => 0,
        Part::Fields => sum_capped(of.field_weight(row), row.arguments),
    }
}

/// The greatest weight of some types.
fn greatest_weight(of: &Plan, possible: &[TypeId]) -> u64
    ensures { result ≡ greatest_alone types (map (weighed (setting_in of.now)) (map type_number possible.now)) }
{
    let mut greatest = 0;
    for on in possible {
        greatest = of.weights().type_weight(*on).max(greatest);
    }
    greatest
}

/// What an object of one of these types costs at most where it has no entries.
pub(crate) fn greatest_alone(of: &Plan, part: Part, possible: &[TypeId]) -> u64
    ensures { result ≡ greatest_alone (part_of part) (map (weighed (setting_in of.now)) (map type_number possible.now)) }
{
    match part {
        Part::Types => greatest_weight(of, possible),
        Part::Fields => 0,
    }
}

/// What a value below a node costs at most, where the types that have nodes there cost `greatest` at most.
fn greatest_below(of: &Plan, part: Part, row: &NodeRow, greatest: u64) -> u64
    ensures { result ≡ greatest_below (part_of part) (row_in of.now row.now).below greatest }
{
    match of.below(row) {
        Below::TypeName => 0,
        Below::Leaf(leaf) => value_cost(part, of.weights().type_weight(leaf)),
        Below::Objects(possible) => greatest_alone(of, part, possible).max(greatest),
    }
}

/// What the values of an entry cost at most, where each costs at most `each`, or `CAP + 1` where that exceeds `CAP`.
pub fn values_cost(of: &Plan, row: &NodeRow, each: u64) -> u64
    ensures { result ≡ capped (greatest_in (row_in of.now row.now).selected.form (row_in of.now row.now).selected.size each) }
{
    if !of.is_list(row) {
        return each.min(CAP + 1);
    }
    match row.size {
        None => 0,
        Some(size) => times_capped(each.min(CAP + 1), size),
    }
}

impl ByDepth {
    pub(crate) fn new() -> ByDepth
        ensures { HoldsTotals (totals types []) result }
    {
        ByDepth {
            sums: [0; PLACES],
            greatest: [0; PLACES],
        }
    }

    /// Takes a row in front of those that were taken, and gives what objects of its type cost at most with its node and
    /// those behind it.
    pub(crate) fn take(&mut self, of: &Plan, part: Part, row: &NodeRow) -> u64
        ensures taken { (t : Totals) → HoldsTotals t self.old → HoldsTotals (totals_in_front (part_of part) (row_in of.now row.now) t) self.new }
        ensures cost { (t : Totals) → HoldsTotals t self.old → result ≡ capped (type_total (part_of part) (row_in of.now row.now) t) }
    {
        let at = row.depth as usize;
        let each = greatest_below(of, part, row, self.greatest[at + 1]);
        let own = sum_capped(entry_cost(of, part, row), values_cost(of, row, each));
        let total = sum_capped(own, self.sums[at]);
        let weight = value_cost(part, of.weights().type_weight(row.on));
        let cost = sum_capped(weight, total);
        self.greatest[at + 1] = 0;
        if row.first {
            self.greatest[at] = self.greatest[at].max(cost);
            self.sums[at] = 0;
        } else {
            self.sums[at] = total;
        }
        cost
    }
}

/// What a response to the plan costs at most in one part.
fn greatest_cost(of: &Plan, part: Part) -> u64
    ensures { result ≡ capped (greatest_in_rows (part_of part) (type_weight (setting_in of.now) of.now.root.number) (table_rows of.now)) }
{
    let rows = of.node_rows();
    let mut by_depth = ByDepth::new();
    for at in (0..rows.len()).rev() {
        let _ = by_depth.take(of, part, &rows[at]);
    }
    let alone = value_cost(part, of.weights().type_weight(of.root()));
    by_depth.greatest[1].max(alone).min(CAP + 1)
}

/// The bound of a plan: in each component the greatest cost that a response can have whose lists keep their declared sizes.
/// Takes no memory, and one pass over the plan for each component.
///
/// Costs follow the IBM GraphQL Cost Directives Specification, in millionths. The root counts as one object.
///
/// # Errors
///
/// `TooCostly` where some response costs more than `CAP` in a component. It names each such component.
pub fn bound(of: &Plan) -> Result<Cost, TooCostly>
    ensures bound { IfOk result (IsTableBound of.now) }
    ensures within_cap { IfOk result IsWithin }
    ensures found { (tree : PlanTree) → HoldsSound of.now tree → (bound : CostType) → IsBoundIn of.now tree bound → IsWithin bound → result ≡ Ok bound }
    ensures too_costly { IfErr result (NamesExceedingOf of.now) }
{
    let types = greatest_cost(of, Part::Types);
    let fields = greatest_cost(of, Part::Fields);
    if types > CAP || fields > CAP {
        return Err(TooCostly {
            types: types > CAP,
            fields: fields > CAP,
        });
    }
    Ok(Cost { types, fields })
}
