//! What each node of a plan adds, by one pass over the rows of its table from the first to the last.

ghost use Rattle.std.specs.Prelude.{◌≡◌, ◌≤◌, ◌+◌, ◌*◌, IfOk, map, length, get_or, cond, eqb};
ghost use Rattle.cost_num.specs.Capped.{capped};
ghost use Rattle.schema_model.specs.Numbers.{type_number};
ghost use Rattle.response_model.specs.Components.{part_of};
ghost use Rattle.response_model.specs.Cost.{value_cost};
ghost use Rattle.plan_table.specs.Tables.{row_in, setting_in, weighed, table_rows};
ghost use Rattle.plan_table.specs.TableBounds.{IsWithinCap};
ghost use Rattle.cost_shares.specs.Passing.{Standing, at_root, times_of, weight_among, weight_below, row_share, standing_behind, row_shares};
ghost use Rattle.cost_shares.specs.Holding.{HoldsStanding, capped_share};
ghost use Rattle.cost_shares.specs.TableShares.{share_seen, shares_seen, AreShares, root_adds, MakeBound};

use crate::share::Share;
use cost_num::{CAP, add_capped, times_capped};
use input_values::TypeId;
use plan_table::{Below, NodeRow, Plan};
use response_model::Part;
use static_cost::{chosen_types, entry_cost, value_cost, values_cost};
use std::alloc::{AllocError, Global};

/// How many places there are by depth: those of the levels of nodes, one deeper, and one that is never used.
const PLACES: usize = 52;

/// By depth, how many objects stand there in the filled response, up to `CAP + 1`, and of which type.
#[derive(Drop)]
struct ObjectsByDepth {
    counts: [u64; PLACES],
    types: [usize; PLACES],
}

/// The weight of the type of this number among some.
fn weight_among(of: &Plan, number: usize, possible: &[TypeId]) -> u64
    ensures { result ≡ weight_among number (map (weighed (setting_in of.now)) (map type_number possible.now)) }
{
    for on in possible {
        if on.number == number {
            return of.weights().type_weight(*on);
        }
    }
    0
}

/// The weight of each value below a row, where objects there have the type of this number.
fn weight_below(of: &Plan, row: &NodeRow, number: usize) -> u64
    ensures { result ≡ weight_below number (row_in of.now row.now).below }
{
    match of.below(row) {
        Below::TypeName => 0,
        Below::Leaf(leaf) => of.weights().type_weight(leaf),
        Below::Objects(possible) => weight_among(of, number, possible),
    }
}

/// What each value below a row adds to the part, where objects there have the type of this number.
fn value_adds(of: &Plan, part: Part, row: &NodeRow, number: usize) -> u64
    ensures { result ≡ capped (value_cost (part_of part) (weight_below number (row_in of.now row.now).below)) }
{
    value_cost(part, weight_below(of, row, number)).min(CAP + 1)
}

/// What so many entries and values add.
fn added(entry: u64, times: u64, value: u64, values: u64) -> u64
    requires entry_is_capped { entry ≤ CAP + 1 }
    requires value_is_capped { value ≤ CAP + 1 }
    ensures { result ≡ capped (times * entry + values * value) }
{
    add_capped(times_capped(entry, times), times_capped(value, values))
}

impl ObjectsByDepth {
    /// One object of the root's type.
    fn new(root: TypeId) -> ObjectsByDepth
        ensures { HoldsStanding (at_root root.number) result }
    {
        let mut counts = [0; PLACES];
        let mut types = [0; PLACES];
        counts[1] = 1;
        types[1] = root.number;
        ObjectsByDepth { counts, types }
    }

    /// How many entries the node of a row has.
    fn times(&self, row: &NodeRow) -> u64
        ensures { result ≡ cond (eqb row.now.on.number (get_or self.now.types row.now.depth 0)) (get_or self.now.counts row.now.depth 0) 0 }
    {
        let at = row.depth as usize;
        if row.on.number == self.types[at] {
            self.counts[at]
        } else {
            0
        }
    }

    /// Takes the next row, below whose node objects have the type of this number, and gives what the node adds.
    fn take(&mut self, of: &Plan, part: Part, row: &NodeRow, number: usize) -> Share
        ensures share { (t : Standing) → HoldsStanding t self.old → share_seen result ≡ capped_share (row_share (part_of part) t (row_in of.now row.now) number) }
        ensures behind { (t : Standing) → HoldsStanding t self.old → HoldsStanding (standing_behind t (row_in of.now row.now) number) self.new }
    {
        let times = self.times(row);
        let values = values_cost(of, row, times);
        let entry = entry_cost(of, part, row);
        let value = value_adds(of, part, row, number);
        let below = row.depth as usize + 1;
        self.counts[below] = values;
        self.types[below] = number;
        Share {
            times,
            values,
            adds: added(entry, times, value, values),
        }
    }
}

/// The type of this place among those that were chosen.
fn chosen_at(chosen: &[usize], at: usize) -> usize
    ensures { result ≡ get_or chosen.now at 0 }
{
    match chosen.get(at) {
        Some(number) => *number,
        None => 0,
    }
}

/// What each node adds, where the types of objects below the nodes were chosen.
fn pass(alloc: Global, of: &Plan, part: Part, chosen: &[usize]) -> Result<Vec<Share>, AllocError>
    ensures { IfOk result (λ found. shares_seen found.items ≡ map capped_share (row_shares (part_of part) (at_root of.now.root.number) (table_rows of.now) chosen.now)) }
{
    let rows = of.node_rows();
    let mut objects = ObjectsByDepth::new(of.root());
    let mut found = Vec::new(alloc);
    for at in 0..rows.len() {
        found.push(objects.take(of, part, &rows[at], chosen_at(chosen, at)))?;
    }
    Ok(found)
}

/// What the object at the root adds to a part of the cost, in millionths.
pub fn root_share(of: &Plan, part: Part) -> u64
    ensures { result ≡ root_adds of.now (part_of part) }
{
    value_cost(part, of.weights().type_weight(of.root()))
}

/// What each node of the plan adds to a part of the bound: a share for each row of the table, in the same order. They are those
/// of the response that costs as much as the bound in this part, as `static_cost::worst` fills it, however large that is. With what
/// the root adds, their sum is the bound.
///
/// The bound must not name this part as too costly.
///
/// # Errors
///
/// `AllocError` where there was not enough memory.
pub fn shares(alloc: Global, of: &Plan, part: Part) -> Result<Vec<Share>, AllocError>
    requires { IsWithinCap of.now (part_of part) }
    ensures nodes { IfOk result (λ found. AreShares of.now (part_of part) found.items) }
    ensures rows { IfOk result (λ found. length found.items ≡ length (table_rows of.now)) }
    ensures sum { IfOk result (λ found. MakeBound of.now (part_of part) found.items) }
{
    let chosen = chosen_types(alloc, of, part)?;
    pass(alloc, of, part, &chosen)
}
