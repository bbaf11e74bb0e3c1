//! The types that the objects of the filled response have.

ghost use Rattle.std.specs.Prelude.{◌≡◌, ◌∷◌, [], List, map, IfOk};
ghost use Rattle.schema_model.specs.Numbers.{type_number};
ghost use Rattle.plan_table.specs.Rows.{Row};
ghost use Rattle.plan_table.specs.Tables.{row_in, setting_in, weighed, table_rows};
ghost use Rattle.response_model.specs.Components.{part_of};
ghost use Rattle.static_cost.specs.Choices.{attains_most, first_attaining, chosen, choice_at, choices};
ghost use Rattle.static_cost.specs.Picking.{HoldsPicks};

use crate::totals::{ByDepth, PLACES, greatest_alone, value_cost};
use cost_num::CAP;
use input_values::TypeId;
use plan_table::{Below, NodeRow, Plan};
use response_model::Part;
use std::alloc::{AllocError, Global};

/// Costs by depth, and the first of the types that attain the greatest.
#[derive(Drop)]
pub(crate) struct Picks {
    pub(crate) costs: ByDepth,
    pub(crate) types: [usize; PLACES],
}

fn attains_most(most: u64, greatest: u64, pick: usize, cost: u64, number: usize) -> bool
    ensures { result ≡ attains_most most greatest pick cost number }
{
    most <= cost || (most <= greatest && number == pick)
}

/// The first of some types whose objects cost `most`: by themselves, or since they were picked.
fn first_attaining(
    of: &Plan,
    part: Part,
    most: u64,
    greatest: u64,
    pick: usize,
    possible: &[TypeId],
) -> usize
    ensures { result ≡ first_attaining (part_of part) most greatest pick (map (weighed (setting_in of.now)) (map type_number possible.now)) }
{
    for on in possible {
        let cost = value_cost(part, of.weights().type_weight(*on));
        if attains_most(most, greatest, pick, cost, on.number) {
            return on.number;
        }
    }
    0
}

/// The type of the objects below a node.
fn chosen(of: &Plan, part: Part, row: &NodeRow, greatest: u64, pick: usize) -> usize
    ensures { result ≡ chosen (part_of part) (row_in of.now row.now).below greatest pick }
{
    match of.below(row) {
        Below::TypeName | Below::Leaf(_) => 0,
        Below::Objects(possible) => {
            let most = greatest_alone(of, part, possible)
                .max(greatest)
                .min(CAP + 1);
            first_attaining(of, part, most, greatest, pick, possible)
        }
    }
}

impl Picks {
    fn new(part: Part) -> Picks
        ensures { HoldsPicks (part_of part) [] result }
    {
        let _ = part;
        Picks {
            costs: ByDepth::new(),
            types: [0; PLACES],
        }
    }

    /// Takes a row in front of those that were taken, and gives the type of the objects below it.
    fn take(&mut self, of: &Plan, part: Part, row: &NodeRow) -> usize
        ensures taken { (rows : List Row) → HoldsPicks (part_of part) rows self.old → HoldsPicks (part_of part) (row_in of.now row.now ∷ rows) self.new }
        ensures chosen { (rows : List Row) → HoldsPicks (part_of part) rows self.old → result ≡ choice_at (part_of part) (row_in of.now row.now) rows }
    {
        let at = row.depth as usize;
        let found = chosen(
            of,
            part,
            row,
            self.costs.greatest[at + 1],
            self.types[at + 1],
        );
        let before = self.costs.greatest[at];
        let cost = self.costs.take(of, part, row);
        if row.first && before <= cost {
            self.types[at] = row.on.number;
        }
        found
    }
}

/// The type of the objects that the filled response has below each node, in the order of the rows; it means nothing at leaves,
/// and below lists without items.
///
/// # Errors
///
/// `AllocError` where there was not enough memory.
pub fn chosen_types(alloc: Global, of: &Plan, part: Part) -> Result<Vec<usize>, AllocError>
    ensures { IfOk result (λ found. found.items ≡ choices (part_of part) (table_rows of.now)) }
{
    let rows = of.node_rows();
    let mut picks = Picks::new(part);
    let mut found = Vec::new(alloc);
    for at in (0..rows.len()).rev() {
        found.push(picks.take(of, part, &rows[at]))?;
    }
    found.reverse();
    Ok(found)
}
