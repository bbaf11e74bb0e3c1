//! The table of an operation.

ghost use Rattle.std.specs.Prelude.{◌≡◌, ◌++◌, ◌+◌, ◌≤◌, IfOk, OnOk, drop};
ghost use Rattle.cost_num.specs.Capped.{capped};
ghost use Rattle.response_model.specs.Cost.{Part as PartOfCost};
ghost use Rattle.plan_table.specs.TableBounds.{IsWithinCap};
ghost use Rattle.aligned_lines.specs.Aligned.{cells_of, lines_seen, aligned};
ghost use Rattle.cost_tables.specs.Tables.{added, root_cells, other_cells, table_cells, left_columns, IsTable};

use crate::SHOWN;
use crate::lines::{headings, plain_line};
use crate::nodes::push_nodes;
use aligned_lines::{Line, aligned};
use cost_num::{CAP, Cost, add_capped};
use cost_shares::{Share, root_share, shares};
use plan_table::Plan;
use response_model::Part;
use std::alloc::{AllocError, Global};

/// Which columns stand at the left: paths, types and sizes.
const LEFT: [bool; 4] = [true, true, false, true];

/// What these shares add.
fn added(shares: &[Share]) -> u64
    ensures sum { result ≡ added shares.now }
    ensures within { result ≤ CAP + 1 }
{
    let mut sum = 0;
    for share in shares {
        sum = add_capped(sum, share.adds.min(CAP + 1));
    }
    sum
}

/// The shares of the nodes that aren't shown.
fn others(shares: &[Share]) -> &[Share]
    ensures { result.now ≡ drop SHOWN shares.now }
{
    &shares[SHOWN.min(shares.len())..]
}

/// The line of the root.
fn root_line(alloc: Global, of: &Plan) -> Result<Line, AllocError>
    ensures { IfOk result (λ line. cells_of line ≡ root_cells of.now) }
{
    let adds = Cost {
        types: root_share(of, Part::Types),
        fields: root_share(of, Part::Fields),
    };
    let on = of.schema().type_name(of.root());
    plain_line(alloc, "data", on.as_str(), "1", adds)
}

/// Adds a line for the nodes that aren't shown, where there are some.
fn push_others(
    alloc: Global,
    more: usize,
    adds: Cost,
    lines: &mut Vec<Line>,
) -> Result<(), AllocError>
    ensures { OnOk result (lines_seen lines.new.items ≡ lines_seen lines.old.items ++ other_cells more adds.types adds.fields) }
{
    if more == 0 {
        return Ok(());
    }
    let name = format!(in alloc; "{more} more")?;
    lines.push(plain_line(alloc, name.as_str(), "", "", adds)?)?;
    Ok(())
}

/// The lines of the table.
fn table_lines(
    alloc: Global,
    of: &Plan,
    price: Cost,
    types: &[Share],
    fields: &[Share],
) -> Result<Vec<Line>, AllocError>
    ensures { IfOk result (λ lines. lines_seen lines.items ≡ table_cells of.now price types.now fields.now) }
{
    let mut lines = Vec::new(alloc);
    lines.push(headings(alloc)?)?;
    lines.push(root_line(alloc, of)?)?;
    push_nodes(alloc, of, types, fields, &mut lines)?;
    let adds = Cost {
        types: added(others(types)),
        fields: added(others(fields)),
    };
    push_others(alloc, of.nodes().saturating_sub(SHOWN), adds, &mut lines)?;
    lines.push(plain_line(alloc, "price", "", "", price)?)?;
    Ok(lines)
}

/// The table of an operation that has this price, as text. Behind the columns' headings and the root it has a line for each node, in depth-first
/// order, up to `SHOWN`; the others are counted and added up in one line, and the price stands below. A node's line has its path and
/// the object type; how often it stands in the response that costs most, for each part of the cost where they differ; where
/// its size comes from; what its field and its arguments cost; and what it adds to the types and to the fields.
///
/// The price is the bound of the plan, in both parts within the cap.
///
/// # Errors
///
/// `AllocError` where there was not enough memory.
pub fn price_table(alloc: Global, of: &Plan, price: Cost) -> Result<Vec<u8>, AllocError>
    requires { (part : PartOfCost) → IsWithinCap of.now part }
    ensures { IfOk result (λ text. IsTable of.now price text.items) }
{
    let types = shares(alloc, of, Part::Types)?;
    let fields = shares(alloc, of, Part::Fields)?;
    let lines = table_lines(alloc, of, price, &types, &fields)?;
    aligned(alloc, &LEFT, &lines)
}
