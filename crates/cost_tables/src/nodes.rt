//! The lines of nodes.

ghost use Rattle.std.specs.Prelude.{◌≡◌, ◌++◌, ◌∷◌, [], IfOk, OnOk, take};
ghost use Rattle.aligned_lines.specs.Aligned.{cells_of, lines_seen};
ghost use Rattle.cost_tables.specs.Cells.{at_root, node_cells};
ghost use Rattle.cost_tables.specs.Tables.{share_at, nodes_cells, shown_cells};

use crate::SHOWN;
use crate::above::{Above, above_of, at_root, go_behind, path_of};
use crate::cells::{amount_cell, counts_cell, size_cell};
use crate::lines::{Cells, line_of};
use aligned_lines::{Cell, Line};
use cost_shares::Share;
use plan_table::{NodeRow, Plan};
use std::alloc::{AllocError, Global};

/// The share of the node at this place.
fn share_at(shares: &[Share], at: usize) -> Share
    ensures { result ≡ share_at at shares.now }
{
    match shares.get(at) {
        Some(share) => *share,
        None => Share {
            times: 0,
            values: 0,
            adds: 0,
        },
    }
}

/// The line of a node, where these stand above it.
fn node_line(
    alloc: Global,
    of: &Plan,
    stack: &[Above],
    row: &NodeRow,
    types: Share,
    fields: Share,
) -> Result<Line, AllocError>
    ensures { IfOk result (λ line. cells_of line ≡ node_cells of.now stack.now row.now types fields) }
{
    let (_, above) = above_of(stack, row);
    let schema = of.schema();
    line_of(
        alloc,
        Cells {
            node: Cell::new(path_of(alloc, stack, row)?.into_bytes()),
            on: Cell::copy_of(alloc, schema.type_name(row.on).as_bytes())?,
            times: counts_cell(alloc, types.times, fields.times)?,
            size: size_cell(alloc, above, schema, row.field, row.source)?,
            weight: amount_cell(alloc, of.field_weight(row))?,
            arguments: amount_cell(alloc, row.arguments)?,
            types: amount_cell(alloc, types.adds)?,
            fields: amount_cell(alloc, fields.adds)?,
        },
    )
}

/// Adds the lines of nodes in depth-first order, up to so many.
pub fn push_nodes(
    alloc: Global,
    of: &Plan,
    types: &[Share],
    fields: &[Share],
    lines: &mut Vec<Line>,
) -> Result<(), AllocError>
    ensures { OnOk result (lines_seen lines.new.items ≡ lines_seen lines.old.items ++ shown_cells of.now types.now fields.now) }
{
    let rows = of.node_rows();
    let shown = &rows[..SHOWN.min(rows.len())];
    let mut stack = Vec::new(alloc);
    stack.push(at_root(alloc)?)?;
    for at in 0..shown.len() {
        let row = &shown[at];
        let line = node_line(
            alloc,
            of,
            &stack,
            row,
            share_at(types, at),
            share_at(fields, at),
        )?;
        lines.push(line)?;
        go_behind(alloc, row, &mut stack)?;
    }
    Ok(())
}
